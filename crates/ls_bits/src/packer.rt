//! Packing bits into stuffed bytes, after the bytes that a room already holds (T.87 C.1).
ghost use Rattle.std.specs.Prelude.{◌≡◌, ◌+◌, ◌-◌, ◌*◌, ◌%◌, ◌^◌, ◌<◌, ◌≤◌, [], ◌∷◌, ◌++◌, true, false, length, OnOk};
ghost use Rattle.ls_bits.specs.Bits.{bits_of, zeros as zero_bits};
ghost use Rattle.ls_bits.specs.Stuffing.{stuff};
ghost use Rattle.ls_bits.specs.Golomb.{IsGolomb, code_word, most_value};
ghost use Rattle.ls_bits.specs.View.Packing.{byte_bits, HasRoom, KeepsRest, HasNoFf};

use crate::room::Room;
use std::alloc::AllocError;
use std::marker::Model;
use std::mem;

/// Bytes enough for the bits held, at most 63, and those of one put, at most 64, at seven bits a byte.
const MOST_BYTES: usize = 20;

/// Stuffed bytes, and up to 63 bits after them that aren't stuffed yet.
#[derive(Drop)]
pub struct Packer<R: Room> {
    /// The room that the bytes are put into.
    bytes: R,
    /// The place in it where the stuffed bytes begin.
    start: usize,
    /// Its lowest `held` bits, at most 63, come after the stuffed bytes. The bits above them mean nothing.
    word: u64,
    held: u32,
    /// Whether the last stuffed byte is FF.
    after_ff: bool,
}

impl<R: Room> Model for Packer<R> {
    ghost use Rattle.std.specs.Prelude.{◌-◌, take, length};
    ghost use Rattle.ls_bits.specs.View.Packing.{Packed, packed_bits, IsPacked};

    ghost Value = { Packed R };

    ghost view = { λ p. record {
      room = p.bytes;
      front = take p.start (R.items p.bytes);
      bits = packed_bits p.start (R.items p.bytes) p.word p.held;
      held = p.held;
      capacity_left = R.capacity p.bytes - length (R.items p.bytes);
      capacity = R.capacity p.bytes;
    } };

    ghost invariant = { λ p. IsPacked p.start (R.items p.bytes) p.held p.after_ff };
}

impl Packer<Vec<u8>> {
    /// Reserves room for one put of at most 64 bits, or for `finish`. Its only error is `AllocError`; the bits are
    /// unchanged either way.
    #[inline(always)]
    pub fn reserve(&mut self) -> Result<(), AllocError>
        ensures room { OnOk result (HasRoom self.new 64) }
        ensures bits { self.new.bits ≡ self.old.bits }
        ensures front { self.new.front ≡ self.old.front }
    {
        self.bytes.reserve(MOST_BYTES)
    }
}

impl<R: Room> Packer<R> {
    /// A packer with no bits yet, which come after the bytes already in the room.
    pub fn new(bytes: R) -> Packer<R>
        ensures grown { R.Grown bytes result.room }
        ensures front { result.front ≡ R.items bytes }
        ensures bits { result.bits ≡ [] }
        ensures held { result.held ≡ 0 }
        ensures room { result.capacity_left ≡ R.capacity bytes - length (R.items bytes) }
        ensures capacity { result.capacity ≡ R.capacity bytes }
        ensures within { length (R.items bytes) ≤ R.capacity bytes }
    {
        let start = bytes.len();
        Packer {
            bytes,
            start,
            word: 0,
            held: 0,
            after_ff: false,
        }
    }

    /// Appends `value` in `count` bits, the most significant first.
    #[inline(always)]
    pub fn put(&mut self, value: u32, count: u32)
        requires room { HasRoom self.old count }
        requires count { count ≤ 64 }
        requires value { value < 2 ^ count }
        ensures bits { self.new.bits ≡ self.old.bits ++ bits_of count value }
        ensures rest { KeepsRest R.Grown self.old self.new count }
    {
        let total = self.held + count;
        if total < 64 {
            self.append(value, count);
            return;
        }
        let waiting = total - 64;
        let full = ((self.word << (63 - self.held)) << 1) | (u64::from(value) >> waiting);
        if self.after_ff || has_ff(full) {
            self.put_by_bytes(value, count);
            return;
        }
        self.bytes.put_word(full);
        self.word = u64::from(value);
        self.held = waiting;
    }

    /// Appends the code word of `v` (T.87 A.5.3).
    #[inline(always)]
    pub fn put_golomb(&mut self, k: u32, glimit: u32, qbpp: u32, v: u32)
        requires room { HasRoom self.old (length (code_word k glimit qbpp v)) }
        requires code { IsGolomb k glimit qbpp }
        requires value { v ≤ most_value qbpp }
        ensures bits { self.new.bits ≡ self.old.bits ++ code_word k glimit qbpp v }
        ensures rest { KeepsRest R.Grown self.old self.new (length (code_word k glimit qbpp v)) }
    {
        let escape = glimit - qbpp - 1;
        let small = v >> k;
        if small < escape {
            self.put_unary(small, low_bits(v, k), k);
        } else {
            self.put_escape(escape, v - 1, qbpp);
        }
    }

    /// Returns the room: the bytes that it had, followed by the stuffed bits.
    pub fn finish(mut self) -> R
        requires room { 0 < length self.bits → HasRoom self 7 }
        ensures bytes { R.items result ≡ self.front ++ stuff self.bits }
        ensures capacity { R.capacity result ≡ self.capacity }
        ensures grown { R.Grown self.room result }
    {
        self.put_out_bytes();
        if self.held > 0 || self.after_ff {
            self.bytes
                .put_byte(last_group(self.word, self.held, self.after_ff));
        }
        self.bytes
    }

    /// Appends `zeros` zeros, a one, and `rest` in `count` bits.
    #[inline(always)]
    fn put_unary(&mut self, zeros: u32, rest: u32, count: u32)
        requires room { HasRoom self.old (zeros + 1 + count) }
        requires count { count ≤ 17 }
        requires total { zeros + 1 + count ≤ 64 }
        requires rest { rest < 2 ^ count }
        ensures bits { self.new.bits ≡ self.old.bits ++ (zero_bits zeros ++ true ∷ bits_of count rest) }
        ensures rest { KeepsRest R.Grown self.old self.new (zeros + 1 + count) }
    {
        self.put(led_by_one(rest, count), zeros + 1 + count);
    }

    /// As `put_unary`, off the fast path: for escape words, which are rare.
    #[inline(always)]
    fn put_escape(&mut self, zeros: u32, rest: u32, count: u32)
        requires room { HasRoom self.old (zeros + 1 + count) }
        requires count { count ≤ 17 }
        requires total { zeros + 1 + count ≤ 64 }
        requires rest { rest < 2 ^ count }
        ensures bits { self.new.bits ≡ self.old.bits ++ (zero_bits zeros ++ true ∷ bits_of count rest) }
        ensures rest { KeepsRest R.Grown self.old self.new (zeros + 1 + count) }
    {
        self.put_by_bytes(led_by_one(rest, count), zeros + 1 + count);
    }

    /// Appends `value` in `count` bits to those held, which must stay below 64.
    #[inline(always)]
    fn append(&mut self, value: u32, count: u32)
        requires held { self.old.held + count < 64 }
        requires value { value < 2 ^ count }
        ensures bits { self.new.bits ≡ self.old.bits ++ bits_of count value }
        ensures rest { KeepsRest R.Grown self.old self.new count }
    {
        self.word = (self.word << count) | u64::from(value);
        self.held += count;
    }

    /// As `put`, one byte at a time. The packer is moved out and back, so that the caller can keep it in registers.
    #[inline(always)]
    fn put_by_bytes(&mut self, value: u32, count: u32)
        requires room { HasRoom self.old count }
        requires count { count ≤ 64 }
        requires value { value < 2 ^ count }
        ensures bits { self.new.bits ≡ self.old.bits ++ bits_of count value }
        ensures rest { KeepsRest R.Grown self.old self.new count }
    {
        let packer = self.take();
        *self = put_apart(packer, value, count);
    }

    /// Takes the packer, and leaves one over an empty room in its place.
    #[inline(always)]
    fn take(&mut self) -> Packer<R>
        ensures { result ≡ self.old }
    {
        let empty = Packer::new(self.bytes.empty());
        mem::replace(self, empty)
    }

    /// Stuffs bits into bytes until fewer than eight bits are held.
    fn put_out_bytes(&mut self)
        requires room { HasRoom self.old 0 }
        ensures bits { self.new.bits ≡ self.old.bits }
        ensures held { self.new.held < 8 }
        ensures rest { KeepsRest R.Grown self.old self.new 0 }
    {
        while self.held >= 8 {
            self.put_out_byte();
        }
    }

    /// Stuffs the first of the held bits into one byte: seven after FF, else eight.
    fn put_out_byte(&mut self)
        requires room { 0 < self.old.capacity_left }
        requires held { 8 ≤ self.old.held }
        ensures bits { self.new.bits ≡ self.old.bits }
        ensures held { self.new.held < self.old.held }
        ensures rest { KeepsRest R.Grown self.old self.new 0 }
    {
        let waiting = self.held - byte_bits(self.after_ff);
        let byte = group(self.word >> waiting, self.after_ff);
        self.bytes.put_byte(byte);
        self.held = waiting;
        self.after_ff = byte == 0xff;
    }
}

/// As `put`, one byte at a time.
#[cold]
#[inline(never)]
fn put_apart<R: Room>(mut packer: Packer<R>, value: u32, count: u32) -> Packer<R>
    requires room { HasRoom packer count }
    requires count { count ≤ 64 }
    requires value { value < 2 ^ count }
    ensures bits { result.bits ≡ packer.bits ++ bits_of count value }
    ensures rest { KeepsRest R.Grown packer result count }
{
    packer.put_out_bytes();
    if count > 32 {
        packer.append(0, count - 32);
        packer.put_out_bytes();
        packer.append(value, 32);
    } else {
        packer.append(value, count);
    }
    packer
}

/// The lowest `count` bits of `value`.
fn low_bits(value: u32, count: u32) -> u32
    requires { count < 32 }
    ensures { result ≡ value % 2 ^ count }
{
    value & ((1 << count) - 1)
}

/// The number whose bits are a one, followed by `rest` in `count` bits.
fn led_by_one(rest: u32, count: u32) -> u32
    requires count { count < 32 }
    requires rest { rest < 2 ^ count }
    ensures { result ≡ 2 ^ count + rest }
{
    (1 << count) | rest
}

/// The number of bits that the next byte holds: seven after FF, else eight.
pub fn byte_bits(after_ff: bool) -> u32
    ensures { result ≡ byte_bits after_ff }
{
    if after_ff { 7 } else { 8 }
}

/// The lowest bits of `word` that make a byte: seven after FF, else eight.
fn group(word: u64, after_ff: bool) -> u8
    ensures { result ≡ word % 2 ^ byte_bits after_ff }
{
    if after_ff {
        (word & 0x7f) as u8
    } else {
        (word & 0xff) as u8
    }
}

/// The last byte: the lowest `held` bits of `word`, at most seven, filled with zeros after them.
fn last_group(word: u64, held: u32, after_ff: bool) -> u8
    requires { held ≤ 7 }
    ensures { result ≡ (word % 2 ^ held) * 2 ^ (byte_bits after_ff - held) }
{
    let bits = word & ((1 << held) - 1);
    (bits << (byte_bits(after_ff) - held)) as u8
}

/// Whether one of the eight bytes of `word` is FF: the eight ones of such a byte leave a one at its lowest bit.
pub fn has_ff(word: u64) -> bool
    ensures { (result ≡ false) → HasNoFf word }
{
    let pairs = word & (word >> 1);
    let fours = pairs & (pairs >> 2);
    let eights = fours & (fours >> 4);
    eights & 0x0101_0101_0101_0101 != 0
}

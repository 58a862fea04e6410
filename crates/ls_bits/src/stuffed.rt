//! Un-stuffing bytes, 32 or 64 bits at a time: a word of un-stuffed bits, and the bytes that aren't in it yet.
ghost use Rattle.std.specs.Prelude.{◌≡◌, ◌+◌, ◌-◌, ◌*◌, ◌/◌, ◌%◌, ◌^◌, ◌<◌, ◌≤◌, ◌⊎◌, [], ◌∷◌, ◌++◌, true, false, replicate, length, take, min, IfSome, IfNone};
ghost use Rattle.ls_bits.specs.Bits.{bits_of};
ghost use Rattle.ls_bits.specs.Stuffing.{unstuff};
ghost use Rattle.ls_bits.specs.Data.{IsData};
ghost use Rattle.ls_bits.specs.View.Taking.{LeadingZeros};

use crate::packer::{byte_bits, has_ff};
use std::marker::Model;

/// The number of bits that `take` takes.
const ENOUGH: u32 = 32;

/// The bits that haven't been taken from stuffed bytes yet.
#[derive(Drop)]
pub struct Stuffed<'a> {
    /// Its lowest `held` bits, at most 63, come next. The bits above them mean nothing.
    word: u64,
    held: u32,
    /// Whether the byte before `rest` is FF.
    after_ff: bool,
    /// The bytes that aren't in the word yet.
    rest: &'a [u8],
}

impl<'a> Model for Stuffed<'a> {
    ghost use Rattle.ls_bits.specs.View.Packing.{BitsLeft, bits_left, IsWindow};

    ghost Value = { BitsLeft };

    ghost view = { λ w. record { bits = bits_left w.word w.held w.after_ff w.rest.now; held = w.held } };

    ghost invariant = { λ w. IsWindow w.held w.after_ff w.rest.now };
}

/// The next bits: their number, at most 32, and the bits themselves, from the top bit of `bits` down, with zeros after
/// them.
#[derive(Clone, Copy)]
pub struct FrontBits {
    pub count: u32,
    pub bits: u32,
}

impl<'a> Stuffed<'a> {
    /// All bits of stuffed bytes. Requires data, as `data_of` cuts it.
    pub fn new(bytes: &'a [u8]) -> Stuffed<'a>
        requires { IsData bytes.now }
        ensures { result.bits ≡ unstuff bytes.now }
    {
        Stuffed {
            word: 0,
            held: 0,
            after_ff: false,
            rest: bytes,
        }
    }

    /// Takes the next 64 bits. None, with nothing taken, if fewer than eight bytes are left to read, or if one of the
    /// next eight or the byte before them is FF.
    #[inline(always)]
    pub fn take_eight(&mut self) -> Option<u64>
        ensures some { IfSome result (λ bits. self.old.bits ≡ bits_of 64 bits ++ self.new.bits) }
        ensures none { IfNone result (self.new.bits ≡ self.old.bits) }
    {
        if self.after_ff {
            return None;
        }
        let [
            first,
            second,
            third,
            fourth,
            fifth,
            sixth,
            seventh,
            last,
            rest @ ..,
        ] = self.rest
        else {
            return None;
        };
        let eight = u64::from_be_bytes([
            *first, *second, *third, *fourth, *fifth, *sixth, *seventh, *last,
        ]);
        if has_ff(eight) {
            return None;
        }
        let bits = with_bits(self.word, self.held, eight);
        self.word = eight;
        self.rest = rest;
        Some(bits)
    }

    /// Takes the next 32 bits, or all that are left if there are fewer.
    pub fn take(&mut self) -> FrontBits
        ensures bits { self.old.bits ≡ take result.count (bits_of 32 result.bits) ++ self.new.bits }
        ensures most { result.count ≤ 32 }
        ensures all { (result.count ≡ 32) ⊎ (self.new.bits ≡ []) }
        ensures fits { result.bits < 2 ^ 32 }
    {
        self.refill();
        if self.held >= 32 {
            self.held -= 32;
            let bits = low_bits(self.word >> self.held, 32);
            return FrontBits { count: 32, bits };
        }
        let count = self.held;
        let bits = (low_bits(self.word, count) as u64) << (32 - count);
        self.held = 0;
        FrontBits {
            count,
            bits: bits as u32,
        }
    }

    /// The number of bits left, or 2^64 - 1 if there are more.
    pub fn left(&self) -> u64
        ensures { result ≡ min (length self.now.bits) u64.MAX }
    {
        let mut left = u64::from(self.held);
        let mut after_ff = self.after_ff;
        for byte in self.rest {
            left = left.saturating_add(u64::from(byte_bits(after_ff)));
            after_ff = *byte == 0xff;
        }
        left
    }

    /// Moves bytes into the word until it holds 32 bits or no bytes are left.
    fn refill(&mut self)
        ensures bits { self.new.bits ≡ self.old.bits }
        ensures enough { (ENOUGH ≤ self.new.held) ⊎ (length self.new.bits ≤ self.new.held) }
    {
        if self.held >= ENOUGH {
            return;
        }
        if !self.after_ff
            && let [first, second, third, fourth, rest @ ..] = self.rest
            && *first != 0xff
            && *second != 0xff
            && *third != 0xff
            && *fourth != 0xff
        {
            let four = u32::from_be_bytes([*first, *second, *third, *fourth]);
            self.word = (self.word << 32) | u64::from(four);
            self.held += 32;
            self.rest = rest;
            return;
        }
        self.refill_by_bytes();
    }

    /// As `refill`, one byte at a time.
    fn refill_by_bytes(&mut self)
        ensures bits { self.new.bits ≡ self.old.bits }
        ensures enough { (ENOUGH ≤ self.new.held) ⊎ (length self.new.bits ≤ self.new.held) }
    {
        'bytes: while self.held < ENOUGH
            && let [byte, rest @ ..] = self.rest
        {
            let size = byte_bits(self.after_ff);
            self.word = (self.word << size) | u64::from(*byte);
            self.held += size;
            self.after_ff = *byte == 0xff;
            self.rest = rest;
        }
    }
}

/// The lowest `count` bits of `word`.
pub fn low_bits(word: u64, count: u32) -> u32
    requires { count ≤ 32 }
    ensures { result ≡ word % 2 ^ count }
{
    (word & ((1 << count) - 1)) as u32
}

/// The number made of `high` and, below it, `low` in `count` bits.
pub fn joined(high: u32, low: u32, count: u32) -> u32
    requires high { high < 64 }
    requires count { count ≤ 17 }
    requires low { low < 2 ^ count }
    ensures { result ≡ high * 2 ^ count + low }
{
    (high << count) | low
}

/// The value of the short code word at the top of `word`: that many zeros, a 1, and `k` bits (T.87 A.5.3).
pub fn short_value(word: u64, zeros: u32, k: u32) -> u32
    requires zeros { LeadingZeros 64 word zeros }
    requires few { zeros < 24 }
    requires k { k ≤ 17 }
    ensures { result ≡ zeros * 2 ^ k + word / 2 ^ (63 - zeros - k) % 2 ^ k }
{
    // the 1 and the k bits after it
    let last = (word >> (63 - zeros - k)) as u32;
    (zeros << k) + last - (1 << k)
}

/// The number of zeros at the top of the lowest `held` bits of `word`; at least `held` if all of these are zeros.
/// `held` is from 1 to 64.
pub fn leading_zeros(word: u64, held: u32) -> u32
    requires some { 0 < held }
    requires few { held ≤ 64 }
    ensures { LeadingZeros held word result }
{
    (word << (64 - held)).leading_zeros()
}

/// The number of ones at the top of `word`; 64 if all its bits are ones.
pub fn leading_ones(word: u64) -> u32
    ensures some { result < 64 → bits_of 64 word ≡ replicate result true ++ false ∷ bits_of (63 - result) word }
    ensures all { 64 ≤ result → bits_of 64 word ≡ replicate 64 true }
{
    leading_zeros(!word, 64)
}

/// The lowest `held` bits of `word`, at most 63, followed by the top bits of `other` that fill up 64.
#[inline(always)]
fn with_bits(word: u64, held: u32, other: u64) -> u64
    requires { held ≤ 63 }
    ensures { bits_of 64 result ≡ bits_of held word ++ bits_of (64 - held) (other / 2 ^ held) }
{
    (word << 1 << (63 - held)) | (other >> held)
}

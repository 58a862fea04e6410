//! A bit sink into the caller's memory, whose free places must suffice. It allocates nothing and cannot fail.
ghost use Rattle.std.specs.Prelude.{◌≡◌, ◌+◌, ◌-◌, ◌^◌, ◌<◌, ◌≤◌, ◌++◌, [], length};
ghost use Rattle.ls_bits.specs.Bits.{bits_of};
ghost use Rattle.ls_bits.specs.Stuffing.{stuff};
ghost use Rattle.ls_bits.specs.Golomb.{IsGolomb, code_word, most_value};
ghost use Rattle.ls_bits.specs.View.Room.{Fits};

use crate::packer::Packer;
use crate::room::Room;
use std::marker::Model;

/// The bits put so far, which `finish` stuffs into a room's free places, after the bytes that the room already had
/// (T.87 C.1).
#[derive(Drop)]
pub struct RoomSink<R: Room = Vec<u8>> {
    packer: Packer<R>,
}

impl<R: Room> Model for RoomSink<R> {
    ghost use Rattle.std.specs.Prelude.{ℕ, ◌+◌, ◌-◌, ◌*◌, ◌≤◌, ◌<◌, length};
    ghost use Rattle.ls_bits.specs.View.Room.{Filled, Fits};

    ghost Value = { Filled R };

    ghost view = { λ s. record {
      room = s.packer.room;
      front = s.packer.front;
      capacity_left = s.packer.capacity - length s.packer.front;
      bits = s.packer.bits;
    } };

    ghost invariant = { λ s.
        (length s.packer.front ≤ s.packer.capacity)
        × (7 * (s.packer.capacity - length s.packer.front) + s.packer.held ≤ 7 * s.packer.capacity_left + length s.packer.bits)
        × (0 < length s.packer.bits → Fits (length s.packer.bits) (s.packer.capacity - length s.packer.front)) };
}

impl<R: Room> RoomSink<R> {
    /// A sink with no bits yet, which come after the bytes already in the room.
    pub fn new(bytes: R) -> RoomSink<R>
        ensures front { result.front ≡ R.items bytes }
        ensures room { result.capacity_left ≡ R.capacity bytes - length (R.items bytes) }
        ensures bits { result.bits ≡ [] }
        ensures grown { R.Grown bytes result.room }
    {
        RoomSink {
            packer: Packer::new(bytes),
        }
    }

    /// Appends `value` in `count` bits, the most significant first. Allocates nothing and cannot fail.
    ///
    /// `count` is at most 32, and `value` is below 2^count. Requires that the room had n / 7 + 1 free bytes or more
    /// when the sink was made, where n is the number of bits put so far, these included.
    pub fn put(&mut self, value: u32, count: u32)
        requires count { count ≤ 32 }
        requires value { value < 2 ^ count }
        requires room { Fits (length self.old.bits + count) self.old.capacity_left }
        ensures bits { self.new.bits ≡ self.old.bits ++ bits_of count value }
        ensures front { self.new.front ≡ self.old.front }
        ensures room { self.new.capacity_left ≡ self.old.capacity_left }
        ensures grown { R.Grown self.old.room self.new.room }
    {
        self.packer.put(value, count);
    }

    /// Appends the code word of `v`: LG(k, glimit) of T.87 A.5.3, of at most glimit bits. Allocates nothing and cannot
    /// fail.
    ///
    /// `qbpp` is at most 16, `k` at most qbpp + 1, `glimit` from qbpp + 2 to 64, and `v` at most 2^qbpp. Requires that
    /// the room had n / 7 + 1 free bytes or more when the sink was made, where n is the number of bits put so far, this
    /// word's included.
    pub fn put_golomb(&mut self, k: u32, glimit: u32, qbpp: u32, v: u32)
        requires code { IsGolomb k glimit qbpp }
        requires value { v ≤ most_value qbpp }
        requires room { Fits (length self.old.bits + length (code_word k glimit qbpp v)) self.old.capacity_left }
        ensures bits { self.new.bits ≡ self.old.bits ++ code_word k glimit qbpp v }
        ensures front { self.new.front ≡ self.old.front }
        ensures room { self.new.capacity_left ≡ self.old.capacity_left }
        ensures grown { R.Grown self.old.room self.new.room }
    {
        self.packer.put_golomb(k, glimit, qbpp, v);
    }

    /// Returns the room: the bytes that it had, followed by the bits, stuffed (T.87 C.1) as `BitSink::finish` stuffs
    /// them. Allocates nothing and cannot fail; the room's capacity is unchanged, and so are its free places after
    /// those bytes.
    pub fn finish(self) -> R
        ensures bytes { R.items result ≡ self.front ++ stuff self.bits }
        ensures capacity { R.capacity result ≡ length self.front + self.capacity_left }
        ensures grown { R.Grown self.room result }
    {
        self.packer.finish()
    }
}

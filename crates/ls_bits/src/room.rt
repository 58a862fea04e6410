//! The caller's memory, into which bytes are put one after the other. It neither grows nor moves.
ghost use Rattle.std.specs.Prelude.{◌≡◌, ℕ, ◌+◌, ◌/◌, ◌%◌, ◌^◌, ◌<◌, ◌≤◌, [], ◌∷◌, ◌++◌, List, length};
ghost use Rattle.ls_bits.specs.View.Packing.{with_word};

use std::mem;

/// Memory for a fixed number of bytes: a vector's capacity, or a slice.
pub trait Room: Drop {
    /// The bytes in it.
    ghost items: { Self → List ℕ };

    /// The number of bytes that it can hold in all.
    ghost capacity: { Self → ℕ };

    /// Whether putting bytes can turn the first into the second: it is the same memory, and the free places after those
    /// bytes are unchanged.
    ghost Grown: { Self → Self → Type 0 };

    /// The number of bytes in it, at most its capacity.
    fn len(&self) -> usize
        ensures value { result ≡ length (items self.now) }
        ensures within { length (items self.now) ≤ capacity self.now };

    /// Appends a byte. Requires a free place.
    fn put_byte(&mut self, byte: u8)
        requires { length (items self.old) < capacity self.old }
        ensures items { items self.new ≡ items self.old ++ byte ∷ [] }
        ensures len { length (items self.new) ≡ length (items self.old) + 1 }
        ensures capacity { capacity self.new ≡ capacity self.old }
        ensures grown { Grown self.old self.new };

    /// Appends the eight bytes of a word, the most significant first. Requires eight free places.
    #[inline(always)]
    fn put_word(&mut self, word: u64)
        requires { length (items self.old) + 8 ≤ capacity self.old }
        ensures items { items self.new ≡ with_word (items self.old) word }
        ensures len { length (items self.new) ≡ length (items self.old) + 8 }
        ensures capacity { capacity self.new ≡ capacity self.old }
        ensures grown { Grown self.old self.new }
    {
        self.put_byte(byte_at(word, 56));
        self.put_byte(byte_at(word, 48));
        self.put_byte(byte_at(word, 40));
        self.put_byte(byte_at(word, 32));
        self.put_byte(byte_at(word, 24));
        self.put_byte(byte_at(word, 16));
        self.put_byte(byte_at(word, 8));
        self.put_byte(byte_at(word, 0));
    }

    /// A room of no capacity, left in place of this one while this one is moved elsewhere.
    fn empty(&self) -> Self;

    ghost grown_not: { (room : Self) → Grown room room };

    ghost grown_twice: { (a b c : Self) → Grown a b → Grown b c → Grown a c };
}

/// A vector, up to its capacity.
impl Room for Vec<u8> {
    ghost use Rattle.std.specs.Prelude.{vec_capacity};

    ghost items = { λ v. v.items };

    ghost capacity = { λ v. vec_capacity v };

    ghost Grown = { λ _ _. Unit {0} };

    #[inline(always)]
    fn len(&self) -> usize {
        self.len()
    }

    #[inline(always)]
    fn put_byte(&mut self, byte: u8) {
        self.push_reserved(byte);
    }

    fn empty(&self) -> Vec<u8> {
        Vec::new(*self.allocator())
    }

    ghost grown_not = { λ _. tt };

    ghost grown_twice = { λ _ _ _ _ _. tt };
}

/// Takes a room, and leaves an empty one of no capacity in its place.
#[inline(always)]
pub fn take_room<R: Room>(room: &mut R) -> R
    ensures { result ≡ room.old }
{
    let empty = room.empty();
    mem::replace(room, empty)
}

/// The byte whose lowest bit is bit `shift` of `word`.
#[inline(always)]
fn byte_at(word: u64, shift: u32) -> u8
    requires { shift < 64 }
    ensures { result ≡ word / 2 ^ shift % 256 }
{
    ((word >> shift) & 0xff) as u8
}

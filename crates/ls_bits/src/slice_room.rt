//! A room over a slice.
ghost use Rattle.std.specs.Prelude.{◌≡◌, ◌≤◌, [], length, take, drop};

use crate::room::Room;

/// A slice that is filled from its front: the bytes put so far, then the free places.
#[derive(Drop)]
pub struct SliceRoom<'a> {
    /// The whole slice. Its first `len` bytes have been put.
    pub places: &'a mut [u8],
    pub len: usize,
    ghost within: { len ≤ length places.now },
}

impl<'a> SliceRoom<'a> {
    /// An empty room over the whole slice.
    pub fn new(places: &'a mut [u8]) -> SliceRoom<'a>
        ensures places { result.places.now ≡ places.entry.now }
        ensures lent { result.places.ghost_name ≡ places.entry.ghost_name }
        ensures len { result.len ≡ 0 }
    {
        SliceRoom { places, len: 0 }
    }
}

impl<'a> Room for SliceRoom<'a> {
    ghost use Rattle.std.specs.Prelude.{◌≡◌, ◌≤◌, length, take, drop};
    ghost use Rattle.ls_bits.specs.View.SliceRooms.{IsGrownSlice, slice_grown_not, slice_grown_twice};

    ghost items = { λ s. take s.len s.places.now };

    ghost capacity = { λ s. length s.places.now };

    ghost Grown = { λ old new. IsGrownSlice old.places.ghost_name new.places.ghost_name old.len new.len old.places.now new.places.now };

    #[inline(always)]
    fn len(&self) -> usize {
        self.len
    }

    #[inline(always)]
    fn put_byte(&mut self, byte: u8) {
        self.places[self.len] = byte;
        self.len += 1;
    }

    fn empty(&self) -> SliceRoom<'a> {
        SliceRoom::new(&mut [])
    }

    ghost grown_not = { λ s. slice_grown_not _ s.len s.places.now };

    ghost grown_twice = { λ _ _ _ first second. slice_grown_twice first second };
}

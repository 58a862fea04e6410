//! Borrowed samples of 8 or 16 bits, and what samples are stored in.
ghost use Rattle.std.specs.Prelude.{◌≡◌, ◌==◌, ℕ, ◌+◌, ◌<◌, ◌≤◌, ◌++◌, List, refl, length, slice_index, take, drop, nat_lt, position, fold, max, set};
ghost use lib.Pointwise.{pointwise};
ghost use Rattle.ls_frame.specs.View.Numbers.{numbers, most_of};

/// Borrowed samples in sequence, of 8 bits each (`Bytes`) or of 16 (`Words`).
#[derive(Clone, Copy, Debug, Drop)]
pub enum Samples<'a> {
    Bytes(&'a [u8]),
    Words(&'a [u16]),
}

impl<'a> Samples<'a> {
    /// The number of samples.
    pub fn len(self) -> usize
        ensures { result ≡ length (numbers self.entry) }
    {
        match self {
            Samples::Bytes(bytes) => bytes.len(),
            Samples::Words(words) => words.len(),
        }
    }

    /// The greatest value that samples of this size can have: 255 or 65535.
    pub fn most(self) -> u16
        ensures { result ≡ most_of self.entry }
    {
        match self {
            Samples::Bytes(_) => u16::from(u8::MAX),
            Samples::Words(_) => u16::MAX,
        }
    }

    /// The `count` samples from index `start`. Requires that `start + count` is at most the number of samples.
    pub fn part(self, start: usize, count: usize) -> Samples<'a>
        requires { start + count ≤ length (numbers self) }
        ensures { numbers result ≡ take count (drop start (numbers self.entry)) }
    {
        match self {
            Samples::Bytes(bytes) => Samples::Bytes(&bytes[start..start + count]),
            Samples::Words(words) => Samples::Words(&words[start..start + count]),
        }
    }

    /// The index of the first sample over `maxval`, if there is one.
    pub fn first_above(self, maxval: u16) -> Option<usize>
        ensures { result ≡ position (λ sample. nat_lt maxval sample) (numbers self.entry) }
    {
        match self {
            Samples::Bytes(bytes) => first_byte_above(bytes, maxval),
            Samples::Words(words) => first_word_above(words, maxval),
        }
    }
}

/// An integer that a sample is stored in, of 8 or of 16 bits.
pub trait Sample {
    /// The numbers that these store.
    ghost numbers: { List Self → List ℕ };

    /// The greatest number that one can store.
    ghost most: { ℕ };

    /// The greatest number that one can store: 255 or 65535.
    fn greatest() -> u16
        ensures { result ≡ most };

    /// Stores a sample at the index `place`. Requires that the slice is longer, and that one can store the sample: 8
    /// bits store 255 at most.
    fn put(places: &mut [Self], place: usize, sample: u16)
        requires inside { place < length (numbers places.old) }
        requires small { sample ≤ most }
        ensures { numbers places.new ≡ set (numbers places.old) place sample };

    /// Stores 0 in each.
    fn clear(places: &mut [Self])
        ensures zeros { (k : ℕ) → k < length (numbers places.new) → slice_index (numbers places.new) k ≡ 0 }
        ensures len { length (numbers places.new) ≡ length (numbers places.old) };

    ghost one_each: { (places : List Self) → length (numbers places) ≡ length places };

    ghost in_parts: { (front rest : List Self) → numbers (front ++ rest) ≡ numbers front ++ numbers rest };
}

impl Sample for u8 {
    ghost numbers = { λ places. places };

    ghost most = { 255 };

    fn greatest() -> u16 {
        u16::from(u8::MAX)
    }

    #[inline(always)]
    fn put(places: &mut [u8], place: usize, sample: u16) {
        places[place] = sample as u8;
    }

    fn clear(places: &mut [u8]) {
        clear_bytes(places);
    }

    ghost one_each = { λ _. refl };

    ghost in_parts = { λ _ _. refl };
}

impl Sample for u16 {
    ghost numbers = { λ places. places };

    ghost most = { 65535 };

    fn greatest() -> u16 {
        u16::MAX
    }

    #[inline(always)]
    fn put(places: &mut [u16], place: usize, sample: u16) {
        places[place] = sample;
    }

    fn clear(places: &mut [u16]) {
        clear_words(places);
    }

    ghost one_each = { λ _. refl };

    ghost in_parts = { λ _ _. refl };
}

/// The index of the first byte over `maxval`, if there is one.
fn first_byte_above(bytes: &[u8], maxval: u16) -> Option<usize>
    ensures { result ≡ position (λ sample. nat_lt maxval sample) bytes.now }
{
    if u16::from(greatest_byte(bytes)) <= maxval {
        return None;
    }
    bytes.iter().position(|byte| u16::from(*byte) > maxval)
}

/// The index of the first word over `maxval`, if there is one.
fn first_word_above(words: &[u16], maxval: u16) -> Option<usize>
    ensures { result ≡ position (λ sample. nat_lt maxval sample) words.now }
{
    if greatest_word(words) <= maxval {
        return None;
    }
    words.iter().position(|word| *word > maxval)
}

/// The greatest of some bytes, 0 of none. It compares all of them, several at once, so when none is over maxval it is
/// faster than a search for the first.
fn greatest_byte(bytes: &[u8]) -> u8
    ensures { result ≡ fold max 0 bytes.now }
{
    bytes
        .iter()
        .fold(0, |greatest: u8, byte| greatest.max(*byte))
}

/// The greatest of some words, 0 of none, found as in `greatest_byte`.
fn greatest_word(words: &[u16]) -> u16
    ensures { result ≡ fold max 0 words.now }
{
    words
        .iter()
        .fold(0, |greatest: u16, word| greatest.max(*word))
}

/// Whether two slices have the same samples. It compares all of them, several at once, so when they are the same it
/// is faster than a search for the first difference.
pub(crate) fn are_same(one: &[u16], other: &[u16]) -> bool
    ensures { result ≡ pointwise ◌==◌ one.now other.now }
{
    if one.len() != other.len() {
        return false;
    }
    let mut same = true;
    for place in 0..one.len() {
        same &= one[place] == other[place];
    }
    same
}

fn clear_bytes(places: &mut [u8])
    ensures { (k : ℕ) → k < length places.new → slice_index places.new k ≡ 0 }
{
    for place in places.iter_mut() {
        *place = 0;
    }
}

fn clear_words(places: &mut [u16])
    ensures { (k : ℕ) → k < length places.new → slice_index places.new k ≡ 0 }
{
    for place in places.iter_mut() {
        *place = 0;
    }
}

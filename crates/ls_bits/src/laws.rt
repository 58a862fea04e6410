//! Laws that follow from the definitions alone. Each is the contract of a function with an empty body.
ghost use Rattle.std.specs.Prelude.{◌≡◌, ◌+◌, ◌/◌, ◌≤◌, ◌++◌, [], ℕ, Bool, List, length};
ghost use Rattle.ls_bits.specs.Bits.{zeros, AreBytes};
ghost use Rattle.ls_bits.specs.Stuffing.{stuff, unstuff};
ghost use Rattle.ls_bits.specs.Data.{IsData};
ghost use Rattle.ls_bits.specs.Golomb.{IsGolomb, code_word, most_value, TakesWord, IsUncanonical};

/// Un-stuffing stuffed bits gives the bits back, followed by at most seven zeros.
pub fn unstuffing_gives_the_bits()
    ensures { (bits : List Bool) → (count : ℕ) × (count ≤ 7) × (unstuff (stuff bits) ≡ bits ++ zeros count) }
{}

/// n stuffed bits take at most n / 7 + 1 bytes; no bits take none.
pub fn stuffed_bits_are_short()
    ensures short { (bits : List Bool) → length (stuff bits) ≤ length bits / 7 + 1 }
    ensures none { stuff [] ≡ [] }
{}

/// Stuffed bits are bytes, and all of them are data (T.87 C.1): they contain no marker, and none can begin at their
/// end.
pub fn stuffed_bits_are_data()
    ensures data { (bits : List Bool) → IsData (stuff bits) }
    ensures bytes { (bits : List Bool) → AreBytes (stuff bits) }
{}

/// No code word is a prefix of another of the same code: bits begin with a word of at most one value, and what follows
/// the word is unique too.
pub fn no_word_begins_another()
    ensures { (k glimit qbpp : ℕ) (bits rest others : List Bool) (v w : ℕ) → IsGolomb k glimit qbpp
        → TakesWord k glimit qbpp bits v rest → TakesWord k glimit qbpp bits w others → (v ≡ w) × (rest ≡ others) }
{}

/// Bits that begin with a code word are never NotCanonical.
pub fn words_are_canonical()
    ensures { (k glimit qbpp : ℕ) (bits rest : List Bool) (v : ℕ) → IsGolomb k glimit qbpp
        → TakesWord k glimit qbpp bits v rest → IsUncanonical k glimit qbpp bits → ⊥ }
{}

/// A code word of a value up to 2^qbpp has at most glimit bits (T.87 A.5.3).
pub fn words_keep_their_limit()
    ensures { (k glimit qbpp v : ℕ) → IsGolomb k glimit qbpp → v ≤ most_value qbpp
        → length (code_word k glimit qbpp v) ≤ glimit }
{}

//! Laws: each is the contract of a function, about the definitions alone.
ghost use Rattle.std.specs.Prelude.{◌≡◌, ◌⊎◌, ◌++◌, ◌<◌, ℕ, true, false, List, [], length, drop};
ghost use Rattle.std.specs.List.{AllByRecursion};
ghost use Rattle.ls_frame.specs.Picture.{Picture};
ghost use Rattle.ls_bits.specs.Bits.{AreBytes};
ghost use Rattle.ls_stream.specs.Grammar.{Spells};
ghost use Rattle.ls_film.specs.Film.{IsFilm};
ghost use Rattle.ls_salvage.specs.Starts.{is_start, to_start};
ghost use Rattle.ls_salvage.specs.Salvage.{Part, frames_of, gaps_of, IsShownAt, IsHeld};
ghost use Rattle.ls_salvage.specs.View.Salvaged.{IsSalvaged, IsGapOf};

use ls_stream::laws::{bytes_have_one_first_fault, no_codestream_begins_another, one_frame_each};

/// Bytes have one salvage: they determine its frames, its gaps and their faults.
pub fn one_salvage()
    ensures { (bytes : List ℕ) (parts others : List Part) → AreBytes bytes → IsSalvaged bytes parts → IsSalvaged bytes others → parts ≡ others }
{
    no_codestream_begins_another();
    one_frame_each();
    bytes_have_one_first_fault();
}

/// Wherever a complete codestream of a frame stands in a recording, its frame is shown; or a codestream that is shown
/// begins before it and ends after its beginning, and so holds it.
pub fn whole_ones_are_shown()
    ensures { (bytes before front rest : List ℕ) (f : Picture) (parts : List Part) → bytes ≡ before ++ (front ++ rest) → Spells front f
        → IsSalvaged bytes parts → IsShownAt parts (length before) (length front) f ⊎ IsHeld parts (length before) }
{
    no_codestream_begins_another();
    one_frame_each();
}

/// The codestream of each frame that is shown stands in the recording, right after the parts before it.
pub fn what_is_shown_stands_there()
    ensures { (bytes : List ℕ) (parts : List Part) (place count : ℕ) (f : Picture) → IsSalvaged bytes parts → IsShownAt parts place count f
        → (before : List ℕ) × (front : List ℕ) × (rest : List ℕ) × (bytes ≡ before ++ (front ++ rest))
        × (length before ≡ place) × (length front ≡ count) × Spells front f }
{}

/// If a recording is codestreams of frames and nothing else, these frames are shown and there is no gap: that is what
/// playing shows.
pub fn undamaged_ones_are_shown_whole()
    ensures { (bytes : List ℕ) (frames : List Picture) (parts : List Part) → IsFilm Spells bytes frames → IsSalvaged bytes parts
        → (frames_of parts ≡ frames) × (gaps_of parts ≡ []) }
{
    no_codestream_begins_another();
    one_frame_each();
}

/// Each gap is at the place that is reported: no codestream of a frame begins there, its fault is the first of the
/// bytes from there on, and it goes up to the next start after its first byte, or to the end.
pub fn gaps_stand_where_they_are_told()
    ensures { (bytes : List ℕ) (parts : List Part) → IsSalvaged bytes parts → AllByRecursion (IsGapOf bytes) (gaps_of parts) }
{}

/// `to_start` leads to the first start: none is before it. If there is none, it is the number of all bytes.
pub fn starts_are_the_first()
    ensures start { (bytes : List ℕ) → (to_start bytes ≡ length bytes) ⊎ (is_start (drop (to_start bytes) bytes) ≡ true) }
    ensures first { (bytes : List ℕ) (count : ℕ) → count < to_start bytes → is_start (drop count bytes) ≡ false }
{}

/// A codestream of a frame begins with a start, whatever follows it.
pub fn codestreams_are_starts()
    ensures { (front rest : List ℕ) (f : Picture) → Spells front f → is_start (front ++ rest) ≡ true }
{}

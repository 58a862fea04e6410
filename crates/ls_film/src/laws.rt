//! Laws: each is the contract of a function.
ghost use Rattle.std.specs.Prelude.{◌≡◌, List, IfOk, MatchResult};
ghost use Rattle.std.specs.List.{AllByRecursion};
ghost use Rattle.ls_frame.specs.Netpbm.{IsImageOf};
ghost use Rattle.ls_frame.specs.Picture.{Picture, IsFrame};
ghost use Rattle.ls_film.specs.Showing.{show};
ghost use Rattle.ls_film.specs.View.Given.{GaveFilm};
ghost use Rattle.ls_film.specs.View.Playing.{IsOutOfMemory};

use crate::coding::code_film;
use crate::faults::FilmFault;
use crate::playing::{PlayFault, play_bytes};
use ls_frame::laws::default_parameters_are_legal;
use ls_frame::{Counted, Feed};
use std::alloc::Global;

/// A film that is coded into memory is played back as its frames, each as its canonical Netpbm image, whatever reads
/// the film; or playing ends in `NoMemory` or `Output`. If the reader's bytes are known, it gave images of these
/// frames.
///
/// Returns how the coding ended, what the playing wrote, and how the playing ended. Nothing is promised if the coding
/// failed.
pub fn recordings_are_played_back<R: Feed>(
    alloc: Global,
    reader: &mut R,
) -> (Result<u64, FilmFault>, Vec<u8>, Result<u64, PlayFault>)
    ensures { IfOk result.0 (λ count. (frames : List Picture) × AllByRecursion IsFrame frames
        × GaveFilm IsImageOf (R.remaining reader.old) (R.remaining reader.new) frames
        × MatchResult result.2 (λ played. (played ≡ count) × (result.1.items ≡ show frames)) IsOutOfMemory) }
{
    default_parameters_are_legal();
    let mut writer = Counted::new(Vec::new(alloc));
    let coded = code_film(alloc, reader, &mut writer);
    let recording = writer.into_inner();
    let (shown, played) = play_bytes(alloc, &recording);
    (coded, shown, played)
}

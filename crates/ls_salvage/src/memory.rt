//! The salvage of a recording in memory.
ghost use Rattle.std.specs.Prelude.{◌≡◌, ◌<◌, ◌≤◌, List, [], length, false, Some, IfOk, IfErr, MatchResult};
ghost use Rattle.ls_frame.specs.Picture.{Picture};
ghost use Rattle.ls_stream.specs.Grammar.{Spells};
ghost use Rattle.ls_film.specs.Film.{most_frames, IsFilm};
ghost use Rattle.ls_film.specs.Showing.{show};
ghost use Rattle.ls_salvage.specs.View.Ends.{most_place, blames_reader};
ghost use Rattle.ls_salvage.specs.View.Memory.{IsSalvageOf, IsOutOfMemory};
ghost use Rattle.ls_salvage.specs.View.Runs.{Stops};

use crate::faults::SalvageFault;
use crate::gaps::Gap;
use crate::salvaging::{Salvaged, salvage};
use crate::texts::ImageText;
use ls_frame::{Buffered, Counted};
use ls_stream::laws::{no_codestream_begins_another, one_frame_each};
use std::alloc::Global;

/// Salvages a recording in memory: the canonical Netpbm images of its frames, as far as they were written, its gaps, as
/// far as they were reported, and how the salvage ended.
///
/// Each complete codestream of a frame is shown, unless one that is shown holds its beginning. A fault means what
/// `salvage` says of it; it is never `Io`, since memory is read, and `Output` stands for a failed allocation for the
/// images. If the recording is codestreams of frames and nothing else, fewer than 2^62 bytes and no more frames than a
/// film may have, these are shown and there is no gap, or the fault is `NoMemory` or `Output`.
pub fn salvage_bytes(
    alloc: Global,
    recording: &[u8],
) -> (Vec<u8>, Vec<Gap>, Result<Salvaged, SalvageFault>)
    ensures completes { IfOk result.2 (IsSalvageOf recording.now result.0.items result.1.items) }
    ensures stops { IfErr result.2
        (Stops show (Some []) (Some result.0.items) (Some []) (Some result.1.items) (Some recording.now)) }
    ensures device { IfErr result.2 (λ fault. blames_reader fault ≡ false) }
    ensures undamaged { (frames : List Picture) → length frames ≤ most_frames → length recording.now < most_place
        → IsFilm Spells recording.now frames → MatchResult result.2
        (λ salvaged. (salvaged.frames ≡ length frames) × (salvaged.gaps ≡ 0) × (result.0.items ≡ show frames) × (result.1.items ≡ []))
        IsOutOfMemory }
{
    no_codestream_begins_another();
    one_frame_each();
    let mut gaps = Vec::new(alloc);
    if recording.is_empty() {
        let none = Salvaged { frames: 0, gaps: 0 };
        return (Vec::new(alloc), gaps, Ok(none));
    }
    let Ok(mut reader) = Buffered::new(alloc, recording) else {
        return (Vec::new(alloc), gaps, Err(SalvageFault::NoMemory));
    };
    let mut writer = Counted::new(Vec::new(alloc));
    let salvaged = salvage::<ImageText, Vec<Gap>, &[u8], Counted<Vec<u8>>>(
        alloc,
        &mut reader,
        &mut writer,
        &mut gaps,
    );
    (writer.into_inner(), gaps, salvaged)
}

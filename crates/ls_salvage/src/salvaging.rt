//! Salvage: writes the frames of a recording's complete codestreams, and reports the gaps.
ghost use Rattle.std.specs.Prelude.{◌≡◌, ℕ, ◌<◌, ◌≤◌, ◌^◌, List, Option, IfOk, IfErr, OnErr};
ghost use Rattle.ls_frame.specs.Picture.{Picture};
ghost use Rattle.ls_salvage.specs.declared.gaps.Gap.{Gap};
ghost use Rattle.ls_frame.specs.View.Chunks.{left_in, inner_reader};
ghost use Rattle.ls_frame.specs.View.Devices.{count_after};
ghost use Rattle.ls_film.specs.View.Steps.{failed_by};
ghost use Rattle.ls_salvage.specs.Salvage.{frame as frame_part, gap as gap_part, size_of};
ghost use Rattle.ls_salvage.specs.View.Ends.{most_place, blames_reader, blames_writer};
ghost use Rattle.ls_salvage.specs.View.Parts.{part_of, IsLawful};
ghost use Rattle.ls_salvage.specs.View.Runs.{Completes, Stops, IsSmall, no_progress, HandsOn, StopsHandingOn};

use crate::faults::SalvageFault;
use crate::gaps::{Gap, Gaps};
use crate::parts::{NextPart, next_part};
use crate::starts::MOST_PLACE;
use ls_film::MOST_FRAMES;
use ls_film::engine::Text;
use ls_frame::{Buffered, Feed, Frame, Outlet, write_bytes};
use ls_stream::StreamFault;
use std::alloc::Global;

/// The number of frames that a salvage wrote, and the number of gaps that it reported.
#[derive(Clone, Copy, Debug, Drop, PartialEq, Eq)]
pub struct Salvaged {
    /// The frames whose text was written.
    pub frames: u64,
    /// The gaps that were reported.
    pub gaps: u64,
}

/// The progress of a salvage.
#[derive(Clone, Copy)]
struct Progress {
    /// The frames that were written.
    frames: u64,
    /// The gaps that were reported.
    gaps: u64,
    /// The bytes of the parts so far.
    place: u64,
    /// The bytes of the text so far.
    written: u64,
}

/// Writes the text of the frames of a recording, wherever a complete codestream of one stands, reports the gaps between
/// them, and returns how many there were of each.
///
/// After bytes that begin with no codestream it goes on at the next start after the first of them: SOI, and FF with a
/// code that may follow it. The search for a start gives up after 2^62 bytes (`TooMuch`). With no damage it writes what
/// `ls_film::play` does. A frame is written completely before the next part is read. If the bytes of reader and writer
/// are known (as in memory), and the gaps reported, the clauses say which they were. `NoMemory` is never returned at the
/// end. After a fault nothing is said of the reader's position.
///
/// Holds in memory the bytes of one codestream, or what was read of a damaged one, and its frame. Bytes at fault are
/// held twice while they are put back: all but the first are read again, to find the next start.
pub fn salvage<T: Text<Frame>, G: Gaps, R: Feed, W: Outlet>(
    alloc: Global,
    reader: &mut Buffered<R>,
    writer: &mut W,
    gaps: &mut G,
) -> Result<Salvaged, SalvageFault>
    ensures completes { IfOk result (Completes T.text (W.contents writer.old) (W.contents writer.new) (G.told gaps.old) (G.told gaps.new)
        (left_in R.remaining reader.old) (left_in R.remaining reader.new)) }
    ensures stops { IfErr result (Stops T.text (W.contents writer.old) (W.contents writer.new) (G.told gaps.old) (G.told gaps.new)
        (left_in R.remaining reader.old)) }
    ensures reads { R.failed_reads (inner_reader reader.new) ≡ count_after (failed_by blames_reader result) (R.failed_reads (inner_reader reader.old)) }
    ensures writes { W.failed_writes writer.new ≡ count_after (failed_by blames_writer result) (W.failed_writes writer.old) }
{
    let mut progress = Progress::none();
    'parts: while progress.place < MOST_PLACE {
        let next = match next_part(alloc, reader) {
            Ok(Some(next)) => next,
            Ok(None) => {
                return Ok(Salvaged {
                    frames: progress.frames,
                    gaps: progress.gaps,
                });
            }
            Err(fault) => return Err(SalvageFault::of(progress.frames, fault)),
        };
        progress = hand_on::<T, G, W>(alloc, next, writer, gaps, progress)?;
    }
    Err(SalvageFault::TooMuch)
}

impl Progress {
    /// Before the first part.
    fn none() -> Progress
        ensures { result ≡ no_progress }
    {
        Progress {
            frames: 0,
            gaps: 0,
            place: 0,
            written: 0,
        }
    }
}

/// Writes the text of a frame, or reports a gap. Returns the progress after it.
fn hand_on<T: Text<Frame>, G: Gaps, W: Outlet>(
    alloc: Global,
    next: NextPart,
    writer: &mut W,
    gaps: &mut G,
    progress: Progress,
) -> Result<Progress, SalvageFault>
    requires small { IsSmall progress }
    requires before_most { progress.place < most_place }
    requires some { 0 < size_of (part_of next) }
    requires size { size_of (part_of next) < 2 ^ 63 }
    ensures handed_on { IfOk result (HandsOn T.text (W.contents writer.old) (W.contents writer.new) (G.told gaps.old) (G.told gaps.new) progress
        (part_of next)) }
    ensures stops { IfErr result (StopsHandingOn T.text (W.contents writer.old) (W.contents writer.new) (G.told gaps.old) (G.told gaps.new) progress
        (part_of next)) }
    ensures writes { W.failed_writes writer.new ≡ count_after (failed_by blames_writer result) (W.failed_writes writer.old) }
{
    match next {
        NextPart::Frame(frame, count) => {
            show_frame::<T, W>(alloc, frame, count, writer, progress)
        }
        NextPart::Gap(count, fault) => tell_gap(count, fault, gaps, progress),
    }
}

/// Writes the chunk of a frame whose codestream has `count` bytes. Returns the progress after it.
fn show_frame<T: Text<Frame>, W: Outlet>(
    alloc: Global,
    frame: Frame,
    count: u64,
    writer: &mut W,
    progress: Progress,
) -> Result<Progress, SalvageFault>
    requires small { IsSmall progress }
    requires before_most { progress.place < most_place }
    requires size { count < 2 ^ 63 }
    ensures shown { IfOk result (λ after. (told : Option (List Gap)) → HandsOn T.text (W.contents writer.old) (W.contents writer.new) told told progress (frame_part count frame) after) }
    ensures stops { IfErr result (λ fault. (told : Option (List Gap)) → StopsHandingOn T.text (W.contents writer.old) (W.contents writer.new) told told progress (frame_part count frame) fault) }
    ensures writes { W.failed_writes writer.new ≡ count_after (failed_by blames_writer result) (W.failed_writes writer.old) }
{
    if progress.frames >= MOST_FRAMES {
        return Err(SalvageFault::TooMuch);
    }
    let chunk = T::chunk(alloc, progress.frames, frame)?;
    match write_bytes(writer, &chunk) {
        Ok(()) => Ok(Progress {
            frames: progress.frames + 1,
            gaps: progress.gaps,
            place: progress.place + count,
            written: progress.written + chunk.len() as u64,
        }),
        Err(fault) => Err(SalvageFault::Output(progress.written + fault.written as u64)),
    }
}

/// Reports a gap of `count` bytes. Returns the progress after it.
fn tell_gap<G: Gaps>(
    count: u64,
    fault: StreamFault,
    gaps: &mut G,
    progress: Progress,
) -> Result<Progress, SalvageFault>
    requires small { IsSmall progress }
    requires before_most { progress.place < most_place }
    requires size { count < 2 ^ 63 }
    ensures told { IfOk result (λ after. (written : Option (List ℕ)) (text : List Picture → List ℕ) → HandsOn text written written (G.told gaps.old) (G.told gaps.new) progress (gap_part count fault) after) }
    ensures stops { IfErr result (λ fault. fault ≡ SalvageFault.NoMemory) }
    ensures kept { OnErr result (G.told gaps.new ≡ G.told gaps.old) }
{
    gaps.tell(Gap {
        frame: progress.frames,
        place: progress.place,
        count,
        fault,
    })?;
    Ok(Progress {
        frames: progress.frames,
        gaps: progress.gaps + 1,
        place: progress.place + count,
        written: progress.written,
    })
}

//! Plays a part of a recording, and passes over the codestreams before it by their markers.
ghost use Rattle.std.specs.Prelude.{◌≡◌, ◌<◌, ◌≤◌, ◌+◌, ℕ, List, [], Option, false, IsTrue, IfOk, IfErr, IfSome, IfNone, length, drop, take};
ghost use Rattle.ls_frame.specs.Picture.{Picture};
ghost use Rattle.ls_frame.specs.View.Devices.{count_after};
ghost use Rattle.ls_frame.specs.View.Known.{Tells, known};
ghost use Rattle.ls_stream.specs.Grammar.{Spells, most_bytes};
ghost use Rattle.ls_stream.specs.View.Extents.{failed_feed};
ghost use Rattle.ls_film.specs.Film.{most_frames, IsFilm};
ghost use Rattle.ls_film.specs.Showing.{show};
ghost use Rattle.ls_film.specs.View.Parts.{GavePassed, ShowsNext, ShowsPart, StopsPassing, StopsPart, IsPartOf, failed_play, failed_show, blames_reader, blames_writer};
ghost use Rattle.ls_film.specs.View.Playing.{Stops};
ghost use Rattle.ls_film.specs.View.Steps.{failed_by};

use crate::codestreams::{OneByOne, Unread, pass_codestream};
use crate::engine::{Run, Stopped, write_at_most, write_text};
use crate::faults::MOST_FRAMES;
use crate::playing::{Image, ImageText, PlayFault};
use ls_frame::{Feed, Outlet};
use ls_stream::laws::{no_codestream_begins_another, one_frame_each};
use std::alloc::Global;
use thiserror::Error;

/// A part of a recording: the frames from `first` up to and including `last`, or to the end, numbered from 0.
#[derive(Clone, Copy, Debug, PartialEq, Eq)]
pub struct Part {
    /// The number of its first frame.
    pub first: u64,
    /// The number of its last frame; `None` for a part that goes to the end.
    pub last: Option<u64>,
}

/// Why the playing of a part stopped.
#[derive(Clone, Copy, Debug, Drop, PartialEq, Eq, Error)]
pub enum PartFault {
    /// A fault as of `play`, with codestreams numbered from the beginning of the recording; `Io` has the number of the
    /// part's images that were written. If the fault is of a codestream before the part, nothing was written.
    #[error("{0}")]
    Play(PlayFault),
    /// The recording has only this number of frames, too few for the part: it lacks the part's last frame, or, if the
    /// part goes to the end, its first. The images of the part's frames that it has were written, and the reader is at
    /// its end.
    #[error("only {0} frames")]
    TooFew(u64),
}

/// Writes the canonical Netpbm image of each frame of a part of a recording, and returns the number of these frames.
///
/// The codestreams before the part are passed over by their markers and headers, so faults that only decoding would show
/// aren't found in them. Each image is written before the next codestream is read, and no codestream after the part is read.
/// If the bytes of reader and writer are known (as in memory), the clauses say which were read and written. After
/// `Stream` and `NoMemory` the reader's place is unspecified; `Io` and `NoMemory` are as for `play`.
///
/// Requires a first frame below `MOST_FRAMES`, and a last one, if any, below it too and not before the first.
pub fn play_part<R: Feed, W: Outlet>(
    alloc: Global,
    part: Part,
    reader: &mut R,
    writer: &mut W,
) -> Result<u64, PartFault>
    requires first { part.first < most_frames }
    requires last { IfSome part.last (λ last. (part.first ≤ last) × (last < most_frames)) }
    ensures shows { IfOk result (ShowsPart (R.remaining reader.old) (R.remaining reader.new) (W.contents writer.old) (W.contents writer.new) part.first) }
    ensures count { IfOk result (λ n. IfSome part.last (λ last. part.first + n ≡ last + 1)) }
    ensures all { IfOk result (λ n. IfNone part.last ((0 < n) × (Tells (R.remaining reader.old) → known (R.remaining reader.new) ≡ []))) }
    ensures stops { IfErr result (StopsPart (R.remaining reader.old) (R.remaining reader.new) (W.contents writer.old) (W.contents writer.new) part.first part.last) }
    // The result for a recording that is codestreams of frames.
    ensures film { (frames : List Picture) → length frames ≤ most_frames → Tells (R.remaining reader.old) → IsFilm Spells (known (R.remaining reader.old)) frames
        → IsPartOf (W.contents writer.old) (W.contents writer.new) part.first part.last frames result }
    ensures reads { R.failed_reads reader.new ≡ count_after (failed_by blames_reader result) (R.failed_reads reader.old) }
    ensures writes { W.failed_writes writer.new ≡ count_after (failed_by blames_writer result) (W.failed_writes writer.old) }
{
    no_codestream_begins_another();
    one_frame_each();
    let passed = match pass_streams(alloc, reader, part.first) {
        Ok(run) => run,
        Err(fault) => return Err(PartFault::Play(fault)),
    };
    if passed.ended {
        return Err(PartFault::TooFew(passed.frames));
    }
    match show_next(alloc, part, reader, writer) {
        Ok(run) if !run.ended => Ok(run.frames),
        Ok(run) if part.last.is_none() && run.frames > 0 => Ok(run.frames),
        Ok(run) => Err(PartFault::TooFew(part.first + run.frames)),
        Err(fault) => Err(PartFault::Play(fault.later(part.first))),
    }
}

/// Writes the images of a part, after the codestreams before it were passed over.
fn show_next<R: Feed, W: Outlet>(
    alloc: Global,
    part: Part,
    reader: &mut R,
    writer: &mut W,
) -> Result<Run, PlayFault>
    requires last { IfSome part.last (λ last. (part.first ≤ last) × (last < most_frames)) }
    ensures shows { IfOk result (λ run. ShowsNext (R.remaining reader.old) (R.remaining reader.new) (W.contents writer.old) (W.contents writer.new) run.frames) }
    ensures most { IfOk result (λ run. IfSome part.last (λ last. run.ended ≡ false → part.first + run.frames ≡ last + 1)) }
    ensures lacks { IfOk result (λ run. IfSome part.last (λ last. IsTrue run.ended → part.first + run.frames ≤ last)) }
    ensures ended { IfOk result (λ run. IsTrue run.ended → Tells (R.remaining reader.old) → known (R.remaining reader.new) ≡ []) }
    ensures open { IfOk result (λ run. IfNone part.last (IsTrue run.ended)) }
    ensures few { IfOk result (λ run. run.frames ≤ most_frames) }
    ensures stops { IfErr result (Stops (R.remaining reader.old) (R.remaining reader.new) (W.contents writer.old) (W.contents writer.new)) }
    ensures reads { R.failed_reads reader.new ≡ count_after (failed_play result) (R.failed_reads reader.old) }
    ensures writes { W.failed_writes writer.new ≡ count_after (failed_show result) (W.failed_writes writer.old) }
{
    let Some(last) = part.last else {
        return match write_text::<Image, ImageText, OneByOne, R, W>(
            alloc,
            &mut OneByOne,
            reader,
            writer,
        ) {
            Ok(frames) => Ok(Run {
                frames,
                ended: true,
            }),
            Err(stopped) => Err(PlayFault::of(stopped)),
        };
    };
    let most = last - part.first + 1;
    match write_at_most::<Image, ImageText, OneByOne, R, W>(
        alloc,
        &mut OneByOne,
        reader,
        writer,
        most,
    ) {
        Ok(run) => Ok(run),
        Err(stopped) => Err(PlayFault::of(stopped)),
    }
}

/// Passes over the next `count` codestreams by their markers and headers, or over all if there are fewer. Returns how many
/// these were, and whether the reader was seen to be at its end.
///
/// Fails as `play_part` does before its part: if a codestream has a fault in its markers or headers, a read fails
/// (`Io(0)`), or an allocation.
pub fn pass_streams<R: Feed>(alloc: Global, reader: &mut R, count: u64) -> Result<Run, PlayFault>
    ensures passed { IfOk result (λ run. GavePassed (R.remaining reader.old) (R.remaining reader.new) run.frames) }
    ensures most { IfOk result (λ run. (run.frames ≤ count) × (run.ended ≡ false → run.frames ≡ count)) }
    ensures lacks { IfOk result (λ run. IsTrue run.ended → run.frames < count) }
    ensures ended { IfOk result (λ run. IsTrue run.ended → Tells (R.remaining reader.old) → known (R.remaining reader.new) ≡ []) }
    ensures stops { IfErr result (StopsPassing (R.remaining reader.old) (R.remaining reader.new) count) }
    ensures failures { R.failed_reads reader.new ≡ count_after (failed_play result) (R.failed_reads reader.old) }
{
    for number in 0..count {
        match pass_codestream(alloc, reader) {
            Ok(true) => {}
            Ok(false) => {
                return Ok(Run {
                    frames: number,
                    ended: true,
                });
            }
            Err(Unread::Io) => return Err(PlayFault::Io(0)),
            Err(Unread::Stream(fault)) => {
                return Err(PlayFault::of(Stopped::Input(number, Unread::Stream(fault))));
            }
        }
    }
    Ok(Run {
        frames: count,
        ended: false,
    })
}

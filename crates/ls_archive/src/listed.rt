//! Frames of a recording that are shown by the lines of its index, so that those before them needn't be read.
ghost use Rattle.std.specs.Prelude.{◌≡◌, ◌⊎◌, ◌+◌, ◌*◌, ◌^◌, ◌<◌, ◌≤◌, ℕ, true, false, [], codes, length, IfOk, IfErr, OnOk, IfSome, IfNone};
ghost use Rattle.std.specs.Io.KnownBytes.{Appends};
ghost use Rattle.ls_frame.specs.View.Devices.{count_after};
ghost use Rattle.ls_frame.specs.View.Known.{Gave, Tells, known};
ghost use Rattle.ls_film.specs.Film.{most_frames};
ghost use Rattle.ls_film.specs.View.Steps.{failed_by};
ghost use Rattle.ls_archive.specs.View.Listed.{HasPassed, StopsPassing, Shows, Stops, StopsNext, GivesShown, StopsImage, listed_fault, blames_index, blames_recording, blames_writer};

use crate::checking::{CheckFault, Damage, looked_at, next_line, take_bytes};
use ls_film::playing::Image;
use ls_film::{MOST_FRAMES, Part};
use ls_frame::{Feed, FeedFault, Outlet, write_bytes};
use std::alloc::{AllocError, Global};
use thiserror::Error;

/// Why showing frames by an index stopped.
///
/// The images of exactly the frames before the one at fault were written, except after `Output`.
#[derive(Clone, Copy, Debug, Drop, PartialEq, Eq, Error)]
pub enum ListedFault {
    /// The index has no valid line of this number, from 0, where that should stand, as for `check`.
    #[error("line {0}: not of an index")]
    Line(u64),
    /// A read of the index failed.
    #[error("read failed")]
    IndexIo,
    /// The codestream of this number, from 0, isn't what its line says, or can't be decoded: the index isn't of this
    /// recording, or the recording is damaged there.
    #[error("frame {0}: {1}")]
    Damaged(u64, Damage),
    /// A read of the recording failed at the codestream of this number.
    #[error("read failed")]
    Io(u64),
    /// A write failed after exactly this number of bytes of the images had been written.
    #[error("output failed after {0} bytes")]
    Output(u64),
    /// An allocation failed for a line, a codestream or its image.
    #[error("no memory")]
    NoMemory,
    /// The index has only this number of lines.
    #[error("only {0} frames")]
    TooFew(u64),
}

impl From<AllocError> for ListedFault {
    ghost use Rattle.std.specs.Prelude.{◌≡◌};
    ghost use Rattle.ls_archive.specs.declared.listed.ListedFault.TheVariants.{NoMemory};

    ghost from_gives = { λ _ fault. fault ≡ NoMemory };

    fn from(_refused: AllocError) -> ListedFault {
        ListedFault::NoMemory
    }
}

/// Writes the images of a part of a recording by the lines of its index, and returns the number of frames. The index's
/// reader stands at the part's first line, and the recording's at the offset that this line says. A part that goes to the
/// end ends with the index.
///
/// Each image is written before the next line is read. A codestream is shown only if it has exactly its line, with the
/// sum if the line has one. One codestream is in memory at a time. If the bytes of readers and writer are known (as in
/// memory), the clauses say which were read and written. After a fault the places of both readers are unspecified.
///
/// Requires frames with numbers below `ls_film::MOST_FRAMES`, in order, and an offset that the codestreams before them
/// can end at.
pub fn play_listed<I: Feed, R: Feed, W: Outlet>(
    alloc: Global,
    part: Part,
    offset: u64,
    index: &mut I,
    recording: &mut R,
    writer: &mut W,
) -> Result<u64, ListedFault>
    requires first { part.first < most_frames }
    requires last { IfSome part.last (λ last. (part.first ≤ last) × (last < most_frames)) }
    requires bounded { offset ≤ 2 ^ 32 * part.first }
    ensures shows { IfOk result (Shows (I.remaining index.old) (I.remaining index.new)
        (R.remaining recording.old) (R.remaining recording.new) (W.contents writer.old) (W.contents writer.new) part.first offset) }
    ensures count { IfOk result (λ n. IfSome part.last (λ last. part.first + n ≡ last + 1)) }
    ensures all { IfOk result (λ n. IfNone part.last ((0 < n) × ((part.first + n ≡ most_frames) ⊎ (Tells (I.remaining index.old) → known (I.remaining index.new) ≡ [])))) }
    ensures stops { IfErr result (Stops (I.remaining index.old) (I.remaining index.new)
        (R.remaining recording.old) (R.remaining recording.new) (W.contents writer.old) (W.contents writer.new) part.first offset) }
    ensures index_reads { I.failed_reads index.new ≡ count_after (failed_by blames_index result) (I.failed_reads index.old) }
    ensures reads { R.failed_reads recording.new ≡ count_after (failed_by blames_recording result) (R.failed_reads recording.old) }
    ensures writes { W.failed_writes writer.new ≡ count_after (failed_by blames_writer result) (W.failed_writes writer.old) }
{
    let last = match part.last {
        Some(last) => last,
        None => MOST_FRAMES - 1,
    };
    match show_listed(alloc, part.first, last, offset, index, recording, writer) {
        Ok(()) => Ok(last + 1 - part.first),
        Err(ListedFault::TooFew(lines)) if part.last.is_none() && lines > part.first => {
            Ok(lines - part.first)
        }
        Err(fault) => Err(fault),
    }
}

/// Passes over the first lines of an index, and returns the offset at which the codestreams that they list end.
///
/// Fails if it has fewer, or one isn't valid.
pub fn pass_lines<I: Feed>(alloc: Global, index: &mut I, count: u64) -> Result<u64, ListedFault>
    requires { count ≤ most_frames }
    ensures passed { IfOk result (HasPassed (I.remaining index.old) (I.remaining index.new) count) }
    ensures bounded { IfOk result (λ offset. offset ≤ 2 ^ 32 * count) }
    ensures stops { IfErr result (StopsPassing (I.remaining index.old) (I.remaining index.new) count) }
    ensures reads { I.failed_reads index.new ≡ count_after (failed_by blames_index result) (I.failed_reads index.old) }
{
    let mut offset = 0;
    for number in 0..count {
        match next_line(alloc, index, number, offset) {
            Ok(Some(line)) => offset += u64::from(line.size),
            Ok(None) => return Err(ListedFault::TooFew(number)),
            Err(fault) => return Err(fault_of(number, fault)),
        }
    }
    Ok(offset)
}

/// Takes a byte off an index, and returns whether it ends a line.
pub fn pass_line_end<I: Feed>(alloc: Global, index: &mut I) -> Result<bool, FeedFault>
    ensures { IfOk result (λ ends. ends ≡ true → Gave (I.remaining index.old) (I.remaining index.new) (λ read. read ≡ codes "\n")) }
{
    let mut byte = Vec::new(alloc);
    let last = index.feed_until(b'\n', 1, &mut byte)?;
    Ok(last == Some(b'\n'))
}

/// Writes the images of the frames `first` to `last`.
fn show_listed<I: Feed, R: Feed, W: Outlet>(
    alloc: Global,
    first: u64,
    last: u64,
    offset: u64,
    index: &mut I,
    recording: &mut R,
    writer: &mut W,
) -> Result<(), ListedFault>
    requires order { first ≤ last }
    requires few { last < most_frames }
    requires bounded { offset ≤ 2 ^ 32 * first }
    ensures shows { OnOk result ((n : ℕ) × (first + n ≡ last + 1) × Shows (I.remaining index.old) (I.remaining index.new)
        (R.remaining recording.old) (R.remaining recording.new) (W.contents writer.old) (W.contents writer.new) first offset n) }
    ensures stops { IfErr result (Stops (I.remaining index.old) (I.remaining index.new)
        (R.remaining recording.old) (R.remaining recording.new) (W.contents writer.old) (W.contents writer.new) first offset) }
    ensures index_reads { I.failed_reads index.new ≡ count_after (failed_by blames_index result) (I.failed_reads index.old) }
    ensures reads { R.failed_reads recording.new ≡ count_after (failed_by blames_recording result) (R.failed_reads recording.old) }
    ensures writes { W.failed_writes writer.new ≡ count_after (failed_by blames_writer result) (W.failed_writes writer.old) }
{
    let mut offset = offset;
    let mut written = 0;
    for number in first..last + 1 {
        let (size, image) = next_image(alloc, number, offset, index, recording)?;
        written = write_image(writer, image, written)?;
        offset += size;
    }
    Ok(())
}

/// Takes the next line off an index and its codestream off a recording, and returns the codestream's size in bytes and
/// its frame's image.
fn next_image<I: Feed, R: Feed>(
    alloc: Global,
    number: u64,
    offset: u64,
    index: &mut I,
    recording: &mut R,
) -> Result<(u64, Image), ListedFault>
    ensures gives { IfOk result (λ next. GivesShown (I.remaining index.old) (I.remaining index.new)
        (R.remaining recording.old) (R.remaining recording.new) number offset next.0 next.1) }
    ensures small { IfOk result (λ next. next.0 < 2 ^ 32) }
    ensures stops { IfErr result (StopsNext (I.remaining index.old) (I.remaining index.new)
        (R.remaining recording.old) (R.remaining recording.new) number offset) }
    ensures index_reads { I.failed_reads index.new ≡ count_after (failed_by blames_index result) (I.failed_reads index.old) }
    ensures reads { R.failed_reads recording.new ≡ count_after (failed_by blames_recording result) (R.failed_reads recording.old) }
    ensures writes { failed_by blames_writer result ≡ false }
{
    let line = match next_line(alloc, index, number, offset) {
        Ok(Some(line)) => line,
        Ok(None) => return Err(ListedFault::TooFew(number)),
        Err(fault) => return Err(fault_of(number, fault)),
    };
    let bytes = match take_bytes(alloc, recording, line.size as usize) {
        Ok(bytes) => bytes,
        Err(fault) => return Err(fault_of(number, fault)),
    };
    let size = bytes.len() as u64;
    match looked_at::<Image>(alloc, number, offset, &line, bytes)? {
        Ok(image) => Ok((size, image)),
        Err(damage) => Err(ListedFault::Damaged(number, damage)),
    }
}

/// Converts a fault of the line of this number, or of its codestream.
fn fault_of(number: u64, fault: CheckFault) -> ListedFault
    ensures { result ≡ listed_fault number fault }
{
    match fault {
        CheckFault::Line(number) => ListedFault::Line(number),
        CheckFault::IndexIo => ListedFault::IndexIo,
        CheckFault::Io => ListedFault::Io(number),
        CheckFault::NoMemory | CheckFault::TooMany => ListedFault::NoMemory,
    }
}

/// Writes an image after the `written` bytes of those before it, and returns their new total.
fn write_image<W: Outlet>(writer: &mut W, image: Image, written: u64) -> Result<u64, ListedFault>
    requires { written + 2 ^ 32 ≤ 2 ^ 64 }
    ensures all { OnOk result (Appends (W.contents writer.old) (W.contents writer.new) image) }
    ensures count { IfOk result (λ count. count ≡ written + length image) }
    ensures short { length image < 2 ^ 32 }
    ensures stops { IfErr result (StopsImage (W.contents writer.old) (W.contents writer.new) written image) }
    ensures failures { W.failed_writes writer.new ≡ count_after (failed_by blames_writer result) (W.failed_writes writer.old) }
    ensures blame { (failed_by blames_index result ≡ false) × (failed_by blames_recording result ≡ false) }
{
    let bytes = image.into_bytes();
    match write_bytes(writer, &bytes) {
        Ok(()) => Ok(written + bytes.len() as u64),
        Err(fault) => Err(ListedFault::Output(written + fault.written as u64)),
    }
}

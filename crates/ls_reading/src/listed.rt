//! The command `play` for a part that is found by the recording's index, so that nothing before it is read.
ghost use Rattle.std.specs.Prelude.{◌≡◌, IfOk, IfErr};
ghost use Rattle.ls_console.specs.View.Readers.{unread};
ghost use Rattle.ls_frame.specs.View.Devices.{wrapped};
ghost use Rattle.ls_archive.specs.View.Listed.{HasPassed};
ghost use Rattle.ls_reading.specs.View.Commands.{IsPart};
ghost use Rattle.ls_reading.specs.View.Listed.{StandsAtLine, PlaysListed, ShowsListedOf};
ghost use Rattle.ls_reading.specs.View.Statuses.{DoneOrFailed};

use crate::archive::is_read_twice;
use crate::cause::conclude;
use ls_archive::{ListedFault, pass_line_end, pass_lines, play_listed};
use ls_console::{Console, DONE, FAILED, Host, Program, Reader, open_film, open_from};
use ls_files::{Opens, Source};
use ls_film::{MOST_FRAMES, Part};
use ls_frame::{Buffered, Counted, Feed, Outlet};
use std::alloc::Global;
use std::fs::OpenFile;
use std::io::Write;
use std::str::from_utf8;

/// Plays a part of a recording by its index: reads only the lines and the codestreams of the part, but for a few lines to
/// find the first. Each codestream must be exactly what its line says.
pub fn show_listed<R, O, W, E>(
    program: Program<'_, R, O, W, E>,
    file: &str,
    index: &str,
    part: Part,
) -> u8
where
    R: Host,
    O: Opens + Copy + Drop,
    W: Write,
    E: Outlet,
    ensures status { DoneOrFailed result }
    ensures shows { result ≡ DONE → IsPart part → ShowsListedOf O.holds program.entry.opener file.now index.now
        (W.contents (wrapped program.entry.output.now)) (W.contents (wrapped program.exit.1.1.0.now)) part }
{
    let Program {
        rt,
        opener,
        output,
        console,
    } = program;
    if !is_read_twice(rt, file, "--index", console)
        || !is_read_twice(rt, index, "--index", console)
    {
        return FAILED;
    }
    let alloc = rt.alloc();
    let (mut lines, offset) = match lines_from(alloc, opener, index, part.first, console) {
        Ok(found) => found,
        Err(status) => return status,
    };
    let mut recording = match open_from(alloc, opener, file, offset, console) {
        Ok(recording) => recording,
        Err(status) => return status,
    };
    let result = play_lent(alloc, part, offset, &mut lines, &mut recording, output);
    match result {
        Ok(_) => DONE,
        Err(fault) if is_of_index(fault) => conclude(index, Err(fault), &lines, None, console),
        Err(fault) => conclude(file, Err(fault), &recording, output.last_failure(), console),
    }
}

/// Whether a fault is of the index, and not of the recording or the output.
fn is_of_index(fault: ListedFault) -> bool {
    matches!(
        fault,
        ListedFault::Line(_) | ListedFault::IndexIo | ListedFault::TooFew(_)
    )
}

/// Plays a part of a recording by the lines of its index, over any readers and writer; nothing if its frames are out of
/// order or too high, which the words can't ask for.
fn play_lent<I: Feed, R: Feed, W: Outlet>(
    alloc: Global,
    part: Part,
    offset: u64,
    lines: &mut I,
    recording: &mut R,
    output: &mut W,
) -> Result<u64, ListedFault>
    ensures plays { IfOk result (λ count. IsPart part → PlaysListed part offset (I.remaining lines.old) (I.remaining lines.new)
        (R.remaining recording.old) (R.remaining recording.new) (W.contents output.old) (W.contents output.new) count) }
{
    let Part { first, last } = part;
    if first >= MOST_FRAMES || last.is_some_and(|last| last < first || last >= MOST_FRAMES) {
        return Ok(0);
    }
    if offset > first << 32 {
        return Err(ListedFault::Line(first));
    }
    play_listed(alloc, part, offset, lines, recording, output)
}

/// Opens an index at the line of this number, and returns the offset of its codestream too. On failure says why and
/// returns the status.
pub fn lines_from<'a, O, E>(
    alloc: Global,
    opener: O,
    index: &'a str,
    first: u64,
    console: &mut Console<E>,
) -> Result<(Reader<'a, O>, u64), u8>
where
    O: Opens + Copy + Drop,
    E: Outlet,
    ensures stands { IfOk result (λ found. StandsAtLine O.holds opener index.now first found.1 (unread O.File.remaining found.0)) }
    ensures status { IfErr result (λ status. status ≡ FAILED) }
{
    if let Some(hint) = find_line(alloc, opener, index, first) {
        let place = hint.place.saturating_sub(1);
        let mut lines = open_from(alloc, opener, index, place, console)?;
        if hint.place == 0 || pass_line_end(alloc, &mut lines) == Ok(true) {
            return Ok((lines, hint.offset));
        }
    }
    let mut lines = open_film(alloc, opener, index, console)?;
    match pass_lent(alloc, &mut lines, first) {
        Ok(offset) => Ok((lines, offset)),
        Err(fault) => Err(conclude(index, Err(fault), &lines, None, console)),
    }
}

/// Where a line seems to begin in an index, and the offset that it says. Whoever reads there looks whether it is so.
#[derive(Clone, Copy)]
struct Hint {
    place: u64,
    offset: u64,
}

/// The most bytes in which a line is looked for from its beginning on.
const SPAN: u64 = 4096;

/// The bytes that are read at a place: those of `SPAN` and of a line after them.
const FRONT: usize = 8192;

/// Looks for the line of this number by halving what may have it; `None` if it isn't found so.
fn find_line<O: Opens + Copy + Drop>(
    alloc: Global,
    opener: O,
    index: &str,
    wanted: u64,
) -> Option<Hint> {
    let mut low: u64 = 0;
    let mut high = opener.open(index).ok()?.metadata().ok()?.len();
    for _half in 0..64 {
        let span = high.saturating_sub(low);
        if span <= SPAN {
            break;
        }
        let middle = low.saturating_add(span / 2);
        let front = front_at(alloc, opener, index, middle)?;
        match line_after(middle, &front) {
            Some((place, number)) if number <= wanted && place < high => low = place,
            _ => high = middle,
        }
    }
    let front = front_at(alloc, opener, index, low)?;
    hint_in(low, &front, wanted)
}

/// The bytes of a file from a place on, as many as are looked at there; `None` if they can't be read.
fn front_at<O: Opens + Copy + Drop>(
    alloc: Global,
    opener: O,
    file: &str,
    place: u64,
) -> Option<Vec<u8>> {
    let source = Source::open_from(opener, file, place).ok()?;
    let mut reader = Buffered::new(alloc, Counted::new(source)).ok()?;
    let mut front = Vec::new(alloc);
    for _part in 0..FRONT {
        match reader.feed_until(b'\n', FRONT.saturating_sub(front.len()), &mut front) {
            Ok(Some(_)) if front.len() < FRONT => {}
            Ok(_) => break,
            Err(_) => return None,
        }
    }
    Some(front)
}

/// The place and the number of the first line that begins in bytes that stand at a place.
fn line_after(place: u64, bytes: &[u8]) -> Option<(u64, u64)> {
    let (before, line) = from_utf8(bytes).ok()?.split_once('\n')?;
    let (number, _offset, _size) = columns(line)?;
    let begins = place.saturating_add(before.len() as u64).saturating_add(1);
    Some((begins, number))
}

/// The line of this number among those in bytes that begin with a line and stand at a place; or else where it would
/// begin, after the one before it.
fn hint_in(place: u64, bytes: &[u8], wanted: u64) -> Option<Hint> {
    let mut place = place;
    let mut left = from_utf8(bytes).ok()?;
    let mut next = None;
    for _line in 0..FRONT {
        let Some((line, after)) = left.split_once('\n') else {
            return next;
        };
        let (number, offset, size) = columns(line)?;
        if number == wanted {
            return Some(Hint { place, offset });
        }
        place = place.saturating_add(line.len() as u64).saturating_add(1);
        if number.saturating_add(1) == wanted {
            let offset = offset.saturating_add(size);
            next = Some(Hint { place, offset });
        }
        left = after;
    }
    next
}

/// The first three columns of a line: its number, and the offset and the size of its codestream.
fn columns(line: &str) -> Option<(u64, u64, u64)> {
    let (number, rest) = line.split_once(' ')?;
    let (offset, rest) = rest.split_once(' ')?;
    let (size, _rest) = rest.split_once(' ')?;
    Some((
        number.parse().ok()?,
        offset.parse().ok()?,
        size.parse().ok()?,
    ))
}

/// Passes over the first lines of an index, over any reader; none if there can't be so many.
fn pass_lent<I: Feed>(alloc: Global, index: &mut I, count: u64) -> Result<u64, ListedFault>
    ensures passed { IfOk result (HasPassed (I.remaining index.old) (I.remaining index.new) count) }
{
    if count > MOST_FRAMES {
        return Err(ListedFault::TooFew(0));
    }
    pass_lines(alloc, index, count)
}

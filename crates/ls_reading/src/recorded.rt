//! Finds, by a recording's index, the recorded numbers of gaps in it, and the frames that were lost.
ghost use Rattle.std.specs.Prelude.{◌≡◌, false, All, IsSome, IfOk, IfErr};
ghost use Rattle.ls_frame.specs.View.Devices.{count_after};
ghost use Rattle.ls_film.specs.View.Steps.{failed_by};
ghost use Rattle.ls_archive.specs.View.Checks.{blames_index};
ghost use Rattle.ls_archive.specs.View.Places.{IsSaidBy};
ghost use Rattle.ls_reading.specs.View.Commands.{AreFoundIn, SaysLines};

use crate::archive::{find_all, is_read_twice};
use crate::cause::conclude;
use ls_archive::{CheckFault, Wanted, read_index};
use ls_console::{Console, FAILED, Shown, no_memory, open_film};
use ls_files::Opens;
use ls_frame::{Feed, Outlet};
use ls_salvage::Gap;
use std::alloc::{AllocError, Global};
use std::rt::Files;

/// The frames of an index, and where they are in its recording now.
#[derive(Drop)]
pub struct Found {
    /// The lines of the index.
    lines: Vec<Wanted>,
    /// For each frame, the place at which it was found, if it was.
    places: Vec<Option<u64>>,
}

impl Found {
    /// Finds the frames of an index in a recording. On failure says why and returns the status.
    pub fn find<R, O, E>(
        rt: &R,
        opener: O,
        file: &str,
        index: &str,
        console: &mut Console<E>,
    ) -> Result<Found, u8>
    where
        R: AllocGlobal + Files,
        O: Opens + Copy + Drop,
        E: Outlet,
        ensures found { IfOk result (λ found. AreFoundIn O.holds opener file.now index.now found.lines.items found.places.items) }
        ensures status { IfErr result (λ status. status ≡ FAILED) }
    {
        if !is_read_twice(rt, file, "--index", console) {
            return Err(FAILED);
        }
        let alloc = rt.alloc();
        let lines = lines_of(alloc, opener, index, console)?;
        let recording = open_film(alloc, opener, file, console)?;
        let places = find_all(alloc, file, recording, &lines, 0, console)?;
        Ok(Found { lines, places })
    }

    /// Says which frames are lost, and whether any is: it wasn't found, or it begins in one of these gaps.
    pub fn say_lost<E: Outlet>(
        &self,
        file: &str,
        gaps: Option<&Recorded<'_>>,
        console: &mut Console<E>,
    ) -> bool
        ensures { result ≡ false → All IsSome self.now.places.items }
    {
        let mut any = false;
        // The number of lost frames just before this one, in a row.
        let mut run: usize = 0;
        for (number, place) in self.places.iter().enumerate() {
            if place.is_none() || is_in_gap(gaps, number) {
                any = true;
                run = run.saturating_add(1);
            } else {
                say_run(file, number, run, console);
                run = 0;
            }
        }
        say_run(file, self.places.len(), run, console);
        any
    }
}

/// Whether the frame of this number begins in a gap.
fn is_in_gap(gaps: Option<&Recorded<'_>>, number: usize) -> bool {
    match gaps {
        Some(recorded) => recorded.in_gap.get(number) == Some(&true),
        None => false,
    }
}

/// The recorded frames, while the gaps of their recording are reported.
#[derive(Drop)]
pub struct Recorded<'f> {
    /// The lines of the index.
    lines: &'f [Wanted],
    /// The frames that were found, ordered by place: the place, then the number.
    standing: Vec<(u64, usize)>,
    /// For each frame, whether it begins in a gap.
    in_gap: Vec<bool>,
    /// The number of found frames before the end of the last gap.
    passed: usize,
    /// The number of the index line that gave the last gap its number.
    line: usize,
}

impl<'f> Recorded<'f> {
    /// The state before the first gap.
    pub fn new(alloc: Global, found: &'f Found) -> Result<Recorded<'f>, AllocError> {
        let mut standing = Vec::new(alloc);
        for (number, place) in found.places.iter().enumerate() {
            if let Some(place) = *place {
                standing.push((place, number))?;
            }
        }
        standing.sort()?;
        Ok(Recorded {
            lines: &found.lines,
            standing,
            in_gap: vec![in alloc; false; found.places.len()]?,
            passed: 0,
            line: 0,
        })
    }

    /// The number of the recorded frame that should be at a gap, judged by the frame before it. Gaps are given in the
    /// order of their places. Frames that begin in the gap aren't played.
    pub fn number_of(&mut self, gap: &Gap) -> u64 {
        self.pass(gap.place, false);
        let offset = self.offset_of(gap.place);
        for _line in 0..self.lines.len() {
            if !self.ends_before(offset) {
                break;
            }
            self.line = self.line.saturating_add(1);
        }
        let number = self.line.min(self.most());
        self.pass(gap.place.saturating_add(gap.count), true);
        number as u64
    }

    /// Whether the codestream of the current index line ends at this offset or before.
    fn ends_before(&self, offset: u64) -> bool {
        match self.lines.get(self.line) {
            Some(line) => line.place.saturating_add(line.count) <= offset,
            None => false,
        }
    }

    /// Passes the found frames before a place, which are in a gap or not.
    fn pass(&mut self, place: u64, in_gap: bool) {
        for _frame in 0..self.standing.len() {
            let Some(number) = self.next_before(place) else {
                break;
            };
            if in_gap {
                self.lose(number);
            }
            self.passed = self.passed.saturating_add(1);
        }
    }

    /// The next found frame, if it is before a place.
    fn next_before(&self, place: u64) -> Option<usize> {
        match self.standing.get(self.passed) {
            Some((stands, number)) => { if *stands < place { Some(*number) } else { None } }
            None => None,
        }
    }

    /// Marks a frame as one that begins in a gap.
    fn lose(&mut self, number: usize) {
        if let Some(in_gap) = self.in_gap.get_mut(number) {
            *in_gap = true;
        }
    }

    /// The last found frame before the gap: its place and its number.
    fn last(&self) -> Option<(u64, usize)> {
        self.standing.get(self.passed.checked_sub(1)?).copied()
    }

    /// Converts a place in the recording now to the offset at which it was recorded, by the last found frame before
    /// it, and takes the index line after that frame, if it isn't further on.
    fn offset_of(&mut self, place: u64) -> u64 {
        let Some((stands, number)) = self.last() else {
            return place;
        };
        self.line = self.line.max(number.saturating_add(1));
        let Some(line) = self.lines.get(number) else {
            return place;
        };
        line.place.saturating_add(place.saturating_sub(stands))
    }

    /// The greatest number that a gap can have: the one before the next found frame's, if there is one between.
    fn most(&self) -> usize {
        let first = match self.last() {
            Some((_, number)) => number.saturating_add(1),
            None => 0,
        };
        let next = match self.standing.get(self.passed) {
            Some((_stands, number)) => *number,
            None => return self.lines.len(),
        };
        if next > first {
            next.saturating_sub(1)
        } else if next == first {
            first
        } else {
            self.lines.len()
        }
    }
}

/// Says that the `run` frames before the one of this number are lost, if `run` isn't 0.
fn say_run<E: Outlet>(file: &str, number: usize, run: usize, console: &mut Console<E>) {
    if run == 0 {
        return;
    }
    let (shown, first, last) = (
        Shown(file),
        number.saturating_sub(run),
        number.saturating_sub(1),
    );
    if run == 1 {
        console.say(format_args!("{shown}: frame {first} is lost"));
    } else {
        console.say(format_args!("{shown}: frames {first} to {last} are lost"));
    }
}

/// Reads the lines of an index with sums. On failure says what is wrong and returns the status.
fn lines_of<O, E>(
    alloc: Global,
    opener: O,
    index: &str,
    console: &mut Console<E>,
) -> Result<Vec<Wanted>, u8>
where
    O: Opens + Drop,
    E: Outlet,
    ensures said { IfOk result (λ lines. SaysLines O.holds opener index.now lines.items) }
    ensures status { IfErr result (λ status. status ≡ FAILED) }
{
    let mut reader = open_film(alloc, opener, index, console)?;
    let lines = match read_lent(alloc, &mut reader) {
        Ok(lines) => lines,
        Err(fault) => return Err(conclude(index, Err(fault), &reader, None, console)),
    };
    match lines.iter().position(|line| line.sum.is_none()) {
        Some(number) => {
            let shown = Shown(index);
            console.say(format_args!("{shown}: line {number}: no sum"));
            Err(FAILED)
        }
        None => Ok(lines),
    }
}

/// Reads the lines of an index, over any reader.
fn read_lent<I: Feed>(alloc: Global, index: &mut I) -> Result<Vec<Wanted>, CheckFault>
    ensures wanted { IfOk result (λ wanted. IsSaidBy (I.remaining index.old) wanted.items) }
    ensures reads { I.failed_reads index.new ≡ count_after (failed_by blames_index result) (I.failed_reads index.old) }
{
    read_index(alloc, index)
}

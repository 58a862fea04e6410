//! The commands `check` and `verify` for a part of a recording.
ghost use Rattle.std.specs.Prelude.{◌≡◌, IfOk};
ghost use Rattle.ls_archive.specs.View.CheckedLines.{IsCheckedPart};
ghost use Rattle.ls_archive.specs.View.VerifiedParts.{FindsPart};
ghost use Rattle.ls_reading.specs.View.Commands.{IsPart};
ghost use Rattle.ls_reading.specs.View.Parts.{PassesPartCheck, HaveSamePart};
ghost use Rattle.ls_reading.specs.View.Statuses.{DoneOrFailed};

use crate::archive::{Checks, find_moved, is_of_index, is_read_twice};
use crate::cause::conclude;
use crate::comparing::say_verdict;
use crate::listed::lines_from;
use crate::report::{Report, finish_report, form_of};
use ls_archive::{
    CheckFault, CheckPartFault, Checked, Finding, Findings, Verdict, VerifyFault, VerifyPartFault,
    check_listed, check_listed_by, verify_part,
};
use ls_console::{DONE, FAILED, Lines, Program, line_buffer, no_memory, open_film, open_from};
use ls_files::Opens;
use ls_film::{MOST_FRAMES, Part};
use ls_frame::{Counted, Feed, Outlet};
use std::alloc::Global;
use std::io::Write;
use std::rt::Files;
use std::thread::Threads;

/// Looks for damage in a part of a recording by its index, with this number of workers that decode: reads only the
/// lines and the codestreams of the part, but for a few lines to find the first. Writes a line for each finding, or an
/// object of JSON, through a buffer.
pub fn check_part<R, O, W, E>(
    program: Program<'_, R, O, W, E>,
    file: &str,
    index: &str,
    part: Part,
    workers: u8,
    json: bool,
) -> u8
where
    R: AllocGlobal + Files + Threads + Sync,
    O: Opens + Copy + Drop,
    W: Write,
    E: Outlet,
    ensures status { DoneOrFailed result }
    ensures good { result ≡ DONE → IsPart part → PassesPartCheck O.holds program.entry.opener file.now index.now part }
{
    let Program {
        rt,
        opener,
        output,
        console,
    } = program;
    let Ok(buffer) = line_buffer(rt.alloc()) else {
        return no_memory(console);
    };
    let mut lines = Counted::new(Lines::new(&mut *output, buffer));
    let lined = Program {
        rt,
        opener,
        output: &mut lines,
        console: &mut *console,
    };
    let asked = Checks {
        workers,
        strict: false,
        form: form_of(json, false),
    };
    let status = check_part_lined(lined, file, index, part, asked);
    finish_report(status, lines, console)
}

/// Looks for damage in a part of a recording likewise, over any output, whose failures aren't looked at, and which
/// isn't flushed.
fn check_part_lined<R, O, L, E>(
    program: Program<'_, R, O, L, E>,
    file: &str,
    index: &str,
    part: Part,
    asked: Checks,
) -> u8
where
    R: AllocGlobal + Files + Threads + Sync,
    O: Opens + Copy + Drop,
    L: Write,
    E: Outlet,
    ensures status { DoneOrFailed result }
    ensures good { result ≡ DONE → IsPart part → PassesPartCheck O.holds program.entry.opener file.now index.now part }
{
    let Program {
        rt,
        opener,
        output,
        console,
    } = program;
    if !is_read_twice(rt, file, "--index", console)
        || !is_read_twice(rt, index, "--index", console)
    {
        return FAILED;
    }
    let alloc = rt.alloc();
    let (mut wanted, offset) = match lines_from(alloc, opener, index, part.first, console) {
        Ok(found) => found,
        Err(status) => return status,
    };
    let mut recording = match open_from(alloc, opener, file, offset, console) {
        Ok(recording) => recording,
        Err(status) => return status,
    };
    let mut findings: Vec<Finding> = Vec::new(alloc);
    let result = check_lent(
        rt,
        asked.workers,
        part,
        offset,
        &mut wanted,
        &mut recording,
        &mut findings,
    );
    let mut report = Report::new(alloc, file, output, asked.form);
    let fault = match result {
        Ok(checked) => {
            let end = search_end(part, offset.saturating_add(checked.bytes));
            match find_moved(rt, opener, file, &findings, end, console) {
                Ok(places) => return report.end_by(checked, &findings, &places, console),
                Err(status) => return report.tell_all(&findings, console).unwrap_or(status),
            }
        }
        Err(fault) => fault,
    };
    if let Some(status) = report.tell_all(&findings, console) {
        return status;
    }
    if is_of_lines(fault) {
        return conclude(index, Err(fault), &wanted, None, console);
    }
    conclude(file, Err(fault), &recording, None, console)
}

/// The offset below which only the bytes of damaged codestreams are searched: the end of a part's bytes, if the index
/// ends there too; else there is no other, since what the index lists after the part may be the same and is at its own
/// place.
fn search_end(part: Part, end: u64) -> u64 {
    if part.last.is_some() { u64::MAX } else { end }
}

/// Whether a check stopped because of its index.
fn is_of_lines(fault: CheckPartFault) -> bool {
    match fault {
        CheckPartFault::Check(fault) => is_of_index(fault),
        CheckPartFault::TooFew(_) => true,
    }
}

/// Looks for damage in a part of a recording by the lines of its index, over any readers, with this number of workers
/// that decode; finds nothing if its frames are out of order or too high, which the words can't ask for.
fn check_lent<Rt: AllocGlobal + Threads + Sync, I: Feed, R: Feed, F: Findings>(
    rt: &Rt,
    workers: u8,
    part: Part,
    offset: u64,
    index: &mut I,
    recording: &mut R,
    findings: &mut F,
) -> Result<Checked, CheckPartFault>
    ensures checked { IfOk result (λ checked. IsPart part → IsCheckedPart part.first offset part.last (I.remaining index.old) (I.remaining index.new)
        (R.remaining recording.old) (R.remaining recording.new) (F.found findings.old) (F.found findings.new) checked) }
{
    let Part { first, last } = part;
    if first >= MOST_FRAMES || last.is_some_and(|last| last < first || last >= MOST_FRAMES) {
        return Ok(Checked {
            frames: 0,
            damaged: 0,
            bytes: 0,
            more: false,
        });
    }
    if offset > first << 32 {
        return Err(CheckPartFault::Check(CheckFault::Line(first)));
    }
    let (alloc, workers) = (rt.alloc(), usize::from(workers));
    if workers > 1 {
        check_listed_by(rt, alloc, workers, part, offset, index, recording, findings)
    } else {
        check_listed(alloc, part, offset, index, recording, findings)
    }
}

/// Compares a part of a recording with that of its film, and says where they differ.
pub fn verify_files_part<R, O, W, E>(
    program: Program<'_, R, O, W, E>,
    film: &str,
    recording: &str,
    part: Part,
) -> u8
where
    R: AllocGlobal,
    O: Opens + Copy + Drop,
    W: Write,
    E: Outlet,
    ensures status { DoneOrFailed result }
    ensures same { result ≡ DONE → IsPart part → HaveSamePart O.holds program.entry.opener film.now recording.now part }
{
    let Program {
        rt,
        opener,
        console,
        ..
    } = program;
    let alloc = rt.alloc();
    let mut images = match open_film(alloc, opener, film, console) {
        Ok(images) => images,
        Err(status) => return status,
    };
    let mut codestreams = match open_film(alloc, opener, recording, console) {
        Ok(codestreams) => codestreams,
        Err(status) => return status,
    };
    match verify_lent(alloc, part, &mut images, &mut codestreams) {
        Ok(verdict) => say_verdict(recording, verdict, console),
        Err(fault) if is_of_film(fault) => conclude(film, Err(fault), &images, None, console),
        Err(fault) => conclude(recording, Err(fault), &codestreams, None, console),
    }
}

/// Whether a comparison stopped because of its film.
fn is_of_film(fault: VerifyPartFault) -> bool {
    matches!(
        fault,
        VerifyPartFault::Verify(VerifyFault::Film(..)) | VerifyPartFault::FilmTooFew(_)
    )
}

/// Compares a part of a recording with that of its film, over any readers; finds nothing if its frames are out of order
/// or too high, which the words can't ask for.
fn verify_lent<F: Feed, R: Feed>(
    alloc: Global,
    part: Part,
    film: &mut F,
    recording: &mut R,
) -> Result<Verdict, VerifyPartFault>
    ensures finds { IfOk result (λ verdict. IsPart part → FindsPart (F.remaining film.old) (F.remaining film.new)
        (R.remaining recording.old) (R.remaining recording.new) part.first part.last verdict) }
{
    let Part { first, last } = part;
    if first >= MOST_FRAMES || last.is_some_and(|last| last < first || last >= MOST_FRAMES) {
        return Ok(Verdict::Same(0));
    }
    verify_part(alloc, part, film, recording)
}

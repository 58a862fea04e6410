//! The commands `index` and `check`: a recording is listed, and looked through for damage.
ghost use Rattle.std.specs.Prelude.{◌≡◌, ◌⊎◌, true, None, IfOk, IfErr, IfSome, IfNone, length};
ghost use Rattle.ls_frame.specs.View.Chunks.{left_in, inner_reader};
ghost use Rattle.ls_frame.specs.View.Devices.{count_after, wrapped};
ghost use Rattle.ls_film.specs.View.Steps.{failed_by};
ghost use Rattle.ls_archive.specs.View.Checks.{IsChecked, Stops as StopsCheck, blames_recording};
ghost use Rattle.ls_archive.specs.View.Indexing.{Completes as Indexes, Stops as StopsIndex};
ghost use Rattle.ls_archive.specs.View.Places.{AreStanding};
ghost use Rattle.ls_console.specs.View.Readers.{unread};
ghost use Rattle.ls_reading.specs.View.Commands.{HasNoGaps, HasStrictCodestreams, IsSearched, PassesCheck, WritesIndexOf};
ghost use Rattle.ls_reading.specs.View.Statuses.{DoneOrFailed};

use crate::asked::Asked;
use crate::cause::conclude;
use crate::report::{Form, Report, finish_report, form_of};
use crate::strict::look_strict;
use core::mem::replace_with;
use ls_archive::{
    CheckFault, Checked, Finding, Findings, IndexFault, Wanted, check, check_by, find_places,
    write_index,
};
use ls_console::{
    Cause, Column, Console, DONE, FAILED, Lines, Objects, Program, Reader, Shown, explain, finish,
    finish_lines, line_buffer, no_memory, open_film,
};
use ls_files::Opens;
use ls_frame::{Buffered, Counted, Feed, Outlet};
use ls_salvage::{Gaps, NoText, SalvageFault, Salvaged, salvage};
use std::alloc::{AllocError, Global};
use std::fs;
use std::io::Write;
use std::rt::Files;
use std::thread::Threads;

/// The columns of an index's lines.
const COLUMNS: [Column; 13] = [
    Column::Number("frame"),
    Column::Number("offset"),
    Column::Number("bytes"),
    Column::Word("kind"),
    Column::Number("width"),
    Column::Number("height"),
    Column::Number("maxval"),
    Column::Number("P"),
    Column::Number("T1"),
    Column::Number("T2"),
    Column::Number("T3"),
    Column::Number("RESET"),
    Column::Word("sha256"),
];

/// Writes the index of a recording, through a buffer.
pub fn index<R, O, W, E>(program: Program<'_, R, O, W, E>, file: &str, sums: bool) -> u8
where
    R: AllocGlobal,
    O: Opens + Copy + Drop,
    W: Write,
    E: Outlet,
    ensures status { DoneOrFailed result }
    ensures lists { result ≡ DONE → WritesIndexOf O.holds program.entry.opener file.now
        (W.contents (wrapped program.entry.output.now)) (W.contents (wrapped program.exit.1.1.0.now)) sums }
{
    let Program {
        rt,
        opener,
        output,
        console,
    } = program;
    let Ok(buffer) = line_buffer(rt.alloc()) else {
        return no_memory(console);
    };
    let asked = Asked {
        rt,
        opener,
        file,
        buffer,
        console,
    };
    replace_with(output, (asked, sums), index_lines)
}

/// Writes the index of a recording through a buffer, with sums or without, and returns the output with the status.
fn index_lines<R, O, W, E>(
    output: Counted<W>,
    asked: (Asked<'_, R, O, E>, bool),
) -> (Counted<W>, u8)
where
    R: AllocGlobal,
    O: Opens + Copy + Drop,
    W: Write,
    E: Outlet,
    ensures status { DoneOrFailed result.1 }
    ensures lists { result.1 ≡ DONE → WritesIndexOf O.holds asked.entry.0.opener asked.entry.0.file.now
        (W.contents (wrapped output)) (W.contents (wrapped result.0)) asked.entry.1 }
{
    let (asked, sums) = asked;
    let Asked {
        rt,
        opener,
        file,
        buffer,
        console,
    } = asked;
    let mut lines = Counted::new(Lines::new(output, buffer));
    let lined = Program {
        rt,
        opener,
        output: &mut lines,
        console: &mut *console,
    };
    let status = index_through(lined, file, sums);
    finish_lines(status, lines, console)
}

/// Writes the index of a recording likewise, with an object of JSON for each line. What it writes is shown by tests;
/// with the status `DONE` the recording was read to its end.
pub fn index_json<R, O, W, E>(program: Program<'_, R, O, W, E>, file: &str, sums: bool) -> u8
where
    R: AllocGlobal,
    O: Opens + Copy + Drop,
    W: Write,
    E: Outlet,
    ensures status { DoneOrFailed result }
    ensures recording { result ≡ DONE → WritesIndexOf O.holds program.entry.opener file.now None None sums }
{
    let Program {
        rt,
        opener,
        output,
        console,
    } = program;
    let Ok(buffer) = line_buffer(rt.alloc()) else {
        return no_memory(console);
    };
    let lines = Lines::new(&mut *output, buffer);
    index_objects(rt, opener, file, sums, lines, console)
}

/// Writes the objects of the lines of a recording's index to a writer, and flushes it.
fn index_objects<R, O, L, E>(
    rt: &R,
    opener: O,
    file: &str,
    sums: bool,
    lines: L,
    console: &mut Console<E>,
) -> u8
where
    R: AllocGlobal,
    O: Opens + Copy + Drop,
    L: Write + Drop,
    E: Outlet,
    ensures status { DoneOrFailed result }
    ensures recording { result ≡ DONE → WritesIndexOf O.holds opener file.now None None sums }
{
    let mut objects = Counted::new(Objects::new(lines, &COLUMNS));
    let indexed = Program {
        rt,
        opener,
        output: &mut objects,
        console: &mut *console,
    };
    let status = index_through(indexed, file, sums);
    finish(status, &mut objects, console)
}

/// Writes the index of a recording to any output, which isn't flushed.
pub fn index_through<R, O, L, E>(program: Program<'_, R, O, L, E>, file: &str, sums: bool) -> u8
where
    R: AllocGlobal,
    O: Opens + Copy + Drop,
    L: Write,
    E: Outlet,
    ensures status { DoneOrFailed result }
    ensures lists { result ≡ DONE → WritesIndexOf O.holds program.entry.opener file.now
        (L.contents (wrapped program.entry.output.now)) (L.contents (wrapped program.exit.1.1.0.now)) sums }
{
    let Program {
        rt,
        opener,
        output,
        console,
    } = program;
    let mut recording = match open_film(rt.alloc(), opener, file, console) {
        Ok(recording) => recording,
        Err(status) => return status,
    };
    let result = index_to(rt.alloc(), &mut recording, output, sums);
    conclude(file, result, &recording, output.last_failure(), console)
}

/// Writes the index of a recording, over any reader and writer.
fn index_to<R: Feed, L: Outlet>(
    alloc: Global,
    recording: &mut R,
    lines: &mut L,
    sums: bool,
) -> Result<u64, IndexFault>
    ensures completes { IfOk result (Indexes sums
        (R.remaining recording.old) (R.remaining recording.new) (L.contents lines.old) (L.contents lines.new)) }
    ensures stops { IfErr result (StopsIndex sums
        (R.remaining recording.old) (R.remaining recording.new) (L.contents lines.old) (L.contents lines.new)) }
{
    write_index(alloc, recording, lines, sums)
}

/// How recordings are checked.
#[derive(Clone, Copy)]
pub struct Checks {
    /// The number of workers that decode by an index.
    pub workers: u8,
    /// Whether codestreams must be strict, too.
    pub strict: bool,
    /// The form of their lines.
    pub form: Form,
}

/// Looks for damage in a recording, by its index if one is named, and then with this number of workers that decode.
/// Writes a line for each finding, through a buffer; with `json` an object of JSON. With `strict` also looks, if
/// nothing is damaged, whether each codestream is strict.
pub fn check_recording<R, O, W, E>(
    program: Program<'_, R, O, W, E>,
    file: &str,
    index: Option<&str>,
    workers: u8,
    strict: bool,
    json: bool,
) -> u8
where
    R: AllocGlobal + Files + Threads + Sync,
    O: Opens + Copy + Drop,
    W: Write,
    E: Outlet,
    ensures status { DoneOrFailed result }
    ensures good { result ≡ DONE → IfSome index.entry (λ index. PassesCheck O.holds program.entry.opener file.now index.now) }
    ensures alone { result ≡ DONE → IfNone index.entry (HasNoGaps O.holds program.entry.opener file.now) }
    ensures strict { result ≡ DONE → strict ≡ true → HasStrictCodestreams O.holds program.entry.opener file.now }
{
    let Program {
        rt,
        opener,
        output,
        console,
    } = program;
    let Ok(buffer) = line_buffer(rt.alloc()) else {
        return no_memory(console);
    };
    let mut lines = Counted::new(Lines::new(&mut *output, buffer));
    let lined = Program {
        rt,
        opener,
        output: &mut lines,
        console: &mut *console,
    };
    let asked = Checks {
        workers,
        strict,
        form: form_of(json, false),
    };
    let status = check_lined(lined, file, index, asked);
    finish_report(status, lines, console)
}

/// Looks for damage in a recording likewise, over any output, whose failures aren't looked at, and which isn't flushed.
pub fn check_lined<R, O, L, E>(
    program: Program<'_, R, O, L, E>,
    file: &str,
    index: Option<&str>,
    asked: Checks,
) -> u8
where
    R: AllocGlobal + Files + Threads + Sync,
    O: Opens + Copy + Drop,
    L: Write,
    E: Outlet,
    ensures status { DoneOrFailed result }
    ensures good { result ≡ DONE → IfSome index.entry (λ index. PassesCheck O.holds program.entry.opener file.now index.now) }
    ensures alone { result ≡ DONE → IfNone index.entry (HasNoGaps O.holds program.entry.opener file.now) }
    ensures strict { result ≡ DONE → asked.strict ≡ true → HasStrictCodestreams O.holds program.entry.opener file.now }
{
    let Program {
        rt,
        opener,
        output,
        console,
    } = program;
    let Checks { strict, .. } = asked;
    if strict && !is_read_twice(rt, file, "--strict", console) {
        return FAILED;
    }
    let lined = Program {
        rt,
        opener,
        output,
        console: &mut *console,
    };
    let status = match index {
        Some(index) => check_with(lined, file, index, asked),
        None => check_alone(lined, file, asked),
    };
    if strict && status == DONE {
        look_strict(rt.alloc(), opener, file, console)
    } else {
        status
    }
}

/// Looks for damage in a recording by its index.
fn check_with<R, O, W, E>(
    program: Program<'_, R, O, W, E>,
    file: &str,
    index: &str,
    asked: Checks,
) -> u8
where
    R: AllocGlobal + Files + Threads + Sync,
    O: Opens + Copy + Drop,
    W: Write,
    E: Outlet,
    ensures status { DoneOrFailed result }
    ensures good { result ≡ DONE → PassesCheck O.holds program.entry.opener file.now index.now }
{
    let Program {
        rt,
        opener,
        output,
        console,
    } = program;
    let mut recording = match open_film(rt.alloc(), opener, file, console) {
        Ok(recording) => recording,
        Err(status) => return status,
    };
    let mut wanted = match open_film(rt.alloc(), opener, index, console) {
        Ok(wanted) => wanted,
        Err(status) => return status,
    };
    let mut findings: Vec<Finding> = Vec::new(rt.alloc());
    let result = check_lent(
        rt,
        asked.workers,
        &mut wanted,
        &mut recording,
        &mut findings,
    );
    let mut report = Report::new(rt.alloc(), file, output, asked.form);
    let fault = match result {
        Ok(checked) => match find_moved(rt, opener, file, &findings, checked.bytes, console) {
            Ok(places) => return report.end_by(checked, &findings, &places, console),
            Err(status) => {
                return report.tell_all(&findings, console).unwrap_or(status);
            }
        },
        Err(fault) => fault,
    };
    if let Some(status) = report.tell_all(&findings, console) {
        return status;
    }
    if is_of_index(fault) {
        return conclude(index, Err(fault), &wanted, None, console);
    }
    conclude(file, Err(fault), &recording, None, console)
}

/// Looks elsewhere in the recording for the codestreams that were found to be damaged: one place or none for each.
/// Empty if none has a sum, or the recording can't be read once more. `end` is the offset at which the last one
/// should end. On failure says why and returns the status.
pub fn find_moved<R, O, E>(
    rt: &R,
    opener: O,
    file: &str,
    findings: &[Finding],
    end: u64,
    console: &mut Console<E>,
) -> Result<Vec<Option<u64>>, u8>
where
    R: AllocGlobal + Files,
    O: Opens + Copy + Drop,
    E: Outlet,
    ensures { IfErr result (λ status. status ≡ FAILED) }
{
    let alloc = rt.alloc();
    if findings.iter().all(|finding| finding.sum.is_none()) || !is_read_anew(rt, file) {
        return Ok(Vec::new(alloc));
    }
    let Ok(wanted) = wanted_of(alloc, findings) else {
        return Err(no_memory(console));
    };
    let recording = open_film(alloc, opener, file, console)?;
    find_all(alloc, file, recording, &wanted, end, console)
}

/// Converts findings to the codestreams that are looked for.
fn wanted_of(alloc: Global, findings: &[Finding]) -> Result<Vec<Wanted>, AllocError> {
    let mut wanted = Vec::new(alloc);
    for finding in findings {
        let Finding {
            place,
            count,
            sum,
            ..
        } = *finding;
        wanted.push(Wanted { place, count, sum })?;
    }
    Ok(wanted)
}

/// Looks for codestreams in a recording: one place or none for each in `wanted`. On failure says why and returns the
/// status.
pub fn find_all<O: Opens + Drop, E: Outlet>(
    alloc: Global,
    file: &str,
    mut recording: Reader<'_, O>,
    wanted: &[Wanted],
    end: u64,
    console: &mut Console<E>,
) -> Result<Vec<Option<u64>>, u8>
    ensures count { IfOk result (λ places. length places.items ≡ length wanted.now) }
    ensures standing { IfOk result (λ places. AreStanding (unread O.File.remaining recording.entry) wanted.now places.items) }
    ensures status { IfErr result (λ status. status ≡ FAILED) }
{
    match find_lent(alloc, &mut recording, wanted, end) {
        Ok(places) => Ok(places),
        Err(fault) => Err(conclude(file, Err(fault), &recording, None, console)),
    }
}

/// The same, over any reader.
fn find_lent<R: Feed>(
    alloc: Global,
    recording: &mut Buffered<R>,
    wanted: &[Wanted],
    end: u64,
) -> Result<Vec<Option<u64>>, CheckFault>
    ensures count { IfOk result (λ places. length places.items ≡ length wanted.now) }
    ensures standing { IfOk result (λ places. AreStanding (left_in R.remaining recording.old) wanted.now places.items) }
    ensures blame { IfErr result (λ fault. (fault ≡ CheckFault.Io) ⊎ (fault ≡ CheckFault.NoMemory)) }
    ensures reads { R.failed_reads (inner_reader recording.new) ≡ count_after (failed_by blames_recording result) (R.failed_reads (inner_reader recording.old)) }
{
    find_places(alloc, recording, wanted, end)
}

/// Whether a file gives the same bytes when it is opened once more: a regular file does, a pipe doesn't.
fn is_read_anew<R: Files>(rt: &R, file: &str) -> bool {
    match fs::metadata(rt, file) {
        Ok(metadata) => metadata.is_file(),
        Err(_) => false,
    }
}

/// Whether a file, if it can be read at all, can be read twice, as an option asks for. If it can't, says so.
pub fn is_read_twice<R: Files, E: Outlet>(
    rt: &R,
    file: &str,
    option: &str,
    console: &mut Console<E>,
) -> bool {
    let is_once = match fs::metadata(rt, file) {
        Ok(metadata) => !(metadata.is_file() || metadata.is_dir()),
        Err(_) => false,
    };
    if is_once {
        let shown = Shown(file);
        console.say(format_args!("{shown}: can't be read twice, as {option} asks for"));
    }
    !is_once
}

/// Looks for damage in a recording by its index, over any readers, with this number of workers that decode.
fn check_lent<Rt: AllocGlobal + Threads + Sync, I: Feed, R: Feed, F: Findings>(
    rt: &Rt,
    workers: u8,
    index: &mut I,
    recording: &mut R,
    findings: &mut F,
) -> Result<Checked, CheckFault>
    ensures checked { IfOk result (IsChecked (I.remaining index.old) (R.remaining recording.old) (F.found findings.old) (F.found findings.new)) }
    ensures stops { IfErr result (StopsCheck (I.remaining index.old) (R.remaining recording.old) (F.found findings.old) (F.found findings.new)) }
{
    let (alloc, workers) = (rt.alloc(), usize::from(workers));
    if workers > 1 {
        check_by(rt, alloc, workers, index, recording, findings)
    } else {
        check(alloc, index, recording, findings)
    }
}

/// Whether a check stopped because of its index.
pub fn is_of_index(fault: CheckFault) -> bool {
    matches!(
        fault,
        CheckFault::Line(_) | CheckFault::IndexIo | CheckFault::TooMany
    )
}

/// Looks for what can't be decoded in a recording, and says that no index is named.
fn check_alone<R, O, W, E>(program: Program<'_, R, O, W, E>, file: &str, asked: Checks) -> u8
where
    R: AllocGlobal,
    O: Opens + Copy + Drop,
    W: Write,
    E: Outlet,
    ensures status { DoneOrFailed result }
    ensures good { result ≡ DONE → HasNoGaps O.holds program.entry.opener file.now }
{
    let Program {
        rt,
        opener,
        output,
        console,
    } = program;
    let mut recording = match open_film(rt.alloc(), opener, file, console) {
        Ok(recording) => recording,
        Err(status) => return status,
    };
    let mut report = Report::new(rt.alloc(), file, output, asked.form);
    match decode_only(rt.alloc(), &mut recording, &mut report) {
        Ok(salvaged) => {
            let shown = Shown(file);
            console.say(format_args!("{shown}: only decoded: no index is named"));
            if salvaged.frames == 0 {
                explain(file, Cause::Format, &recording, None, console);
            }
            let checked = Checked {
                frames: salvaged.frames.saturating_add(salvaged.gaps),
                damaged: salvaged.gaps,
                bytes: 0,
                more: false,
            };
            report.end(checked, 0, console)
        }
        Err(fault) => conclude(file, Err(fault), &recording, None, console),
    }
}

/// Decodes the intact frames of a recording, over any reader, writes none of them, and reports the gaps between them.
fn decode_only<R: Feed, G: Gaps>(
    alloc: Global,
    recording: &mut Buffered<R>,
    gaps: &mut G,
) -> Result<Salvaged, SalvageFault>
    ensures { IfOk result (IsSearched (left_in R.remaining recording.old) (left_in R.remaining recording.new)) }
{
    let mut nothing = Counted::new(Vec::new(alloc));
    salvage::<NoText, _, _, _>(alloc, recording, &mut nothing, gaps)
}

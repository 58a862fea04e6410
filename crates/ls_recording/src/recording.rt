//! The command `record`: opens the films, records them, and says how each ended.
ghost use Rattle.std.specs.Prelude.{◌≡◌, true, List, IfOk, IfErr, MatchResult};
ghost use Rattle.std.specs.List.{AllZip};
ghost use Rattle.ls_opening.specs.View.Devices.{left_of};
ghost use Rattle.ls_recording.specs.View.Films.{HasTrack, IsRefused, IsWhole, IsRecorded, AreRecorded, HasRecorded, held};
ghost use Rattle.ls_recording.specs.declared.ending.EndedFiles.{EndedFiles};

use crate::ending::report::{report_of, write_report};
use crate::ending::{EndedFiles, Ends, end_films, release, say_counts};
use crate::watching::Watch;
use crate::watching::keeping::keep_files;
use crate::watching::limiting::Limiting;
use crate::watching::progress::Teller;
use crate::watching::schedule::{Deadline, Syncs};
use crate::watching::times::{FilmTimes, PendingTimes};
use ls_command::RecordRequest;
use ls_console::{DONE, FAILED, Host, Program, Reader, no_memory};
use ls_files::Makes;
use ls_frame::{Feed, Outlet, Tuning};
use ls_opening::{
    Chain, Course, Devices, Film, Limited, Names, Opened, Writer, names_once, open_films,
};
use ls_recorder::{Gate, MOST_WINDOW, RecordFault, Recording as Tracks, Track, record};
use std::alloc::{AllocError, Global};
use std::io::Write;
use std::sync::Wait;
use std::thread;
use std::thread::Threads;
use std::time::Clock;

/// The reader of a film, as its lane is given it.
pub type FilmReader<'a, O> = Limited<'a, Reader<'a, O>>;

/// The outcome of a film: its reader, its writer and the result.
pub type FilmTrack<'a, O> = Track<FilmReader<'a, O>, Writer<'a, O>>;

/// The outcomes of all films; or the fault that kept them from being recorded, and what their lanes were given.
pub type Recorded<'a, O> = Result<
    Tracks<FilmReader<'a, O>, Writer<'a, O>>,
    (RecordFault, Vec<Devices<'a, O>>),
>;

/// The end of a recording: the status to exit with, and the files of each film.
#[derive(Drop)]
struct Finished<'a, O: Makes> {
    status: u8,
    files: Vec<EndedFiles<'a, O>>,
}

/// Records the films that are asked for, says how each ended, and returns the status. On a terminal progress is always
/// shown. With `DONE` each film was recorded from its own file to its own recording, or to pieces that are the
/// recording one after the other, with the tuning asked for: to its end, as far as it was read when the program was
/// asked to stop, or as many frames of it as are asked for.
pub fn record_films<R, O, W, E>(program: Program<'_, R, O, W, E>, asked: RecordRequest<'_>) -> u8
where
    R: Host + Clock + Threads + Wait + Sync + Clone + Drop,
    O: Makes<File = R::File> + Copy + Send,
    R::File: Send,
    O::Finished: Send,
    W: Write + Send,
    E: Outlet + Send,
    ensures { result ≡ DONE → HasRecorded O.holds R.File.remaining R.File.contents O.kept program.entry.opener asked.entry.tuning asked.entry.count asked.entry.files.items }
{
    let columns = program.console.columns_of_all(asked.files.len());
    let names = match names_once(program.rt.alloc(), &asked, columns) {
        Ok(names) => names,
        Err(refusal) => return refusal.say(program.console),
    };
    let alloc = program.rt.alloc();
    let (count, films) = (asked.count, names.len());
    let Ok(courses) = Course::of_each(alloc, films, count, asked.times, asked.pieces, MOST_WINDOW)
    else {
        return no_memory(program.console);
    };
    let Ok(chains) = Chain::<O>::of_each(alloc, chains_of(&asked, names.len())) else {
        return no_memory(program.console);
    };
    record_named(program, &asked, &names, &courses, &chains)
}

/// The number of films whose recordings are cut into pieces, of as many as there are.
fn chains_of(asked: &RecordRequest<'_>, films: usize) -> usize {
    if asked.pieces.is_some() { films } else { 0 }
}

/// Records the films of these names, as `record_films` does. Each has its course and its chain, if there are any.
fn record_named<'a, R, O, W, E>(
    program: Program<'_, R, O, W, E>,
    asked: &'a RecordRequest<'a>,
    names: &'a [Names<'a>],
    courses: &'a [Course],
    chains: &'a [Chain<O>],
) -> u8
where
    R: Host + Clock + Threads + Wait + Sync + Clone + Drop,
    O: Makes<File = R::File> + Copy + Send,
    R::File: Send,
    O::Finished: Send,
    W: Write + Send,
    E: Outlet + Send,
    ensures { result ≡ DONE → AreRecorded O.holds R.File.remaining R.File.contents O.kept program.entry.opener asked.now.tuning asked.now.count names.now }
{
    match open_films(
        program.rt,
        program.opener,
        asked,
        names,
        courses,
        chains,
        program.console,
    ) {
        Ok(opened) => record_opened(program, asked, courses, opened),
        Err(refusal) => refusal.say(program.console),
    }
}

/// Records films whose files are open, says how each ended, writes the report, and returns the status. With `DONE` each
/// film was recorded to its end, as far as it was read when the program was asked to stop, or as many frames of it as
/// are asked for.
fn record_opened<'a, R, O, W, E>(
    program: Program<'_, R, O, W, E>,
    asked: &'a RecordRequest<'a>,
    courses: &'a [Course],
    opened: Opened<'a, O>,
) -> u8
where
    R: Host + Clock + Threads + Wait + Sync + Clone + Drop,
    O: Makes + Copy + Send,
    O::File: Send,
    O::Finished: Send,
    W: Write + Send,
    E: Outlet + Send,
    ensures { result ≡ DONE → (files : List (EndedFiles O O.Finished O.File)) × AllZip (IsRecorded O.File.remaining O.File.contents O.kept asked.now.count) opened.entry.devices.items files }
{
    let Program {
        rt,
        opener,
        output,
        console,
    } = program;
    let Opened {
        mut films,
        devices,
        report,
    } = opened;
    let Ok(times) = times_of(rt.alloc(), opener, &mut films) else {
        return no_memory(console);
    };
    let is_telling = asked.progress || console.is_terminal();
    let is_timed = is_telling || report.is_some();
    let Ok(watch) = Watch::new(rt, rt.alloc(), films.len(), asked.count, is_timed) else {
        return no_memory(console);
    };
    let teller = Teller {
        program: Program {
            rt,
            opener,
            output: &mut *output,
            console: &mut *console,
        },
        watch: &watch,
        deadline: Deadline::new(asked),
        files: &asked.files,
        is_telling,
    };
    let recorded = record_watched(
        rt, opener, asked, courses, &times, &watch, &mut films, teller, devices,
    );
    let program = Program {
        rt,
        opener,
        output: &mut *output,
        console: &mut *console,
    };
    let count = asked.count;
    let Finished { status, files } = finish_films(
        program, &watch, &times, count, &mut films, recorded,
    );
    release(files);
    match report {
        Some(report) => {
            let text = report_of(rt.alloc(), report.path, &watch, &films, asked.workers);
            // The films' files are unlocked before the report is written, which may wait for what reads it.
            drop(films);
            worse(status, write_report(report, text, console))
        }
        None => status,
    }
}

/// The times of the films' frames, if files were made for these.
fn times_of<'a, O: Makes + Copy + Drop>(
    alloc: Global,
    opener: O,
    films: &mut [Film<'a, O>],
) -> Result<Vec<FilmTimes<'a, O>>, AllocError> {
    let mut times = Vec::new(alloc);
    for film in films.iter_mut() {
        if let Some(target) = film.take_times() {
            let path = film.names.times.as_str();
            times.push(PendingTimes::new(alloc, opener, path, target, film.cutting())?)?;
        }
    }
    Ok(times)
}

/// Records films while one thread keeps their files, and another keeps the time and says progress. If no thread can be
/// started for one of them, its work comes once the recording has ended; the other does its own meanwhile.
fn record_watched<'a, R, O, W, E>(
    rt: &R,
    opener: O,
    asked: &RecordRequest<'_>,
    courses: &[Course],
    times: &[FilmTimes<'a, O>],
    watch: &Watch<'_, R>,
    films: &mut [Film<'a, O>],
    teller: Teller<'_, R, O, W, E>,
    devices: Vec<Devices<'a, O>>,
) -> Recorded<'a, O>
where
    R: AllocGlobal + Clock + Threads + Wait + Sync,
    O: Makes + Copy + Send,
    O::File: Send,
    O::Finished: Send,
    W: Write + Send,
    E: Outlet + Send,
    ensures { IfOk result (λ recording. AllZip (HasTrack (left_of O.File.remaining) (held O.File.contents O.kept)) devices.entry.items recording.tracks.items) }
{
    let syncs = Syncs::new(asked);
    let gate = Limiting {
        watch,
        courses,
        times,
    };
    let films = &mut *films;
    let keep = move || keep_files(rt, opener, watch, syncs, films);
    let tell = move || teller.tell();
    record_beside(rt, asked, &gate, watch, keep, tell, devices)
}

/// Records films while two other calls go on, each in a thread of its own; or it comes after the recording if no thread
/// can be started for it. They end soon after the watch says that the recording has ended.
fn record_beside<R, G, F, W, K, T>(
    rt: &R,
    asked: &RecordRequest<'_>,
    gate: &G,
    watch: &Watch<'_, R>,
    first: K,
    second: T,
    films: Vec<(F, W, Tuning)>,
) -> Result<Tracks<F, W>, (RecordFault, Vec<(F, W, Tuning)>)>
where
    R: AllocGlobal + Clock + Threads + Wait + Sync,
    G: Gate,
    F: Feed + Send + Drop,
    W: Outlet + Send + Drop,
    K: FnOnce() + Send,
    T: FnOnce() + Send,
    requires first { K.pre first }
    requires second { T.pre second }
    ensures { IfOk result (λ recording. AllZip (HasTrack F.remaining W.contents) films.items recording.tracks.items) }
{
    let ((), recorded) = thread::join(
        rt,
        first,
        move || -> Result<Tracks<F, W>, (RecordFault, Vec<(F, W, Tuning)>)>
            requires { T.pre second }
            ensures { IfOk result (λ recording. AllZip (HasTrack F.remaining W.contents) films.items recording.tracks.items) }
        { record_beside_one(rt, asked, gate, watch, second, films) },
    );
    recorded
}

/// Records films while another call goes on likewise.
fn record_beside_one<R, G, F, W, T>(
    rt: &R,
    asked: &RecordRequest<'_>,
    gate: &G,
    watch: &Watch<'_, R>,
    beside: T,
    films: Vec<(F, W, Tuning)>,
) -> Result<Tracks<F, W>, (RecordFault, Vec<(F, W, Tuning)>)>
where
    R: AllocGlobal + Clock + Threads + Wait + Sync,
    G: Gate,
    F: Feed + Send + Drop,
    W: Outlet + Send + Drop,
    T: FnOnce() + Send,
    requires { T.pre beside }
    ensures { IfOk result (λ recording. AllZip (HasTrack F.remaining W.contents) films.items recording.tracks.items) }
{
    let ((), recorded) = thread::join(
        rt,
        beside,
        move || -> Result<Tracks<F, W>, (RecordFault, Vec<(F, W, Tuning)>)>
            ensures { IfOk result (λ recording. AllZip (HasTrack F.remaining W.contents) films.items recording.tracks.items) }
        { record_to_end(rt, asked, gate, watch, films) },
    );
    recorded
}

/// Records films past a gate, and marks the recording as ended.
fn record_to_end<R, G, F, W>(
    rt: &R,
    asked: &RecordRequest<'_>,
    gate: &G,
    watch: &Watch<'_, R>,
    films: Vec<(F, W, Tuning)>,
) -> Result<Tracks<F, W>, (RecordFault, Vec<(F, W, Tuning)>)>
where
    R: AllocGlobal + Clock + Threads + Wait + Sync,
    G: Gate,
    F: Feed + Send + Drop,
    W: Outlet + Send + Drop,
    ensures tracks { IfOk result (λ recording. AllZip (HasTrack F.remaining W.contents) films.items recording.tracks.items) }
    ensures refused { IfErr result (λ refused. IsRefused asked.now films.items refused.0 refused.1.items) }
{
    let (workers, capacity, window) = (asked.workers, asked.capacity, asked.window);
    let recorded = record(rt, rt.alloc(), films, workers, capacity, window, gate);
    watch.end();
    recorded
}

/// Says how each film ended. The status is `DONE` only if each was recorded to its end, up to a stop that the program
/// was asked for or to the last of as many frames as were asked for, its files are on the disk, and what was to be said
/// of it on standard output was written.
fn finish_films<'a, R, O, W, E>(
    program: Program<'_, R, O, W, E>,
    watch: &Watch<'_, R>,
    times: &[FilmTimes<'a, O>],
    count: Option<u64>,
    films: &mut [Film<'_, O>],
    recorded: Recorded<'a, O>,
) -> Finished<'a, O>
where
    R: AllocGlobal + Clock + Wait,
    O: Makes + Copy,
    W: Write,
    E: Outlet,
    ensures { result.status ≡ DONE → MatchResult recorded.entry (λ recording. AllZip (IsWhole count) recording.tracks.items result.files.items) (λ _. ⊥) }
{
    let Program {
        rt,
        output,
        console,
        ..
    } = program;
    let Ends { files, are_whole } = end_films(rt, watch, times, count, films, recorded, console);
    let said = say_counts(rt.alloc(), watch, films, output, console);
    Finished {
        status: status_of(are_whole, said),
        files,
    }
}

/// The first status if it isn't `DONE`, else the other.
fn worse(status: u8, other: u8) -> u8
    ensures { result ≡ DONE → status ≡ DONE }
{
    if status == DONE { other } else { status }
}

/// The status: that of what was said, or `FAILED` unless all films are recorded.
fn status_of(are_whole: bool, said: u8) -> u8
    ensures { result ≡ DONE → are_whole ≡ true }
{
    if are_whole { said } else { FAILED }
}

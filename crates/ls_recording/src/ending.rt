//! Says how each film ended, once its recording has ended and is on the disk.
mod ended;
mod json;
pub mod report;
mod table;

ghost use Rattle.std.specs.Prelude.{◌≡◌, ◌⊎◌, true, false, IfOk, IfSome, MatchResult};
ghost use Rattle.std.specs.List.{AllZip};
ghost use Rattle.ls_frame.specs.View.Devices.{wrapped};
ghost use Rattle.ls_opening.specs.View.Devices.{target_of};
ghost use Rattle.ls_recording.specs.View.Films.{IsComplete, IsWhole, was_stopped};

use crate::recording::{FilmTrack, Recorded};
use crate::watching::Watch;
use crate::watching::times::{BrokenTimes, FilmTimes, TimesFault, TimesFile};
use ls_archive::IndexFault;
use ls_command::MOST_FILMS;
use ls_console::{
    Cause, Console, DONE, EndedIndex, FAILED, Shown, cause_of_input, explain, no_memory,
    say_index_end, say_unmade, say_unsynced, write_text,
};
use ls_files::{INDEX, Makes, Opens, TIMES, Target, Targets, Unmade, piece_path};
use ls_frame::{Counted, Failed, NetpbmFault, Outlet};
use ls_opening::{BesideParts, BrokenIndex, Film, IndexFollower, Names, Parts, Synced};
use ls_recorder::{LaneFault, Track};
use std::alloc::{AllocError, Global};
use std::io::Write;
use std::sync::Wait;
use std::time::Clock;

/// The ends of all films: their files, and whether each film was recorded completely and is on the disk with its index
/// and its times, if it has them.
#[derive(Drop)]
pub struct Ends<'a, O: Makes> {
    pub files: Vec<EndedFiles<'a, O>>,
    pub are_whole: bool,
}

/// The files of a film that has ended: the finished pieces of its recording, and those that are open, of its recording
/// or of the last piece.
#[derive(Drop)]
pub struct EndedFiles<'a, O: Makes> {
    pub finished: O::Finished,
    pub open: Targets<'a, O>,
}

/// The end of a film likewise.
#[derive(Drop)]
struct End<'a, O: Makes> {
    files: EndedFiles<'a, O>,
    is_whole: bool,
}

/// Settles each film's files that aren't settled yet, says why it stopped, if it did and that wasn't said, and returns
/// the films' files. If no recording began, or memory runs out, says so and returns none: then not all are recorded.
pub fn end_films<'a, R, O, E>(
    rt: &R,
    watch: &Watch<'_, R>,
    times: &[FilmTimes<'a, O>],
    count: Option<u64>,
    films: &mut [Film<'_, O>],
    recorded: Recorded<'a, O>,
    console: &mut Console<E>,
) -> Ends<'a, O>
where
    R: AllocGlobal + Clock + Wait,
    O: Makes + Copy,
    E: Outlet,
    ensures { result.are_whole ≡ true → MatchResult recorded.entry (λ recording. AllZip (IsWhole count) recording.tracks.items result.files.items) (λ _. ⊥) }
{
    match recorded {
        Ok(recording) => match end_tracks(
            rt,
            watch,
            times,
            count,
            films,
            recording.tracks,
            console,
        ) {
            Ok(ends) => ends,
            Err(AllocError) => {
                no_memory(console);
                no_files(rt.alloc())
            }
        },
        Err((fault, _devices)) => {
            console.say(fault);
            for film in films.iter_mut() {
                film.give_back();
            }
            no_files(rt.alloc())
        }
    }
}

/// The ends of films of which not all are recorded, without files.
fn no_files<'a, O: Makes>(alloc: Global) -> Ends<'a, O>
    ensures { result.are_whole ≡ false }
{
    Ends {
        files: Vec::new(alloc),
        are_whole: false,
    }
}

/// Settles each film's files that aren't settled yet, and says why it stopped, if it did and that wasn't said.
fn end_tracks<'a, R, O, E>(
    rt: &R,
    watch: &Watch<'_, R>,
    times: &[FilmTimes<'a, O>],
    count: Option<u64>,
    films: &mut [Film<'_, O>],
    mut tracks: Vec<FilmTrack<'a, O>>,
    console: &mut Console<E>,
) -> Result<Ends<'a, O>, AllocError>
where
    R: AllocGlobal + Clock + Wait,
    O: Makes + Copy,
    E: Outlet,
    ensures { IfOk result (λ ends. ends.are_whole ≡ true → AllZip (IsWhole count) tracks.entry.items ends.files.items) }
{
    let mut told = [false; MOST_FILMS];
    watch.told(&mut told);
    let mut files = Vec::new(rt.alloc());
    let mut are_whole = true;
    for film in films.iter_mut() {
        if !tracks.is_empty() {
            let track = tracks.remove(0);
            let number = files.len();
            let written = watch.written(number);
            let own_times = take_times(rt, times, number);
            let was_told = is_told(&told, number);
            let alloc = rt.alloc();
            let end = say_end(
                alloc, film, track, own_times, count, written, was_told, console,
            );
            are_whole = are_whole & end.is_whole;
            files.push(end.files)?;
        }
    }
    Ok(Ends {
        files,
        are_whole: are_whole & tracks.is_empty(),
    })
}

/// Says the number of frames of each complete recording, unless that was said. Returns the status: `FAILED` if a line
/// couldn't be written.
pub fn say_counts<R, O, W, E>(
    alloc: Global,
    watch: &Watch<'_, R>,
    films: &[Film<'_, O>],
    output: &mut Counted<W>,
    console: &mut Console<E>,
) -> u8
where
    R: Clock,
    O: Makes,
    W: Write,
    E: Outlet,
    ensures { (result ≡ DONE) ⊎ (result ≡ FAILED) }
{
    for (number, film) in films.iter().enumerate() {
        // After a line that couldn't be written, no more are written.
        if Outlet::failures(output) > 0 {
            return FAILED;
        }
        match film.frames {
            Some(frames) if !watch.is_counted(number) => {
                let (file, is_stopped) = (film.names.file, film.is_stopped);
                let said = say_count(alloc, file, frames, is_stopped, output, console);
                if said != DONE {
                    return said;
                }
            }
            _ => {}
        }
    }
    DONE
}

/// Releases the files of recordings.
pub fn release<O: Makes + Drop>(files: Vec<EndedFiles<'_, O>>) {
    for recorded in files {
        let Targets {
            recording,
            index,
            times,
        } = recorded.open;
        recording.release();
        release_beside(index);
        release_beside(times);
    }
}

/// Releases a file beside a recording, if there is one.
fn release_beside<O: Opens + Drop>(file: Option<Target<'_, O>>) {
    if let Some(file) = file {
        file.release();
    }
}

/// The file of the times of the film of this number, which has ended, if it has one.
fn take_times<'a, R: Wait, O: Makes + Copy + Drop>(
    rt: &R,
    times: &[FilmTimes<'a, O>],
    film: usize,
) -> Option<TimesFile<'a, O>> {
    times.get(film)?.end(rt)
}

/// Whether it was said why the film of this number stopped.
fn is_told(told: &[bool], film: usize) -> bool {
    match told.get(film) {
        Some(was_told) => *was_told,
        None => false,
    }
}

/// Settles a film's files, if they aren't settled yet, and says why it stopped, if it did and that wasn't said. Notes
/// its number of frames only if its recording is complete.
fn say_end<'a, O, E>(
    alloc: Global,
    film: &mut Film<'_, O>,
    track: FilmTrack<'a, O>,
    times: Option<TimesFile<'a, O>>,
    count: Option<u64>,
    written: u64,
    was_told: bool,
    console: &mut Console<E>,
) -> End<'a, O>
where
    O: Makes + Copy + Drop,
    E: Outlet,
    ensures whole { result.is_whole ≡ true → IsWhole count track.entry result.files }
    ensures frames { IfSome film.new.frames (IsComplete count track.entry.result (was_stopped track.entry.reader)) }
{
    let Track {
        reader,
        writer,
        result,
    } = track;
    let names = film.names;
    let file = names.file;
    let reader = reader.get_ref();
    film.is_stopped = reader.get_ref().get_ref().is_stopped();
    let result = outcome_of(result, film.is_stopped, count);
    let synced = film.settle(result.is_err(), written);
    let failure = writer.last_failure();
    let Parts {
        finished,
        last,
        beside,
        unmade,
    } = writer.into_inner().into_parts();
    if let Err(fault) = result {
        if !was_told {
            let shown = Shown(file);
            console.say(format_args!("{shown}: {fault}"));
        }
        match cause_of(fault) {
            Cause::Writing => {
                console.blame_writing(file, failure, Some(written));
                say_unmade_piece(alloc, names, unmade, console);
            }
            cause => explain(file, cause, reader, None, console),
        }
    }
    let frames = match (result, synced.recording) {
        (Ok(frames), Ok(())) => Some(frames),
        (Ok(_), Err(failure)) => {
            say_unsynced(file, &last, failure, console);
            None
        }
        (Err(_), _) => None,
    };
    if let Some(name) = film.left_over() {
        console.mention(names.recording.as_str(), name);
    }
    let (index, times) = end_beside(alloc, film, beside, times, synced, console);
    film.frames = frames;
    End {
        files: EndedFiles {
            finished,
            open: Targets {
                recording: last,
                index,
                times,
            },
        },
        is_whole: frames.is_some() && !film.is_beside_broken,
    }
}

/// Says why the files beside a recording, or beside pieces of it, aren't whole, if they aren't, and returns those that
/// it or its last piece has: its index, and the times of its frames.
fn end_beside<'a, O, E>(
    alloc: Global,
    film: &mut Film<'_, O>,
    beside: BesideParts<'a, O>,
    times: Option<TimesFile<'a, O>>,
    synced: Synced,
    console: &mut Console<E>,
) -> (Option<Target<'a, O>>, Option<Target<'a, O>>)
where
    O: Makes + Copy + Drop,
    E: Outlet,
{
    let BesideParts {
        follower,
        fault,
        broken,
        piece,
    } = beside;
    say_broken_index(alloc, film, broken, console);
    let index = match follower {
        Some(follower) => {
            let index = end_index(alloc, film, piece, follower, synced.index, fault, console);
            Some(index)
        }
        None => None,
    };
    let times = match times {
        Some(times) => Some(end_times(alloc, film, times, synced.times, console)),
        None => None,
    };
    (index, times)
}

/// Says which file of a piece couldn't be made, if one couldn't, and why, if reasons are on.
fn say_unmade_piece<E: Outlet>(
    alloc: Global,
    names: &Names<'_>,
    unmade: Option<(u32, Unmade)>,
    console: &mut Console<E>,
) {
    if let Some((piece, unmade)) = unmade {
        let ending = match unmade.beside {
            Some(beside) => beside.ending(),
            None => "",
        };
        if let Ok(path) = beside_path(alloc, names, piece, ending) {
            let _failed = say_unmade(&path, unmade.fault, console);
        }
    }
}

/// The path of a recording, of an index or of times, by its ending: of the first piece, or of a later one.
fn beside_path(
    alloc: Global,
    names: &Names<'_>,
    piece: u32,
    ending: &str,
) -> Result<String, AllocError> {
    let recording = piece_path(alloc, names.recording.as_str(), piece)?;
    format!(in alloc; "{recording}{ending}")
}

/// Says why the index of a finished piece isn't whole, if one isn't.
fn say_broken_index<'a, O, E>(
    alloc: Global,
    film: &mut Film<'_, O>,
    broken: Option<BrokenIndex<'a, O>>,
    console: &mut Console<E>,
)
where
    O: Makes + Copy + Drop,
    E: Outlet,
{
    if let Some(
        BrokenIndex {
            piece,
            follower,
            fault,
        },
    ) = broken
    {
        let _target = end_index(alloc, film, piece, follower, Ok(()), Some(fault), console);
    }
}

/// Says why the index of a film isn't whole, if it isn't, and returns its file: of the piece of this number, if the
/// recording is cut into pieces.
fn end_index<'a, O, E>(
    alloc: Global,
    film: &mut Film<'_, O>,
    piece: u32,
    follower: IndexFollower<'a, O>,
    synced: Result<(), Failed>,
    broken: Option<IndexFault>,
    console: &mut Console<E>,
) -> Target<'a, O>
where
    O: Makes + Copy + Drop,
    E: Outlet,
{
    let broken = broken.map(|fault| (fault, cause_of_index(fault)));
    let path = beside_path(alloc, film.names, piece, INDEX);
    let path = match &path {
        Ok(path) => path.as_str(),
        Err(_) => film.names.index.as_str(),
    };
    let EndedIndex { is_whole, target } = say_index_end(
        path,
        follower.into_inner(),
        synced,
        broken,
        console,
    );
    film.is_beside_broken = film.is_beside_broken | !is_whole;
    target
}

/// Says why not all times of a film were written, if they weren't, and returns their file, or that of the last piece.
fn end_times<'a, O, E>(
    alloc: Global,
    film: &mut Film<'_, O>,
    times: TimesFile<'a, O>,
    synced: Result<(), Failed>,
    console: &mut Console<E>,
) -> Target<'a, O>
where
    O: Makes + Copy + Drop,
    E: Outlet,
{
    let TimesFile {
        piece,
        output,
        fault,
        broken,
        ..
    } = times;
    if let Some(
        BrokenTimes {
            piece,
            output,
            fault,
        },
    ) = broken
    {
        let fault = Some(fault);
        let _target = end_times_of(alloc, film, piece, output, Ok(()), fault, console);
    }
    end_times_of(alloc, film, piece, output, synced, fault, console)
}

/// Says why not all times of a piece were written, if they weren't, and returns their file.
fn end_times_of<'a, O, E>(
    alloc: Global,
    film: &mut Film<'_, O>,
    piece: u32,
    output: Counted<Target<'a, O>>,
    synced: Result<(), Failed>,
    fault: Option<TimesFault>,
    console: &mut Console<E>,
) -> Target<'a, O>
where
    O: Makes + Copy + Drop,
    E: Outlet,
{
    let broken = fault.map(|fault| (fault, fault.cause()));
    let path = beside_path(alloc, film.names, piece, TIMES);
    let path = match &path {
        Ok(path) => path.as_str(),
        Err(_) => film.names.times.as_str(),
    };
    let EndedIndex { is_whole, target } = say_index_end(path, output, synced, broken, console);
    film.is_beside_broken = film.is_beside_broken | !is_whole;
    target
}

/// The outcome of a film: to its lane a stop that the program was asked for is a failed read, after the last frame that
/// was read whole, and so is the end of as many frames as were asked for.
pub fn outcome_of(
    outcome: Result<u64, LaneFault>,
    is_stopped: bool,
    count: Option<u64>,
) -> Result<u64, LaneFault>
    ensures { IfOk result (IsComplete count outcome is_stopped) }
{
    match outcome {
        Err(LaneFault::Input(frames, NetpbmFault::Io)) if is_stopped || count == Some(frames) => {
            Ok(frames)
        }
        _ => outcome,
    }
}

/// The cause of an index's fault.
fn cause_of_index(fault: IndexFault) -> Cause {
    match fault {
        IndexFault::Output(_) => Cause::Writing,
        _ => Cause::Other,
    }
}

/// The cause of a lane's fault.
fn cause_of(fault: LaneFault) -> Cause {
    match fault {
        LaneFault::Input(number, fault) => cause_of_input(number, fault),
        LaneFault::Output(_) => Cause::Writing,
        _ => Cause::Other,
    }
}

/// Says the number of recorded frames of the film FILE, and whether it was stopped, and returns the status.
pub fn say_count<W, E>(
    alloc: Global,
    file: &str,
    frames: u64,
    is_stopped: bool,
    output: &mut Counted<W>,
    console: &mut Console<E>,
) -> u8
where
    W: Write,
    E: Outlet,
    ensures { (result ≡ DONE) ⊎ (result ≡ FAILED) }
{
    let file = Shown(file);
    let ended = if is_stopped { ", stopped" } else { "" };
    match format!(in alloc; "{file}: {frames} frames{ended}\n") {
        Ok(line) => write_text(line.as_bytes(), output, console),
        Err(_) => no_memory(console),
    }
}

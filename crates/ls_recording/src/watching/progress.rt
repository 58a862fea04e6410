//! The thread that keeps the time of a recording and says progress: it ends the recording once that is due, wakes lanes
//! whose pipes no one has opened, and writes to standard error: on a terminal progress in its place, elsewhere lines. It
//! waits for no disk.
use super::Watch;
use super::keeping::may_be_stop;
use super::line::{line_of, lines_of};
use super::pace::Pace;
use super::schedule::Deadline;
use crate::ending::say_count;
use ls_console::{Console, Program, Shown};
use ls_files::Makes;
use ls_frame::{Counted, Outlet};
use std::alloc::{AllocError, Global};
use std::io::Write;
use std::sync::Wait;
use std::time::Clock;

/// The nanoseconds after which progress is said again: a little less than the wait, which may end a little early.
const DUE: u64 = 450_000_000;

/// Keeps the time while films are recorded, and says their progress, if that is wanted.
#[derive(Drop)]
pub struct Teller<'s, R, O, W, E> {
    pub program: Program<'s, R, O, W, E>,
    pub watch: &'s Watch<'s, R>,
    pub deadline: Deadline,
    /// The films' names.
    pub files: &'s [&'s str],
    /// Whether progress is said.
    pub is_telling: bool,
}

impl<'s, R, O, W, E> Teller<'s, R, O, W, E>
where
    R: AllocGlobal + Clock + Wait,
    O: Makes + Copy + Drop,
    W: Write,
    E: Outlet,
{
    /// Until the recording ends, says immediately of which film what is recorded can't be brought onto the disk; and,
    /// if progress is wanted, which film has ended or stopped, and twice a second how far each is.
    ///
    /// Asks the program to stop once the time for that has come. Once it was asked to stop, wakes the lanes whose pipes
    /// no one has opened, every 10 ms, and says that, if progress is wanted.
    ///
    /// If memory runs out at the beginning, does nothing; later, what it ran out for isn't said that time.
    pub fn tell(self) {
        let Teller {
            program,
            watch,
            mut deadline,
            files,
            is_telling,
        } = self;
        let Program {
            rt,
            opener,
            output,
            console,
        } = program;
        let alloc = rt.alloc();
        let Ok(mut progress) = Progress::new(alloc, files, watch.now()) else {
            return;
        };
        let mut is_stopping = false;
        let mut is_stop_said = false;
        for _ in rt.forever() {
            watch.wait(deadline.wait(watch.age(), is_telling, is_stopping));
            if watch.is_over() {
                break;
            }
            if deadline.is_due(watch.age()) {
                opener.stop();
            }
            is_stopping = opener.is_stopping();
            if is_stopping {
                wake_awaited(opener, watch, files);
            }
            tell_unsynced(watch, files, console);
            if is_telling {
                if is_stopping && !is_stop_said {
                    tell_stop(watch, files.len(), console);
                    is_stop_said = true;
                }
                tell_news(opener, watch, files, console);
                tell_counts(alloc, watch, files, output, console);
                progress.tell(watch, console);
            }
        }
        console.clear();
    }
}

/// The progress of all films, as it was said last.
#[derive(Drop)]
struct Progress<'s> {
    alloc: Global,
    /// The films' names.
    files: &'s [&'s str],
    paces: Vec<Pace>,
    /// When it was said last.
    said: u64,
    /// How often it was said.
    times: usize,
}

impl<'s> Progress<'s> {
    /// The progress before the first look, which is at the time `now`.
    fn new(alloc: Global, files: &'s [&'s str], now: u64) -> Result<Progress<'s>, AllocError> {
        let mut paces = Vec::new(alloc);
        for _file in files {
            paces.push(Pace::new(alloc))?;
        }
        Ok(Progress {
            alloc,
            files,
            paces,
            said: now,
            times: 0,
        })
    }

    /// Says how far each film is, if that is due: on a terminal in its place, elsewhere of each film whose progress in
    /// words has changed.
    fn tell<R: Clock, E: Outlet>(&mut self, watch: &Watch<'_, R>, console: &mut Console<E>) {
        let now = watch.now();
        let time = now.saturating_sub(self.said);
        if time >= DUE {
            let _refused = self.look(watch, now, time, console);
            if console.is_terminal() {
                let _refused = self.show(console);
            }
            self.times = self.times.wrapping_add(1);
            self.said = now;
        }
    }

    /// Looks at the progress of each film, `time` nanoseconds after the last look. Where there is no terminal, says it
    /// if its words have changed.
    fn look<R: Clock, E: Outlet>(
        &mut self,
        watch: &Watch<'_, R>,
        now: u64,
        time: u64,
        console: &mut Console<E>,
    ) -> Result<(), AllocError> {
        for (film, (file, pace)) in self.files.iter().zip(self.paces.iter_mut()).enumerate() {
            let Some(seen) = watch.seen(film) else {
                continue;
            };
            let has_news = pace.step(self.alloc, &seen, now, time)?;
            if has_news && !console.is_terminal() {
                let (file, text) = (Shown(file), pace.text());
                console.say(format_args!("{file}: {text}"));
            }
        }
        Ok(())
    }

    /// Shows the progress of all films in a line; or in a line for each, if the terminal is high enough.
    fn show<E: Outlet>(&self, console: &mut Console<E>) -> Result<(), AllocError> {
        match console.columns_of_all(self.files.len()) {
            Some(columns) => {
                let line = line_of(self.alloc, self.files, &self.paces, self.times, columns)?;
                console.show(&line);
            }
            None => {
                let lines = lines_of(self.alloc, self.files, &self.paces, console.columns())?;
                console.show_lines(&lines);
            }
        }
        Ok(())
    }
}

/// Wakes the lanes that wait for what writes to their pipes, so that they see that they are to stop.
fn wake_awaited<R, O>(opener: O, watch: &Watch<'_, R>, files: &[&str])
where
    R: Clock,
    O: Makes + Copy + Drop,
{
    for (film, file) in files.iter().enumerate() {
        if watch.ended(film).is_none() {
            opener.wake(*file);
        }
    }
}

/// Says that the recording ends, and how many frames were read that are still to be coded or written.
fn tell_stop<R: Clock, E: Outlet>(watch: &Watch<'_, R>, films: usize, console: &mut Console<E>) {
    let mut frames: u64 = 0;
    for film in 0..films {
        if let Some(seen) = watch.seen(film) {
            frames = frames.saturating_add(seen.read.saturating_sub(seen.written));
        }
    }
    console.say(format_args!(
        "ending: {frames} frames are still to be coded; another signal ends at once"
    ));
}

/// Says of which films what is recorded can't be brought onto the disk, if that was found since.
fn tell_unsynced<R: Clock, E: Outlet>(
    watch: &Watch<'_, R>,
    files: &[&str],
    console: &mut Console<E>,
) {
    for (film, file) in files.iter().enumerate() {
        if watch.is_unsynced_since(film) {
            let file = Shown(file);
            console.say(format_args!("{file}: what is recorded can't be brought onto the disk"));
        }
    }
}

/// Writes the number of frames of each film that has ended since and is on the disk.
fn tell_counts<R, W, E>(
    alloc: Global,
    watch: &Watch<'_, R>,
    files: &[&str],
    output: &mut Counted<W>,
    console: &mut Console<E>,
)
where
    R: Clock,
    W: Write,
    E: Outlet,
{
    for (film, file) in files.iter().enumerate() {
        if let Some(frames) = watch.count_to_say(film) {
            console.clear();
            let _said = say_count(alloc, *file, frames, false, output, console);
        }
    }
}

/// Says why each film stopped that has stopped since.
fn tell_news<R, O, E>(opener: O, watch: &Watch<'_, R>, files: &[&str], console: &mut Console<E>)
where
    R: Clock,
    O: Makes + Copy + Drop,
    E: Outlet,
{
    for (film, file) in files.iter().enumerate() {
        let Some(fault) = watch.fault(film) else {
            continue;
        };
        if !may_be_stop(&opener, fault) && watch.news(film).is_some() {
            let file = Shown(file);
            console.say(format_args!("{file}: {fault}"));
        }
    }
}

//! Writes when each frame of a film came and when it was recorded, as `record --times` wants it.
use ls_console::Cause;
use ls_files::{Makes, Opens, Target};
use ls_frame::{Counted, write_bytes};
use ls_opening::Cutting;
use ls_recorder::MOST_WINDOW;
use std::alloc::{AllocError, Global};
use std::fmt::{Display, Formatter};
use std::sync::atomic::{AtomicU64, Ordering};
use std::sync::{Mutex, Wait};
use std::{fmt, mem};

/// Why not all times of a film were written.
#[derive(Clone, Copy)]
pub enum TimesFault {
    /// A write failed after this number of bytes.
    Output(u64),
    NoMemory,
}

impl Display for TimesFault {
    fn fmt<W: fmt::Write>(&self, f: &mut Formatter<W>) -> fmt::Result {
        match *self {
            TimesFault::Output(bytes) => write!(f, "output failed after {bytes} bytes"),
            TimesFault::NoMemory => f.write_str("no memory"),
        }
    }
}

impl TimesFault {
    /// The cause of the fault.
    pub fn cause(self) -> Cause {
        match self {
            TimesFault::Output(_) => Cause::Writing,
            TimesFault::NoMemory => Cause::Other,
        }
    }
}

/// The file of a film's times, or of those of the last piece of its recording, and why no more are written to it, if
/// that is so.
#[derive(Drop)]
pub struct TimesFile<'a, O: Opens> {
    alloc: Global,
    /// It reads the clock.
    opener: O,
    path: &'a str,
    /// The number of the piece.
    pub piece: u32,
    pub output: Counted<Target<'a, O>>,
    pub fault: Option<TimesFault>,
    /// The first file of another piece to which not all times were written.
    pub broken: Option<BrokenTimes<'a, O>>,
}

/// The file of the times of a piece, and why not all of them were written.
#[derive(Drop)]
pub struct BrokenTimes<'a, O: Opens> {
    pub piece: u32,
    pub output: Counted<Target<'a, O>>,
    pub fault: TimesFault,
}

impl<'a, O: Opens + Copy + Drop> TimesFile<'a, O> {
    /// Goes on with the file of the piece of this number.
    fn follow(&mut self, file: O::File, piece: u32) {
        let next = Counted::new(Target::opened(self.opener, self.path, file));
        let output = mem::replace(&mut self.output, next);
        if let Some(fault) = self.fault.take() {
            if self.broken.is_none() {
                let piece = self.piece;
                self.broken = Some(BrokenTimes {
                    piece,
                    output,
                    fault,
                });
            }
        }
        self.piece = piece;
    }

    /// Writes the line of the frame of this number, of which the first byte and the last came at these times, and whose
    /// codestream has just been written to the recording. After a fault no more lines are written to the file.
    fn write(&mut self, number: u64, first: u64, last: u64) {
        if self.fault.is_none() {
            let out = self.opener.now();
            self.fault = match format!(in self.alloc; "{number} {first} {last} {out}\n") {
                Ok(line) => self.write_line(&line),
                Err(_) => Some(TimesFault::NoMemory),
            };
        }
    }

    /// Writes a line. Returns why it couldn't.
    fn write_line(&mut self, line: &str) -> Option<TimesFault> {
        match write_bytes(&mut self.output, line.as_bytes()) {
            Ok(()) => None,
            Err(_) => Some(TimesFault::Output(self.output.get_ref().written())),
        }
    }
}

/// The times of a film's frames that aren't written yet, and the file to which they are written. The thread that reads
/// the film notes them, and the one that writes its recording writes them.
pub type FilmTimes<'a, O> = PendingTimes<TimesFile<'a, O>, Cutting<'a, O>>;

/// Times that aren't written yet, and the file `F` to which they are written.
#[derive(Drop)]
pub struct PendingTimes<F, C> {
    /// Where the recording is cut into pieces, if it is.
    cutting: Option<C>,
    /// When the first byte and the last of each frame came, at its number modulo the widest window.
    first: Vec<AtomicU64>,
    last: Vec<AtomicU64>,
    /// The file, until the film has ended. Only one thread at a time uses it.
    file: Mutex<Option<F>>,
}

impl<'a, O: Makes + Copy + Drop> PendingTimes<TimesFile<'a, O>, Cutting<'a, O>> {
    /// Times to be written to this file at a path, and to those of further pieces of the recording if it is cut into
    /// such. The opener reads the clock.
    pub fn new(
        alloc: Global,
        opener: O,
        path: &'a str,
        target: Target<'a, O>,
        cutting: Option<Cutting<'a, O>>,
    ) -> Result<FilmTimes<'a, O>, AllocError> {
        Ok(PendingTimes {
            cutting,
            first: places(alloc)?,
            last: places(alloc)?,
            file: Mutex::new(Some(TimesFile {
                alloc,
                opener,
                path,
                piece: 0,
                output: Counted::new(target),
                fault: None,
                broken: None,
            })),
        })
    }

    /// Notes when the first byte and the last of the frame of this number came.
    pub fn note(&self, number: u64, (first, last): (u64, u64)) {
        if let (Some(first_at), Some(last_at)) = (at(&self.first, number), at(&self.last, number)) {
            first_at.store(first, Ordering::SeqCst);
            last_at.store(last, Ordering::SeqCst);
        }
    }

    /// Writes the line of the frame of this number, whose codestream has just been written to the recording: to the file
    /// of the next piece, if that was begun.
    pub fn write<R: Wait>(&self, rt: &R, number: u64) {
        if let (Some(first), Some(last)) = (at(&self.first, number), at(&self.last, number)) {
            if let Some(file) = &mut *self.file.lock(rt) {
                if let Some(cutting) = self.cutting {
                    if let Some(next) = cutting.chain.take_times() {
                        file.follow(next, cutting.chain.begun());
                    }
                }
                file.write(
                    number,
                    first.load(Ordering::SeqCst),
                    last.load(Ordering::SeqCst),
                );
            }
        }
    }

    /// Takes the file, once the film has ended; `None` if it was taken before.
    pub fn end<R: Wait>(&self, rt: &R) -> Option<TimesFile<'a, O>> {
        self.file.lock(rt).take()
    }
}

/// A place for a time of each frame that may be read and not written.
fn places(alloc: Global) -> Result<Vec<AtomicU64>, AllocError> {
    let mut places = Vec::new(alloc);
    for _place in 0..MOST_WINDOW {
        places.push(AtomicU64::new(0))?;
    }
    Ok(places)
}

/// The place of the frame of this number.
fn at(places: &[AtomicU64], number: u64) -> Option<&AtomicU64> {
    places.get((number % MOST_WINDOW as u64) as usize)
}

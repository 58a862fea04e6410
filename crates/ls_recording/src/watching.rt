//! Watches a recording while it goes on: a gate that counts and takes times, for the thread that keeps the films'
//! files, for the one that keeps the time and says progress, and for a report.
mod distances;
mod film;
pub mod keeping;
pub mod limiting;
mod line;
mod pace;
pub mod progress;
pub mod schedule;
pub mod seen;
pub mod times;

use film::FilmWatch;
use ls_recorder::{Gate, LaneFault, Moment, Notice};
use seen::Seen;
use std::alloc::{AllocError, Global};
use std::sync::Wait;
use std::sync::atomic::{AtomicBool, AtomicU64, Ordering};
use std::thread::Parker;
use std::time::{Clock, Duration, Instant};

/// The counts and times of a recording. Its lanes and workers update them, and any thread may read them meanwhile.
///
/// Times are nanoseconds since it was made; they stay 0 if the clock can't be read, or no times are wanted.
#[derive(Drop)]
pub struct Watch<'r, R> {
    clock: &'r R,
    made: Option<Instant>,
    is_timed: bool,
    films: Vec<FilmWatch>,
    /// The sum of the times at which codings ended, less those at which they began, modulo 2^64: once none goes on,
    /// the time that all took.
    coding: AtomicU64,
    /// Whether the recording has ended, and when it did.
    over: AtomicBool,
    lasted: AtomicU64,
    /// These wake the thread that says progress and the one that keeps the films' files when a film's first codestream
    /// is written, a film stops or ends, or the recording ends; and the first also when the second has noted something,
    /// the second also when a piece of a recording is finished.
    telling: Parker,
    keeping: Parker,
}

impl<'r, R: Clock> Watch<'r, R> {
    /// A watch over `films` films, of which nothing is seen yet, with the number of frames after which each is read no
    /// further, if there is one, and with times or without.
    pub fn new(
        clock: &'r R,
        alloc: Global,
        films: usize,
        count: Option<u64>,
        is_timed: bool,
    ) -> Result<Watch<'r, R>, AllocError> {
        let mut watches = Vec::new(alloc);
        for _film in 0..films {
            watches.push(FilmWatch::new(alloc, count)?)?;
        }
        Ok(Watch {
            clock,
            made: Instant::now(clock).ok(),
            is_timed,
            films: watches,
            coding: AtomicU64::new(0),
            over: AtomicBool::new(false),
            lasted: AtomicU64::new(0),
            telling: Parker::new(),
            keeping: Parker::new(),
        })
    }

    /// The time now, if times are wanted.
    pub fn now(&self) -> u64 {
        if self.is_timed { self.age() } else { 0 }
    }

    /// The nanoseconds since it was made; 0 if the clock can't be read.
    pub fn age(&self) -> u64 {
        let Some(made) = self.made else {
            return 0;
        };
        match Instant::now(self.clock) {
            Ok(now) => nanoseconds(now.duration_since(made)),
            Err(_) => 0,
        }
    }

    /// The counts and times of the film of this number, if there is one.
    pub fn seen(&self, film: usize) -> Option<Seen> {
        Some(self.films.get(film)?.seen())
    }

    /// The outcome of the film of this number, if its lane has ended: nothing more is written of it then.
    pub fn ended(&self, film: usize) -> Option<Result<u64, LaneFault>> {
        self.films.get(film)?.ended()
    }

    /// The number of codestreams written for the film of this number.
    pub fn written(&self, film: usize) -> u64 {
        match self.films.get(film) {
            Some(film) => film.written(),
            None => 0,
        }
    }

    /// The fault that stopped the film of this number, if it stopped.
    pub fn fault(&self, film: usize) -> Option<LaneFault> {
        self.films.get(film)?.fault()
    }

    /// The fault that stopped the film of this number, if it stopped and no call has given that before: so it is
    /// reported once.
    pub fn news(&self, film: usize) -> Option<LaneFault> {
        self.films.get(film)?.news()
    }

    /// Puts into `told`, for each film in order, whether `news` has given the fault that stopped it.
    pub fn told(&self, told: &mut [bool]) {
        for (film, told) in self.films.iter().zip(told.iter_mut()) {
            *told = film.was_told();
        }
    }

    /// The time that all codings took together. While one goes on, it means nothing.
    pub fn coding(&self) -> u64 {
        self.coding.load(Ordering::SeqCst)
    }

    /// Notes that the files of the film of this number are settled and on the disk.
    pub fn note_settled(&self, film: usize) {
        if let Some(film) = self.films.get(film) {
            if film.note_settled() {
                self.telling.unpark();
            }
        }
    }

    /// Notes that what is recorded of the film of this number can't be brought onto the disk.
    pub fn note_unsynced(&self, film: usize) {
        if let Some(film) = self.films.get(film) {
            film.note_unsynced();
            self.telling.unpark();
        }
    }

    /// Whether it was noted, since this was last asked, that what is recorded of the film of this number can't be
    /// brought onto the disk.
    pub fn is_unsynced_since(&self, film: usize) -> bool {
        match self.films.get(film) {
            Some(film) => film.is_unsynced_since(),
            None => false,
        }
    }

    /// The number of frames of the film of this number, if it was recorded completely and is settled, and no call has
    /// given that before: so it is said once.
    pub fn count_to_say(&self, film: usize) -> Option<u64> {
        self.films.get(film)?.count_to_say()
    }

    /// Whether `count_to_say` has given the number of frames of the film of this number.
    pub fn is_counted(&self, film: usize) -> bool {
        match self.films.get(film) {
            Some(film) => film.is_counted(),
            None => false,
        }
    }

    /// Waits `longest` at most; less if a film's first codestream is written, a film stops or ends, something is noted
    /// of its files, or the recording ends. For the thread that says progress.
    pub fn wait(&self, longest: Duration)
    where
        R: Wait,
    {
        self.telling.park_timeout(self.clock, longest);
    }

    /// Waits `longest` at most; less if a film's first codestream is written, a piece of a recording is finished, a
    /// film stops or ends, or the recording ends. For the thread that keeps the films' files.
    pub fn wait_for_files(&self, longest: Duration)
    where
        R: Wait,
    {
        self.keeping.park_timeout(self.clock, longest);
    }

    /// Notes that a piece of a recording is finished.
    pub fn note_finished(&self) {
        self.keeping.unpark();
    }

    fn ring(&self) {
        self.telling.unpark();
        self.keeping.unpark();
    }

    /// Marks the recording as ended.
    pub fn end(&self) {
        self.lasted.store(self.now(), Ordering::SeqCst);
        self.over.store(true, Ordering::SeqCst);
        self.ring();
    }

    /// The time that the recording lasted, once it has ended.
    pub fn lasted(&self) -> u64 {
        self.lasted.load(Ordering::SeqCst)
    }

    /// Whether the recording has ended.
    pub fn is_over(&self) -> bool {
        self.over.load(Ordering::SeqCst)
    }
}

impl<'r, R: Clock + Sync> Gate for Watch<'r, R> {
    fn pass(&self, _source: u8, _number: u64, moment: Moment) {
        let now = self.now();
        match moment {
            Moment::Before => self.coding.fetch_sub(now, Ordering::SeqCst),
            Moment::After => self.coding.fetch_add(now, Ordering::SeqCst),
        };
    }

    fn notice(&self, source: u8, notice: Notice) {
        if let Some(film) = self.films.get(usize::from(source)) {
            film.take(notice, self.now());
        }
        if rings(notice) {
            self.ring();
        }
    }
}

/// Whether a notice wakes the threads that wait.
fn rings(notice: Notice) -> bool {
    match notice {
        Notice::Ended(_) | Notice::Stops(_) => true,
        Notice::Written { number, .. } => number == 0,
        _ => false,
    }
}

fn nanoseconds(time: Duration) -> u64 {
    time.as_secs()
        .saturating_mul(1_000_000_000)
        .saturating_add(u64::from(time.subsec_nanos()))
}

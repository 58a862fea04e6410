//! The counts and times of one film.
use super::distances::Distances;
use super::seen::{Doing, Seen};
use crate::ending::outcome_of;
use ls_recorder::{LaneFault, MOST_WINDOW, Notice};
use std::alloc::{AllocError, Global};
use std::sync::OnceLock;
use std::sync::atomic::{AtomicBool, AtomicU64, Ordering};

/// The counts and times of a film. Each is updated by one thread at a time: `bytes_out`, `written` and `delay` by the
/// half of its lane that writes, the others by the half that reads. Either half sets `end`; the thread that keeps the
/// films' files sets `is_settled` and `is_unsynced`, and the one that says progress `told` and `counted`.
#[derive(Drop)]
pub struct FilmWatch {
    /// The number of frames after which the film is read no further, if there is one.
    count: Option<u64>,
    /// The number of frames that the reader was asked for, that it read, and that were put into the queue.
    asked: AtomicU64,
    read: AtomicU64,
    put: AtomicU64,
    written: AtomicU64,
    bytes_in: AtomicU64,
    bytes_out: AtomicU64,
    first: AtomicU64,
    /// When the lane began to do what it does.
    since: AtomicU64,
    delay: AtomicU64,
    window_wait: AtomicU64,
    queue_wait: AtomicU64,
    /// When each frame that isn't written yet was read, at its number modulo the widest window.
    read_at: Vec<AtomicU64>,
    /// How far apart its frames were read.
    distances: Distances,
    end: OnceLock<Result<u64, LaneFault>>,
    /// Whether its lane has ended.
    is_over: AtomicBool,
    /// Whether its files are settled and on the disk.
    is_settled: AtomicBool,
    /// Whether it was found, since `is_unsynced_since` last looked, that it can't be brought onto the disk.
    is_unsynced: AtomicBool,
    /// Whether `news` has given the fault that stopped it.
    told: AtomicBool,
    /// Whether `count_to_say` has given its number of frames.
    counted: AtomicBool,
}

impl FilmWatch {
    /// A film of which nothing is seen yet, with the number of frames after which it is read no further, if there is one.
    pub fn new(alloc: Global, count: Option<u64>) -> Result<FilmWatch, AllocError> {
        let mut read_at = Vec::new(alloc);
        for _place in 0..MOST_WINDOW {
            read_at.push(zero())?;
        }
        Ok(FilmWatch {
            count,
            asked: zero(),
            read: zero(),
            put: zero(),
            written: zero(),
            bytes_in: zero(),
            bytes_out: zero(),
            first: zero(),
            since: zero(),
            delay: zero(),
            window_wait: zero(),
            queue_wait: zero(),
            read_at,
            distances: Distances::new(alloc)?,
            end: OnceLock::new(),
            is_over: AtomicBool::new(false),
            is_settled: AtomicBool::new(false),
            is_unsynced: AtomicBool::new(false),
            told: AtomicBool::new(false),
            counted: AtomicBool::new(false),
        })
    }

    /// Updates the counts and times by a notice.
    pub fn take(&self, notice: Notice, now: u64) {
        match notice {
            Notice::Began => self.since.store(now, Ordering::SeqCst),
            Notice::Reading(number) => {
                let waited = self.turn(now);
                // The first frame waits only for the lane to start.
                if number > 0 {
                    add(&self.window_wait, waited);
                }
                add(&self.asked, 1);
            }
            Notice::Read { number, bytes } => self.take_read(number, bytes, now),
            Notice::Put(_) => {
                add(&self.queue_wait, self.turn(now));
                add(&self.put, 1);
            }
            Notice::Written { number, bytes } => self.take_written(number, bytes, now),
            Notice::Stops(fault) => self.end_so(Err(fault)),
            Notice::Ended(result) => {
                let _since = self.turn(now);
                self.end_so(result);
                self.is_over.store(true, Ordering::SeqCst);
            }
        }
    }

    /// Sets the outcome, unless it is set already.
    fn end_so(&self, outcome: Result<u64, LaneFault>) {
        let _known = self.end.try_set(outcome_of(outcome, false, self.count));
    }

    /// Counts a frame that was read.
    fn take_read(&self, number: u64, bytes: u64, now: u64) {
        let _since = self.turn(now);
        match number.checked_sub(1) {
            None => self.first.store(now, Ordering::SeqCst),
            Some(before) => {
                if let Some(read_at) = self.place_of(before) {
                    let distance = now.saturating_sub(read_at.load(Ordering::SeqCst));
                    self.distances.add(distance);
                }
            }
        }
        if let Some(read_at) = self.place_of(number) {
            read_at.store(now, Ordering::SeqCst);
        }
        add(&self.bytes_in, bytes);
        add(&self.read, 1);
    }

    /// Counts a frame that was written.
    fn take_written(&self, number: u64, bytes: u64, now: u64) {
        if let Some(read_at) = self.place_of(number) {
            let delay = now.saturating_sub(read_at.load(Ordering::SeqCst));
            self.delay.fetch_max(delay, Ordering::SeqCst);
        }
        add(&self.bytes_out, bytes);
        add(&self.written, 1);
    }

    /// The place of the time at which the frame of this number was read.
    fn place_of(&self, number: u64) -> Option<&AtomicU64> {
        self.read_at.get((number % MOST_WINDOW as u64) as usize)
    }

    /// Has the lane begin something else, and returns the time that it was at the last.
    fn turn(&self, now: u64) -> u64 {
        now.saturating_sub(self.since.swap(now, Ordering::SeqCst))
    }

    /// The counts and times now.
    pub fn seen(&self) -> Seen {
        // A frame is written after it was read: in this order none is seen as written that isn't seen as read.
        let written = self.written.load(Ordering::SeqCst);
        let bytes_out = self.bytes_out.load(Ordering::SeqCst);
        Seen {
            doing: self.doing(),
            since: self.since.load(Ordering::SeqCst),
            read: self.read.load(Ordering::SeqCst),
            written,
            bytes_in: self.bytes_in.load(Ordering::SeqCst),
            bytes_out,
            first: self.first.load(Ordering::SeqCst),
            delay: self.delay.load(Ordering::SeqCst),
            window_wait: self.window_wait.load(Ordering::SeqCst),
            queue_wait: self.queue_wait.load(Ordering::SeqCst),
            late: self.distances.late(),
        }
    }

    fn doing(&self) -> Doing {
        if let Some(result) = self.end.get() {
            return Doing::Ended(*result);
        }
        // In this order, since no count falls: one that is seen to be less is less.
        let asked = self.asked.load(Ordering::SeqCst);
        let read = self.read.load(Ordering::SeqCst);
        if self.put.load(Ordering::SeqCst) < read {
            Doing::AwaitsQueue
        } else if read < asked {
            Doing::Reads
        } else {
            Doing::AwaitsWindow
        }
    }

    /// The outcome, if its lane has ended.
    pub fn ended(&self) -> Option<Result<u64, LaneFault>> {
        if !self.is_over.load(Ordering::SeqCst) {
            return None;
        }
        match self.end.get() {
            Some(result) => Some(*result),
            None => None,
        }
    }

    /// The number of codestreams that were written.
    pub fn written(&self) -> u64 {
        self.written.load(Ordering::SeqCst)
    }

    /// The fault that stopped it, if it stopped.
    pub fn fault(&self) -> Option<LaneFault> {
        match self.end.get() {
            Some(Err(fault)) => Some(*fault),
            _ => None,
        }
    }

    /// The fault that stopped it, if it stopped and no call has given that before.
    pub fn news(&self) -> Option<LaneFault> {
        let fault = self.fault()?;
        if self.told.swap(true, Ordering::SeqCst) {
            return None;
        }
        Some(fault)
    }

    /// Whether `news` has given the fault that stopped it.
    pub fn was_told(&self) -> bool {
        self.told.load(Ordering::SeqCst)
    }

    /// Notes that its files are settled and on the disk; whether that wasn't noted before.
    pub fn note_settled(&self) -> bool {
        !self.is_settled.swap(true, Ordering::SeqCst)
    }

    /// Notes that what is recorded can't be brought onto the disk.
    pub fn note_unsynced(&self) {
        self.is_unsynced.store(true, Ordering::SeqCst);
    }

    /// Whether that was noted since this was last asked.
    pub fn is_unsynced_since(&self) -> bool {
        self.is_unsynced.swap(false, Ordering::SeqCst)
    }

    /// The number of its frames, if it was recorded completely and is settled, and no call has given that before.
    pub fn count_to_say(&self) -> Option<u64> {
        if !self.is_settled.load(Ordering::SeqCst) {
            return None;
        }
        match self.ended() {
            Some(Ok(frames)) if !self.counted.swap(true, Ordering::SeqCst) => Some(frames),
            _ => None,
        }
    }

    /// Whether `count_to_say` has given the number of its frames.
    pub fn is_counted(&self) -> bool {
        self.counted.load(Ordering::SeqCst)
    }
}

fn zero() -> AtomicU64 {
    AtomicU64::new(0)
}

fn add(sum: &AtomicU64, more: u64) {
    sum.fetch_add(more, Ordering::SeqCst);
}

//! What is done at a time while films are recorded: bringing what is written onto the disk, and ending.
use ls_command::RecordRequest;
use std::time::Duration;

/// The longest waits of a thread for which nothing is due: of the one that says progress, once the program was asked to
/// stop, and if progress is wanted; and of any, otherwise.
const STOPPING: u64 = 10_000_000;

const TELLING: u64 = 500_000_000;

const LONGEST: u64 = 3_600_000_000_000;

/// When what is written is brought onto the disk, in nanoseconds since the recording began.
#[derive(Drop)]
pub struct Syncs {
    /// The time between two syncs, unless there is one at the end alone.
    interval: Option<u64>,
    next: u64,
}

impl Syncs {
    /// The syncs that are asked for.
    pub fn new(asked: &RecordRequest<'_>) -> Syncs {
        let interval = match asked.sync {
            0 => None,
            seconds => Some(nanoseconds(seconds)),
        };
        Syncs {
            interval,
            next: interval.unwrap_or(u64::MAX),
        }
    }

    /// Whether a sync is due. If it is, the next one is due an interval later.
    pub fn is_due(&mut self, now: u64) -> bool {
        match self.interval {
            Some(interval) if now >= self.next => {
                self.next = now.saturating_add(interval);
                true
            }
            _ => false,
        }
    }

    /// How long to wait if nothing happens.
    pub fn wait(&self, now: u64) -> Duration {
        Duration::from_nanos(self.next.saturating_sub(now).min(LONGEST))
    }
}

/// When the recording is to end, in nanoseconds since it began, if that is asked for and hasn't been done.
#[derive(Drop)]
pub struct Deadline {
    end: Option<u64>,
}

impl Deadline {
    /// The end that is asked for, if one is.
    pub fn new(asked: &RecordRequest<'_>) -> Deadline {
        Deadline {
            end: asked.seconds.map(nanoseconds),
        }
    }

    /// Whether the end is due: `true` once.
    pub fn is_due(&mut self, now: u64) -> bool {
        match self.end {
            Some(end) if now >= end => {
                self.end = None;
                true
            }
            _ => false,
        }
    }

    /// How long to wait if nothing happens.
    pub fn wait(&self, now: u64, is_telling: bool, is_stopping: bool) -> Duration {
        let longest = if is_stopping {
            STOPPING
        } else if is_telling {
            TELLING
        } else {
            LONGEST
        };
        let left = self.end.unwrap_or(u64::MAX).saturating_sub(now);
        Duration::from_nanos(left.min(longest))
    }
}

fn nanoseconds(seconds: usize) -> u64 {
    (seconds as u64).saturating_mul(1_000_000_000)
}

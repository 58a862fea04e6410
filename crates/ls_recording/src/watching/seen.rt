//! The counts and times of a film at a moment, while it is recorded or afterwards.
use ls_recorder::LaneFault;

/// The current activity of a film's lane.
#[derive(Clone, Copy, Drop)]
pub enum Doing {
    /// It waits for a place in the window, or hasn't begun.
    AwaitsWindow,
    /// It reads a frame.
    Reads,
    /// It waits for a place in the queue.
    AwaitsQueue,
    /// It has ended with this number of frames, or stops for this fault.
    Ended(Result<u64, LaneFault>),
}

/// The counts and times of a film at a moment.
#[derive(Drop)]
pub struct Seen {
    pub doing: Doing,
    /// When it began to do that.
    pub since: u64,
    /// The number of frames read, and of those written.
    pub read: u64,
    pub written: u64,
    /// The number of bytes of samples read, and of bytes of codestreams written.
    pub bytes_in: u64,
    pub bytes_out: u64,
    /// When the first frame was read.
    pub first: u64,
    /// The longest time from the reading of a frame to its writing.
    pub delay: u64,
    /// The time that it waited for places in the window, and in the queue.
    pub window_wait: u64,
    pub queue_wait: u64,
    /// The number of frames that were read later after the one before than twice the median of these times.
    pub late: u64,
}

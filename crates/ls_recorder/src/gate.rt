//! Observing a recording while it runs.
use crate::lane::LaneFault;

/// The moment at which a worker calls `Gate::pass`.
#[derive(Clone, Copy, Debug, PartialEq, Eq)]
pub enum Moment {
    /// Before the job is coded.
    Before,
    /// After the job was coded, or couldn't be, and before its result is sent.
    After,
}

/// An event of a film. `Began` comes first and `Ended` last. `Reading`, `Read` and `Put` of a frame come in this order,
/// after those of the frame before; `Written` of a frame comes after `Written` of the frame before, and may come before
/// its `Put`. A lane for which no thread can be made has no `Began`, only `Ended` with `NotStarted`; a recording that
/// isn't begun has no notices.
#[derive(Clone, Copy, Debug, Drop, PartialEq, Eq)]
pub enum Notice {
    /// Its lane runs. Nothing is read yet.
    Began,
    /// A place in the window is free, and the reader is asked for the frame of this number, from 0. The film may end
    /// there.
    Reading(u64),
    /// The frame of this number was read. `bytes` is the size of its samples in its image: one byte for each sample if
    /// the maxval is below 256, else two.
    Read { number: u64, bytes: u64 },
    /// The frame of this number is in the queue.
    Put(u64),
    /// The codestream of the frame of this number was written. It has `bytes` bytes.
    Written { number: u64, bytes: u64 },
    /// Its lane stops writing for this fault, and ends with it once a read in progress has ended. This isn't sent for a
    /// fault of the reading half, nor after a coded frame whose order wasn't booked by then: `Ended` alone reports
    /// these.
    Stops(LaneFault),
    /// Its lane ends: the number of frames recorded, or why it stopped.
    Ended(Result<u64, LaneFault>),
}

/// Is called by each worker before and after each coding, and receives the notices of each film. Nothing is promised of
/// an implementation: it can count, and it can hold up its callers.
pub trait Gate: Sync {
    /// Called by a worker before or after it codes the job of this source and number.
    fn pass(&self, source: u8, number: u64, moment: Moment);

    /// Called for each event of the film of this source. The lane's reading thread and its writing thread call it,
    /// perhaps at the same time. If no thread can be made for the lane, the thread that called `record` does.
    fn notice(&self, _source: u8, _notice: Notice) {}
}

/// A gate that holds nobody up.
pub struct OpenGate;

impl Gate for OpenGate {
    fn pass(&self, _source: u8, _number: u64, _moment: Moment) {}
}

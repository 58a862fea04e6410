//! Jobs, and the replies to the calls of a queue.

/// An item that was put, with its source and its number among the items of that source, from 0.
#[derive(Clone, Copy, Debug, Drop, PartialEq, Eq)]
pub struct Job<T> {
    pub source: u8,
    pub number: u64,
    pub item: T,
}

/// The reply to a put. If the item isn't accepted, the reply returns it.
#[derive(Clone, Copy, Debug, Drop, PartialEq, Eq)]
pub enum Put<T> {
    /// The item was accepted, under this number.
    Taken(u64),
    /// The source was closed before.
    Closed(T),
    /// The source has used up its numbers: the next one would be 2^64 - 1.
    Spent(T),
    /// The queue holds as many jobs as its capacity.
    Full(T),
}

/// The reply to a close, with the number of the source's items that were accepted.
#[derive(Clone, Copy, Debug, Drop, PartialEq, Eq)]
pub enum Close {
    /// The source is closed from now on.
    Now(u64),
    /// The source was closed before.
    Already(u64),
}

/// The reply to a take.
#[derive(Clone, Copy, Debug, Drop, PartialEq, Eq)]
pub enum Take<T> {
    /// The oldest job held, which is now removed.
    Job(Job<T>),
    /// No job is held, and some source is open.
    Empty,
    /// No job is held, and each source is closed.
    Done,
}

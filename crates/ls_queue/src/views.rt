//! What the channel of a running queue carries, and what the holder of each pass knows.
use crate::replies::Job;
use std::collections::LinkedList;

/// A message of the channel.
#[derive(Drop)]
pub enum Message<T> {
    /// A job, from a source seat to a worker seat.
    Job(Job<T>),
    /// The end mark of one worker, with the number of jobs that each source sent. No job comes after it.
    Mark([u64; 16]),
}

/// The items that one source seat put, in order.
pub struct Puts<T> {
    pub source: u64,
    pub items: LinkedList<T>,
}

/// The jobs that one worker seat took, in order, and whether it took an end mark.
pub struct Takes<T> {
    pub jobs: LinkedList<Job<T>>,
    pub marked: bool,
}

/// What the holder of a pass knows. It exists only in proofs: no value of it is made.
pub struct View<T> {
    /// The shares of the pass, of 64 in all. A pass that has them all is the only one left.
    pub shares: u64,
    /// What was put by the source seats whose passes are joined in this one.
    pub puts: LinkedList<Puts<T>>,
    /// What was taken by the worker seats whose passes are joined in this one.
    pub takes: LinkedList<Takes<T>>,
    /// Whether this is the closer's view. The closer makes the seats and sends the end marks.
    pub closes: bool,
    /// In the closer's view, the number of source seats it made; in a worker's, the number of sources.
    pub sources: u64,
    /// In the closer's view, the number of worker seats it made.
    pub workers: u64,
    /// In the closer's view, the number of end marks it sent.
    pub marks: u64,
}

//! The bounded queue without threads: `Core`, used one call after another.
ghost use Rattle.std.specs.Prelude.{◌≡◌, ◌<◌, ◌≤◌, ◌⊎◌, length, MatchResult, Some, None};
ghost use Rattle.ls_queue.specs.Queue.{all_true, new_queue, put_reply, after_put, close_reply, after_close, take_reply, after_take};
ghost use Rattle.ls_queue.specs.Faults.{range_fault};
ghost use Rattle.ls_queue.specs.View.Cores.{IsCore};

use crate::faults::{QueueFault, range_fault};
use crate::replies::{Close, Job, Put, Take};
use circular_buffer::HeapCircularBuffer;
use std::alloc::Global;
use std::marker::Model;

/// A queue that holds at most `capacity` jobs, from sources numbered from 0. No call waits.
///
/// In contracts it is its capacity, the count of each source and whether the source is closed, and the jobs held
/// (`specs/Queue.antt`).
#[derive(Drop)]
pub struct Core<T> {
    /// For each source, the number of its items accepted so far, which is also the number of its next item.
    counts: Vec<u64>,
    /// For each source, whether it is closed.
    closed: Vec<bool>,
    /// The jobs held, oldest first, in a buffer that has room for `capacity` jobs.
    held: HeapCircularBuffer<Job<T>>,
}

impl<T> Model for Core<T> {
    ghost use Rattle.ls_queue.specs.Queue.{Queue};

    ghost Value = { Queue T };

    ghost use Rattle.ls_queue.specs.View.Cores.{IsCore};

    ghost view = { λ c. record { capacity = c.held.capacity; counts = c.counts.items; closed = c.closed.items; held = c.held.items } };

    ghost invariant = { λ c. IsCore (record { capacity = c.held.capacity; counts = c.counts.items; closed = c.closed.items; held = c.held.items }) };
}

impl<T: Drop> Core<T> {
    /// Makes an empty queue of 1 to 16 sources, each open, that holds at most `capacity` jobs, 1 to 256. Fails with
    /// `Sources` or else `Capacity` if that number is out of range; else its only fault is `NoMemory`.
    ///
    /// Allocates all the memory that the queue will need.
    pub fn new(alloc: Global, sources: u8, capacity: usize) -> Result<Core<T>, QueueFault>
        ensures { MatchResult result
            (λ queue. (range_fault sources capacity ≡ None) × (queue ≡ new_queue sources capacity))
            (λ fault. (range_fault sources capacity ≡ Some fault) ⊎ ((range_fault sources capacity ≡ None) × (fault ≡ QueueFault.NoMemory))) }
    {
        if let Some(fault) = range_fault(sources, capacity) {
            return Err(fault);
        }
        let sources = sources as usize;
        Ok(Core {
            counts: vec![in alloc; 0; sources]?,
            closed: vec![in alloc; false; sources]?,
            held: HeapCircularBuffer::with_capacity(alloc, capacity)?,
        })
    }

    /// Returns the number of sources, 1 to 16.
    pub fn sources(&self) -> u8
        ensures value { result ≡ length self.now.counts }
        ensures lawful { IsCore self.now }
    {
        self.counts.len() as u8
    }

    /// Returns the most jobs that the queue may hold, 1 to 256.
    pub fn capacity(&self) -> usize
        ensures value { result ≡ self.now.capacity }
        ensures lawful { IsCore self.now }
    {
        self.held.capacity()
    }

    /// Puts an item of `source`, which must be below the number of sources. Returns `Closed` exactly if the source was
    /// closed before; else `Spent` exactly if the item's number would be 2^64 - 1; else `Full` exactly if `capacity`
    /// jobs are held; else `Taken` with the item's number, which is the number of the source's items accepted before.
    /// If the item is returned, nothing has changed.
    pub fn put(&mut self, source: u8, item: T) -> Put<T>
        requires { source < length self.old.counts }
        ensures reply { result ≡ put_reply self.old source item }
        ensures state { self.new ≡ after_put self.old source item }
    {
        let place = source as usize;
        if self.closed[place] {
            return Put::Closed(item);
        }
        let number = self.counts[place];
        if number == u64::MAX {
            return Put::Spent(item);
        }
        let job = Job {
            source,
            number,
            item,
        };
        match self.held.try_push_back(job) {
            Ok(()) => {
                self.counts[place] = number + 1;
                Put::Taken(number)
            }
            Err(job) => Put::Full(job.item),
        }
    }

    /// Closes `source`, which must be below the number of sources. Returns the number of its items that were accepted:
    /// as `Now`, or as `Already` if it was closed before; then nothing has changed.
    pub fn close(&mut self, source: u8) -> Close
        requires { source < length self.old.counts }
        ensures reply { result ≡ close_reply self.old source }
        ensures state { self.new ≡ after_close self.old source }
    {
        let place = source as usize;
        let count = self.counts[place];
        if self.closed[place] {
            return Close::Already(count);
        }
        self.closed[place] = true;
        Close::Now(count)
    }

    /// Takes the oldest job held. If none is held, returns `Done` if each source is closed, else `Empty`, and nothing
    /// has changed.
    pub fn take(&mut self) -> Take<T>
        ensures reply { result ≡ take_reply self.old }
        ensures state { self.new ≡ after_take self.old }
    {
        match self.held.pop_front() {
            Some(job) => Take::Job(job),
            None if all_true(&self.closed) => Take::Done,
            None => Take::Empty,
        }
    }
}

/// Whether all of `flags` are true.
fn all_true(flags: &[bool]) -> bool
    ensures { result ≡ all_true flags.now }
{
    flags.iter().all(|flag| *flag)
}

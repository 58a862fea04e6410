//! A queue that runs a list of steps.
ghost use Rattle.std.specs.Prelude.{◌≡◌, ◌⊎◌, IsTrue, All, length, IfOk, MatchResult, Some, None, not, position};
ghost use Rattle.ls_queue.specs.Steps.{is_known, reply_of, after_step, replies_of};
ghost use Rattle.ls_queue.specs.Faults.{replay_fault};
ghost use Rattle.ls_queue.specs.History.{IsReplay};

use crate::bounded::Core;
use crate::faults::{QueueFault, range_fault};
use crate::replies::{Close, Put, Take};
use std::alloc::{AllocError, Global};

/// One call on a queue whose items are numbers.
#[derive(Clone, Copy, Debug, Drop, PartialEq, Eq)]
pub enum Step {
    /// Puts an item of a source: the source, then the item.
    Put(u8, u64),
    /// Closes a source.
    Close(u8),
    Take,
}

/// The reply to a step.
#[derive(Clone, Copy, Debug, Drop, PartialEq, Eq)]
pub enum Reply {
    Put(Put<u64>),
    Close(Close),
    Take(Take<u64>),
}

impl Step {
    ghost use Rattle.std.specs.Prelude.{◌≡◌};
    ghost use Rattle.ls_queue.specs.Steps.{is_known};

    /// Whether the source that the step names, if it names one, is below `sources`.
    pub fn is_known(&self, sources: u8) -> bool
        ensures { result ≡ is_known sources self.now }
    {
        match *self {
            Step::Put(source, _) | Step::Close(source) => source < sources,
            Step::Take => true,
        }
    }
}

/// Runs these steps in order on a new queue and returns its replies: one for each step, each the lawful one. So for
/// each source the items taken, followed by those still held, are the items that it sent.
///
/// Fails with the first of these that applies: `Sources` (not 1 to 16), `Capacity` (not 1 to 256), `NoSource` with the
/// index, from 0, of the first step that names a source which the queue doesn't have; else its only fault is
/// `NoMemory`.
pub fn replay(
    alloc: Global,
    sources: u8,
    capacity: usize,
    steps: &[Step],
) -> Result<Vec<Reply>, QueueFault>
    ensures lawful { IfOk result (λ replies. IsReplay sources capacity steps.now replies.items) }
    ensures fault { MatchResult result (λ replies. replay_fault sources capacity steps.now ≡ None) (λ fault.
        (replay_fault sources capacity steps.now ≡ Some fault) ⊎ ((replay_fault sources capacity steps.now ≡ None) × (fault ≡ QueueFault.NoMemory))) }
{
    if let Some(fault) = replay_fault(sources, capacity, steps) {
        return Err(fault);
    }
    let mut queue = Core::new(alloc, sources, capacity)?;
    let replies = replies_of(alloc, &mut queue, steps)?;
    Ok(replies)
}

/// Returns the fault of these arguments, if there is one: the first of `Sources`, `Capacity` and `NoSource`.
fn replay_fault(sources: u8, capacity: usize, steps: &[Step]) -> Option<QueueFault>
    ensures { result ≡ replay_fault sources capacity steps.now }
{
    if let Some(fault) = range_fault(sources, capacity) {
        return Some(fault);
    }
    let number = first_unknown(sources, steps)?;
    Some(QueueFault::NoSource(number))
}

/// Returns the index of the first step that names a source which the queue doesn't have, if there is one.
fn first_unknown(sources: u8, steps: &[Step]) -> Option<usize>
    ensures { result ≡ position (λ step. not (is_known sources step)) steps.now }
{
    steps.iter().position(|step| !step.is_known(sources))
}

/// Runs these steps, which must name existing sources, and returns the queue's replies.
fn replies_of(
    alloc: Global,
    queue: &mut Core<u64>,
    steps: &[Step],
) -> Result<Vec<Reply>, AllocError>
    requires known { All (λ step. IsTrue (is_known (length queue.old.counts) step)) steps.now }
    ensures { IfOk result (λ replies. replies.items ≡ replies_of queue.old steps.now) }
{
    let mut replies = Vec::with_capacity(alloc, steps.len())?;
    for step in steps {
        let reply = reply_of(queue, *step);
        replies.push(reply)?;
    }
    Ok(replies)
}

/// Runs a step, which must name an existing source, and returns the queue's reply.
fn reply_of(queue: &mut Core<u64>, step: Step) -> Reply
    requires known { IsTrue (is_known (length queue.old.counts) step) }
    ensures reply { result ≡ reply_of queue.old step }
    ensures state { queue.new ≡ after_step queue.old step }
{
    match step {
        Step::Put(source, item) => Reply::Put(queue.put(source, item)),
        Step::Close(source) => Reply::Close(queue.close(source)),
        Step::Take => Reply::Take(queue.take()),
    }
}

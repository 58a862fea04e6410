use crate::testing::{Memory, REPLIES, STEPS, check};
use ls_queue::{Job, QueueFault, Reply, Step, Take, replay};
use std::alloc::{AllocError, Global};
use std::process::Abort;

/// Checks that a replay returns this; or, if allocations may fail, that it says one did.
fn check_replay(
    rt: &impl Abort,
    memory: Memory,
    case: &str,
    got: Result<Vec<Reply>, QueueFault>,
    want: Result<&[Reply], QueueFault>,
) {
    match (got, want) {
        (Ok(replies), Ok(wanted)) => check(rt, case, replies.as_slice() == wanted),
        (Err(fault), Err(wanted)) => check(rt, case, fault == wanted),
        (Err(QueueFault::NoMemory), Ok(_)) => check(rt, case, memory == Memory::Refusable),
        _ => check(rt, case, false),
    }
}

/// Returns the steps of the tables, and one more that names a source which the queue doesn't have.
fn and_a_stranger(alloc: Global) -> Result<Vec<Step>, AllocError> {
    let mut steps = Vec::from_slice(alloc, &STEPS)?;
    steps.push(Step::Put(2, 5))?;
    Ok(steps)
}

/// Sources, capacity, steps and the result.
const RUNS: [(u8, usize, &[Step], Result<&[Reply], QueueFault>); 9] = [
    (2, 2, &STEPS, Ok(&REPLIES)),
    (1, 1, &[], Ok(&[])),
    (0, 0, &STEPS, Err(QueueFault::Sources)),
    (17, 1, &[], Err(QueueFault::Sources)),
    (2, 0, &STEPS, Err(QueueFault::Capacity)),
    (2, 257, &[], Err(QueueFault::Capacity)),
    (1, 2, &STEPS, Err(QueueFault::NoSource(1))),
    (1, 257, &STEPS, Err(QueueFault::Capacity)),
    (
        1,
        1,
        &[Step::Take, Step::Close(1), Step::Put(1, 0)],
        Err(QueueFault::NoSource(1)),
    ),
];

fn check_runs(rt: &impl Abort, alloc: Global, memory: Memory) {
    for (sources, capacity, steps, want) in RUNS {
        let got = replay(alloc, sources, capacity, steps);
        check_replay(rt, memory, "a run", got, want);
    }
}

#[test]
fn steps_are_replayed_with_ample_memory(rt: HostRuntime) {
    check_runs(&rt, rt.alloc(), Memory::Ample);
}

#[test]
fn steps_are_replayed_or_memory_is_refused(rt: HostRuntime) {
    check_runs(&rt, rt.alloc(), Memory::Refusable);
}

#[test]
fn a_source_that_is_not_there_is_named_with_ample_memory(rt: HostRuntime) {
    match and_a_stranger(rt.alloc()) {
        Ok(steps) => {
            let got = replay(rt.alloc(), 2, 2, &steps);
            let want = Err(QueueFault::NoSource(13));
            check_replay(&rt, Memory::Ample, "a stranger", got, want);
        }
        Err(_) => check(&rt, "no memory", false),
    }
}

/// Returns `count` puts of one source, each followed by a take, and after them a close and a take.
fn rounds(alloc: Global, count: u64) -> Result<Vec<Step>, AllocError> {
    let mut steps = Vec::new(alloc);
    for item in 0..count {
        steps.push(Step::Put(0, item))?;
        steps.push(Step::Take)?;
    }
    steps.push(Step::Close(0))?;
    steps.push(Step::Take)?;
    Ok(steps)
}

/// Whether the takes returned `count` jobs, whose items and numbers count up from 0, and no Empty, and the last reply
/// is Done.
fn items_in_order(replies: &[Reply], count: u64) -> bool {
    let mut next = 0u64;
    for reply in replies {
        match reply {
            Reply::Take(Take::Job(Job { number, item, .. })) => {
                if *number != next || *item != next {
                    return false;
                }
                next = next.saturating_add(1);
            }
            Reply::Take(Take::Empty) => return false,
            Reply::Take(Take::Done) | Reply::Put(_) | Reply::Close(_) => {}
        }
    }
    next == count && replies.last() == Some(&Reply::Take(Take::Done))
}

#[test]
fn many_items_are_handed_out_in_order_with_ample_memory(rt: HostRuntime) {
    let replies = match rounds(rt.alloc(), 1000) {
        Ok(steps) => replay(rt.alloc(), 1, 1, &steps),
        Err(_) => Err(QueueFault::NoMemory),
    };
    match replies {
        Ok(replies) => check(&rt, "items", items_in_order(&replies, 1000)),
        Err(_) => check(&rt, "no memory", false),
    }
}

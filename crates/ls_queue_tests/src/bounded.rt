use crate::testing::{Memory, REPLIES, STEPS, check, check_reply};
use ls_queue::{Close, Core, Job, Put, QueueFault, Reply, Step, Take};
use std::alloc::Global;
use std::process::Abort;

/// Runs a step, and returns the reply if the queue has its source.
fn answer(queue: &mut Core<u64>, step: Step) -> Option<Reply> {
    let sources = queue.sources();
    match step {
        Step::Put(source, item) if source < sources => Some(Reply::Put(queue.put(source, item))),
        Step::Close(source) if source < sources => Some(Reply::Close(queue.close(source))),
        Step::Take => Some(Reply::Take(queue.take())),
        Step::Put(..) | Step::Close(..) => None,
    }
}

/// Checks that a queue gives these replies to these steps, if its memory could be allocated.
fn check_script(
    rt: &impl Abort,
    memory: Memory,
    made: Result<Core<u64>, QueueFault>,
    steps: &[Step],
    replies: &[Reply],
) {
    match made {
        Ok(mut queue) => {
            for (step, reply) in steps.iter().zip(replies) {
                check_reply(rt, "a step", answer(&mut queue, *step), *reply);
            }
        }
        Err(fault) => check(
            rt,
            "no memory",
            fault == QueueFault::NoMemory && memory == Memory::Refusable,
        ),
    }
}

#[test]
fn a_queue_answers_step_by_step_with_ample_memory(rt: HostRuntime) {
    let made = Core::new(rt.alloc(), 2, 2);
    check_script(&rt, Memory::Ample, made, &STEPS, &REPLIES);
}

#[test]
fn a_queue_answers_step_by_step_or_memory_is_refused(rt: HostRuntime) {
    let made = Core::new(rt.alloc(), 2, 2);
    check_script(&rt, Memory::Refusable, made, &STEPS, &REPLIES);
}

/// Numbers that a queue can't be made with: sources, capacity, and the fault.
const BAD_RANGES: [(u8, usize, QueueFault); 7] = [
    (0, 0, QueueFault::Sources),
    (0, 1, QueueFault::Sources),
    (17, 1, QueueFault::Sources),
    (17, 257, QueueFault::Sources),
    (255, 1, QueueFault::Sources),
    (1, 0, QueueFault::Capacity),
    (16, 257, QueueFault::Capacity),
];

#[test]
fn numbers_out_of_range_are_refused(rt: HostRuntime) {
    for (sources, capacity, want) in BAD_RANGES {
        let made: Result<Core<u64>, QueueFault> = Core::new(rt.alloc(), sources, capacity);
        match made {
            Ok(_) => check(&rt, "a fault", false),
            Err(fault) => check(&rt, "the fault", fault == want),
        }
    }
}

#[test]
fn numbers_in_range_are_kept_with_ample_memory(rt: HostRuntime) {
    for (sources, capacity) in [(1, 1), (16, 256), (1, 256), (16, 1)] {
        let made: Result<Core<u64>, QueueFault> = Core::new(rt.alloc(), sources, capacity);
        match made {
            Ok(queue) => {
                check(&rt, "sources", queue.sources() == sources);
                check(&rt, "capacity", queue.capacity() == capacity);
            }
            Err(_) => check(&rt, "a queue", false),
        }
    }
}

/// Whether a queue of texts returns texts unchanged: one that is put while the queue is full, and one that is taken.
/// Fails only if an allocation fails.
fn texts_come_back(alloc: Global) -> Result<bool, QueueFault> {
    let mut queue: Core<String> = Core::new(alloc, 1, 1)?;
    let first = String::from_str(alloc, "first")?;
    let second = String::from_str(alloc, "second")?;
    if queue.sources() == 0 {
        return Ok(false);
    }
    let taken = matches!(queue.put(0, first), Put::Taken(0));
    let full = match queue.put(0, second) {
        Put::Full(text) => text.as_str() == "second",
        _ => false,
    };
    let handed = match queue.take() {
        Take::Job(job) => job.item.as_str() == "first" && job.source == 0 && job.number == 0,
        _ => false,
    };
    Ok(taken && full && handed)
}

#[test]
fn texts_are_handed_out_and_come_back_with_ample_memory(rt: HostRuntime) {
    let came = texts_come_back(rt.alloc());
    check(&rt, "texts", came == Ok(true));
}

#[test]
fn texts_are_handed_out_and_come_back_or_memory_is_refused(rt: HostRuntime) {
    let came = texts_come_back(rt.alloc());
    check(
        &rt,
        "texts",
        came == Ok(true) || came == Err(QueueFault::NoMemory),
    );
}

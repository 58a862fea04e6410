ghost use Rattle.std.specs.Prelude.{◌≡◌, [], ◌∷◌, ◌++◌, IfSome, IfOk};
ghost use Rattle.ls_queue.specs.View.Running.{IsWorkerSeat, IsCloser, IsFinished, AreEnds, AreWorkerSeats};

use crate::crowd::{Usage, use_queue};
use crate::testing::{Memory, check, next_source, next_worker};
use ls_queue::{
    Closer, Ended, FinishFault, Finished, Job, Queue, QueueFault, SettleCause, SettleFault, Taken,
    WorkerSeat, open, settle,
};
use std::alloc::{AllocError, Global};
use std::process::Abort;
use std::sync::Wait;
use std::thread::Threads;

/// Numbers that a running queue can't be made with: sources, workers, capacity, and the fault.
const BAD_RANGES: [(u8, usize, usize, QueueFault); 7] = [
    (0, 0, 0, QueueFault::Sources),
    (17, 0, 0, QueueFault::Sources),
    (1, 0, 0, QueueFault::Capacity),
    (1, 17, 257, QueueFault::Capacity),
    (1, 0, 1, QueueFault::Workers),
    (1, 17, 1, QueueFault::Workers),
    (16, 17, 256, QueueFault::Workers),
];

#[test]
fn numbers_out_of_range_are_refused(rt: HostRuntime) {
    for (sources, workers, capacity, fault) in BAD_RANGES {
        let made = open::<u64, HostRuntime>(&rt, rt.alloc(), sources, workers, capacity);
        let right = match made {
            Ok(_) => false,
            Err(found) => found == fault,
        };
        check(&rt, "a range", right);
    }
}

/// Checks that a put returned what it should.
fn check_put(rt: &impl Abort, got: Result<u64, u64>, want: Result<u64, u64>) {
    check(rt, "put", got == want);
}

fn check_taken(rt: &impl Abort, got: Taken<u64>, want: Taken<u64>) {
    check(rt, "take", got == want);
}

/// Passes one item through a queue of one source and one worker, and returns the count of its account. Fails only if an
/// allocation fails.
fn one_item<R: Wait + Abort>(rt: &R, alloc: Global) -> Result<u64, QueueFault> {
    let (queue, mut sources, mut workers, closer) = open::<u64, R>(rt, alloc, 1, 1, 1)?;
    let mut source = next_source(&queue, 0, &mut sources);
    let mut worker = next_worker(&queue, &mut workers);
    check_put(rt, queue.put(rt, &mut source, 7), Ok(0));
    let end = queue.end(rt, source);
    check(rt, "end", end.source == 0 && end.count == 1);
    let job = Job {
        source: 0,
        number: 0,
        item: 7,
    };
    check_taken(rt, queue.take(rt, &mut worker), Taken::Job(job));
    let mut ends = Vec::new(alloc);
    if ends.push(end).is_err() {
        return Err(QueueFault::NoMemory);
    }
    let Ok(finished) = queue.finish(rt, closer, ends) else {
        return Ok(u64::MAX);
    };
    check_taken(rt, queue.take(rt, &mut worker), Taken::Done);
    check_taken(rt, queue.take(rt, &mut worker), Taken::Done);
    let mut seats = Vec::new(alloc);
    if seats.push(worker).is_err() {
        return Err(QueueFault::NoMemory);
    }
    match settle(rt, queue, finished, seats) {
        Ok(account) => Ok(account.count(0)),
        Err(_) => Ok(u64::MAX),
    }
}

/// Returns the list with one more element at its end.
fn pushed<X: Drop>(mut list: Vec<X>, one: X) -> Result<Vec<X>, AllocError>
    ensures { IfOk result (λ longer. longer.items ≡ list.items ++ one ∷ []) }
{
    list.push(one)?;
    Ok(list)
}

/// Checks that the result is this, or, if allocations may fail, that one did.
fn check_answer(
    rt: &impl Abort,
    memory: Memory,
    case: &str,
    got: Result<u64, QueueFault>,
    want: u64,
) {
    let right = match got {
        Ok(answer) => answer == want,
        Err(fault) => fault == QueueFault::NoMemory && memory == Memory::Refusable,
    };
    check(rt, case, right);
}

/// Calls `finish`, which must fail for this source, and returns what it gives back; `None` if it doesn't fail so.
fn finish_too_early<R: Wait>(
    rt: &R,
    queue: &Queue<u64>,
    closer: Closer<u64>,
    ended: Vec<Ended<u64>>,
    missing: u8,
) -> Option<(Closer<u64>, Vec<Ended<u64>>)>
    requires closer { IsCloser queue.now closer }
    requires ended { AreEnds queue.now ended.items }
    ensures { IfSome result (λ back. (back.0 ≡ closer) × (back.1.items ≡ ended.items)) }
{
    match queue.finish(rt, closer, ended) {
        Err(
            FinishFault::MissingSource {
                source,
                closer,
                ended,
            },
        ) if source == missing => Some((closer, ended)),
        _ => None,
    }
}

/// Finishes a queue of two sources with no end, then with that of the second source alone, then with both: returns 1 if
/// this is refused twice and then succeeds.
fn finished_at_last<R: Wait>(rt: &R, alloc: Global) -> Result<u64, QueueFault> {
    let (queue, mut sources, _workers, closer) = open::<u64, R>(rt, alloc, 2, 1, 1)?;
    let first = next_source(&queue, 0, &mut sources);
    let second = next_source(&queue, 1, &mut sources);
    let Some((closer, ended)) = finish_too_early(rt, &queue, closer, Vec::new(alloc), 0) else {
        return Ok(0);
    };
    let ended = pushed(ended, queue.end(rt, second))?;
    let Some((closer, ended)) = finish_too_early(rt, &queue, closer, ended, 0) else {
        return Ok(0);
    };
    let ended = pushed(ended, queue.end(rt, first))?;
    Ok(u64::from(queue.finish(rt, closer, ended).is_ok()))
}

/// Calls `settle`, which must fail for this cause, and returns what it gives back; `None` if it doesn't fail so.
fn settle_too_early<R: Wait>(
    rt: &R,
    queue: Queue<u64>,
    finished: Finished<u64>,
    seats: Vec<WorkerSeat<u64>>,
    cause: SettleCause,
) -> Option<(Queue<u64>, Finished<u64>, Vec<WorkerSeat<u64>>)>
    requires finished { IsFinished queue finished }
    requires seats { AreWorkerSeats queue seats.items }
    ensures { IfSome result (λ back. (back.0 ≡ queue) × (back.1 ≡ finished) × (back.2.items ≡ seats.items)) }
{
    let Err(fault) = settle(rt, queue, finished, seats) else {
        return None;
    };
    if fault.cause != cause {
        return None;
    }
    let SettleFault {
        cause: _,
        queue,
        finished,
        seats,
    } = fault;
    Some((queue, finished, seats))
}

/// Checks that a take returns Done, and returns the seat.
fn done<R: Wait + Abort>(rt: &R, queue: &Queue<u64>, mut seat: WorkerSeat<u64>) -> WorkerSeat<u64>
    requires { IsWorkerSeat queue.now seat }
    ensures { IsWorkerSeat queue.now result }
{
    check_taken(rt, queue.take(rt, &mut seat), Taken::Done);
    seat
}

/// Settles a queue of one source, which puts nothing, and two workers with one seat, then with both, then once both are
/// done: returns the count of the account that results.
fn settled_at_last<R: Wait + Abort>(rt: &R, alloc: Global) -> Result<u64, QueueFault> {
    let (queue, mut sources, mut workers, closer) = open::<u64, R>(rt, alloc, 1, 2, 2)?;
    let source = next_source(&queue, 0, &mut sources);
    let one = next_worker(&queue, &mut workers);
    let two = next_worker(&queue, &mut workers);
    let ended = pushed(Vec::new(alloc), queue.end(rt, source))?;
    let Ok(finished) = queue.finish(rt, closer, ended) else {
        return Ok(u64::MAX);
    };
    let seats = pushed(Vec::new(alloc), one)?;
    let Some((queue, finished, seats)) = settle_too_early(
        rt,
        queue,
        finished,
        seats,
        SettleCause::MissingSeat,
    ) else {
        return Ok(u64::MAX);
    };
    let seats = pushed(seats, two)?;
    let Some((queue, finished, mut seats)) = settle_too_early(
        rt,
        queue,
        finished,
        seats,
        SettleCause::NotEmpty,
    ) else {
        return Ok(u64::MAX);
    };
    let (Some(two), Some(one)) = (seats.pop(), seats.pop()) else {
        return Ok(u64::MAX);
    };
    let seats = pushed(seats, done(rt, &queue, one))?;
    let seats = pushed(seats, done(rt, &queue, two))?;
    match settle(rt, queue, finished, seats) {
        Ok(account) => Ok(account.count(0)),
        Err(_) => Ok(u64::MAX),
    }
}

/// Checks what a single thread can do with a queue.
fn check_calls<R: Wait + Abort>(rt: &R, alloc: Global, memory: Memory) {
    check_answer(rt, memory, "one item", one_item(rt, alloc), 1);
    check_answer(rt, memory, "finish", finished_at_last(rt, alloc), 1);
    check_answer(rt, memory, "settle", settled_at_last(rt, alloc), 0);
}

#[test]
fn a_queue_is_used_by_one_thread_with_ample_memory(rt: HostRuntime) {
    check_calls(&rt, rt.alloc(), Memory::Ample);
}

#[test]
fn a_queue_is_used_by_one_thread_or_memory_is_refused(rt: HostRuntime) {
    check_calls(&rt, rt.alloc(), Memory::Refusable);
}

#[test]
fn items_of_two_sources_go_through_to_two_workers_with_ample_memory(rt: HostRuntime) {
    let usage = Usage {
        sources: 2,
        workers: 2,
        capacity: 8,
        items: 1000,
        seed: 0,
    };
    use_queue(&rt, rt.alloc(), usage);
}

#[test]
fn items_of_four_sources_go_through_to_four_workers_with_ample_memory(rt: HostRuntime) {
    let usage = Usage {
        sources: 4,
        workers: 4,
        capacity: 3,
        items: 1000,
        seed: 0,
    };
    use_queue(&rt, rt.alloc(), usage);
}

/// Numbers of sources and of workers.
const CROWDS: [(u8, usize); 8] = [
    (1, 1),
    (1, 16),
    (2, 3),
    (4, 2),
    (5, 8),
    (10, 10),
    (16, 1),
    (16, 16),
];

/// Passes 100,000 items, with pseudo-random pauses, through a queue of this capacity for each of these crowds.
fn check_crowds<R: Threads + Wait + Abort + Sync>(rt: &R, alloc: Global, capacity: usize) {
    for (sources, workers) in CROWDS {
        let usage = Usage {
            sources,
            workers,
            capacity,
            items: 100_000 / u64::from(sources).max(1),
            seed: 88172645463325252,
        };
        use_queue(rt, alloc, usage);
    }
}

#[test]
fn many_items_go_through_one_place_whoever_pauses_with_ample_memory(rt: HostRuntime) {
    check_crowds(&rt, rt.alloc(), 1);
}

#[test]
fn many_items_go_through_two_places_whoever_pauses_with_ample_memory(rt: HostRuntime) {
    check_crowds(&rt, rt.alloc(), 2);
}

#[test]
fn many_items_go_through_256_places_whoever_pauses_with_ample_memory(rt: HostRuntime) {
    check_crowds(&rt, rt.alloc(), 256);
}

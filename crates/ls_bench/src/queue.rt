//! Passes jobs, of one number each, through a queue from four threads to four others.
ghost use Rattle.std.specs.Prelude.{◌≡◌, IfOk, IfSome};
ghost use Rattle.ls_queue.specs.View.Running.{IsSourceSeat, IsWorkerSeat, IsEnded, IsCloser, IsFinished, AreAllSources, AreAllWorkers, AreWorkerSeats};

use crate::tell;
use anyhow::{Result, bail};
use ls_queue::{Closer, Ended, Finished, Queue, SourceSeat, Taken, WorkerSeat, open, settle};
use std::alloc::{AllocError, Global};
use std::rt::Clock;
use std::sync::{Mutex, Wait};
use std::thread;
use std::thread::Threads;
use std::time::Instant;

/// The default number of jobs to pass.
pub const USUAL_JOBS: u32 = 1_000_000;

const SOURCES: u8 = 4;

const WORKERS: usize = 4;

const CAPACITIES: [(usize, &str); 2] = [(8, "capacity 8"), (256, "capacity 256")];

/// What was taken: the number of jobs, and the sum of their items.
#[derive(Clone, Copy, Drop)]
struct Total {
    jobs: u64,
    sum: u64,
}

/// Passes `jobs` jobs, a quarter by each source, through a queue of each capacity; prints the totals and the times.
pub fn measure<R: Threads + Wait + Sync + Clock + Print + Eprint + AllocGlobal>(
    rt: &R,
    jobs: u32,
) -> Result<()> {
    for (capacity, name) in CAPACITIES {
        measure_one(rt, capacity, name, u64::from(jobs / u32::from(SOURCES)))?;
    }
    Ok(())
}

/// Passes `items` items by each source through a queue of this capacity; prints the total and the time.
fn measure_one<R: Threads + Wait + Sync + Clock + Print + Eprint + AllocGlobal>(
    rt: &R,
    capacity: usize,
    name: &str,
    items: u64,
) -> Result<()> {
    let start = Instant::now(rt)?;
    let Some(total) = pass(rt, rt.alloc(), capacity, items) else {
        bail!("the queue can't be used");
    };
    let took = start.elapsed(rt)?;
    let Total { jobs, sum } = total;
    println!(rt; "{name}: {jobs} jobs, sum {sum}")?;
    tell(rt, name, &took, jobs, "a job")?;
    Ok(())
}

/// Puts the items of each source, and takes jobs with each worker, in a thread of its own.
fn pass<R: Threads + Wait + Sync>(
    rt: &R,
    alloc: Global,
    capacity: usize,
    items: u64,
) -> Option<Total> {
    let Ok((queue, sources, workers, closer)) = open::<u64, R>(
        rt, alloc, SOURCES, WORKERS, capacity,
    ) else {
        return None;
    };
    let shared = &queue;
    let total = Mutex::new(Total { jobs: 0, sum: 0 });
    let noted = &total;
    let (finished, workers) = thread::join(
        rt,
        move || -> Option<Finished<u64>>
            requires { AreAllSources shared.now sources.items × IsCloser shared.now closer }
            ensures { IfSome result (λ finished. IsFinished shared.entry.now finished) }
        { put_by_all(rt, shared, sources, closer, items) },
        move || -> Result<Vec<WorkerSeat<u64>>, AllocError>
            requires { AreAllWorkers shared.now workers.items }
            ensures { IfOk result (λ seats. AreWorkerSeats shared.entry.now seats.items) }
        { take_by_all(rt, shared, workers, noted) },
    );
    let (Some(finished), Ok(workers)) = (finished, workers) else {
        return None;
    };
    match settle(rt, queue, finished, workers) {
        Ok(_) => Some(total.into_inner()),
        Err(_) => None,
    }
}

/// Puts the items of each source, in a thread of its own, and then finishes the queue.
fn put_by_all<R: Threads + Wait + Sync>(
    rt: &R,
    queue: &Queue<u64>,
    seats: Vec<SourceSeat<u64>>,
    closer: Closer<u64>,
    items: u64,
) -> Option<Finished<u64>>
    requires seats { AreAllSources queue.now seats.items }
    requires closer { IsCloser queue.now closer }
    ensures { IfSome result (λ finished. IsFinished queue.now finished) }
{
    let Ok(ended) = thread::map_vec(
        rt,
        seats,
        &|seat: SourceSeat<u64>| -> Ended<u64>
            requires { IsSourceSeat queue.now seat }
            ensures { IsEnded queue.entry.now result }
        { put_items(rt, queue, seat, items) },
    ) else {
        return None;
    };
    queue.finish(rt, closer, ended).ok()
}

/// Puts the numbers below `items`, and ends the source.
fn put_items<R: Wait>(
    rt: &R,
    queue: &Queue<u64>,
    mut seat: SourceSeat<u64>,
    items: u64,
) -> Ended<u64>
    requires { IsSourceSeat queue.now seat }
    ensures { IsEnded queue.now result }
{
    for item in 0..items {
        if queue.put(rt, &mut seat, item).is_err() {
            break;
        }
    }
    queue.end(rt, seat)
}

/// Takes jobs with each worker, in a thread of its own, until Done.
fn take_by_all<R: Threads + Wait + Sync>(
    rt: &R,
    queue: &Queue<u64>,
    seats: Vec<WorkerSeat<u64>>,
    total: &Mutex<Total>,
) -> Result<Vec<WorkerSeat<u64>>, AllocError>
    requires { AreAllWorkers queue.now seats.items }
    ensures { IfOk result (λ back. AreWorkerSeats queue.now back.items) }
{
    let back = thread::map_vec(
        rt,
        seats,
        &|seat: WorkerSeat<u64>| -> WorkerSeat<u64>
            requires { IsWorkerSeat queue.now seat }
            ensures { IsWorkerSeat queue.entry.now result }
        { take_jobs(rt, queue, seat, total) },
    )?;
    Ok(back)
}

/// Takes jobs until Done, and adds them up.
fn take_jobs<R: Wait>(
    rt: &R,
    queue: &Queue<u64>,
    mut seat: WorkerSeat<u64>,
    total: &Mutex<Total>,
) -> WorkerSeat<u64>
    requires { IsWorkerSeat queue.now seat }
    ensures { IsWorkerSeat queue.now result }
{
    let mut jobs: u64 = 0;
    let mut sum: u64 = 0;
    for _ in rt.forever() {
        match queue.take(rt, &mut seat) {
            Taken::Job(job) => {
                jobs = jobs.wrapping_add(1);
                sum = sum.wrapping_add(job.item);
            }
            Taken::Done => break,
        }
    }
    let mut whole = total.lock(rt);
    whole.jobs = whole.jobs.wrapping_add(jobs);
    whole.sum = whole.sum.wrapping_add(sum);
    seat
}

//! A queue with a thread for each seat.
ghost use Rattle.std.specs.Prelude.{◌≡◌, IfSome, IfOk};
ghost use Rattle.std.specs.List.{AllByRecursion};
ghost use Rattle.ls_queue.specs.View.Running.{sources_of, IsSourceSeat, IsWorkerSeat, IsEnded, IsCloser, IsFinished, AreAllSources, AreAllWorkers, AreWorkerSeats, AreEnds};

use crate::testing::{check, next_source};
use ls_queue::{
    Account, Closer, Ended, Finished, MOST_SOURCES, Queue, SourceSeat, Taken, WorkerSeat, open,
    settle,
};
use std::alloc::{AllocError, Global};
use std::hint::spin_loop;
use std::process::Abort;
use std::sync::{Mutex, Wait};
use std::thread;
use std::thread::Threads;

/// A job that was taken: its source, its number, its item.
pub type Line = (u8, u64, u64);

/// How a queue is used.
#[derive(Clone, Copy)]
pub struct Usage {
    pub sources: u8,
    pub workers: usize,
    pub capacity: usize,
    /// The number of items that each source puts.
    pub items: u64,
    /// The seed of the items and pauses. If it is 0, an item is its number, and there are no pauses.
    pub seed: u64,
}

impl Usage {
    /// Returns the item that a source puts under this number.
    fn item(&self, source: u8, number: u64) -> u64 {
        self.seed.wrapping_mul(u64::from(source)) ^ number
    }

    /// Pauses: not at all, by a yield, or by a few turns of a loop.
    fn pause(&self, dice: &mut u64) {
        if self.seed == 0 {
            return;
        }
        *dice = dice
            .wrapping_mul(6364136223846793005)
            .wrapping_add(self.seed);
        match *dice >> 60 {
            0 => thread::yield_now(),
            1 | 2 => {
                for _ in 0..(*dice >> 50) & 255 {
                    spin_loop();
                }
            }
            _ => {}
        }
    }
}

/// Uses a queue with a thread for each seat, and checks the result: each item is taken once, under its number, and the
/// account counts it.
pub fn use_queue<R: Threads + Wait + Abort + Sync>(rt: &R, alloc: Global, usage: Usage) {
    let Ok((queue, sources, workers, closer)) = open::<u64, R>(
        rt,
        alloc,
        usage.sources,
        usage.workers,
        usage.capacity,
    ) else {
        check(rt, "no memory", false);
        return;
    };
    let shared = &queue;
    let log = Mutex::new(Vec::new(alloc));
    let noted = &log;
    let (finished, workers) = thread::join(
        rt,
        move || -> Option<Finished<u64>>
            requires { AreAllSources shared.now sources.items × IsCloser shared.now closer }
            ensures { IfSome result (λ finished. IsFinished shared.entry.now finished) }
        { put_by_all(rt, alloc, shared, sources, closer, usage) },
        move || -> Result<Vec<WorkerSeat<u64>>, AllocError>
            requires { AreAllWorkers shared.now workers.items }
            ensures { IfOk result (λ seats. AreWorkerSeats shared.entry.now seats.items) }
        { take_by_all(rt, alloc, shared, workers, noted, usage) },
    );
    let (Some(finished), Ok(workers)) = (finished, workers) else {
        check(rt, "a thread", false);
        return;
    };
    match settle(rt, queue, finished, workers) {
        Ok(account) => check_account(rt, &account, usage),
        Err(_) => check(rt, "settle", false),
    }
    check_lines(rt, log.into_inner(), usage);
}

/// Puts the items of each source, in a thread of its own, and then finishes the queue.
fn put_by_all<R: Threads + Wait + Abort + Sync>(
    rt: &R,
    alloc: Global,
    queue: &Queue<u64>,
    seats: Vec<SourceSeat<u64>>,
    closer: Closer<u64>,
    usage: Usage,
) -> Option<Finished<u64>>
    requires seats { AreAllSources queue.now seats.items }
    requires closer { IsCloser queue.now closer }
    ensures { IfSome result (λ finished. IsFinished queue.now finished) }
{
    let Ok(numbered) = with_sources(alloc, queue, seats) else {
        return None;
    };
    put_by_each(rt, queue, numbered, closer, usage)
}

/// Puts the items of each of these sources, in a thread of its own, and then finishes the queue.
fn put_by_each<R: Threads + Wait + Abort + Sync>(
    rt: &R,
    queue: &Queue<u64>,
    numbered: Vec<(u8, SourceSeat<u64>)>,
    closer: Closer<u64>,
    usage: Usage,
) -> Option<Finished<u64>>
    requires numbered { AllByRecursion (λ one. IsSourceSeat queue.now one.1 × (one.1.source ≡ one.0)) numbered.items }
    requires closer { IsCloser queue.now closer }
    ensures { IfSome result (λ finished. IsFinished queue.now finished) }
{
    let Ok(ended) = thread::map_vec(
        rt,
        numbered,
        &|one: (u8, SourceSeat<u64>)| -> Ended<u64>
            requires { IsSourceSeat queue.now one.1 × (one.1.source ≡ one.0) }
            ensures { IsEnded queue.entry.now result }
        { put_items(rt, queue, one.0, one.1, usage) },
    ) else {
        return None;
    };
    queue.finish(rt, closer, ended).ok()
}

/// Pairs each of these seats with its source, which comes first.
fn with_sources(
    alloc: Global,
    queue: &Queue<u64>,
    mut seats: Vec<SourceSeat<u64>>,
) -> Result<Vec<(u8, SourceSeat<u64>)>, AllocError>
    requires { AreAllSources queue.now seats.items }
    ensures { IfOk result (λ numbered. AllByRecursion (λ one. IsSourceSeat queue.now one.1 × (one.1.source ≡ one.0)) numbered.items) }
{
    let mut numbered = Vec::new(alloc);
    for source in 0..MOST_SOURCES {
        if seats.is_empty() {
            break;
        }
        let seat = next_source(queue, source, &mut seats);
        numbered.push((source, seat))?;
    }
    Ok(numbered)
}

/// Puts all items of a source, and ends it.
fn put_items<R: Wait + Abort>(
    rt: &R,
    queue: &Queue<u64>,
    source: u8,
    mut seat: SourceSeat<u64>,
    usage: Usage,
) -> Ended<u64>
    requires { IsSourceSeat queue.now seat × (seat.source ≡ source) }
    ensures { IsEnded queue.now result }
{
    let mut dice = u64::from(source);
    for number in 0..usage.items {
        usage.pause(&mut dice);
        let put = queue.put(rt, &mut seat, usage.item(source, number));
        check(rt, "put", put == Ok(number));
    }
    queue.end(rt, seat)
}

/// Takes jobs with each worker seat, in a thread of its own, until Done.
fn take_by_all<R: Threads + Wait + Abort + Sync>(
    rt: &R,
    alloc: Global,
    queue: &Queue<u64>,
    seats: Vec<WorkerSeat<u64>>,
    log: &Mutex<Vec<Line>>,
    usage: Usage,
) -> Result<Vec<WorkerSeat<u64>>, AllocError>
    requires { AreAllWorkers queue.now seats.items }
    ensures { IfOk result (λ back. AreWorkerSeats queue.now back.items) }
{
    let back = thread::map_vec(
        rt,
        seats,
        &|seat: WorkerSeat<u64>| -> WorkerSeat<u64>
            requires { IsWorkerSeat queue.now seat }
            ensures { IsWorkerSeat queue.entry.now result }
        { take_jobs(rt, alloc, queue, seat, log, usage) },
    )?;
    Ok(back)
}

/// Takes jobs until Done, checks that the numbers of each source rise, and logs the jobs.
fn take_jobs<R: Wait + Abort>(
    rt: &R,
    alloc: Global,
    queue: &Queue<u64>,
    mut seat: WorkerSeat<u64>,
    log: &Mutex<Vec<Line>>,
    usage: Usage,
) -> WorkerSeat<u64>
    requires { IsWorkerSeat queue.now seat }
    ensures { IsWorkerSeat queue.now result }
{
    let mut jobs: Vec<Line> = Vec::new(alloc);
    let mut dice = u64::MAX;
    for _ in rt.forever() {
        usage.pause(&mut dice);
        match queue.take(rt, &mut seat) {
            Taken::Job(job) => {
                let noted = jobs.push((job.source, job.number, job.item));
                check(rt, "memory", noted.is_ok());
            }
            Taken::Done => break,
        }
    }
    check(rt, "the numbers of each source rise", rise(&jobs));
    let noted = log.lock(rt).append(&mut jobs);
    check(rt, "memory", noted.is_ok());
    seat
}

/// Whether the numbers of each source rise along these jobs.
fn rise(lines: &[Line]) -> bool {
    let mut next: [u64; 16] = [0; 16];
    for (source, number, _) in lines {
        let Some(least) = next.get_mut(usize::from(*source)) else {
            return false;
        };
        if *number < *least {
            return false;
        }
        *least = number.saturating_add(1);
    }
    true
}

/// Checks that the account counts what each source put.
fn check_account(rt: &impl Abort, account: &Account, usage: Usage)
    requires { account.now.sources ≡ usage.sources }
{
    for source in 0..usage.sources {
        check(rt, "count", account.count(source) == usage.items);
    }
}

/// Checks that these are the jobs of all sources, each once.
fn check_lines(rt: &impl Abort, mut lines: Vec<Line>, usage: Usage) {
    lines.sort_unstable();
    let mut next = 0;
    for source in 0..usage.sources {
        for number in 0..usage.items {
            let line = (source, number, usage.item(source, number));
            check(rt, "a job", lines.get(next) == Some(&line));
            next = next.saturating_add(1);
        }
    }
    check(rt, "no more jobs", lines.len() == next);
}

//! A worker: it takes jobs, codes them, and sends the results to the inboxes of their sources.
ghost use Rattle.std.specs.Prelude.{◌≡◌, ◌+◌, ◌≤◌, true, length, MatchResult};
ghost use Rattle.ls_queue.specs.View.Running.{IsWorkerSeat, jobs_taken, is_done, sources_of};
ghost use Rattle.ls_recorder.specs.View.Boxes.{AnswersAll};

use crate::delivery::Outbox;
use crate::gate::{Gate, Moment};
use ls_pieces::{Coded, Order, Uncoded};
use ls_queue::{Job, Queue, Taken, WorkerSeat};
use std::alloc::Global;
use std::sync::Wait;
use std::thread::Threads;

/// The result of a worker.
#[derive(Drop)]
pub struct Worked {
    /// Its seat, whose last take returned Done.
    pub seat: WorkerSeat<Order>,
    /// Its senders, by which it sent the results.
    pub outbox: Outbox,
    /// The number of jobs it coded; it stops counting at 2^64 - 1.
    pub coded: u64,
    /// The number of results that came back because the lane of their source was gone; it stops counting at 2^64 - 1.
    pub undelivered: u64,
}

/// Takes jobs until the queue is done, codes each, and sends the result to the inbox of its source: each job has one
/// result, which was sent or came back. Calls the gate
/// before and after each coding. If a job can't be coded, its result is `Uncoded`. With `splits` the scans of a colour frame
/// are coded side by side, by two threads more.
///
/// Requires that the seat is of this queue, and that the outbox is for at least as many sources as the queue has. Waits
/// for jobs, and while the inbox of a result is full.
pub fn work<R: Threads + Wait, G: Gate>(
    rt: &R,
    alloc: Global,
    queue: &Queue<Order>,
    mut seat: WorkerSeat<Order>,
    mut outbox: Outbox,
    gate: &G,
    splits: bool,
) -> Worked
    requires seat { IsWorkerSeat queue.now seat }
    requires boxes { sources_of queue.now ≤ length outbox.senders.items }
    ensures seat { IsWorkerSeat queue.now result.seat }
    ensures done { is_done result.seat ≡ true }
    ensures coded { length (jobs_taken seat) + result.coded ≤ length (jobs_taken result.seat) }
    ensures answered { AnswersAll seat result.seat outbox result.outbox result.undelivered }
{
    let mut coded: u64 = 0;
    let mut undelivered: u64 = 0;
    for _ in rt.forever() {
        let Taken::Job(job) = queue.take(rt, &mut seat) else {
            return Worked {
                seat,
                outbox,
                coded,
                undelivered,
            };
        };
        let source = job.source;
        let number = job.number;
        gate.pass(source, number, Moment::Before);
        let answer = code(rt, alloc, job, splits);
        gate.pass(source, number, Moment::After);
        if answer.is_ok() {
            coded = coded.saturating_add(1);
        }
        if outbox.send(rt, source, answer).is_err() {
            undelivered = undelivered.saturating_add(1);
        }
    }
    unreachable!()
}

/// Codes a job, with the scans of a colour frame side by side if it `splits`.
fn code<R: Threads>(rt: &R, alloc: Global, job: Job<Order>, splits: bool) -> Result<Coded, Uncoded>
    ensures { MatchResult result (λ piece. piece ≡ job) (λ uncoded. (uncoded.source ≡ job.source) × (uncoded.number ≡ job.number)) }
{
    if splits {
        Coded::make_side_by_side(rt, alloc, job)
    } else {
        Coded::make(alloc, job)
    }
}

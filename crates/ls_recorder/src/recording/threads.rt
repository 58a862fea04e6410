//! The threads of a recording: first one for each worker, then one for each lane. They are started and joined in a
//! scope.
ghost use Rattle.std.specs.Prelude.{◌≡◌, List, ◌≤◌, [], length, vec_capacity, IfOk, IfErr};
ghost use Rattle.ls_queue.specs.View.Running.{AreAllSources, EachHasEnd, IsFinished, IsCloser, puts_of, parts_of, sources_of, AreEnds};
ghost use Rattle.ls_recorder.specs.View.Recordings.{HasRun, MayRun, AreBuffers};

use crate::delivery::{Inbox, Outbox};
use crate::gate::Gate;
use crate::recording::Track;
use crate::recording::lanes::{Lane, join_lanes, start_lanes};
use crate::recording::workers::{WorkerOf, join_workers, start_workers};
use crate::working::Worked;
use ls_frame::{Feed, Outlet, Tuning};
use ls_pieces::Order;
use ls_queue::{Closer, Ended, Finished, Queue, SourceSeat, WorkerSeat};
use std::alloc::{AllocError, Global};
use std::sync::Wait;
use std::sync::atomic::AtomicBool;
use std::thread;
use std::thread::{PromisedHandle, Scope, Threads};

/// The values that all threads of a recording share.
#[derive(Drop)]
pub struct Shared<'s, Rt, G> {
    pub rt: &'s Rt,
    pub alloc: Global,
    pub queue: &'s Queue<Order>,
    pub gate: &'s G,
    /// A flag for each source: whether no thread could be made for its lane.
    pub refused: &'s [AtomicBool],
    pub window: usize,
    /// Whether the scans of a colour frame are coded side by side.
    pub splits: bool,
}

/// The seats of a queue, its closer, and the boxes.
#[derive(Drop)]
pub struct Seats {
    pub sources: Vec<SourceSeat<Order>>,
    pub workers: Vec<WorkerSeat<Order>>,
    pub closer: Closer<Order>,
    pub inboxes: Vec<Inbox>,
    pub outboxes: Vec<Outbox>,
}

/// Empty vectors, with capacity for the handles and the results of the threads.
#[derive(Drop)]
pub struct Buffers<R: Feed + Drop, W: Outlet + Drop> {
    pub working: Vec<PromisedHandle<Worked, WorkerOf>>,
    pub lanes: Vec<Lane<R, W>>,
    pub ended: Vec<Ended<Order>>,
    pub tracks: Vec<Track<R, W>>,
    pub seats: Vec<WorkerSeat<Order>>,
}

/// The results of the threads.
#[derive(Drop)]
pub struct Ran<R, W> {
    pub tracks: Vec<Track<R, W>>,
    pub finished: Finished<Order>,
    pub seats: Vec<WorkerSeat<Order>>,
}

/// Allocates for the handles and the results of `sources` lanes and `workers` workers.
pub fn buffers_for<R: Feed + Drop, W: Outlet + Drop>(
    alloc: Global,
    sources: usize,
    workers: usize,
) -> Result<Buffers<R, W>, AllocError>
    ensures { IfOk result (AreBuffers sources workers) }
{
    Ok(Buffers {
        working: Vec::with_capacity(alloc, workers)?,
        lanes: Vec::with_capacity(alloc, sources)?,
        ended: Vec::with_capacity(alloc, sources)?,
        tracks: Vec::with_capacity(alloc, sources)?,
        seats: Vec::with_capacity(alloc, workers)?,
    })
}

/// A flag for each source, not set.
pub fn flags_for(alloc: Global, sources: usize) -> Result<Vec<AtomicBool>, AllocError>
    ensures { IfOk result (λ flags. length flags.items ≡ sources) }
{
    let mut flags = Vec::new(alloc);
    for _source in 0..sources {
        flags.push(AtomicBool::new(false))?;
    }
    Ok(flags)
}

/// Calls `run_threads` in a scope of its own.
pub fn run_in_scope<
    Rt: Threads + Wait + Sync,
    R: Feed + Send + Drop,
    W: Outlet + Send + Drop,
    G: Gate,
>(
    shared: &Shared<'_, Rt, G>,
    films: Vec<(R, W, Tuning)>,
    seats: Seats,
    buffers: Buffers<R, W>,
) -> Result<Ran<R, W>, Vec<(R, W, Tuning)>>
    requires { MayRun shared.now.queue.now shared.now.refused.now shared.now.window films.items seats buffers }
    ensures ran { IfOk result (HasRun R.remaining R.failed_reads W.contents W.failed_writes shared.now.queue.now films.items) }
    ensures refused { IfErr result (λ back. back.items ≡ films.items) }
{
    thread::scope(
        thread::scope_env(),
        shared.rt,
        move |scope| -> Result<Ran<R, W>, Vec<(R, W, Tuning)>>
            requires { MayRun shared.now.queue.now shared.now.refused.now shared.now.window films.items seats buffers }
            ensures { IfOk result (HasRun R.remaining R.failed_reads W.contents W.failed_writes shared.entry.now.queue.now films.items) × IfErr result (λ back. back.items ≡ films.items) }
        { run_threads(scope, shared, films, seats, buffers) },
    )
}

/// Runs the workers and the lanes to their ends. If no thread can be made for a worker, no lane is started, and the
/// films are returned.
fn run_threads<
    's,
    E,
    Rt: Threads + Wait + Sync,
    R: Feed + Send + Drop + 's,
    W: Outlet + Send + Drop + 's,
    G: Gate,
>(
    scope: &Scope<'s, E>,
    shared: &'s Shared<'s, Rt, G>,
    films: Vec<(R, W, Tuning)>,
    seats: Seats,
    buffers: Buffers<R, W>,
) -> Result<Ran<R, W>, Vec<(R, W, Tuning)>>
    requires { MayRun shared.now.queue.now shared.now.refused.now shared.now.window films.items seats buffers }
    ensures ran { IfOk result (HasRun R.remaining R.failed_reads W.contents W.failed_writes shared.now.queue.now films.items) }
    ensures refused { IfErr result (λ back. back.items ≡ films.items) }
{
    let Seats {
        sources,
        workers,
        closer,
        inboxes,
        outboxes,
    } = seats;
    let Buffers {
        mut working,
        mut lanes,
        mut ended,
        mut tracks,
        mut seats,
    } = buffers;
    let rt = shared.rt;
    let queue = shared.queue;
    if !start_workers(scope, shared, workers, outboxes, &mut working) {
        end_all(rt, queue, sources, &mut ended);
        let _finished = finish_queue(rt, queue, closer, ended);
        return Err(films);
    }
    start_lanes(scope, shared, films, sources, inboxes, &mut lanes);
    join_lanes(rt, queue, lanes, &mut ended, &mut tracks);
    let finished = finish_queue(rt, queue, closer, ended);
    join_workers(rt, queue, working, &mut seats);
    Ok(Ran {
        tracks,
        finished,
        seats,
    })
}

/// Ends all sources before anything was put.
fn end_all<Rt: Wait>(
    rt: &Rt,
    queue: &Queue<Order>,
    mut seats: Vec<SourceSeat<Order>>,
    ended: &mut Vec<Ended<Order>>,
)
    requires seats { AreAllSources queue.now seats.items }
    requires capacity { length seats.items ≤ vec_capacity ended.old }
    requires none { ended.old.items ≡ [] }
    ensures ended { AreEnds queue.now ended.new.items }
    ensures each { EachHasEnd (sources_of queue.now) ended.new.items }
{
    while !seats.is_empty() {
        let seat = seats.remove(0);
        ended.push_reserved(queue.end(rt, seat));
    }
}

/// Finishes the queue, all of whose sources have ended.
fn finish_queue<Rt: Wait>(
    rt: &Rt,
    queue: &Queue<Order>,
    closer: Closer<Order>,
    ended: Vec<Ended<Order>>,
) -> Finished<Order>
    requires closer { IsCloser queue.now closer }
    requires ended { AreEnds queue.now ended.items }
    requires each { EachHasEnd (sources_of queue.now) ended.items }
    ensures finished { IsFinished queue.now result }
    ensures puts { puts_of result ≡ parts_of ended.items }
{
    match queue.finish(rt, closer, ended) {
        Ok(finished) => finished,
        Err(_) => unreachable!(),
    }
}

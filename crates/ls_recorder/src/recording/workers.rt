//! A thread for each worker: starting and joining it.
ghost use Rattle.std.specs.Prelude.{◌≡◌, ◌+◌, ◌≤◌, [], true, length, vec_len, vec_capacity};
ghost use Rattle.ls_queue.specs.View.Running.{sources_of, IsWorkerSeat, AreWorkerSeats, all_done};
ghost use Rattle.ls_recorder.specs.View.Recordings.{IsWorked, AreWorking, LeadToAll};

use crate::delivery::Outbox;
use crate::gate::Gate;
use crate::recording::threads::Shared;
use crate::working::{Worked, work};
use ls_pieces::Order;
use ls_queue::{Queue, WorkerSeat};
use std::snapshot::Snapshot;
use std::sync::Wait;
use std::thread::{Promise, PromisedHandle, Scope, Threads};

/// The promise of a worker's thread: what its result is about.
#[derive(Drop)]
pub struct WorkerOf {
    pub queue: Snapshot<Queue<Order>>,
}

impl Promise<Worked> for WorkerOf {
    ghost use Rattle.ls_recorder.specs.View.Recordings.{IsWorked};

    ghost kept_by = { λ p worked. IsWorked p.queue.value worked };
}

/// Starts a worker for each seat, until no thread can be made. Whether all were started.
pub fn start_workers<'s, E, Rt: Threads + Wait + Sync, G: Gate>(
    scope: &Scope<'s, E>,
    shared: &Shared<'s, Rt, G>,
    mut seats: Vec<WorkerSeat<Order>>,
    mut outboxes: Vec<Outbox>,
    working: &mut Vec<PromisedHandle<Worked, WorkerOf>>,
) -> bool
    requires seats { AreWorkerSeats shared.now.queue.now seats.items }
    requires outboxes { LeadToAll (sources_of shared.now.queue.now) outboxes.items × (length outboxes.items ≡ length seats.items) }
    requires capacity { vec_len working.old + length seats.items ≤ vec_capacity working.old }
    requires working { AreWorking shared.now.queue.now working.old.items }
    ensures working { AreWorking shared.now.queue.now working.new.items }
    ensures all { result ≡ true → vec_len working.new ≡ vec_len working.old + length seats.items }
{
    let rt = shared.rt;
    let alloc = shared.alloc;
    let queue = shared.queue;
    let gate = shared.gate;
    let splits = shared.splits;
    while !seats.is_empty() {
        let seat = seats.remove(0);
        let outbox = outboxes.remove(0);
        let promise = WorkerOf {
            queue: Snapshot::of(queue),
        };
        let started = scope.spawn_with(
            promise,
            move || -> Worked
                requires { IsWorkerSeat queue.now seat × (sources_of queue.now ≤ length outbox.senders.items) }
                ensures { IsWorked queue.entry.now result }
            { work(rt, alloc, queue, seat, outbox, gate, splits) },
        );
        match started {
            Ok(handle) => working.push_reserved(handle),
            Err(_refused) => return false,
        }
    }
    true
}

/// Joins the workers: collects their seats.
pub fn join_workers<Rt: Threads>(
    rt: &Rt,
    queue: &Queue<Order>,
    mut working: Vec<PromisedHandle<Worked, WorkerOf>>,
    seats: &mut Vec<WorkerSeat<Order>>,
)
    requires working { AreWorking queue.now working.items }
    requires capacity { length working.items ≤ vec_capacity seats.old }
    requires none { seats.old.items ≡ [] }
    ensures seats { AreWorkerSeats queue.now seats.new.items }
    ensures done { all_done seats.new.items ≡ true }
    ensures len { length seats.new.items ≡ length working.items }
{
    while !working.is_empty() {
        let worked = working.remove(0).join(rt);
        seats.push_reserved(worked.seat);
    }
}

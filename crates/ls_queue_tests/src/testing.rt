//! Steps with the replies that they must have, and checks for the tests.
ghost use Rattle.std.specs.Prelude.{◌≡◌, suc, ◌+◌, ◌<◌, [], length, false};
ghost use Rattle.ls_queue.specs.View.Running.{AreNewSources, AreNewWorkers, IsSourceSeat, IsWorkerSeat, items_put, jobs_taken, is_done};

use ls_queue::{Close, Job, Put, Queue, Reply, SourceSeat, Step, Take, WorkerSeat};
use std::process::Abort;

/// Whether allocations may fail in a test. If they may, running out of memory is a right result too.
#[derive(Clone, Copy, Debug, PartialEq, Eq)]
pub enum Memory {
    Ample,
    Refusable,
}

/// Steps of two sources and capacity 2, and their replies.
pub const STEPS: [Step; 13] = [
    Step::Put(0, 10),
    Step::Put(1, 20),
    Step::Put(0, 30),
    Step::Take,
    Step::Put(0, 30),
    Step::Close(0),
    Step::Put(0, 40),
    Step::Take,
    Step::Take,
    Step::Take,
    Step::Close(1),
    Step::Close(1),
    Step::Take,
];

pub const REPLIES: [Reply; 13] = [
    Reply::Put(Put::Taken(0)),
    Reply::Put(Put::Taken(0)),
    Reply::Put(Put::Full(30)),
    Reply::Take(Take::Job(Job {
        source: 0,
        number: 0,
        item: 10,
    })),
    Reply::Put(Put::Taken(1)),
    Reply::Close(Close::Now(2)),
    Reply::Put(Put::Closed(40)),
    Reply::Take(Take::Job(Job {
        source: 1,
        number: 0,
        item: 20,
    })),
    Reply::Take(Take::Job(Job {
        source: 0,
        number: 1,
        item: 30,
    })),
    Reply::Take(Take::Empty),
    Reply::Close(Close::Now(1)),
    Reply::Close(Close::Already(1)),
    Reply::Take(Take::Done),
];

/// Checks that a reply is the wanted one.
pub fn check_reply(rt: &impl Abort, case: &str, got: Option<Reply>, want: Reply) {
    assert_eq!(rt; got, Some(want), "{case}");
}

/// Checks that this holds.
pub fn check(rt: &impl Abort, case: &str, holds: bool) {
    assert!(rt; holds, "{case}");
}

/// Removes and returns the seat of source `number`, which is the first of the remaining seats that `open` made.
pub fn next_source<T: Drop>(
    queue: &Queue<T>,
    number: u8,
    seats: &mut Vec<SourceSeat<T>>,
) -> SourceSeat<T>
    requires some { 0 < length seats.old.items }
    requires new { AreNewSources queue.now.channel number seats.old.items }
    ensures seat { IsSourceSeat queue.now result × (result.source ≡ number) × (items_put result ≡ []) }
    ensures rest { AreNewSources queue.now.channel (suc number) seats.new.items }
    ensures size { length seats.new.items + 1 ≡ length seats.old.items }
{
    seats.remove(0)
}

/// Removes and returns the first of the remaining seats that `open` made.
pub fn next_worker<T: Drop>(queue: &Queue<T>, seats: &mut Vec<WorkerSeat<T>>) -> WorkerSeat<T>
    requires some { 0 < length seats.old.items }
    requires new { AreNewWorkers queue.now.channel seats.old.items }
    ensures seat { IsWorkerSeat queue.now result × (jobs_taken result ≡ []) × (is_done result ≡ false) }
    ensures rest { AreNewWorkers queue.now.channel seats.new.items }
    ensures size { length seats.new.items + 1 ≡ length seats.old.items }
{
    seats.remove(0)
}

//! The queue that threads share, from `open` to `settle`.
ghost use Rattle.std.specs.Prelude.{◌≡◌, ℕ, max, ◌<◌, ◌≤◌, ◌+◌, ◌-◌, ◌⊎◌, [], ◌∷◌, ◌++◌, length, true, false, Some, None, IfOk, MatchResult, MatchOption};
ghost use Rattle.std.specs.List.{AllByRecursion};
ghost use Rattle.crossbeam_channel.specs.Claims.{view, IsSeatAt};
ghost use Rattle.crossbeam_channel.specs.Ends.{sends_on, receives_on, ruled_capacity};
ghost use Rattle.ls_queue.specs.Queue.{spent_count};
ghost use Rattle.ls_queue.specs.View.Account.{closer_view, ending_view, after_mark, with_marks, with_takes, IsCounted};
ghost use Rattle.ls_queue.specs.Faults.{open_fault};
ghost use Rattle.ls_queue.specs.View.Running.{sources_of, workers_of, places_of, AreAllSources, AreAllWorkers, AreWorkerSeats, AreEnds, IsSourceSeat, IsWorkerSeat, IsWorkerAt, Balances, IsUnsettled, all_done, takes_of, IsEnded, IsEndedAt, IsCloser, IsFinished, IsMissing, IsLowestMissing, EachHasEnd, has_end, puts_of, parts_of, AreNewSources, AreNewWorkers, items_put, jobs_taken, is_done, items_ended, Takes};

use crate::account::{
    Account, Channel, JobSent, Joined, MarkSent, Received, Rule, SeatPass, Settled, SourceSeated,
    WorkerSeated,
};
use crate::faults::{QueueFault, open_fault};
use crate::replies::Job;
use crate::views::{Message, View};
use crate::waiting::{Patience, receive};
use crossbeam_channel::bounded_with;
use std::alloc::{AllocError, Global};
use std::sync::Wait;

/// A queue of several sources and several workers, each in its own thread.
#[derive(Drop)]
pub struct Queue<T: Drop> {
    channel: Channel<T>,
}

/// The right to put items of one source.
#[derive(Drop)]
pub struct SourceSeat<T> {
    source: u8,
    /// How many items it put.
    count: u64,
    pass: SeatPass<T>,
}

/// The right to take jobs.
#[derive(Drop)]
pub struct WorkerSeat<T> {
    /// Whether `take` has returned Done to this seat.
    done: bool,
    patience: Patience,
    pass: SeatPass<T>,
}

/// The right to finish the queue, once every source has ended.
#[derive(Drop)]
pub struct Closer<T> {
    pass: SeatPass<T>,
}

/// A source that has ended: what `end` returned for its seat.
#[derive(Drop)]
pub struct Ended<T> {
    pub source: u8,
    /// How many items it put.
    pub count: u64,
    pass: SeatPass<T>,
}

/// A finished queue: every source has ended, and the end marks are sent.
#[derive(Drop)]
pub struct Finished<T> {
    /// The number of items that each source put, by source.
    counts: [u64; 16],
    pass: SeatPass<T>,
}

/// Why a queue can't be finished.
#[derive(Drop)]
pub enum FinishFault<T> {
    /// This source, the lowest such, has no end among those passed. The closer and the ends are returned.
    MissingSource {
        source: u8,
        closer: Closer<T>,
        ended: Vec<Ended<T>>,
    },
}

/// Why a queue can't be settled.
#[derive(Clone, Copy, Debug, Drop, PartialEq, Eq)]
pub enum SettleCause {
    /// There are fewer seats than workers.
    MissingSeat,
    /// To some seat `take` hasn't returned Done yet.
    NotEmpty,
}

/// Why a queue wasn't settled, with everything that was passed to `settle`.
#[derive(Drop)]
pub struct SettleFault<T: Drop> {
    pub cause: SettleCause,
    pub queue: Queue<T>,
    pub finished: Finished<T>,
    pub seats: Vec<WorkerSeat<T>>,
}

/// What a take returns.
#[derive(Clone, Copy, Debug, Drop, PartialEq, Eq)]
pub enum Taken<T> {
    /// A job, which no other take returns.
    Job(Job<T>),
    /// Every source has ended and every job was taken.
    Done,
}

/// Makes a queue of 1 to 16 sources and 1 to 16 workers, whose channel has room for `capacity` jobs, 1 to 256, or for
/// one job per worker if that is more. Returns it with a seat for each source, in order from source 0, a seat for each
/// worker, and the closer. Fails with the first of `Sources`, `Capacity` and `Workers` whose number is out of range;
/// else its only fault is `NoMemory`.
///
/// Allocates all the memory that the queue will need.
pub fn open<T: Drop, R: Wait>(
    _rt: &R,
    alloc: Global,
    sources: u8,
    workers: usize,
    capacity: usize,
) -> Result<(Queue<T>, Vec<SourceSeat<T>>, Vec<WorkerSeat<T>>, Closer<T>), QueueFault>
    ensures { MatchResult result
        (λ made. (open_fault sources workers capacity ≡ None) × (sources_of made.0 ≡ sources) × (workers_of made.0 ≡ workers)
        × (places_of made.0 ≡ max capacity workers)
        × AreAllSources made.0 made.1.items × AreAllWorkers made.0 made.2.items × IsCloser made.0 made.3)
        (λ fault. (open_fault sources workers capacity ≡ Some fault) ⊎ ((open_fault sources workers capacity ≡ None) × (fault ≡ QueueFault.NoMemory))) }
{
    if let Some(fault) = open_fault(sources, workers, capacity) {
        return Err(fault);
    }
    let (sender, receiver, mut pass) = bounded_with(alloc, capacity.max(workers))?;
    let channel = Channel {
        sender,
        receiver,
        sources,
        workers,
    };
    let source_seats = source_seats(alloc, &channel, &mut pass)?;
    let worker_seats = worker_seats(alloc, &channel, &mut pass)?;
    let queue = Queue { channel };
    Ok((queue, source_seats, worker_seats, Closer { pass }))
}

/// Makes a seat for each source. `pass` is the closer's, which has made no seat yet.
fn source_seats<T: Drop>(
    alloc: Global,
    channel: &Channel<T>,
    pass: &mut SeatPass<T>,
) -> Result<Vec<SourceSeat<T>>, AllocError>
    requires pass { IsSeatAt (sends_on channel.now.sender) pass.old }
    requires first { view pass.old ≡ closer_view 64 0 0 }
    ensures pass { IfOk result (λ seats. IsSeatAt (sends_on channel.now.sender) pass.new) }
    ensures known { IfOk result (λ seats. view pass.new ≡ closer_view (64 - channel.now.sources) channel.now.sources 0) }
    ensures seats { IfOk result (λ seats. AreNewSources channel.now 0 seats.items × (length seats.items ≡ channel.now.sources)) }
{
    let mut seats = Vec::new(alloc);
    for source in 0..channel.sources {
        seats.push(SourceSeat {
            source,
            count: 0,
            pass: channel.sender.another::<SourceSeated>(pass),
        })?;
    }
    Ok(seats)
}

/// Makes a seat for each worker. `pass` is the closer's, which has made only the source seats.
fn worker_seats<T: Drop>(
    alloc: Global,
    channel: &Channel<T>,
    pass: &mut SeatPass<T>,
) -> Result<Vec<WorkerSeat<T>>, AllocError>
    requires pass { IsSeatAt (sends_on channel.now.sender) pass.old }
    requires sources { view pass.old ≡ closer_view (64 - channel.now.sources) channel.now.sources 0 }
    ensures pass { IfOk result (λ seats. IsSeatAt (sends_on channel.now.sender) pass.new) }
    ensures known { IfOk result (λ seats. view pass.new ≡ closer_view (64 - channel.now.sources - channel.now.workers) channel.now.sources channel.now.workers) }
    ensures seats { IfOk result (λ seats. AreNewWorkers channel.now seats.items × (length seats.items ≡ channel.now.workers)) }
{
    let mut seats = Vec::new(alloc);
    for worker in 0..channel.workers {
        seats.push(WorkerSeat {
            done: false,
            patience: Patience::new(),
            pass: channel.sender.another::<WorkerSeated>(pass),
        })?;
    }
    Ok(seats)
}

impl<T: Drop> Queue<T> {
    /// Puts an item of the seat's source and returns its number. Waits while the channel is full. `seat` must be one of
    /// this queue's. Returns the item as an error exactly if the source has used up its numbers: the next one would be
    /// 2^64 - 1. Then nothing has changed.
    pub fn put<R: Wait>(&self, rt: &R, seat: &mut SourceSeat<T>, item: T) -> Result<u64, T>
        requires { IsSourceSeat self.now seat.old }
        ensures seat { IsSourceSeat self.now seat.new × (seat.new.source ≡ seat.old.source) }
        ensures put { MatchResult result
            (λ number. (number ≡ length (items_put seat.old)) × (number < spent_count) × (items_put seat.new ≡ items_put seat.old ++ item ∷ []))
            (λ back. (back ≡ item) × (length (items_put seat.old) ≡ spent_count) × (seat.new ≡ seat.old)) }
    {
        let number = seat.count;
        if number == u64::MAX {
            return Err(item);
        }
        let mut message = Message::Job(Job {
            source: seat.source,
            number,
            item,
        });
        for _ in rt.forever() {
            match self
                .channel
                .sender
                .send_as::<JobSent, R>(rt, &mut seat.pass, message)
            {
                Ok(()) => {
                    seat.count = number + 1;
                    return Ok(number);
                }
                Err(refused) => message = refused.into_inner(),
            }
        }
        unreachable!()
    }

    /// Ends a source: uses up its seat, so nothing is put after it. `seat` must be one of this queue's. Returns the
    /// source, with the number of items it put.
    pub fn end<R: Wait>(&self, _rt: &R, seat: SourceSeat<T>) -> Ended<T>
        requires { IsSourceSeat self.now seat }
        ensures ended { IsEnded self.now result }
        ensures same { (result.source ≡ seat.source) × (result.count ≡ length (items_put seat)) × (items_ended result ≡ items_put seat) }
    {
        let SourceSeat {
            source,
            count,
            pass,
        } = seat;
        Ended {
            source,
            count,
            pass,
        }
    }

    /// Takes a job, or returns Done. Waits for a job or for the end. `seat` must be one of this queue's.
    pub fn take<R: Wait>(&self, rt: &R, seat: &mut WorkerSeat<T>) -> Taken<T>
        requires { IsWorkerSeat self.now seat.old }
        ensures seat { IsWorkerSeat self.now seat.new }
        ensures taken { Takes self.now seat.old result seat.new }
    {
        if seat.done {
            return Taken::Done;
        }
        for _ in rt.forever() {
            match receive::<Message<T>, View<T>, Rule, Received, R>(
                rt,
                &self.channel.receiver,
                &mut seat.pass,
                &mut seat.patience,
            ) {
                Ok(Message::Job(job)) => return Taken::Job(job),
                Ok(Message::Mark(_)) => {
                    seat.done = true;
                    return Taken::Done;
                }
                Err(_) => {}
            }
        }
        unreachable!()
    }

    /// Finishes the queue: sends one end mark for each worker, and waits while the channel is full. `closer` and
    /// `ended`, the results of `end`, must be this queue's. Fails with `MissingSource` exactly if some source has no
    /// end among them; then nothing is sent.
    pub fn finish<R: Wait>(
        &self,
        rt: &R,
        closer: Closer<T>,
        ended: Vec<Ended<T>>,
    ) -> Result<Finished<T>, FinishFault<T>>
        requires closer { IsCloser self.now closer }
        requires ended { AreEnds self.now ended.items }
        ensures { MatchResult result
            (λ finished. EachHasEnd (sources_of self.now) ended.items × IsFinished self.now finished × (puts_of finished ≡ parts_of ended.items))
            (λ fault. IsMissing (sources_of self.now) closer ended.items fault) }
    {
        if let Some(source) = missing(self.channel.sources, &ended) {
            return Err(FinishFault::MissingSource {
                source,
                closer,
                ended,
            });
        }
        let Closer { mut pass } = closer;
        let counts = join_ends(&self.channel, &mut pass, ended);
        send_marks(rt, &self.channel, &mut pass, counts);
        Ok(Finished { counts, pass })
    }
}

/// Returns the lowest source that has no end among these, if there is one.
fn missing<T>(sources: u8, ended: &[Ended<T>]) -> Option<u8>
    ensures { MatchOption result (EachHasEnd sources ended.now) (λ source. IsLowestMissing sources ended.now source) }
{
    for source in 0..sources {
        if !has_end(source, ended) {
            return Some(source);
        }
    }
    None
}

/// Whether the end of `source` is among these.
fn has_end<T>(source: u8, ended: &[Ended<T>]) -> bool
    ensures { result ≡ has_end source ended.now }
{
    for end in ended {
        if end.source == source {
            return true;
        }
    }
    false
}

/// Joins the passes of the ends to the closer's, and returns the number of items that each source put.
fn join_ends<T: Drop>(
    channel: &Channel<T>,
    pass: &mut SeatPass<T>,
    mut ended: Vec<Ended<T>>,
) -> [u64; 16]
    requires pass { IsSeatAt (sends_on channel.now.sender) pass.old }
    requires known { view pass.old ≡ closer_view (64 - channel.now.sources - channel.now.workers) channel.now.sources channel.now.workers }
    requires ended { AllByRecursion (IsEndedAt channel.now) ended.items }
    ensures pass { IsSeatAt (sends_on channel.now.sender) pass.new }
    ensures known { view pass.new ≡ ending_view (64 - channel.now.sources - channel.now.workers + length ended.items) (parts_of ended.items) channel.now.sources channel.now.workers 0 }
    ensures counts { (s : ℕ) → has_end s ended.items ≡ true → IsCounted result (parts_of ended.items) s }
{
    let mut counts: [u64; 16] = [0; 16];
    while !ended.is_empty() {
        let Ended {
            source,
            count,
            pass: theirs,
        } = ended.remove(0);
        counts[source as usize] = count;
        channel.sender.absorb::<Joined>(pass, theirs);
    }
    counts
}

/// Sends an end mark for each worker, with these counts.
fn send_marks<T: Drop, R: Wait>(
    rt: &R,
    channel: &Channel<T>,
    pass: &mut SeatPass<T>,
    counts: [u64; 16],
)
    requires pass { IsSeatAt (sends_on channel.now.sender) pass.old }
    requires closes { (view pass.old).closes ≡ true }
    requires none { (view pass.old).marks ≡ 0 }
    requires counts { (s : ℕ) → s < (view pass.old).sources → IsCounted counts (view pass.old).puts s }
    ensures pass { IsSeatAt (sends_on channel.now.sender) pass.new }
    ensures sent { view pass.new ≡ with_marks (view pass.old) channel.now.workers }
{
    for mark in 0..channel.workers {
        send_mark(rt, channel, pass, counts);
    }
}

/// Sends one end mark.
fn send_mark<T: Drop, R: Wait>(
    rt: &R,
    channel: &Channel<T>,
    pass: &mut SeatPass<T>,
    counts: [u64; 16],
)
    requires pass { IsSeatAt (sends_on channel.now.sender) pass.old }
    requires closes { (view pass.old).closes ≡ true }
    requires counts { (s : ℕ) → s < (view pass.old).sources → IsCounted counts (view pass.old).puts s }
    ensures pass { IsSeatAt (sends_on channel.now.sender) pass.new }
    ensures sent { view pass.new ≡ after_mark (view pass.old) }
{
    for _ in rt.forever() {
        match channel
            .sender
            .send_as::<MarkSent, R>(rt, pass, Message::Mark(counts))
        {
            Ok(()) => return,
            Err(_) => {}
        }
    }
    unreachable!()
}

/// Settles a queue whose workers are all done: returns the number of items that each source put, all of which were
/// taken. `finished` and `seats` must be this queue's. Fails with `MissingSeat` if there are fewer seats than workers,
/// else with `NotEmpty` if `take` hasn't returned Done to some seat; then everything that was passed is returned.
pub fn settle<T: Drop, R: Wait>(
    _rt: &R,
    queue: Queue<T>,
    finished: Finished<T>,
    seats: Vec<WorkerSeat<T>>,
) -> Result<Account, SettleFault<T>>
    requires finished { IsFinished queue finished }
    requires seats { AreWorkerSeats queue seats.items }
    ensures { MatchResult result
        (λ account. (workers_of queue ≤ length seats.items) × (all_done seats.items ≡ true) × (account.sources ≡ sources_of queue)
        × Balances queue finished seats.items account.counts)
        (λ fault. IsUnsettled queue finished seats.items fault) }
{
    if seats.len() < queue.channel.workers {
        return Err(SettleFault {
            cause: SettleCause::MissingSeat,
            queue,
            finished,
            seats,
        });
    }
    if !all_done(&seats) {
        return Err(SettleFault {
            cause: SettleCause::NotEmpty,
            queue,
            finished,
            seats,
        });
    }
    let Queue { channel } = queue;
    let Finished { counts, mut pass } = finished;
    join_seats(&channel, &mut pass, seats);
    channel.sender.learn_as::<Settled>(&mut pass);
    Ok(Account {
        counts,
        sources: channel.sources,
    })
}

/// Whether `take` has returned Done to each of these seats.
fn all_done<T>(seats: &[WorkerSeat<T>]) -> bool
    ensures { result ≡ all_done seats.now }
{
    for seat in seats {
        if !seat.done {
            return false;
        }
    }
    true
}

/// Joins the passes of the worker seats to the closer's.
fn join_seats<T: Drop>(channel: &Channel<T>, pass: &mut SeatPass<T>, mut seats: Vec<WorkerSeat<T>>)
    requires pass { IsSeatAt (sends_on channel.now.sender) pass.old }
    requires closes { (view pass.old).closes ≡ true }
    requires seats { AllByRecursion (IsWorkerAt channel.now) seats.items }
    ensures pass { IsSeatAt (sends_on channel.now.sender) pass.new }
    ensures known { view pass.new ≡ with_takes (view pass.old) (takes_of seats.items) }
{
    while !seats.is_empty() {
        let WorkerSeat { pass: theirs, .. } = seats.remove(0);
        channel.sender.absorb::<Joined>(pass, theirs);
    }
}

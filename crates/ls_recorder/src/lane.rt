//! The lane of a source: a film's way from its reader to its writer.
//!
//! It has two halves, each in a thread of its own, so that a codestream is written once all before it are, whatever the
//! film's reader does. The reading half (`reading`) reads a frame once a place in the window is free (`places`), books
//! its order for the writing half, and puts it into the queue. The writing half (`writing`) takes the booked orders,
//! receives their coded frames from the source's inbox, and writes them in order; each frees its place once it is
//! written. The bookings are a queue of one source and one worker, so its account says that the orders taken are the
//! orders booked, in order.
mod places;
mod reading;
mod writing;

ghost use Rattle.std.specs.Prelude.{◌≡◌, ◌≤◌, ◌⊎◌, [], ◌∷◌, true, length, vec_capacity, Err, IfOk, IfErr, MatchResult};
ghost use Rattle.ls_frame.specs.View.Devices.{count_after};
ghost use Rattle.ls_queue.specs.View.Running.{IsSourceSeat, IsWorkerSeat, IsEnded, IsFinished, items_put, items_ended, is_done, puts_of, parts_of, sources_of, workers_of};
ghost use Rattle.ls_pieces.specs.Orders.{Ordered};
ghost use Rattle.ls_pieces.specs.Collecting.{most_window};
ghost use Rattle.ls_recorder.specs.View.Lanes.{IsLaneEnd, WroteButWindow};
ghost use Rattle.ls_recorder.specs.View.Halves.{ArePartsOf, MayRead, IsReadingEnd, MayWrite, IsWritingEnd, orders_taken};

use crate::delivery::Inbox;
use crate::gate::{Gate, Notice, OpenGate};
use ls_frame::{Feed, NetpbmFault, Outlet, PresetFault, Tuning};
use ls_pieces::{Collector, Misfit, Order};
use ls_queue::{Closer, Ended, Finished, Queue, SourceSeat, WorkerSeat, open, settle};
use places::{Places, Returns};
use reading::{Reading, ReadingEnd, read_beside, read_nothing};
use std::alloc::Global;
use std::snapshot::Snapshot;
use std::sync::Wait;
use std::thread;
use std::thread::{Promise, Scope, Threads};
use thiserror::Error;
use writing::{Arrivals, Writing, WritingEnd, write_film};

/// The reason why a lane stopped.
///
/// A clause of `lane` says what was read and written then. Why `NoMemory`, `Lost` and `NotStarted` come is tested, not
/// said by a clause.
#[derive(Clone, Copy, Debug, Drop, PartialEq, Eq, Error)]
pub enum LaneFault {
    /// The frame of this number, from 0, can't be read; the fault is never `NetpbmFault::NoMemory`. The codestreams of
    /// exactly the frames before it were written.
    #[error("frame {0}: {1}")]
    Input(u64, NetpbmFault),
    /// A write failed after exactly this many bytes of the codestreams.
    #[error("output failed after {0} bytes")]
    Output(u64),
    /// An allocation failed, in the lane or for a worker; or a coded frame came whose order was booked too far ahead
    /// for the window. Complete codestreams of the first frames were written, perhaps of all that were put.
    #[error("no memory")]
    NoMemory,
    /// A coded frame came that doesn't fit. Complete codestreams of the first frames were written, and not of all that
    /// were put.
    #[error("pieces don't fit")]
    Misfit(Misfit),
    /// No worker is left. Complete codestreams of the first frames were written, and not of all that were put.
    #[error("workers lost")]
    Lost,
    /// No thread can be made for the lane, or for its writing half. Nothing was read or written.
    #[error("not started")]
    NotStarted,
    /// The film has a frame numbered 4,294,967,295: more frames than a film may have. The codestreams of exactly the
    /// frames before it were written.
    #[error("too many frames")]
    TooMany,
    /// The tuning gives no parameters for the maxval of the frame of this number, from 0. The codestreams of exactly
    /// the frames before it were written.
    #[error("frame {0}: bad presets: {1}")]
    Tuning(u64, PresetFault),
}

/// The result of a lane: the end of its source, its reader and its writer, and the number of frames recorded, or why it
/// stopped.
#[derive(Drop)]
pub struct LaneEnd<F, W> {
    pub ended: Ended<Order>,
    pub reader: F,
    pub writer: W,
    pub result: Result<u64, LaneFault>,
}

/// Records the film of a source: reads its frames, makes an order of each with the parameters that the tuning gives for
/// it, puts the orders into the queue, and writes the codestreams that come out of the inbox in frame order, each once
/// all before it are written. At most `window` frames are in progress, that is, read and not yet written. Its end says
/// so; at each moment before it the rule of the window's places does (`specs/View/Backs.antt`).
///
/// Requires that the seat is of this queue and has put nothing, and that the window is 1 to 64. The inbox should be of
/// the seat's source: coded frames of another source don't fit.
///
/// However it ends, the source is ended, and reader and writer are returned. If their bytes are known (as in memory),
/// the clauses say which were read and written, and of which frames. A fault of reading is returned once the frames
/// before it are written; if writing fails meanwhile, that fault is returned instead, once a read in progress has
/// ended. After a fault nothing is said of the reader's position.
///
/// Writes in a thread of its own. `NotStarted` means that it had none; then nothing was read or written. Waits for that
/// thread, for the queue and for workers; nothing is promised of when it returns.
pub fn lane<F: Feed + Drop, W: Outlet + Send + Drop, R: Threads + Wait + Sync>(
    rt: &R,
    alloc: Global,
    queue: &Queue<Order>,
    seat: SourceSeat<Order>,
    inbox: Inbox,
    window: usize,
    tuning: Tuning,
    reader: F,
    writer: W,
) -> LaneEnd<F, W>
    requires seat { IsSourceSeat queue.now seat }
    requires new { items_put seat ≡ [] }
    requires window { 1 ≤ window }
    requires narrow { window ≤ most_window }
    ensures end { IsLaneEnd F.remaining F.failed_reads W.contents W.failed_writes queue.now seat.source tuning reader writer result }
    ensures window { WroteButWindow (items_ended result.ended) (W.contents writer) (W.contents result.writer) window }
{
    let start = Start {
        seat,
        inbox,
        window,
        film: (reader, writer, tuning),
    };
    watched_lane(rt, alloc, queue, &OpenGate, start)
}

/// The input of a lane: the seat and the inbox of its source, its window, and its film.
#[derive(Drop)]
pub struct Start<F, W> {
    pub seat: SourceSeat<Order>,
    pub inbox: Inbox,
    pub window: usize,
    pub film: (F, W, Tuning),
}

/// The values that both halves of a lane share.
#[derive(Drop)]
struct Setting<'s, R, G> {
    rt: &'s R,
    alloc: Global,
    queue: &'s Queue<Order>,
    /// The queue by which the reading half passes its orders to the writing half.
    bookings: &'s Queue<Order>,
    gate: &'s G,
    source: u8,
    window: usize,
    tuning: Tuning,
}

impl<R, G: Gate> Setting<'_, R, G> {
    /// Passes an event of the film to the gate.
    fn notice(&self, notice: Notice) {
        self.gate.notice(self.source, notice);
    }
}

/// As `lane`, with a gate that is notified of the film's events.
pub fn watched_lane<F: Feed + Drop, W: Outlet + Send + Drop, R: Threads + Wait + Sync, G: Gate>(
    rt: &R,
    alloc: Global,
    queue: &Queue<Order>,
    gate: &G,
    start: Start<F, W>,
) -> LaneEnd<F, W>
    requires seat { IsSourceSeat queue.now start.seat }
    requires new { items_put start.seat ≡ [] }
    requires window { 1 ≤ start.window }
    requires narrow { start.window ≤ most_window }
    ensures end { IsLaneEnd F.remaining F.failed_reads W.contents W.failed_writes queue.now start.seat.source start.film.2 start.film.0 start.film.1 result }
    ensures window { WroteButWindow (items_ended result.ended) (W.contents start.film.1) (W.contents result.writer) start.window }
{
    let Start {
        seat,
        inbox,
        window,
        film: (reader, writer, tuning),
    } = start;
    let source = inbox.source;
    gate.notice(source, Notice::Began);
    let Ok((bookings, parts)) = parts_for(rt, alloc, source, window) else {
        let end = LaneEnd {
            ended: queue.end(rt, seat),
            reader,
            writer,
            result: Err(LaneFault::NoMemory),
        };
        gate.notice(source, Notice::Ended(end.result));
        return end;
    };
    let Parts {
        booked,
        closer,
        places,
        ended,
        taker,
        collector,
        returns,
        seats,
    } = parts;
    let reading = Reading {
        seat,
        booked,
        closer,
        places,
        ended,
        reader,
    };
    let writing = Writing {
        seat: taker,
        arrivals: Arrivals {
            inbox,
            collector,
            returns,
        },
        writer,
    };
    let setting = Setting {
        rt,
        alloc,
        queue,
        bookings: &bookings,
        gate,
        source,
        window,
        tuning,
    };
    let (read, wrote) = run_in_scope(&setting, reading, writing);
    hand_over(rt, bookings, read.finished, seats, wrote.seat);
    read.places.compare(wrote.returns);
    let result = outcome(read.result, wrote.result);
    gate.notice(source, Notice::Ended(result));
    LaneEnd {
        ended: queue.end(rt, read.seat),
        reader: read.reader,
        writer: wrote.writer,
        result,
    }
}

/// Combines the results of both halves: the writing half's fault if it has one, else the reading half's result.
fn outcome(read: Result<u64, LaneFault>, wrote: Result<(), LaneFault>) -> Result<u64, LaneFault>
    ensures { MatchResult wrote (λ _. result ≡ read) (λ fault. result ≡ Err fault) }
{
    match wrote {
        Ok(()) => read,
        Err(fault) => Err(fault),
    }
}

/// The parts that the two halves of a lane need besides its film, its seat and its inbox.
#[derive(Drop)]
pub struct Parts {
    pub booked: SourceSeat<Order>,
    pub closer: Closer<Order>,
    pub places: Places,
    /// Empty, with capacity for the end of `booked`.
    pub ended: Vec<Ended<Order>>,
    pub taker: WorkerSeat<Order>,
    pub collector: Collector,
    pub returns: Returns,
    /// Empty, with capacity for `taker`.
    pub seats: Vec<WorkerSeat<Order>>,
}

/// Opens a queue for the bookings of a source, with its seats, and makes what else the halves of its lane need. Its
/// only fault is `NoMemory`.
fn parts_for<R: Wait>(
    rt: &R,
    alloc: Global,
    source: u8,
    window: usize,
) -> Result<(Queue<Order>, Parts), LaneFault>
    requires some { 1 ≤ window }
    requires few { window ≤ most_window }
    ensures { IfOk result (λ made. ArePartsOf made.0 source window made.1) }
{
    let (Ok((bookings, mut sources, mut takers, closer)), Ok((places, returns)), Ok(collector)) = (
        open(rt, alloc, 1, 1, window),
        Places::new(alloc, window),
        Collector::new(alloc, source, window),
    ) else {
        return Err(LaneFault::NoMemory);
    };
    let (Ok(ended), Ok(seats)) = (Vec::with_capacity(alloc, 1), Vec::with_capacity(alloc, 1)) else {
        return Err(LaneFault::NoMemory);
    };
    let parts = Parts {
        booked: sources.remove(0),
        closer,
        places,
        ended,
        taker: takers.remove(0),
        collector,
        returns,
        seats,
    };
    Ok((bookings, parts))
}

/// The promise of the writing half's thread: what its result is about.
#[derive(Drop)]
pub struct WritingOf<W: Outlet> {
    pub bookings: Snapshot<Queue<Order>>,
    pub writing: Snapshot<Writing<W>>,
}

impl<W: Outlet + Drop> Promise<WritingEnd<W>> for WritingOf<W> {
    ghost use Rattle.ls_recorder.specs.View.Halves.{IsWritingEnd};

    ghost kept_by = { λ p end. IsWritingEnd W.contents W.failed_writes p.bookings.value p.writing.value end };
}

/// Calls `run_halves` in a scope of its own.
fn run_in_scope<F: Feed + Drop, W: Outlet + Send + Drop, R: Threads + Wait + Sync, G: Gate>(
    setting: &Setting<'_, R, G>,
    reading: Reading<F>,
    writing: Writing<W>,
) -> (ReadingEnd<F>, WritingEnd<W>)
    requires reading { MayRead setting.now.queue.now setting.now.bookings.now reading }
    requires writing { MayWrite setting.now.bookings.now setting.now.window writing }
    ensures read { IsReadingEnd F.remaining F.failed_reads setting.now.queue.now setting.now.bookings.now setting.now.tuning reading result.0 }
    ensures wrote { IsWritingEnd W.contents W.failed_writes setting.now.bookings.now writing result.1 }
{
    thread::scope(
        thread::scope_env(),
        setting.rt,
        move |scope| -> (ReadingEnd<F>, WritingEnd<W>)
            requires { MayRead setting.now.queue.now setting.now.bookings.now reading × MayWrite setting.now.bookings.now setting.now.window writing }
            ensures { IsReadingEnd F.remaining F.failed_reads setting.entry.now.queue.now setting.entry.now.bookings.now setting.entry.now.tuning reading result.0
                × IsWritingEnd W.contents W.failed_writes setting.entry.now.bookings.now writing result.1 }
        { run_halves(scope, setting, reading, writing) },
    )
}

/// Runs both halves to their ends. If no thread can be made for the writing half, nothing is read, and the writing half
/// runs in this thread, with nothing to write.
fn run_halves<
    's,
    E,
    F: Feed + Drop,
    W: Outlet + Send + Drop + 's,
    R: Threads + Wait + Sync,
    G: Gate,
>(
    scope: &Scope<'s, E>,
    setting: &'s Setting<'s, R, G>,
    reading: Reading<F>,
    writing: Writing<W>,
) -> (ReadingEnd<F>, WritingEnd<W>)
    requires reading { MayRead setting.now.queue.now setting.now.bookings.now reading }
    requires writing { MayWrite setting.now.bookings.now setting.now.window writing }
    ensures read { IsReadingEnd F.remaining F.failed_reads setting.now.queue.now setting.now.bookings.now setting.now.tuning reading result.0 }
    ensures wrote { IsWritingEnd W.contents W.failed_writes setting.now.bookings.now writing result.1 }
{
    let promise = WritingOf {
        bookings: Snapshot::of(setting.bookings),
        writing: Snapshot::of(&writing),
    };
    let started = scope.spawn_with(
        promise,
        move || -> WritingEnd<W>
            requires { MayWrite setting.now.bookings.now setting.now.window writing }
            ensures { IsWritingEnd W.contents W.failed_writes setting.entry.now.bookings.now writing result }
        { write_film(setting, writing) },
    );
    match started {
        Ok(handle) => read_beside(setting, reading, handle),
        Err(refused) => {
            let read = read_nothing(setting, reading);
            (read, (refused.value)())
        }
    }
}

/// Settles the queue of the bookings: the orders taken are the orders booked.
fn hand_over<R: Wait>(
    rt: &R,
    bookings: Queue<Order>,
    finished: Finished<Order>,
    seats: Vec<WorkerSeat<Order>>,
    taker: WorkerSeat<Order>,
)
    requires one { (sources_of bookings ≡ 1) × (workers_of bookings ≡ 1) }
    requires finished { IsFinished bookings finished }
    requires taker { IsWorkerSeat bookings taker × (is_done taker ≡ true) }
    requires seats { (seats.items ≡ []) × (1 ≤ vec_capacity seats) }
    ensures { (ended : Ended Ordered) → puts_of finished ≡ parts_of (ended ∷ []) → IsEnded bookings ended → orders_taken taker ≡ items_ended ended }
{
    let mut seats = seats;
    seats.push_reserved(taker);
    match settle(rt, bookings, finished, seats) {
        Ok(_account) => {}
        Err(_) => unreachable!(),
    }
}

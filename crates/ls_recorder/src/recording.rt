//! Recording films side by side: each has a lane, in a thread of its own, and workers code the frames of all films.
mod lanes;
mod threads;
mod workers;

ghost use Rattle.std.specs.Prelude.{◌≡◌, ℕ, max, List, ◌⊎◌, Some, None, length, IfOk, IfErr};
ghost use Rattle.ls_queue.specs.View.Running.{sources_of, workers_of, places_of};
ghost use Rattle.ls_recorder.specs.View.Boxes.{HaveCapacity};
ghost use Rattle.ls_recorder.specs.Sizes.{record_fault};
ghost use Rattle.ls_recorder.specs.View.Recordings.{AreTracks, AreCounted, AreSeats, HasRun, MayRun};

use crate::delivery::boxes;
use crate::faults::RecordFault;
use crate::gate::Gate;
use crate::lane::LaneFault;
use crate::sizes::Sizes;
use ls_frame::{Feed, Outlet, Tuning};
use ls_pieces::Order;
use ls_queue::{Account, Queue, open, settle};
use std::alloc::Global;
use std::sync::Wait;
use std::sync::atomic::AtomicBool;
use std::thread::Threads;
use threads::{Buffers, Ran, Seats, Shared, buffers_for, flags_for, run_in_scope};

/// The result of a film's lane: its reader and writer, and the number of frames recorded, or why it stopped.
#[derive(Drop)]
pub struct Track<R, W> {
    pub reader: R,
    pub writer: W,
    pub result: Result<u64, LaneFault>,
}

/// The result of a recording.
#[derive(Drop)]
pub struct Recording<R, W> {
    /// A track for each film, in their order.
    pub tracks: Vec<Track<R, W>>,
    /// For each film, the number of frames put into the queue. Of a film that was recorded completely, that is all its
    /// frames.
    pub account: Account,
}

/// Records 1 to 16 films side by side, each as the codestreams of its frames, joined. A film is a reader, a writer for
/// its codestreams, and a tuning of its coding parameters. 1 to 16 workers code the frames of all films. At most
/// `capacity` frames, 1 to 256, wait for a worker, or one for each worker if that is more; of each film at most
/// `window` frames, 1 to 64, are read and not yet written. (The queue and the windows are made so; no clause of
/// `record` says it.)
///
/// If there are more workers than films, each worker codes the scans of a colour frame side by side, by two threads more.
///
/// Each film has a lane of its own, and its track speaks of that film alone (`lane::lane` says what each result means).
/// A lane that ends with `NotStarted` had no thread, and read and wrote nothing. That no film's end or fault affects
/// another is tested, not said by a clause. If the bytes of a film's reader and writer are known (as in memory), the
/// clauses say which were read and written.
///
/// Fails with the first of `Sources`, `Workers`, `Capacity` and `Window` that applies; else with `NoMemory`, or with
/// `NotStarted`, which stands for a worker without a thread. Then the films are returned, with nothing read or written.
///
/// Allocates the queue, the boxes and the buffers for its threads' results before it starts a thread; lanes and workers
/// allocate more as they go. Waits for its threads; nothing is promised of when they end.
pub fn record<Rt: Threads + Wait + Sync, R: Feed + Send + Drop, W: Outlet + Send + Drop, G: Gate>(
    rt: &Rt,
    alloc: Global,
    films: Vec<(R, W, Tuning)>,
    workers: usize,
    capacity: usize,
    window: usize,
    gate: &G,
) -> Result<Recording<R, W>, (RecordFault, Vec<(R, W, Tuning)>)>
    ensures tracks { IfOk result (λ recording. AreTracks R.remaining R.failed_reads W.contents W.failed_writes recording.account.counts 0 films.items recording.tracks.items) }
    ensures account { IfOk result (λ recording. AreCounted recording.account.counts 0 recording.tracks.items) }
    ensures sources { IfOk result (λ recording. recording.account.sources ≡ length films.items) }
    ensures refused { IfErr result (λ refused. (refused.1.items ≡ films.items)
        × ((record_fault (length films.items) workers capacity window ≡ Some refused.0)
        ⊎ ((record_fault (length films.items) workers capacity window ≡ None) × ((refused.0 ≡ RecordFault.NoMemory) ⊎ (refused.0 ≡ RecordFault.NotStarted))))) }
{
    let sizes = Sizes {
        workers,
        capacity,
        window,
    };
    if let Some(fault) = sizes.fault(films.len()) {
        return Err((fault, films));
    }
    let Ok(prepared) = prepare(rt, alloc, films.len(), sizes) else {
        return Err((RecordFault::NoMemory, films));
    };
    match run_prepared(rt, alloc, films, prepared, gate) {
        Ok(recording) => Ok(recording),
        Err(films) => Err((RecordFault::NotStarted, films)),
    }
}

/// What a recording has before it starts a thread: its queue with the seats and boxes, a flag for each source, buffers
/// for its threads' results, the number of frames in a window, and whether the scans of a colour frame are coded side by
/// side.
#[derive(Drop)]
struct Prepared<R: Feed + Drop, W: Outlet + Drop> {
    queue: Queue<Order>,
    seats: Seats,
    flags: Vec<AtomicBool>,
    buffers: Buffers<R, W>,
    window: usize,
    splits: bool,
}

/// Allocates what a recording of `sources` films needs before it starts a thread. Requires numbers within their limits.
/// Its only fault is `NoMemory`.
fn prepare<Rt: Wait, R: Feed + Drop, W: Outlet + Drop>(
    rt: &Rt,
    alloc: Global,
    sources: usize,
    sizes: Sizes,
) -> Result<Prepared<R, W>, RecordFault>
    requires { record_fault sources sizes.workers sizes.capacity sizes.window ≡ None }
    ensures { IfOk result (λ prepared. (films : List (R × W × Tuning)) → length films ≡ sources
        → MayRun prepared.queue prepared.flags.items prepared.window films prepared.seats prepared.buffers) }
{
    let flags = flags_for(alloc, sources)?;
    let buffers = buffers_for(alloc, sources, sizes.workers)?;
    let (queue, seats) = make_queue(rt, alloc, sources as u8, sizes)?;
    Ok(Prepared {
        queue,
        seats,
        flags,
        buffers,
        window: sizes.window,
        splits: sizes.workers > sources,
    })
}

/// Records films with what was prepared for them. Returns the films if no thread can be made for a worker.
fn run_prepared<Rt: Threads + Wait + Sync, R: Feed + Send + Drop, W: Outlet + Send + Drop, G: Gate>(
    rt: &Rt,
    alloc: Global,
    films: Vec<(R, W, Tuning)>,
    prepared: Prepared<R, W>,
    gate: &G,
) -> Result<Recording<R, W>, Vec<(R, W, Tuning)>>
    requires { MayRun prepared.queue prepared.flags.items prepared.window films.items prepared.seats prepared.buffers }
    ensures tracks { IfOk result (λ recording. AreTracks R.remaining R.failed_reads W.contents W.failed_writes recording.account.counts 0 films.items recording.tracks.items) }
    ensures account { IfOk result (λ recording. AreCounted recording.account.counts 0 recording.tracks.items) }
    ensures sources { IfOk result (λ recording. recording.account.sources ≡ length films.items) }
    ensures refused { IfErr result (λ back. back.items ≡ films.items) }
{
    let Prepared {
        queue,
        seats,
        flags,
        buffers,
        window,
        splits,
    } = prepared;
    let shared = Shared {
        rt,
        alloc,
        queue: &queue,
        gate,
        refused: &flags,
        window,
        splits,
    };
    match run_in_scope(&shared, films, seats, buffers) {
        Ok(ran) => Ok(settled(rt, queue, ran)),
        Err(films) => Err(films),
    }
}

/// Makes a queue with all its seats and with room for `capacity` jobs, or for one for each worker if that is more; and
/// a box for each source, which holds at most `window` results. Requires numbers within their limits. Its only fault is
/// `NoMemory`.
fn make_queue<Rt: Wait>(
    rt: &Rt,
    alloc: Global,
    sources: u8,
    sizes: Sizes,
) -> Result<(Queue<Order>, Seats), RecordFault>
    requires { record_fault sources sizes.workers sizes.capacity sizes.window ≡ None }
    ensures seats { IfOk result (λ made. (sources_of made.0 ≡ sources) × (workers_of made.0 ≡ sizes.workers) × AreSeats made.0 made.1) }
    ensures places { IfOk result (λ made. (places_of made.0 ≡ max sizes.capacity sizes.workers) × HaveCapacity sizes.window made.1.inboxes.items) }
{
    let Sizes {
        workers,
        capacity,
        window,
    } = sizes;
    let Ok((inboxes, outboxes)) = boxes(rt, alloc, sources, workers, window) else {
        return Err(RecordFault::NoMemory);
    };
    let Ok((queue, sources, workers, closer)) = open(rt, alloc, sources, workers, capacity) else {
        return Err(RecordFault::NoMemory);
    };
    Ok((
        queue,
        Seats {
            sources,
            workers,
            closer,
            inboxes,
            outboxes,
        },
    ))
}

/// Settles the queue, whose threads have ended, and returns its account with the tracks.
fn settled<Rt: Wait, R: Feed + Drop, W: Outlet + Drop>(
    rt: &Rt,
    queue: Queue<Order>,
    ran: Ran<R, W>,
) -> Recording<R, W>
    requires { (films : List (R × W × Tuning)) × (length films ≡ sources_of queue) × HasRun R.remaining R.failed_reads W.contents W.failed_writes queue films ran }
    ensures tracks { (films : List (R × W × Tuning)) → length films ≡ sources_of queue → HasRun R.remaining R.failed_reads W.contents W.failed_writes queue films ran
        → AreTracks R.remaining R.failed_reads W.contents W.failed_writes result.account.counts 0 films result.tracks.items }
    ensures account { (films : List (R × W × Tuning)) → length films ≡ sources_of queue → HasRun R.remaining R.failed_reads W.contents W.failed_writes queue films ran
        → AreCounted result.account.counts 0 result.tracks.items }
    ensures sources { result.account.sources ≡ sources_of queue }
{
    let Ran {
        tracks,
        finished,
        seats,
    } = ran;
    match settle(rt, queue, finished, seats) {
        Ok(account) => Recording { tracks, account },
        Err(_) => unreachable!(),
    }
}

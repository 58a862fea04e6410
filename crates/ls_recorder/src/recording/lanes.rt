//! A thread for the lane of each film: starting and joining it. A lane for which none can be made returns its film
//! unchanged.
ghost use Rattle.std.specs.Prelude.{◌≡◌, ℕ, List, ◌<◌, ◌≤◌, [], length, vec_capacity};
ghost use Rattle.ls_queue.specs.View.Running.{AreAllSources, sources_of};
ghost use Rattle.ls_pieces.specs.Collecting.{most_window};
ghost use Rattle.ls_recorder.specs.View.Boxes.{AreFrom};
ghost use Rattle.ls_recorder.specs.View.Recordings.{IsStarted, AreStarted, AreDone};
ghost use Rattle.ls_recorder.specs.View.Lanes.{IsLaneEnd};
ghost use Rattle.ls_recorder.specs.View.Halves.{MayStart};

use crate::delivery::Inbox;
use crate::gate::{Gate, Notice};
use crate::lane::{LaneEnd, LaneFault, Start, watched_lane};
use crate::recording::Track;
use crate::recording::threads::Shared;
use ls_frame::{Feed, Outlet, Tuning};
use ls_pieces::Order;
use ls_queue::{Ended, Queue, SourceSeat};
use std::snapshot::Snapshot;
use std::sync::Wait;
use std::sync::atomic::Ordering;
use std::thread::{Promise, PromisedHandle, Scope, Threads};

/// The promise of a lane's thread: what its result is about.
#[derive(Drop)]
pub struct LaneOf<R: Feed + Drop, W: Outlet + Drop> {
    pub queue: Snapshot<Queue<Order>>,
    pub source: u8,
    pub tuning: Tuning,
    pub reader: Snapshot<R>,
    pub writer: Snapshot<W>,
}

impl<R: Feed + Drop, W: Outlet + Drop> Promise<LaneEnd<R, W>> for LaneOf<R, W> {
    ghost use Rattle.ls_recorder.specs.View.Lanes.{IsLaneEnd};

    ghost kept_by = { λ p end. IsLaneEnd R.remaining R.failed_reads W.contents W.failed_writes p.queue.value p.source p.tuning p.reader.value p.writer.value end };
}

/// A lane that runs in its thread, or the result of one for which no thread could be made.
#[derive(Drop)]
pub enum Lane<R: Feed + Drop, W: Outlet + Drop> {
    Running(PromisedHandle<LaneEnd<R, W>, LaneOf<R, W>>),
    Refused(LaneEnd<R, W>),
}

/// Starts a lane for each film, in order from source 0.
pub fn start_lanes<
    's,
    E,
    Rt: Threads + Wait + Sync,
    R: Feed + Send + Drop + 's,
    W: Outlet + Send + Drop + 's,
    G: Gate,
>(
    scope: &Scope<'s, E>,
    shared: &'s Shared<'s, Rt, G>,
    mut films: Vec<(R, W, Tuning)>,
    mut seats: Vec<SourceSeat<Order>>,
    mut inboxes: Vec<Inbox>,
    lanes: &mut Vec<Lane<R, W>>,
)
    requires films { length films.items ≡ sources_of shared.now.queue.now }
    requires seats { AreAllSources shared.now.queue.now seats.items }
    requires inboxes { AreFrom 0 inboxes.items × (length inboxes.items ≡ sources_of shared.now.queue.now) }
    requires refused { length shared.now.refused.now ≡ sources_of shared.now.queue.now }
    requires sources { sources_of shared.now.queue.now ≤ 16 }
    requires some { 1 ≤ shared.now.window }
    requires few { shared.now.window ≤ most_window }
    requires capacity { length films.items ≤ vec_capacity lanes.old }
    requires none { lanes.old.items ≡ [] }
    ensures lanes { AreStarted R.remaining R.failed_reads W.contents W.failed_writes shared.now.queue.now 0 films.items lanes.new.items }
    ensures many { length lanes.new.items ≡ length films.items }
{
    let mut source: u8 = 0;
    while !films.is_empty() {
        let film = films.remove(0);
        let seat = seats.remove(0);
        let inbox = inboxes.remove(0);
        let start = Start {
            seat,
            inbox,
            window: shared.window,
            film,
        };
        lanes.push_reserved(start_lane(scope, shared, source, start));
        source += 1;
    }
}

/// Starts a lane in a thread of its own. If none can be made, the result is `Refused`, with its film unchanged.
fn start_lane<
    's,
    E,
    Rt: Threads + Wait + Sync,
    R: Feed + Send + Drop + 's,
    W: Outlet + Send + Drop + 's,
    G: Gate,
>(scope: &Scope<'s, E>, shared: &'s Shared<'s, Rt, G>, source: u8, start: Start<R, W>) -> Lane<R, W>
    requires may { MayStart shared.now.queue.now start }
    requires source { start.seat.source ≡ source }
    requires flag { source < length shared.now.refused.now }
    ensures { IsStarted R.remaining R.failed_reads W.contents W.failed_writes shared.now.queue.now source start.film result }
{
    let promise = LaneOf {
        queue: Snapshot::of(shared.queue),
        source,
        tuning: start.film.2,
        reader: Snapshot::of(&start.film.0),
        writer: Snapshot::of(&start.film.1),
    };
    let started = scope.spawn_with(
        promise,
        move || -> LaneEnd<R, W>
            requires { MayStart shared.now.queue.now start × (source < length shared.now.refused.now) }
            ensures { IsLaneEnd R.remaining R.failed_reads W.contents W.failed_writes shared.entry.now.queue.now start.seat.source start.film.2 start.film.0 start.film.1 result }
        { begin_lane(shared, source, start) },
    );
    match started {
        Ok(handle) => Lane::Running(handle),
        Err(closure) => {
            shared.refused[source as usize].store(true, Ordering::SeqCst);
            Lane::Refused((closure.value)())
        }
    }
}

/// Runs a lane, unless no thread could be made for it: then ends its source, with `NotStarted`.
fn begin_lane<Rt: Threads + Wait + Sync, R: Feed + Drop, W: Outlet + Send + Drop, G: Gate>(
    shared: &Shared<'_, Rt, G>,
    source: u8,
    start: Start<R, W>,
) -> LaneEnd<R, W>
    requires may { MayStart shared.now.queue.now start }
    requires flag { source < length shared.now.refused.now }
    ensures { IsLaneEnd R.remaining R.failed_reads W.contents W.failed_writes shared.now.queue.now start.seat.source start.film.2 start.film.0 start.film.1 result }
{
    if !shared.refused[source as usize].load(Ordering::SeqCst) {
        return watched_lane(shared.rt, shared.alloc, shared.queue, shared.gate, start);
    }
    let Start {
        seat,
        inbox,
        film: (reader, writer, _tuning),
        ..
    } = start;
    let result = Err(LaneFault::NotStarted);
    shared.gate.notice(inbox.source, Notice::Ended(result));
    LaneEnd {
        ended: shared.queue.end(shared.rt, seat),
        reader,
        writer,
        result,
    }
}

/// Joins the lanes: collects the ends of their sources, and their tracks.
pub fn join_lanes<Rt: Threads, R: Feed + Drop, W: Outlet + Drop>(
    rt: &Rt,
    queue: &Queue<Order>,
    mut lanes: Vec<Lane<R, W>>,
    ended: &mut Vec<Ended<Order>>,
    tracks: &mut Vec<Track<R, W>>,
)
    requires ended_capacity { length lanes.items ≤ vec_capacity ended.old }
    requires tracks_capacity { length lanes.items ≤ vec_capacity tracks.old }
    requires no_ended { ended.old.items ≡ [] }
    requires no_tracks { tracks.old.items ≡ [] }
    ensures { (films : List (R × W × Tuning)) → AreStarted R.remaining R.failed_reads W.contents W.failed_writes queue.now 0 films lanes.items
        → AreDone R.remaining R.failed_reads W.contents W.failed_writes queue.now 0 films ended.new.items tracks.new.items }
{
    while !lanes.is_empty() {
        let lane = lanes.remove(0);
        let LaneEnd {
            ended: last,
            reader,
            writer,
            result,
        } = join_lane(rt, queue, lane);
        ended.push_reserved(last);
        tracks.push_reserved(Track {
            reader,
            writer,
            result,
        });
    }
}

/// Joins a lane. Returns its result.
fn join_lane<Rt: Threads, R: Feed + Drop, W: Outlet + Drop>(
    rt: &Rt,
    queue: &Queue<Order>,
    lane: Lane<R, W>,
) -> LaneEnd<R, W>
    ensures { (s : ℕ) (film : R × W × Tuning) → IsStarted R.remaining R.failed_reads W.contents W.failed_writes queue.now s film lane
        → IsLaneEnd R.remaining R.failed_reads W.contents W.failed_writes queue.now s film.2 film.0 film.1 result }
{
    match lane {
        Lane::Running(handle) => handle.join(rt),
        Lane::Refused(end) => end,
    }
}

ghost use Rattle.std.specs.Prelude.{◌≡◌, IfSome};
ghost use Rattle.ls_queue.specs.View.Running.{IsSourceSeat, IsWorkerSeat, IsCloser, IsEnded, AreAllSources, AreAllWorkers, sources_of, workers_of};

use crate::pixels::pixel_order;
use crate::testing::{check, one_box};
use ls_queue::{Closer, Ended, Finished, Queue, SourceSeat, WorkerSeat, open};
use ls_recorder::{Gate, Inbox, Moment, OpenGate, Order, Outbox, work};
use std::alloc::Global;
use std::sync::Wait;
use std::sync::atomic::{AtomicU64, Ordering};
use std::thread::Threads;

/// A gate that counts how often it is called.
#[derive(Drop)]
struct Counter {
    before: AtomicU64,
    after: AtomicU64,
}

impl Gate for Counter {
    fn pass(&self, _source: u8, _number: u64, moment: Moment) {
        let _earlier = match moment {
            Moment::Before => self.before.fetch_add(1, Ordering::SeqCst),
            Moment::After => self.after.fetch_add(1, Ordering::SeqCst),
        };
    }
}

/// The seat of a queue's only source.
fn only_source(queue: &Queue<Order>, mut seats: Vec<SourceSeat<Order>>) -> SourceSeat<Order>
    requires one { sources_of queue.now ≡ 1 }
    requires seats { AreAllSources queue.now seats.items }
    ensures { IsSourceSeat queue.now result }
{
    seats.remove(0)
}

/// The seat of a queue's only worker.
fn only_worker(queue: &Queue<Order>, mut seats: Vec<WorkerSeat<Order>>) -> WorkerSeat<Order>
    requires one { workers_of queue.now ≡ 1 }
    requires seats { AreAllWorkers queue.now seats.items }
    ensures { IsWorkerSeat queue.now result }
{
    seats.remove(0)
}

/// Whether the next coded frame in the inbox has this number and this sample.
fn comes_out<R: Wait>(rt: &R, inbox: &mut Inbox, number: u64, sample: u16) -> bool {
    match inbox.recv(rt) {
        Some(Ok(piece)) => {
            piece.number() == number && piece.frame().samples().first() == Some(&sample)
        }
        _ => false,
    }
}

/// A finished queue with a black and a white pixel in it, and its worker's seat. `None` if an allocation fails.
fn two_pixels<R: Wait>(rt: &R, alloc: Global) -> Option<(Queue<Order>, WorkerSeat<Order>)>
    ensures seat { IfSome result (λ made. IsWorkerSeat made.0 made.1) }
    ensures one { IfSome result (λ made. sources_of made.0 ≡ 1) }
{
    let (queue, sources, workers, closer) = open::<Order, R>(rt, alloc, 1, 1, 3).ok()?;
    let source = only_source(&queue, sources);
    let worker = only_worker(&queue, workers);
    let _finished = put_and_finish(rt, alloc, &queue, source, closer)?;
    Some((queue, worker))
}

/// Puts a black and a white pixel, and finishes the queue. `None` if an allocation fails.
fn put_and_finish<R: Wait>(
    rt: &R,
    alloc: Global,
    queue: &Queue<Order>,
    source: SourceSeat<Order>,
    closer: Closer<Order>,
) -> Option<Finished<Order>>
    requires source { IsSourceSeat queue.now source }
    requires closer { IsCloser queue.now closer }
{
    let end = put_two(rt, alloc, queue, source)?;
    let mut ended = Vec::with_capacity(alloc, 1).ok()?;
    ended.push_reserved(end);
    queue.finish(rt, closer, ended).ok()
}

/// Puts a black and a white pixel, and ends the source. `None` if an allocation fails.
fn put_two<R: Wait>(
    rt: &R,
    alloc: Global,
    queue: &Queue<Order>,
    mut source: SourceSeat<Order>,
) -> Option<Ended<Order>>
    requires { IsSourceSeat queue.now source }
    ensures { IfSome result (λ ended. IsEnded queue.now ended) }
{
    let _first = queue.put(rt, &mut source, pixel_order(alloc, 0, 64)?);
    let _second = queue.put(rt, &mut source, pixel_order(alloc, 255, 64)?);
    Some(queue.end(rt, source))
}

/// Gives a worker two pixels. Returns the number that it codes, and the number of results that come back to it; `None`
/// if an allocation fails.
fn code_two<R: Threads + Wait, G: Gate>(
    rt: &R,
    alloc: Global,
    outbox: Outbox,
    gate: &G,
) -> Option<(u64, u64)> {
    let (queue, worker) = two_pixels(rt, alloc)?;
    if outbox.sources() == 0 {
        return None;
    }
    let worked = work(rt, alloc, &queue, worker, outbox, gate, false);
    Some((worked.coded, worked.undelivered))
}

/// Whether the coded frames of both pixels come out of the inbox, and then nothing.
fn both_come_out<R: Wait>(rt: &R, inbox: &mut Inbox) -> bool {
    comes_out(rt, inbox, 0, 0) && comes_out(rt, inbox, 1, 255) && inbox.recv(rt).is_none()
}

/// Whether a worker codes two pixels, one after the other, and counts them. `None` if an allocation fails.
fn two_pixels_are_coded<R: Threads + Wait>(rt: &R, alloc: Global) -> Option<bool> {
    let (mut inbox, outbox) = one_box(rt, alloc, 2)?;
    let gate = Counter {
        before: AtomicU64::new(0),
        after: AtomicU64::new(0),
    };
    let counts = code_two(rt, alloc, outbox, &gate)?;
    let passed = (gate.before.into_inner(), gate.after.into_inner());
    Some(counts == (2, 0) && passed == (2, 2) && both_come_out(rt, &mut inbox))
}

#[test]
fn jobs_are_coded_and_answered_with_ample_memory(rt: HostRuntime) {
    let right = two_pixels_are_coded(&rt, rt.alloc());
    check(&rt, "two pixels", right, true);
}

/// Whether a worker codes two pixels whose lane is gone, and counts that both results came back. `None` if an
/// allocation fails.
fn two_pixels_come_back<R: Threads + Wait>(rt: &R, alloc: Global) -> Option<bool> {
    let (inbox, outbox) = one_box(rt, alloc, 2)?;
    drop(inbox);
    let counts = code_two(rt, alloc, outbox, &OpenGate)?;
    Some(counts == (2, 2))
}

#[test]
fn answers_that_come_back_are_counted_with_ample_memory(rt: HostRuntime) {
    let right = two_pixels_come_back(&rt, rt.alloc());
    check(&rt, "no lane", right, true);
}

//! The reading half of a lane: it reads the frames of a film, books each for the writing half, and puts it into the
//! queue.
ghost use Rattle.std.specs.Prelude.{◌≡◌, ◌<◌, ◌≤◌, ◌++◌, ◌∷◌, ◌⊎◌, [], ℕ, length, false, Ok, Err, IfOk, IfErr, OnOk, IfSome, IfNone, MatchResult};
ghost use Rattle.crossbeam_channel.specs.Ends.{receives_on};
ghost use Rattle.ls_frame.specs.Netpbm.{IsImageOf};
ghost use Rattle.ls_frame.specs.Picture.{IsFrame};
ghost use Rattle.ls_frame.specs.Parameters.{explicit_parameters};
ghost use Rattle.ls_frame.specs.Tuning.{tuned};
ghost use Rattle.ls_frame.specs.View.Devices.{count_after};
ghost use Rattle.ls_frame.specs.View.Known.{Gave, WasAtEnd};
ghost use Rattle.ls_film.specs.Film.{most_frames};
ghost use Rattle.ls_queue.specs.View.Running.{IsSourceSeat, items_put};
ghost use Rattle.ls_recorder.specs.View.Lanes.{StopsReading, failed_reader};
ghost use Rattle.ls_recorder.specs.View.Halves.{MayRead, IsReadingEnd, IsWritingEnd, HasReadAll, HasReadSome};

use crate::gate::{Gate, Notice};
use crate::lane::places::Places;
use crate::lane::writing::WritingEnd;
use crate::lane::{LaneFault, Setting, WritingOf};
use ls_film::MOST_FRAMES;
use ls_frame::{Feed, Frame, NetpbmFault, Outlet, Tuning, next_frame};
use ls_pieces::Order;
use ls_queue::{Closer, Ended, Finished, SourceSeat};
use std::alloc::Global;
use std::sync::{Arc, Wait};
use std::thread::{PromisedHandle, Threads};

/// The input of the reading half: its seats at the queue and at the bookings, the closer of the bookings, the free
/// places, an empty vector with capacity for one end, and the reader.
#[derive(Drop)]
pub struct Reading<F> {
    pub seat: SourceSeat<Order>,
    pub booked: SourceSeat<Order>,
    pub closer: Closer<Order>,
    pub places: Places,
    pub ended: Vec<Ended<Order>>,
    pub reader: F,
}

/// The result of the reading half: its seat at the queue, the finished bookings, the places, the reader, and the number
/// of frames in the film, or why reading stopped.
#[derive(Drop)]
pub struct ReadingEnd<F> {
    pub seat: SourceSeat<Order>,
    pub finished: Finished<Order>,
    pub places: Places,
    pub reader: F,
    pub result: Result<u64, LaneFault>,
}

/// Reads the film while the writing half runs in its thread, and joins that.
pub fn read_beside<F: Feed, W: Outlet + Drop, R: Threads + Wait, G: Gate>(
    setting: &Setting<'_, R, G>,
    reading: Reading<F>,
    writing: PromisedHandle<WritingEnd<W>, WritingOf<W>>,
) -> (ReadingEnd<F>, WritingEnd<W>)
    requires { MayRead setting.now.queue.now setting.now.bookings.now reading }
    ensures read { IsReadingEnd F.remaining F.failed_reads setting.now.queue.now setting.now.bookings.now setting.now.tuning reading result.0 }
    ensures wrote { IsWritingEnd W.contents W.failed_writes writing.promise.bookings.value writing.promise.writing.value result.1 }
{
    let read = read_booked(setting, reading, true);
    (read, writing.join(setting.rt))
}

/// Reads nothing, since there is no thread for the writing half: the result is `NotStarted`.
pub fn read_nothing<F: Feed, R: Wait, G: Gate>(
    setting: &Setting<'_, R, G>,
    reading: Reading<F>,
) -> ReadingEnd<F>
    requires { MayRead setting.now.queue.now setting.now.bookings.now reading }
    ensures end { IsReadingEnd F.remaining F.failed_reads setting.now.queue.now setting.now.bookings.now setting.now.tuning reading result }
    ensures not_started { result.result ≡ Err LaneFault.NotStarted }
{
    read_booked(setting, reading, false)
}

/// Reads the film, if the writing half was started, and finishes the bookings. If it wasn't, reads nothing, and the
/// result is `NotStarted`.
fn read_booked<F: Feed, R: Wait, G: Gate>(
    setting: &Setting<'_, R, G>,
    reading: Reading<F>,
    is_started: bool,
) -> ReadingEnd<F>
    requires { MayRead setting.now.queue.now setting.now.bookings.now reading }
    ensures end { IsReadingEnd F.remaining F.failed_reads setting.now.queue.now setting.now.bookings.now setting.now.tuning reading result }
    ensures not_started { is_started ≡ false → result.result ≡ Err LaneFault.NotStarted }
{
    let Reading {
        mut seat,
        mut booked,
        closer,
        mut places,
        mut ended,
        mut reader,
    } = reading;
    let result = if is_started {
        read_film(setting, &mut seat, &mut booked, &mut places, &mut reader)
    } else {
        Err(LaneFault::NotStarted)
    };
    let rt = setting.rt;
    ended.push_reserved(setting.bookings.end(rt, booked));
    let Ok(finished) = setting.bookings.finish(rt, closer, ended) else {
        unreachable!()
    };
    ReadingEnd {
        seat,
        finished,
        places,
        reader,
        result,
    }
}

/// Reads the film, each frame once a place in the window is free. The same orders are put by `booked` and by `seat`.
///
/// Returns the number of frames, with the reader at its end. A fault is that of the next frame; or `NoMemory`, also if
/// the writing half has stopped.
fn read_film<F: Feed, R: Wait, G: Gate>(
    setting: &Setting<'_, R, G>,
    seat: &mut SourceSeat<Order>,
    booked: &mut SourceSeat<Order>,
    places: &mut Places,
    reader: &mut F,
) -> Result<u64, LaneFault>
    requires seat { IsSourceSeat setting.now.queue.now seat.old }
    requires booked { IsSourceSeat setting.now.bookings.now booked.old }
    requires new { (items_put seat.old ≡ []) × (items_put booked.old ≡ []) }
    ensures seat { IsSourceSeat setting.now.queue.now seat.new × (seat.new.source ≡ seat.old.source) }
    ensures booked { IsSourceSeat setting.now.bookings.now booked.new × (booked.new.source ≡ booked.old.source) }
    ensures same { items_put booked.new ≡ items_put seat.new }
    ensures completes { IfOk result (HasReadAll setting.now.tuning (items_put seat.new) (F.remaining reader.old) (F.remaining reader.new)) }
    ensures stops { IfErr result (HasReadSome setting.now.tuning (items_put seat.new) (F.remaining reader.old) (F.remaining reader.new)) }
    ensures failures { F.failed_reads reader.new ≡ count_after (failed_reader result) (F.failed_reads reader.old) }
    ensures taken { length (items_put seat.new) ≤ places.new.taken }
    ensures places { (places.new.window ≡ places.old.window) × (receives_on places.new.receiver ≡ receives_on places.old.receiver) }
{
    for number in 0..MOST_FRAMES + 1 {
        if !places.take(setting.rt) {
            return Err(LaneFault::NoMemory);
        }
        setting.notice(Notice::Reading(number));
        let order = match next_order(setting.alloc, reader, &setting.tuning, number)? {
            Some(order) => order,
            None => return Ok(number),
        };
        let bytes = sample_bytes(order.frame());
        setting.notice(Notice::Read { number, bytes });
        put(setting, seat, booked, order)?;
        setting.notice(Notice::Put(number));
    }
    unreachable!()
}

/// The number of bytes that the samples take in an image of the frame.
fn sample_bytes(frame: &Frame) -> u64 {
    let count = frame.samples().len() as u64;
    if frame.maxval() < 256 {
        count
    } else {
        count.saturating_mul(2)
    }
}

/// Reads the frame of this number, and makes its order with the parameters that the tuning gives for it; `None` exactly
/// at the end of the film.
fn next_order<F: Feed>(
    alloc: Global,
    reader: &mut F,
    tuning: &Tuning,
    number: u64,
) -> Result<Option<Order>, LaneFault>
    requires { number ≤ most_frames }
    ensures order { IfOk result (λ next. IfSome next (λ order. (number < most_frames) × (order.1 ≡ tuned tuning.now order.0.maxval)
        × (explicit_parameters (tuned tuning.now order.0.maxval) ≡ Ok order.1) × IsFrame order.0
        × Gave (F.remaining reader.old) (F.remaining reader.new) (λ image. IsImageOf image order.0))) }
    ensures end { IfOk result (λ next. IfNone next (WasAtEnd (F.remaining reader.old) (F.remaining reader.new))) }
    ensures stops { IfErr result (StopsReading tuning.now (F.remaining reader.old) (F.remaining reader.new) number) }
    ensures failures { F.failed_reads reader.new ≡ count_after (failed_reader result) (F.failed_reads reader.old) }
{
    let frame = match next_frame(alloc, reader) {
        Ok(Some(frame)) => frame,
        Ok(None) => return Ok(None),
        Err(NetpbmFault::NoMemory) => return Err(LaneFault::NoMemory),
        Err(fault) => return Err(LaneFault::Input(number, fault)),
    };
    if number == MOST_FRAMES {
        return Err(LaneFault::TooMany);
    }
    let presets = match tuning.presets(frame.maxval()) {
        Ok(presets) => presets,
        Err(fault) => return Err(LaneFault::Tuning(number, fault)),
    };
    match Arc::new(alloc, frame) {
        Ok(frame) => Ok(Some(Order::new(frame, presets))),
        Err(_) => Err(LaneFault::NoMemory),
    }
}

/// Books an order for the writing half, and puts it into the queue. Its only fault is `NoMemory`, from copying the
/// order; then nothing was booked or put.
fn put<R: Wait, G: Gate>(
    setting: &Setting<'_, R, G>,
    seat: &mut SourceSeat<Order>,
    booked: &mut SourceSeat<Order>,
    order: Order,
) -> Result<(), LaneFault>
    requires seat { IsSourceSeat setting.now.queue.now seat.old }
    requires booked { IsSourceSeat setting.now.bookings.now booked.old }
    requires same { items_put booked.old ≡ items_put seat.old }
    requires short { length (items_put seat.old) < most_frames }
    ensures seat { IsSourceSeat setting.now.queue.now seat.new × (seat.new.source ≡ seat.old.source) }
    ensures booked { IsSourceSeat setting.now.bookings.now booked.new × (booked.new.source ≡ booked.old.source) }
    ensures same { items_put booked.new ≡ items_put seat.new }
    ensures put { OnOk result (items_put seat.new ≡ items_put seat.old ++ order ∷ []) }
    ensures refused { IfErr result (λ fault. (fault ≡ LaneFault.NoMemory) × (items_put seat.new ≡ items_put seat.old)) }
{
    let Ok(copy) = order.clone() else {
        return Err(LaneFault::NoMemory);
    };
    let Ok(_number) = setting.bookings.put(setting.rt, booked, copy) else {
        unreachable!()
    };
    put_booked(setting, seat, booked, order);
    Ok(())
}

/// Puts an order into the queue after it was booked: its coded frame may come at once.
fn put_booked<R: Wait, G: Gate>(
    setting: &Setting<'_, R, G>,
    seat: &mut SourceSeat<Order>,
    booked: &SourceSeat<Order>,
    order: Order,
)
    requires seat { IsSourceSeat setting.now.queue.now seat.old }
    requires booked { items_put booked.now ≡ items_put seat.old ++ order ∷ [] }
    requires short { length (items_put seat.old) < most_frames }
    ensures seat { IsSourceSeat setting.now.queue.now seat.new × (seat.new.source ≡ seat.old.source) }
    ensures put { items_put seat.new ≡ items_put seat.old ++ order ∷ [] }
{
    let Ok(_number) = setting.queue.put(setting.rt, seat, order) else {
        unreachable!()
    };
}

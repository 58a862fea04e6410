//! The writing half of a lane: it takes the booked orders, receives their coded frames, and writes these in order.
ghost use Rattle.std.specs.Prelude.{◌≡◌, ◌<◌, ◌≤◌, ◌+◌, ◌*◌, ◌^◌, ◌++◌, ◌⊎◌, [], ℕ, nat_lt, None, List, Option, true, false, length, take, IfOk, IfErr, OnOk};
ghost use Rattle.std.specs.Io.KnownBytes.{Appends};
ghost use Rattle.crossbeam_channel.specs.Ends.{sends_on};
ghost use Rattle.ls_frame.specs.View.Devices.{count_after};
ghost use Rattle.ls_film.specs.Film.{most_frames};
ghost use Rattle.ls_film.specs.Coding.{file};
ghost use Rattle.ls_queue.specs.View.Running.{IsWorkerSeat, is_done, jobs_taken};
ghost use Rattle.ls_pieces.specs.Orders.{Ordered, coded};
ghost use Rattle.ls_pieces.specs.Collecting.{booked, new_collection, misfit_of, after_accept};
ghost use Rattle.ls_recorder.specs.View.Lanes.{WroteFirst, GoesOn, StopsWriting, blames_writer};
ghost use Rattle.ls_recorder.specs.View.Halves.{orders_taken, MayWrite, IsWritingEnd, HasTaken, TakesMore, fault_after, WroteFirstSo, Books, RefusesPiece, HaltsSo, HaltsWriting, Receives, halts_for_writer, halted_writer};

use crate::delivery::Inbox;
use crate::gate::{Gate, Notice};
use crate::lane::places::Returns;
use crate::lane::{LaneFault, Setting};
use ls_film::MOST_FRAMES;
use ls_frame::{Outlet, write_bytes};
use ls_pieces::{Coded, Collector, Misfit, Order};
use ls_queue::{Queue, Taken, WorkerSeat};
use std::sync::Wait;

/// The input of the writing half: its seat at the bookings, what brings it coded frames, and the writer.
#[derive(Drop)]
pub struct Writing<W> {
    pub seat: WorkerSeat<Order>,
    pub arrivals: Arrivals,
    pub writer: W,
}

/// What coded frames come by, until they are written: the inbox of their source, a collector that puts them in order,
/// and the end that gives their places back.
#[derive(Drop)]
pub struct Arrivals {
    pub inbox: Inbox,
    pub collector: Collector,
    pub returns: Returns,
}

/// The result of the writing half: its seat, whose last take returned Done, the writer, the end that gave places back,
/// and why writing stopped, if it did.
#[derive(Drop)]
pub struct WritingEnd<W> {
    pub seat: WorkerSeat<Order>,
    pub writer: W,
    pub returns: Returns,
    pub result: Result<(), LaneFault>,
}

/// The reason why writing stops.
#[derive(Drop)]
pub enum Halt {
    Fault(LaneFault),
    /// A coded frame came whose order isn't booked: its number is that of the next order plus this.
    NotBooked(u64),
}

/// Writes the codestreams of the booked orders, in order, until the bookings are done. After a fault it takes the
/// remaining orders, and writes nothing of them.
pub fn write_film<W: Outlet, R: Wait, G: Gate>(
    setting: &Setting<'_, R, G>,
    start: Writing<W>,
) -> WritingEnd<W>
    requires { MayWrite setting.now.bookings.now setting.now.window start }
    ensures { IsWritingEnd W.contents W.failed_writes setting.now.bookings.now start result }
{
    let Writing {
        mut seat,
        mut arrivals,
        mut writer,
    } = start;
    let written = write_booked(setting, &mut seat, &mut arrivals, &mut writer);
    let Arrivals {
        inbox,
        mut returns,
        ..
    } = arrivals;
    // From here on no worker waits for the inbox.
    drop(inbox);
    match written {
        Ok(()) => WritingEnd {
            seat,
            writer,
            returns,
            result: Ok(()),
        },
        Err(halt) => {
            returns.stop(setting.rt);
            let fault = take_the_rest(setting, &mut seat, halt);
            WritingEnd {
                seat,
                writer,
                returns,
                result: Err(fault),
            }
        }
    }
}

/// Takes the remaining orders after writing stopped, and returns the fault for which it did.
fn take_the_rest<R: Wait, G: Gate>(
    setting: &Setting<'_, R, G>,
    seat: &mut WorkerSeat<Order>,
    halt: Halt,
) -> LaneFault
    requires seat { IsWorkerSeat setting.now.bookings.now seat.old }
    ensures seat { IsWorkerSeat setting.now.bookings.now seat.new }
    ensures done { is_done seat.new ≡ true }
    ensures fault { (more : List Ordered) × (orders_taken seat.new ≡ orders_taken seat.old ++ more) × (result ≡ fault_after halt (length more)) }
    ensures stops { (start now : Option (List ℕ)) → HaltsWriting (orders_taken seat.old) start now halt → StopsWriting (orders_taken seat.new) start now result }
    ensures device { blames_writer result ≡ halts_for_writer halt }
{
    let rt = setting.rt;
    let bookings = setting.bookings;
    match halt {
        Halt::Fault(fault) => {
            setting.notice(Notice::Stops(fault));
            let _more = drain(rt, bookings, seat, 0);
            fault
        }
        Halt::NotBooked(ahead) => {
            if drain(rt, bookings, seat, ahead) {
                // Its order was booked after all, but further ahead than the collector has room.
                LaneFault::NoMemory
            } else {
                LaneFault::Misfit(Misfit::NotBooked)
            }
        }
    }
}

/// Writes until the bookings are done, or until it has to stop.
fn write_booked<W: Outlet, R: Wait, G: Gate>(
    setting: &Setting<'_, R, G>,
    seat: &mut WorkerSeat<Order>,
    arrivals: &mut Arrivals,
    writer: &mut W,
) -> Result<(), Halt>
    requires taken { HasTaken setting.now.bookings.now setting.now.window seat.old arrivals.old.collector }
    requires some { 1 ≤ setting.now.window }
    requires none { jobs_taken seat.old ≡ [] }
    requires new { arrivals.old.collector ≡ new_collection arrivals.old.collector.source setting.now.window }
    requires returned { arrivals.old.returns.returned ≡ 0 }
    ensures seat { IsWorkerSeat setting.now.bookings.now seat.new }
    ensures done { OnOk result (is_done seat.new ≡ true) }
    ensures wrote { OnOk result (Appends (W.contents writer.old) (W.contents writer.new) (file (orders_taken seat.new))) }
    ensures halts { IfErr result (HaltsWriting (orders_taken seat.new) (W.contents writer.old) (W.contents writer.new)) }
    ensures failures { W.failed_writes writer.new ≡ count_after (halted_writer result) (W.failed_writes writer.old) }
    ensures untouched { length (jobs_taken seat.new) ≡ 0 → writer.new ≡ writer.old }
    ensures returned { WroteFirst (orders_taken seat.new) (W.contents writer.old) (W.contents writer.new) arrivals.new.returns.returned }
    ensures returns { sends_on arrivals.new.returns.sender ≡ sends_on arrivals.old.returns.sender }
{
    let mut written = 0;
    for _ in setting.rt.forever() {
        if !some_waits(setting, seat, &mut arrivals.collector)? {
            return Ok(());
        }
        let piece = receive(setting.rt, &mut arrivals.inbox)?;
        book_until(setting, seat, &mut arrivals.collector, piece.number())?;
        accept(&mut arrivals.collector, piece)?;
        written = write_ready(setting, arrivals, writer, written)?;
    }
    unreachable!()
}

/// Whether an order waits for its coded frame. If none does, books the next order; false if the bookings are done.
fn some_waits<R: Wait, G: Gate>(
    setting: &Setting<'_, R, G>,
    seat: &mut WorkerSeat<Order>,
    collector: &mut Collector,
) -> Result<bool, Halt>
    requires taken { HasTaken setting.now.bookings.now setting.now.window seat.old collector.old }
    requires some { 1 ≤ setting.now.window }
    ensures seat { IsWorkerSeat setting.now.bookings.now seat.new }
    ensures taken { OnOk result (HasTaken setting.now.bookings.now setting.now.window seat.new collector.new) }
    ensures books { OnOk result (Books seat.old collector.old seat.new collector.new) }
    ensures some { IfOk result (λ some. some ≡ true → 0 < length collector.new.slots) }
    ensures done { IfOk result (λ some. some ≡ false → (is_done seat.new ≡ true) × (length collector.new.slots ≡ 0)) }
    ensures halts { IfErr result (λ halt. (halt ≡ Halt.Fault LaneFault.TooMany) × (most_frames < length (orders_taken seat.new))) }
    ensures more { TakesMore seat.old seat.new }
{
    if collector.waiting() > 0 {
        return Ok(true);
    }
    book_next(setting, seat, collector)
}

/// Takes the next order and books it in the collector, which has to have room for it. Whether there was one; false if
/// the bookings are done.
fn book_next<R: Wait, G: Gate>(
    setting: &Setting<'_, R, G>,
    seat: &mut WorkerSeat<Order>,
    collector: &mut Collector,
) -> Result<bool, Halt>
    requires taken { HasTaken setting.now.bookings.now setting.now.window seat.old collector.old }
    requires room { length collector.old.slots < collector.old.window }
    ensures seat { IsWorkerSeat setting.now.bookings.now seat.new }
    ensures taken { OnOk result (HasTaken setting.now.bookings.now setting.now.window seat.new collector.new) }
    ensures books { OnOk result (Books seat.old collector.old seat.new collector.new) }
    ensures some { IfOk result (λ some. some ≡ true → 0 < length collector.new.slots) }
    ensures done { IfOk result (λ more. more ≡ false → (is_done seat.new ≡ true) × (collector.new ≡ collector.old)) }
    ensures halts { IfErr result (λ halt. (halt ≡ Halt.Fault LaneFault.TooMany) × (most_frames < length (orders_taken seat.new))) }
    ensures more { TakesMore seat.old seat.new }
{
    let job = match setting.bookings.take(setting.rt, seat) {
        Taken::Job(job) => job,
        Taken::Done => return Ok(false),
    };
    if collector.booked() == MOST_FRAMES {
        return Err(Halt::Fault(LaneFault::TooMany));
    }
    let Ok(_number) = collector.book(job.item) else {
        unreachable!()
    };
    Ok(true)
}

/// Books orders up to the one of this number, as far as they exist and the collector has room for them.
///
/// An order is booked before it can be coded, so for a coded frame of this film this doesn't wait.
fn book_until<R: Wait, G: Gate>(
    setting: &Setting<'_, R, G>,
    seat: &mut WorkerSeat<Order>,
    collector: &mut Collector,
    number: u64,
) -> Result<(), Halt>
    requires taken { HasTaken setting.now.bookings.now setting.now.window seat.old collector.old }
    ensures seat { IsWorkerSeat setting.now.bookings.now seat.new }
    ensures taken { OnOk result (HasTaken setting.now.bookings.now setting.now.window seat.new collector.new) }
    ensures books { OnOk result (Books seat.old collector.old seat.new collector.new) }
    ensures halts { IfErr result (λ halt. (halt ≡ Halt.Fault LaneFault.TooMany) × (most_frames < length (orders_taken seat.new))) }
    ensures more { TakesMore seat.old seat.new }
{
    for _ in setting.rt.forever() {
        if number < collector.booked() || collector.waiting() == setting.window {
            return Ok(());
        }
        if !book_next(setting, seat, collector)? {
            return Ok(());
        }
    }
    unreachable!()
}

/// Receives the next coded frame from a worker. Fails with `NoMemory` if a worker couldn't code one; and with `Lost` if
/// no worker is left, with nothing received.
fn receive<R: Wait>(rt: &R, inbox: &mut Inbox) -> Result<Coded, Halt>
    ensures { Receives inbox.old result inbox.new }
{
    match inbox.recv(rt) {
        Some(Ok(piece)) => Ok(piece),
        Some(Err(_)) => Err(Halt::Fault(LaneFault::NoMemory)),
        None => Err(Halt::Fault(LaneFault::Lost)),
    }
}

/// Passes a coded frame to the collector. If it doesn't fit, the collector is unchanged.
fn accept(collector: &mut Collector, piece: Coded) -> Result<(), Halt>
    ensures accepted { OnOk result ((misfit_of collector.old piece ≡ None) × (collector.new ≡ after_accept collector.old piece)) }
    ensures halts { IfErr result (λ halt. (collector.new ≡ collector.old) × RefusesPiece collector.old piece halt) }
{
    let number = piece.number();
    match collector.accept(piece) {
        Ok(()) => Ok(()),
        Err((_, Misfit::NotBooked)) => Err(Halt::NotBooked(number - collector.booked())),
        Err((_, misfit)) => Err(Halt::Fault(LaneFault::Misfit(misfit))),
    }
}

/// Writes the coded frames that were accepted, in order, up to the first that is missing, after `written` bytes.
/// Returns the number of bytes written by then. Each frame gives its place back.
fn write_ready<W: Outlet, R: Wait, G: Gate>(
    setting: &Setting<'_, R, G>,
    arrivals: &mut Arrivals,
    writer: &mut W,
    written: u64,
) -> Result<u64, Halt>
    requires few { booked arrivals.old.collector ≤ most_frames }
    requires small { written ≤ 2 ^ 32 * arrivals.old.collector.first }
    requires returned { arrivals.old.returns.returned ≡ arrivals.old.collector.first }
    ensures goes_on { IfOk result (λ now. GoesOn (W.contents writer.old) arrivals.old.collector written (W.contents writer.new) arrivals.new.collector now) }
    ensures small { IfOk result (λ now. now ≤ 2 ^ 32 * arrivals.new.collector.first) }
    ensures returned { OnOk result (arrivals.new.returns.returned ≡ arrivals.new.collector.first) }
    ensures handed_back { OnOk result (arrivals.new.returns.kept ≡ 0) }
    ensures returns { sends_on arrivals.new.returns.sender ≡ sends_on arrivals.old.returns.sender }
    ensures same { OnOk result ((booked arrivals.new.collector ≡ booked arrivals.old.collector) × (arrivals.new.collector.window ≡ arrivals.old.collector.window)) }
    ensures halts { IfErr result (HaltsSo (W.contents writer.old) arrivals.old.collector written (W.contents writer.new)) }
    ensures first { IfErr result (λ _. WroteFirstSo (W.contents writer.old) arrivals.old.collector written (W.contents writer.new) arrivals.new.returns.returned) }
    ensures failures { W.failed_writes writer.new ≡ count_after (halted_writer result) (W.failed_writes writer.old) }
{
    let mut written = written;
    while let Some(piece) = arrivals.collector.next() {
        written = write_piece(writer, &piece, written)?;
        setting.notice(Notice::Written {
            number: piece.number(),
            bytes: piece.bytes().len() as u64,
        });
        // Its memory is freed before another frame may take its place.
        drop(piece);
        arrivals.returns.give(setting.rt);
    }
    arrivals.returns.hand_back(setting.rt);
    Ok(written)
}

/// Writes a coded frame after `written` bytes. Returns the number of bytes written by then.
fn write_piece<W: Outlet>(writer: &mut W, piece: &Coded, written: u64) -> Result<u64, Halt>
    requires { written + 2 ^ 32 ≤ 2 ^ 64 }
    ensures all { IfOk result (λ now. (now ≡ written + length (coded piece.now.item)) × (now < written + 2 ^ 32)
        × Appends (W.contents writer.old) (W.contents writer.new) (coded piece.now.item)) }
    ensures stops { IfErr result (λ halt. (here : ℕ) × (halt ≡ Halt.Fault (LaneFault.Output (written + here))) × (here < length (coded piece.now.item))
        × Appends (W.contents writer.old) (W.contents writer.new) (take here (coded piece.now.item))) }
    ensures failures { W.failed_writes writer.new ≡ count_after (halted_writer result) (W.failed_writes writer.old) }
{
    let bytes = piece.bytes();
    match write_bytes(writer, bytes) {
        Ok(()) => Ok(written + bytes.len() as u64),
        Err(fault) => Err(Halt::Fault(LaneFault::Output(written + fault.written as u64))),
    }
}

/// Takes the remaining orders, until the bookings are done. Whether there were more than `most`.
fn drain<R: Wait>(rt: &R, bookings: &Queue<Order>, seat: &mut WorkerSeat<Order>, most: u64) -> bool
    requires seat { IsWorkerSeat bookings.now seat.old }
    ensures seat { IsWorkerSeat bookings.now seat.new }
    ensures done { is_done seat.new ≡ true }
    ensures more { (more : List Ordered) × (orders_taken seat.new ≡ orders_taken seat.old ++ more) × (result ≡ nat_lt most (length more)) }
{
    let mut left = most;
    let mut beyond = false;
    for _ in rt.forever() {
        match bookings.take(rt, seat) {
            Taken::Done => return beyond,
            Taken::Job(_) if left == 0 => beyond = true,
            Taken::Job(_) => left -= 1,
        }
    }
    unreachable!()
}

use crate::pixels::{pixel_order, pixel_piece};
use crate::testing::check;
use ls_pieces::{Collector, CollectorFault, Misfit};
use std::alloc::Global;
use std::process::Abort;

/// A call of a collector, and what it should return.
#[derive(Clone, Copy)]
enum Call {
    /// Books an order for a pixel of this sample: its number, or `None` if the order is returned.
    Book(u16, Option<u64>),
    /// Accepts the coded frame of this source and number, for a pixel of this sample coded with this RESET.
    Accept(u8, u64, u16, u16, Result<(), Misfit>),
    /// Hands out the coded frame of this number, or none.
    Next(Option<u64>),
}

/// Calls of a collector of source 0 with a window of 2.
const CALLS: &[Call] = &[
    Call::Book(0, Some(0)),
    Call::Book(255, Some(1)),
    Call::Book(7, None),
    Call::Accept(0, 1, 255, 64, Ok(())),
    Call::Next(None),
    Call::Accept(0, 1, 255, 64, Err(Misfit::Twice)),
    Call::Accept(0, 0, 255, 64, Err(Misfit::OtherFrame)),
    Call::Accept(0, 0, 0, 32, Err(Misfit::OtherFrame)),
    Call::Accept(0, 0, 0, 64, Ok(())),
    Call::Next(Some(0)),
    Call::Next(Some(1)),
    Call::Next(None),
    Call::Accept(0, 0, 0, 64, Err(Misfit::Twice)),
    Call::Accept(0, 2, 0, 64, Err(Misfit::NotBooked)),
    Call::Accept(1, 0, 0, 64, Err(Misfit::Stranger)),
];

/// Whether a call returns what it should. `None` if an allocation fails.
fn is_right(alloc: Global, collector: &mut Collector, call: Call) -> Option<bool> {
    match call {
        Call::Book(sample, number) => {
            let order = pixel_order(alloc, sample, 64)?;
            let room = collector.booked() < u64::MAX;
            Some(room && collector.book(order).ok() == number)
        }
        Call::Accept(source, number, sample, reset, answer) => {
            let piece = pixel_piece(alloc, source, number, sample, reset)?;
            let got = collector.accept(piece).map_err(|back| back.1);
            Some(got == answer)
        }
        Call::Next(number) => Some(collector.next().map(|piece| piece.number()) == number),
    }
}

/// Whether all calls return what they should. `None` if an allocation fails.
fn all_are_right(alloc: Global, collector: &mut Collector) -> Option<bool> {
    let mut right = true;
    for call in CALLS {
        right = is_right(alloc, collector, *call)? && right;
    }
    Some(right)
}

/// Whether all calls of a new collector return what they should. `None` if an allocation fails.
fn are_right(alloc: Global) -> Option<bool> {
    let mut collector = Collector::new(alloc, 0, 2).ok()?;
    all_are_right(alloc, &mut collector)
}

#[test]
fn pieces_go_out_in_order_with_ample_memory(rt: HostRuntime) {
    check(&rt, "calls", are_right(rt.alloc()), true);
}

#[test]
fn pieces_go_out_in_order_or_memory_is_refused(rt: HostRuntime) {
    check(&rt, "calls", are_right(rt.alloc()), false);
}

/// Windows, and why a collector can't have each, if it can't.
const WINDOWS: &[(usize, Option<CollectorFault>)] = &[
    (0, Some(CollectorFault::Window)),
    (1, None),
    (64, None),
    (65, Some(CollectorFault::Window)),
    (usize::MAX, Some(CollectorFault::Window)),
];

/// Whether a collector with this window is made, or refused for this reason. If memory isn't ample, an allocation may
/// also fail.
fn is_so(alloc: Global, window: usize, fault: Option<CollectorFault>, ample: bool) -> bool {
    match Collector::new(alloc, 0, window) {
        Ok(_) => fault.is_none(),
        Err(CollectorFault::NoMemory) => !ample,
        Err(found) => fault == Some(found),
    }
}

fn check_windows(rt: &impl Abort, alloc: Global, ample: bool) {
    for (window, fault) in WINDOWS {
        let right = is_so(alloc, *window, *fault, ample);
        check(rt, "a window", Some(right), ample);
    }
}

#[test]
fn a_window_is_1_to_64_with_ample_memory(rt: HostRuntime) {
    check_windows(&rt, rt.alloc(), true);
}

#[test]
fn a_window_is_1_to_64_or_memory_is_refused(rt: HostRuntime) {
    check_windows(&rt, rt.alloc(), false);
}

use crate::pixels::pixel_order;
use crate::testing::check;
use std::alloc::Global;
use std::process::Abort;

/// Samples and RESETs of two orders, and whether the orders are equal.
const PAIRS: &[(u16, u16, u16, u16, bool)] = &[
    (0, 64, 0, 64, true),
    (0, 64, 255, 64, false),
    (0, 64, 0, 32, false),
    (255, 32, 255, 32, true),
];

fn are_alike(alloc: Global, pair: &(u16, u16, u16, u16, bool)) -> Option<bool> {
    let one = pixel_order(alloc, pair.0, pair.1)?;
    let other = pixel_order(alloc, pair.2, pair.3)?;
    Some((one == other) == pair.4)
}

fn check_pairs(rt: &impl Abort, alloc: Global, ample: bool) {
    for pair in PAIRS {
        check(rt, "a pair", are_alike(alloc, pair), ample);
    }
}

#[test]
fn orders_are_equal_by_frame_and_parameters_with_ample_memory(rt: HostRuntime) {
    check_pairs(&rt, rt.alloc(), true);
}

#[test]
fn orders_are_equal_by_frame_and_parameters_or_memory_is_refused(rt: HostRuntime) {
    check_pairs(&rt, rt.alloc(), false);
}

fn copy_is_right(alloc: Global) -> Option<bool> {
    let order = pixel_order(alloc, 7, 64)?;
    let copy = order.clone().ok()?;
    Some(copy == order && copy.frame().samples() == [7].as_slice() && copy.presets().reset() == 64)
}

#[test]
fn a_copy_shares_the_frame_with_ample_memory(rt: HostRuntime) {
    check(&rt, "a copy", copy_is_right(rt.alloc()), true);
}

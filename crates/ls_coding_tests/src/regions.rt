use crate::state::calls::check_equal;
use ls_coding::{Regions, half_context, whole_context};
use ls_frame::Presets;
use std::alloc::{AllocError, Global};
use std::process::Abort;

/// The samples around one (a, b, c and d), and their context with its sign by the default parameters of 8 bits, whose
/// thresholds are 3, 7 and 21.
const CONTEXTS: &[([u16; 4], i16)] = &[
    ([0, 0, 0, 0], 0),
    ([5, 0, 0, 0], -2),
    ([0, 0, 255, 255], 292),
    ([255, 0, 0, 30], 320),
    ([0, 3, 0, 1], -63),
    ([21, 0, 1, 0], -12),
];

/// Checks that the context of each is computed from its two parts; checks nothing if an allocation fails.
fn check_contexts(rt: &impl Abort, alloc: Global) -> Result<(), AllocError> {
    let presets = Presets::default_of(255);
    let regions = Regions::new(alloc, &presets)?;
    let view = regions.view();
    for ([a, b, c, d], want) in CONTEXTS {
        let half = half_context(&presets, *b, *c, *d);
        check_equal(rt, &whole_context(&regions, half, *a, *c), want);
        check_equal(rt, &view.whole_context(half, *a, *c), want);
    }
    Ok(())
}

#[test]
fn contexts_are_made_of_halves(rt: HostRuntime) {
    let _ = check_contexts(&rt, rt.alloc());
}

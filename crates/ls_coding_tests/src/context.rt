use crate::state::calls::check_equal;
use ls_coding::{Neighbours, signed_context};
use ls_frame::Presets;

/// The samples around one (a, b, c and d), and their context with its sign by the default parameters of 8 bits.
const CONTEXTS: &[([u16; 4], i16)] = &[([0, 0, 0, 0], 0), ([5, 0, 0, 0], -2)];

#[test]
fn contexts_have_these_numbers_and_signs(rt: HostRuntime) {
    for ([a, b, c, d], want) in CONTEXTS {
        let (a, b, c, d) = (*a, *b, *c, *d);
        let presets = Presets::default_of(255);
        let context = signed_context(&presets, &Neighbours { a, b, c, d });
        check_equal(&rt, &context, want);
    }
}

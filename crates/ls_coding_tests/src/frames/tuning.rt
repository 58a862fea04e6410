use crate::frames::testing::{Parameters, check, check_so, parameters_of};
use ls_frame::{PresetFault, Presets, Tuning};
use std::process::Abort;

const PLAIN: Tuning = Tuning {
    t1: 0,
    t2: 0,
    t3: 0,
    reset: 0,
};

const SPELLED_OUT: Tuning = Tuning {
    t1: 3,
    t2: 7,
    t3: 21,
    reset: 64,
};

/// The choices, maxval, and the parameters or the fault.
type Chosen = (Tuning, u16, Result<Parameters, PresetFault>);

const CHOSEN: &[Chosen] = &[
    (Tuning { t1: 5, ..PLAIN }, 255, Ok((255, 5, 7, 21, 64))),
    (Tuning { reset: 32, ..PLAIN }, 255, Ok((255, 3, 7, 21, 32))),
    (Tuning { t1: 10, ..PLAIN }, 255, Err(PresetFault::T2Range)),
    (SPELLED_OUT, 1, Err(PresetFault::T1Range)),
];

fn check_chosen(rt: &impl Abort, i: usize, (tuning, maxval, want): &Chosen) {
    assert!(rt; *maxval > 0);
    let got = parameters_of(tuning.presets(*maxval));
    check(rt, "a tuning", i, &got, want);
}

#[test]
fn what_is_chosen_stands_beside_the_defaults(rt: HostRuntime) {
    for (i, chosen) in CHOSEN.iter().enumerate() {
        check_chosen(&rt, i, chosen);
    }
}

#[test]
fn nothing_chosen_means_the_defaults(rt: HostRuntime) {
    for maxval in [1u16, 2, 3, 7, 127, 128, 255, 1023, 4095, 65535] {
        assert!(rt; maxval > 0);
        let defaults = Presets::default_of(maxval);
        let got = PLAIN.presets(maxval);
        check(
            &rt,
            "the defaults",
            usize::from(maxval),
            &got,
            &Ok(defaults),
        );
    }
}

#[test]
fn the_defaults_chosen_are_the_defaults(rt: HostRuntime) {
    let got = SPELLED_OUT.presets(255);
    check(
        &rt,
        "the defaults",
        255,
        &got,
        &Ok(Presets::default_of(255)),
    );
    let is_default = match got {
        Ok(presets) => presets.is_default(),
        Err(_) => false,
    };
    check_so(&rt, "is_default", 255, is_default);
}

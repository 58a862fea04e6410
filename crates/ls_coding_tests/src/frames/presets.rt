use crate::frames::testing::{
    Mishap, Parameters, Sink, check, check_items, check_so, parameters_of,
};
use ls_frame::{PresetFault, Presets};
use std::io::Write;
use std::process::Abort;

/// MAXVAL, bpp, qbpp, LIMIT, T1, T2, T3.
type Row = (u16, u32, u32, u32, u16, u16, u16);

const DEFAULTS: &[Row] = &[
    (1, 2, 1, 20, 1, 1, 1),
    (2, 2, 2, 20, 2, 2, 2),
    (3, 2, 2, 20, 2, 3, 3),
    (7, 3, 3, 22, 2, 3, 4),
    (127, 7, 7, 30, 2, 3, 10),
    (128, 8, 8, 32, 3, 7, 21),
    (255, 8, 8, 32, 3, 7, 21),
    (1023, 10, 10, 40, 6, 19, 72),
    (4095, 12, 12, 48, 18, 67, 276),
    (65535, 16, 16, 64, 18, 67, 276),
];

fn row_of(presets: Presets) -> Row {
    (
        presets.maxval(),
        presets.bpp(),
        presets.qbpp(),
        presets.limit(),
        presets.t1(),
        presets.t2(),
        presets.t3(),
    )
}

fn check_defaults(rt: &impl Abort, row: &Row) {
    let (maxval, ..) = *row;
    assert!(rt; maxval > 0);
    let presets = Presets::default_of(maxval);
    let got = (
        row_of(presets),
        presets.range(),
        presets.reset(),
        presets.is_default(),
    );
    let want = (*row, u32::from(maxval) + 1, 64, true);
    check(
        rt,
        "the defaults, RANGE, RESET, is_default",
        usize::from(maxval),
        &got,
        &want,
    );
}

#[test]
fn the_defaults_follow_from_maxval(rt: HostRuntime) {
    for row in DEFAULTS {
        check_defaults(&rt, row);
    }
}

/// Parameters, and the first of them that is out of its range.
type Fault = (Parameters, PresetFault);

const FAULTS: &[Fault] = &[
    ((0, 1, 1, 1, 3), PresetFault::MaxvalRange),
    ((255, 0, 7, 21, 64), PresetFault::T1Range),
    ((255, 3, 2, 21, 64), PresetFault::T2Range),
    ((255, 3, 7, 256, 64), PresetFault::T3Range),
    ((255, 3, 7, 21, 2), PresetFault::ResetRange),
    ((255, 3, 7, 21, 256), PresetFault::ResetRange),
];

fn check_fault(rt: &impl Abort, i: usize, fault: &Fault) {
    let ((maxval, t1, t2, t3, reset), want) = *fault;
    let got = Presets::explicit(maxval, t1, t2, t3, reset);
    check(rt, "a fault", i, &got, &Err(want));
}

#[test]
fn the_first_range_that_is_left_is_named(rt: HostRuntime) {
    for (i, fault) in FAULTS.iter().enumerate() {
        check_fault(&rt, i, fault);
    }
}

#[test]
fn explicit_parameters_are_kept(rt: HostRuntime) {
    let got = parameters_of(Presets::explicit(1, 1, 1, 1, 255));
    check(&rt, "legal parameters", 0, &got, &Ok((1, 1, 1, 1, 255)));
}

/// Checks the text of a fault.
fn check_text(rt: &impl Abort, fault: PresetFault, text: &str) {
    let mut sink = Sink::new(16, &[], Mishap::Fails);
    check_so(rt, text, 0, write!(sink, "{fault}").is_ok());
    check_items(rt, text, 0, sink.written(), text.as_bytes());
}

#[test]
fn faults_have_their_texts(rt: HostRuntime) {
    check_text(&rt, PresetFault::MaxvalRange, "maxval");
    check_text(&rt, PresetFault::T1Range, "T1");
    check_text(&rt, PresetFault::T2Range, "T2");
    check_text(&rt, PresetFault::T3Range, "T3");
    check_text(&rt, PresetFault::ResetRange, "RESET");
}

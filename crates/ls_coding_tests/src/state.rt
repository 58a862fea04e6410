pub mod calls;
mod steps;

use calls::*;
use ls_bits::CodeFault;
use ls_coding::{Mode, Neighbours, State, Tail, mode_of};
use ls_frame::Presets;
use std::process::Abort;

/// The number of a run's samples, whether it ends with the line, and its word on a new state.
const RUNS: &[(u32, bool, u32, Tail)] = &[
    (0, false, 0, Tail::Interrupted { width: 0, rest: 0 }),
    (2, false, 2, Tail::Interrupted { width: 0, rest: 0 }),
    (4, false, 4, Tail::Interrupted { width: 1, rest: 0 }),
    (5, false, 4, Tail::Interrupted { width: 1, rest: 1 }),
    (12, true, 8, Tail::LineFull),
    (13, true, 8, Tail::LinePart),
    (16, true, 9, Tail::LineFull),
];

#[test]
fn runs_are_coded_on_a_new_state(rt: HostRuntime) {
    for (count, eol, ones, tail) in RUNS {
        let mut state = fresh();
        let word = code_run(&rt, &mut state, *count, *eol);
        check_run(&rt, word, *ones, *tail);
        check(&rt, state.interrupted() != *eol);
    }
}

/// The number of a run's samples on a new state; the neighbours of the sample that interrupts it, the sample, and its
/// word.
const INTERRUPTIONS: &[(u32, Around, u16, Numbers)] = &[
    (0, (0, 0, 0, 0), 5, (2, 31, 9)),
    (2, (9, 0, 9, 0), 5, (2, 31, 9)),
    (4, (0, 0, 0, 0), 100, (2, 30, 199)),
];

#[test]
fn samples_that_interrupt_runs_are_coded(rt: HostRuntime) {
    for (count, around, sample, want) in INTERRUPTIONS {
        let mut state = fresh();
        let _ = code_run(&rt, &mut state, *count, false);
        let word = code_interruption(&rt, &mut state, *around, *sample);
        check_word(&rt, word, *want);
        check(&rt, !state.interrupted());
    }
}

#[test]
fn a_sample_of_regular_mode_is_coded_after_one_that_interrupts_a_run(rt: HostRuntime) {
    let mut state = fresh();
    let _ = code_run(&rt, &mut state, 0, false);
    let _ = code_interruption(&rt, &mut state, (0, 0, 0, 0), 5);
    check_word(
        &rt,
        code_regular(&rt, &mut state, (5, 0, 0, 0), 5),
        (2, 32, 0),
    );
}

/// The samples left in the line at each bit 1 on a new state, each of which stands for one sample; then RUNindex, and
/// the width of the number after a bit 0.
const ONES: &[(&[u32], u32, u32)] = &[
    (&[], 0, 0),
    (&[5, 4, 3], 3, 0),
    (&[5, 4, 3, 2], 4, 1),
    (&[5, 4, 3, 2, 1], 4, 1),
];

/// Checks that each bit 1 stands for one sample, with these numbers of samples left.
fn check_ones(rt: &impl Abort, state: &mut State, lefts: &[u32]) {
    for left in lefts {
        check_number(rt, accept_one(rt, state, *left), 1);
    }
}

#[test]
fn run_index_rises_where_a_bit_1_stands_for_all_its_samples(rt: HostRuntime) {
    for (lefts, run_index, width) in ONES {
        let mut state = fresh();
        check_ones(&rt, &mut state, lefts);
        check_number(&rt, state.run_index(), *run_index);
        check_number(&rt, state.break_width(), *width);
        check(&rt, !state.interrupted());
    }
}

#[test]
fn the_end_of_a_run_leaves_a_sample_to_interrupt_it(rt: HostRuntime) {
    let mut state = fresh();
    check_ones(&rt, &mut state, &[5, 4, 3, 2]);
    for (rest, want) in [(1, Err(CodeFault::NotCanonical)), (0, Ok(()))] {
        check_break(&rt, accept_break(&rt, &mut state, rest, 1), want);
        check(&rt, state.interrupted() == (rest == 0));
    }
}

/// The number of a run's bits 1, the number after its bit 0, and the number of its samples.
const WHOLE_RUNS: &[(u32, u32, u32)] = &[(0, 0, 0), (4, 1, 5), (9, 3, 19), (31, 32767, 65819)];

#[test]
fn a_whole_run_leaves_a_sample_to_interrupt_it(rt: HostRuntime) {
    for (ones, rest, count) in WHOLE_RUNS {
        let mut state = fresh();
        let (ones, rest, count) = (*ones, *rest, *count);
        let got = accept_whole_run(&rt, &mut state, ones, rest, count);
        check(&rt, got.is_none() && !state.interrupted());
        check_number(&rt, state.run_index(), 0);
        let got = accept_whole_run(&rt, &mut state, ones, rest, count + 1);
        check(&rt, got == Some(count) && state.interrupted());
        check_number(&rt, state.run_index(), ones);
    }
}

#[test]
fn a_value_that_no_sample_of_regular_mode_has_is_refused(rt: HostRuntime) {
    let mut state = fresh();
    for (value, want) in [(256, Err(CodeFault::NotCanonical)), (0, Ok(5))] {
        let got = accept_regular(&rt, &mut state, (5, 0, 0, 0), (2, 32, value));
        check_sample(&rt, got, want);
    }
}

#[test]
fn a_value_of_few_zeros_is_accepted_as_any(rt: HostRuntime) {
    for by_value in [false, true] {
        let mut state = fresh();
        let got = accept_sure(&rt, &mut state, (5, 0, 0, 0), 0, by_value);
        check_sample(&rt, Ok(got), Ok(5));
    }
}

/// maxval, k, and the bound on the zeros of a word that is sure.
const SURE: &[(u16, u32, u32)] = &[
    (255, 0, 23),
    (255, 4, 15),
    (255, 8, 0),
    (65535, 0, 24),
    (65535, 12, 15),
    (1, 0, 1),
];

#[test]
fn words_of_so_few_zeros_are_sure(rt: HostRuntime) {
    for (maxval, k, want) in SURE {
        check_number(&rt, sure_zeros(&rt, *maxval, *k), *want);
    }
}

/// The value 17 is that of Ra, which can't interrupt the run.
#[test]
fn a_value_of_no_sample_that_may_interrupt_the_run_is_refused(rt: HostRuntime) {
    let mut state = fresh();
    check_break(&rt, accept_break(&rt, &mut state, 0, 1), Ok(()));
    for (value, want) in [
        (17, Err(CodeFault::NotCanonical)),
        (256, Err(CodeFault::NotCanonical)),
        (0, Ok(9)),
    ] {
        let got = accept_interruption(&rt, &mut state, (0, 9, 0, 9), (2, 31, value));
        check_sample(&rt, got, want);
        check(&rt, state.interrupted() == (value != 0));
    }
}

//! Calls that meet what `State` requires, and their expected answers.
ghost use Rattle.std.specs.Prelude.{◌≡◌, ◌≤◌, true, false};
ghost use Rattle.ls_frame.specs.Parameters.{qbpp_of};
ghost use Rattle.ls_bits.specs.Golomb.{most_value};
ghost use Rattle.ls_coding.specs.Samples.{AreSamples};
ghost use Rattle.ls_coding.specs.Contexts.{is_run};

use ls_bits::CodeFault;
use ls_coding::{Mode, Neighbours, RunWord, State, SureZeros, Tail, Word, mode_of};
use ls_frame::Presets;
use std::fmt::Debug;
use std::process::Abort;

/// The samples around one: a, b, c and d.
pub type Around = (u16, u16, u16, u16);

/// k, limit and value of a word.
pub type Numbers = (u32, u32, u32);

pub fn neighbours_of(around: Around) -> Neighbours {
    let (a, b, c, d) = around;
    Neighbours { a, b, c, d }
}

pub fn word_of(numbers: Numbers) -> Word {
    let (k, glimit, value) = numbers;
    Word { k, glimit, value }
}

/// A new state of samples of 8 bits.
pub fn fresh() -> State {
    State::new(&Presets::default_of(255))
}

// ---- checks

pub fn check(rt: &impl Abort, holds: bool)
    ensures { holds ≡ true }
{
    assert!(rt; holds);
}

/// Checks that a value is the expected one.
pub fn check_equal<T: PartialEq + Debug>(rt: &impl Abort, got: &T, want: &T) {
    assert_eq!(rt; got, want);
}

pub fn check_number(rt: &impl Abort, got: u32, want: u32) {
    check_equal(rt, &got, &want);
}

pub fn check_word(rt: &impl Abort, got: Word, want: Numbers) {
    check_equal(rt, &got, &word_of(want));
}

pub fn check_run(rt: &impl Abort, got: RunWord, ones: u32, tail: Tail) {
    check_equal(rt, &got, &RunWord { ones, tail });
}

pub fn check_sample(rt: &impl Abort, got: Result<u16, CodeFault>, want: Result<u16, CodeFault>) {
    check_equal(rt, &got, &want);
}

pub fn check_break(rt: &impl Abort, got: Result<(), CodeFault>, want: Result<(), CodeFault>) {
    check_equal(rt, &got, &want);
}

fn check_samples(rt: &impl Abort, state: &State, neighbours: &Neighbours)
    ensures { AreSamples state.now.parameters.maxval neighbours.now }
{
    let maxval = state.presets().maxval();
    check(rt, neighbours.a <= maxval);
    check(rt, neighbours.b <= maxval);
    check(rt, neighbours.c <= maxval);
    check(rt, neighbours.d <= maxval);
}

fn check_regular(rt: &impl Abort, neighbours: &Neighbours)
    ensures { is_run neighbours.now ≡ false }
{
    check(rt, mode_of(neighbours) == Mode::Regular);
}

fn check_value(rt: &impl Abort, state: &State, value: u32)
    ensures { value ≤ most_value (qbpp_of state.now.parameters.maxval) }
{
    check(rt, value <= 1 << state.presets().qbpp());
}

// ---- the calls

pub fn code_regular(rt: &impl Abort, state: &mut State, around: Around, sample: u16) -> Word {
    let neighbours = neighbours_of(around);
    check_samples(rt, state, &neighbours);
    check(rt, sample <= state.presets().maxval());
    check_regular(rt, &neighbours);
    check(rt, !state.interrupted());
    state.code_regular(&neighbours, sample)
}

/// Decodes a sample by a plan, which must have this k and this limit.
pub fn accept_regular(
    rt: &impl Abort,
    state: &mut State,
    around: Around,
    (k, glimit, value): Numbers,
) -> Result<u16, CodeFault> {
    let neighbours = neighbours_of(around);
    check_samples(rt, state, &neighbours);
    check_regular(rt, &neighbours);
    check(rt, !state.interrupted());
    let plan = state.plan_regular(&neighbours);
    check_number(rt, plan.k(), k);
    check_number(rt, plan.glimit(), glimit);
    check_value(rt, state, value);
    state.accept_regular(plan, value)
}

/// The bound on a word's zeros for this k, by the default parameters of a maxval.
pub fn sure_zeros(rt: &impl Abort, maxval: u16, k: u32) -> u32 {
    check(rt, maxval > 0);
    check(rt, k < 18);
    SureZeros::new(&Presets::default_of(maxval)).of(k)
}

/// Decodes a sample from a value that is sure to have one, with the presets passed by value or not.
pub fn accept_sure(
    rt: &impl Abort,
    state: &mut State,
    around: Around,
    value: u32,
    by_value: bool,
) -> u16 {
    let neighbours = neighbours_of(around);
    check_samples(rt, state, &neighbours);
    check_regular(rt, &neighbours);
    check(rt, !state.interrupted());
    let sure = SureZeros::new(state.presets());
    let plan = state.plan_regular(&neighbours);
    let k = plan.k();
    check(rt, value >> k < sure.of(k));
    if by_value {
        let presets = *state.presets();
        return state.accept_sure_with(presets, plan, value);
    }
    state.accept_sure(plan, value)
}

pub fn code_run(rt: &impl Abort, state: &mut State, count: u32, eol: bool) -> RunWord {
    check(rt, !state.interrupted());
    check(rt, count > 0 || !eol);
    state.code_run(count, eol)
}

pub fn accept_one(rt: &impl Abort, state: &mut State, left: u32) -> u32
    ensures { result ≤ left }
{
    check(rt, !state.interrupted());
    check(rt, left > 0);
    state.accept_one(left)
}

pub fn accept_break(
    rt: &impl Abort,
    state: &mut State,
    rest: u32,
    left: u32,
) -> Result<(), CodeFault> {
    check(rt, !state.interrupted());
    check(rt, rest < 1 << state.break_width());
    state.accept_break(rest, left)
}

/// Decodes a run of `ones` bits 1, with this number after its bit 0.
pub fn accept_whole_run(
    rt: &impl Abort,
    state: &mut State,
    ones: u32,
    rest: u32,
    left: u32,
) -> Option<u32> {
    check(rt, !state.interrupted());
    let widths = state.break_widths();
    check(rt, (ones as usize) < widths.len());
    check(rt, rest < 1 << widths[ones as usize]);
    state.accept_run(ones, rest, left)
}

pub fn code_interruption(rt: &impl Abort, state: &mut State, around: Around, sample: u16) -> Word {
    let neighbours = neighbours_of(around);
    check_samples(rt, state, &neighbours);
    check(rt, sample <= state.presets().maxval());
    check(rt, sample != neighbours.a);
    check(rt, state.interrupted());
    state.code_interruption(&neighbours, sample)
}

/// Decodes a sample by a plan, which must have this k and this limit.
pub fn accept_interruption(
    rt: &impl Abort,
    state: &mut State,
    around: Around,
    (k, glimit, value): Numbers,
) -> Result<u16, CodeFault> {
    let neighbours = neighbours_of(around);
    check_samples(rt, state, &neighbours);
    check(rt, state.interrupted());
    let plan = state.plan_interruption(&neighbours);
    check_number(rt, plan.k(), k);
    check_number(rt, plan.glimit(), glimit);
    check_value(rt, state, value);
    state.accept_interruption(plan, value)
}

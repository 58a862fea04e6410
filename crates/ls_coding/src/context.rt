//! Contexts of regular mode (T.87 A.3).
ghost use Rattle.std.specs.Prelude.{◌≡◌, ◌<◌, pos, neg_ℤ, ◌+ℤ◌, ◌-ℤ◌, ◌*ℤ◌, ◌≤ℤ◌, int_lt, unsigned_abs};
ghost use Rattle.ls_coding.specs.Contexts.{region, IsRegion, is_zero, is_run, context_number};
ghost use Rattle.ls_coding.specs.View.SignedContexts.{signed_context, half_context};
ghost use Rattle.ls_coding.specs.Samples.{AreSamples};
ghost use Rattle.ls_coding.specs.View.Sizes.{size_region};

use crate::neighbours::Neighbours;
use ls_frame::Presets;

/// The context of a sample with these neighbours and its sign, as one number (A.3.3, A.3.4): -364 to 364, negative if
/// SIGN is -1; its magnitude is the context's number. It is 0 exactly if the neighbours call for run mode.
///
/// The number is 81 * Q1 + 9 * Q2 + Q3 of the regions; T.87 leaves the numbering open. `plan_regular_at` of `State`
/// takes it. Requires neighbours of at most the presets' `maxval`. Allocates nothing and cannot fail.
pub fn signed_context(presets: &Presets, neighbours: &Neighbours) -> i16
    requires { AreSamples presets.now.maxval neighbours.now }
    ensures value { result ≡ signed_context presets.now neighbours.now }
    ensures run { is_zero result ≡ is_run neighbours.now }
    ensures low { neg_ℤ (pos 364) ≤ℤ result }
    ensures high { result ≤ℤ pos 364 }
{
    let presets = *presets;
    let q1 = region_of(presets, neighbours.d, neighbours.b);
    let q2 = region_of(presets, neighbours.b, neighbours.c);
    let q3 = region_of(presets, neighbours.c, neighbours.a);
    context_number(q1, q2, q3)
}

/// The part of a sample's context that the line above decides: 81 * Q1 + 9 * Q2, -360 to 360, of the regions of the
/// gradients D1 = Rd - Rb and D2 = Rb - Rc (A.3.1, A.3.3).
///
/// It can be computed for a complete line before the line's samples are known; `whole_context` adds the rest of
/// `signed_context`. The samples may have any values. Allocates nothing and cannot fail.
pub fn half_context(presets: &Presets, b: u16, c: u16, d: u16) -> i16
    ensures value { result ≡ half_context presets.now b c d }
    ensures low { neg_ℤ (pos 360) ≤ℤ result }
    ensures high { result ≤ℤ pos 360 }
{
    let presets = *presets;
    let q1 = region_of(presets, d, b);
    let q2 = region_of(presets, b, c);
    half_number(q1, q2)
}

/// A context: its number, 0 to 364, and whether SIGN is -1.
#[derive(Clone, Copy)]
pub struct Context {
    pub number: usize,
    pub negative: bool,
}

/// The context that a result of `signed_context` stands for.
pub fn context_of_signed(context: i16) -> Context
    requires low { neg_ℤ (pos 364) ≤ℤ context }
    requires high { context ≤ℤ pos 364 }
    ensures number { result.number ≡ unsigned_abs context }
    ensures negative { result.negative ≡ int_lt context (pos 0) }
    ensures within { result.number < 365 }
{
    Context {
        number: usize::from(context.unsigned_abs()),
        negative: context < 0,
    }
}

/// Three regions as one number.
fn context_number(q1: i16, q2: i16, q3: i16) -> i16
    requires first { IsRegion q1 }
    requires second { IsRegion q2 }
    requires third { IsRegion q3 }
    ensures value { result ≡ context_number q1 q2 q3 }
    ensures low { neg_ℤ (pos 364) ≤ℤ result }
    ensures high { result ≤ℤ pos 364 }
{
    81 * q1 + 9 * q2 + q3
}

/// The first two regions as one number.
fn half_number(q1: i16, q2: i16) -> i16
    requires first { IsRegion q1 }
    requires second { IsRegion q2 }
    ensures value { result ≡ pos 81 *ℤ q1 +ℤ pos 9 *ℤ q2 }
    ensures low { neg_ℤ (pos 360) ≤ℤ result }
    ensures high { result ≤ℤ pos 360 }
{
    81 * q1 + 9 * q2
}

/// The region of the gradient `over` - `other`, -4 to 4 (A.3.3).
pub fn region_of(presets: Presets, over: u16, other: u16) -> i16
    ensures value { result ≡ region presets (pos over -ℤ pos other) }
    ensures region { IsRegion result }
    ensures zero { is_zero result ≡ is_zero (pos over -ℤ pos other) }
{
    let region = region_of_size(presets, over.abs_diff(other));
    if over < other { -region } else { region }
}

/// The region of a gradient of at least 0: how many of the bounds 1, T1, T2 and T3 it reaches.
fn region_of_size(presets: Presets, size: u16) -> i16
    ensures value { result ≡ pos (size_region presets size) }
    ensures none { size ≡ 0 → result ≡ pos 0 }
    ensures some { 0 < size → pos 1 ≤ℤ result }
{
    let reached = u16::from(size > 0)
        + u16::from(size >= presets.t1())
        + u16::from(size >= presets.t2())
        + u16::from(size >= presets.t3());
    reached as i16
}

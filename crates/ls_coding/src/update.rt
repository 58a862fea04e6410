//! Updating the counters of a context by an error (T.87 A.6).
ghost use Rattle.std.specs.Prelude.{◌≡◌, ◌+◌, ◌/◌, ◌==◌, ◌<◌, ◌≤◌, pos, neg_ℤ, ◌+ℤ◌, ◌-ℤ◌, ◌≤ℤ◌, ◌<ℤ◌, ◌*◌, ◌^◌, int_le, int_lt, true, false, if◌then◌else◌};
ghost use Rattle.ls_coding.specs.Numbers.{halved, golomb_parameter};
ghost use Rattle.ls_frame.specs.Parameters.{range_of};
ghost use Rattle.ls_coding.specs.Errors.{IsReduced};
ghost use Rattle.ls_coding.specs.Stats.{stats, bias_corrected, stats_step, error_bound, AreSound};

use crate::error::{golomb_parameter, is_below};
use ls_frame::Presets;

/// Counts an error in a context's A, B, C and N, and updates its Golomb parameter.
pub fn update(
    presets: Presets,
    a: &mut u32,
    b: &mut i32,
    c: &mut i32,
    n: &mut u32,
    k: &mut u32,
    error: i32,
)
    requires sound { AreSound presets.reset (error_bound presets.maxval) (stats a.old b.old c.old n.old) }
    requires error { IsReduced (range_of presets.maxval) error }
    requires parameter { k.old ≡ golomb_parameter n.old a.old }
    ensures step { stats a.new b.new c.new n.new ≡ stats_step presets.reset (stats a.old b.old c.old n.old) error }
    ensures sound { AreSound presets.reset (error_bound presets.maxval) (stats a.new b.new c.new n.new) }
    ensures parameter { k.new ≡ golomb_parameter n.new a.new }
{
    let reset = u32::from(presets.reset());
    *a += error.unsigned_abs();
    *b += error;
    count_error(a, b, n, reset);
    if !is_parameter(*k, *n, *a) {
        *k = other_parameter(*n, *a);
    }
    correct_bias(b, c, *n);
}

/// Whether k is the Golomb parameter of N and A (A.5.1), by one comparison: N * 2^k is at least A, and half of that is
/// less. Mostly so for the parameter from before the last error. True is always right; false may be wrong for a k of 0,
/// where half of N may be at least A too.
fn is_parameter(k: u32, n: u32, a: u32) -> bool
    requires some { 0 < n }
    requires few { a < 2 ^ 31 }
    requires small { k < 32 }
    requires fits { n * 2 ^ k < 2 ^ 32 }
    ensures { result ≡ true → k ≡ golomb_parameter n a }
{
    (n << k).wrapping_sub(a) < a
}

/// The Golomb parameter of N and A, where `is_parameter` hasn't confirmed the one before.
#[cold]
#[inline(never)]
fn other_parameter(n: u32, a: u32) -> u32
    requires some { 0 < n }
    requires few { a < 2 ^ 31 }
    requires sum { a ≤ n * 65535 }
    ensures { result ≡ golomb_parameter n a }
{
    golomb_parameter(n, a)
}

/// Halves A, B and N if N is RESET, and then adds 1 to N (A.6.1).
fn count_error(a: &mut u32, b: &mut i32, n: &mut u32, reset: u32)
    requires { n.old ≤ 65535 }
    ensures a { a.new ≡ (if n.old == reset then a.old / 2 else a.old) }
    ensures b { b.new ≡ (if n.old == reset then halved b.old else b.old) }
    ensures n { n.new ≡ (if n.old == reset then n.old / 2 + 1 else n.old + 1) }
{
    if *n == reset {
        *a >>= 1;
        *b >>= 1;
        *n >>= 1;
    }
    *n += 1;
}

/// Corrects B and C by the mean error (A.6.2): C changes by at most 1, and B is above -N and at most 0 afterwards.
fn correct_bias(b: &mut i32, c: &mut i32, n: u32)
    requires some { 0 < n }
    requires n { n ≤ 65536 }
    requires low { neg_ℤ (pos 131072) ≤ℤ b.old }
    requires high { b.old ≤ℤ pos 131072 }
    requires bias_low { neg_ℤ (pos 128) ≤ℤ c.old }
    requires bias_high { c.old ≤ℤ pos 127 }
    ensures b { b.new ≡ (bias_corrected (stats 0 b.old c.old n)).b }
    ensures c { c.new ≡ (bias_corrected (stats 0 b.old c.old n)).c }
    ensures low { neg_ℤ (pos 128) ≤ℤ c.new }
    ensures high { c.new ≤ℤ pos 127 }
{
    if is_below(-*b, n) {
        return;
    }
    let low = *b < 0;
    *b = corrected_mean(*b, n);
    *c = corrected_bias(*c, low);
}

/// B moved by N towards 0, and then clamped to the range 1 - N to 0 (A.6.2). Requires a B that isn't above -N and at
/// most 0 already.
fn corrected_mean(b: i32, n: u32) -> i32
    requires low { neg_ℤ (pos 131072) ≤ℤ b }
    requires high { b ≤ℤ pos 131072 }
    requires some { 0 < n }
    requires few { n ≤ 65536 }
    requires far { int_le b (neg_ℤ (pos n)) ≡ false → pos 0 <ℤ b }
    ensures { result ≡ (bias_corrected (stats 0 b (pos 0) n)).b }
{
    let n = n as i32;
    nearer(b, n).min(0).max(1 - n)
}

/// `number`, moved by `by` towards 0, or past it.
fn nearer(number: i32, by: i32) -> i32
    requires low { neg_ℤ (pos 131072) ≤ℤ number }
    requires high { number ≤ℤ pos 131072 }
    requires some { pos 0 ≤ℤ by }
    requires few { by ≤ℤ pos 65536 }
    ensures { result ≡ (if int_lt number (pos 0) then number +ℤ by else number -ℤ by) }
{
    if number < 0 {
        return number + by;
    }
    number - by
}

/// C less 1 if `low`, else plus 1, within -128 to 127.
fn corrected_bias(c: i32, low: bool) -> i32
    requires low { neg_ℤ (pos 128) ≤ℤ c }
    requires high { c ≤ℤ pos 127 }
    ensures value { result ≡ (if low then (if int_lt (neg_ℤ (pos 128)) c then c -ℤ pos 1 else c)
        else (if int_lt c (pos 127) then c +ℤ pos 1 else c)) }
    ensures low { neg_ℤ (pos 128) ≤ℤ result }
    ensures high { result ≤ℤ pos 127 }
{
    moved(c, low).min(127).max(-128)
}

/// `number` less 1 if `lower`, else plus 1.
fn moved(number: i32, lower: bool) -> i32
    requires low { neg_ℤ (pos 128) ≤ℤ number }
    requires high { number ≤ℤ pos 127 }
    ensures { result ≡ (if lower then number -ℤ pos 1 else number +ℤ pos 1) }
{
    if lower {
        return number - 1;
    }
    number + 1
}

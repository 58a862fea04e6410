//! The sample that interrupts a run: its Golomb parameter, its mapped error, and its counters (T.87 A.7.2).
//!
//! `ri_type` is RItype: whether Ra equals Rb.
ghost use Rattle.std.specs.Prelude.{◌≡◌, ◌+◌, ◌-◌, ◌*◌, ◌/◌, ◌%◌, ◌==◌, ◌||◌, ◌<◌, ◌≤◌, nat_le, not, int_lt, if◌then◌else◌, ℤ, pos, neg_ℤ, ◌≤ℤ◌, unsigned_abs, IsTrue};
ghost use Rattle.ls_frame.specs.Parameters.{range_of};
ghost use Rattle.ls_coding.specs.Errors.{IsReduced};
ghost use Rattle.ls_coding.specs.Stats.{error_bound};
ghost use Rattle.ls_coding.specs.Interruptions.{AreSoundCounts, counts, counts_step, interruption_prediction, interruption_k, interruption_value, ri_type_of, interruption_negative, map_of, ri_value};

use crate::error::golomb_parameter;
use crate::neighbours::Neighbours;
use ls_frame::Presets;

/// RItype: whether Ra and Rb are equal.
pub fn ri_type_of(neighbours: &Neighbours) -> bool
    ensures { result ≡ ri_type_of neighbours.now }
{
    neighbours.a == neighbours.b
}

/// RItype as a number: 1 if Ra and Rb are equal, else 0.
pub fn ri_value(ri_type: bool) -> usize
    ensures value { result ≡ ri_value ri_type }
    ensures within { result < 2 }
{
    usize::from(ri_type)
}

/// The prediction: Ra if Ra and Rb are equal, else Rb.
pub fn interruption_prediction(neighbours: &Neighbours) -> u16
    ensures { result ≡ interruption_prediction neighbours.now }
{
    neighbours.b
}

/// Whether the sign of the error is changed: Ra is greater than Rb.
pub fn interruption_negative(neighbours: &Neighbours) -> bool
    ensures { result ≡ interruption_negative neighbours.now }
{
    neighbours.a > neighbours.b
}

/// The Golomb parameter, from TEMP.
pub fn interruption_k(ri_type: bool, a: u32, n: u32) -> u32
    requires some { 0 < n }
    requires few { n ≤ 65535 }
    requires sum { a ≤ n * 32768 }
    ensures { result ≡ interruption_k ri_type (counts a n 0) }
{
    if ri_type {
        return golomb_parameter(n, a + n / 2);
    }
    golomb_parameter(n, a)
}

/// EMErrval, the mapped error. With `ri_type` an error of 0 never occurs; the result for it is 0.
pub fn interruption_value(ri_type: bool, k: u32, n: u32, nn: u32, error: i32) -> u32
    requires few { n ≤ 65535 }
    requires negative { nn < n }
    requires low { neg_ℤ (pos 32768) ≤ℤ error }
    requires high { error ≤ℤ pos 32767 }
    ensures { result ≡ 2 * unsigned_abs error - ri_value ri_type - map_of k (counts 0 n nn) error }
{
    let map = u32::from(map_is_one(maps_negative(k, n, nn), error));
    (2 * error.unsigned_abs()).saturating_sub(u32::from(ri_type) + map)
}

/// The one error that has this EMErrval; with `ri_type`, the one other than 0.
pub fn interruption_error_of(ri_type: bool, k: u32, n: u32, nn: u32, value: u32) -> i32
    requires few { n ≤ 65535 }
    requires negative { nn < n }
    requires value { value ≤ 65536 }
    ensures value { 2 * unsigned_abs result - ri_value ri_type - map_of k (counts 0 n nn) result ≡ value }
    ensures some { IsTrue ri_type → result ≡ pos 0 → ⊥ }
    ensures only { (e : ℤ) → (IsTrue ri_type → e ≡ pos 0 → ⊥)
        → 2 * unsigned_abs e - ri_value ri_type - map_of k (counts 0 n nn) e ≡ value → e ≡ result }
    ensures low { neg_ℤ (pos 40000) ≤ℤ result }
    ensures high { result ≤ℤ pos 40000 }
{
    signed_half(maps_negative(k, n, nn), value + u32::from(ri_type))
}

/// Counts an error, and its EMErrval, in the context's A, N and Nn.
pub fn count_interruption(
    presets: Presets,
    ri_type: bool,
    a: &mut u32,
    n: &mut u32,
    nn: &mut u32,
    error: i32,
    value: u32,
)
    requires sound { AreSoundCounts presets.reset (error_bound presets.maxval) (counts a.old n.old nn.old) }
    requires error { IsReduced (range_of presets.maxval) error }
    requires value { value ≡ interruption_value ri_type (counts a.old n.old nn.old) error }
    ensures step { counts a.new n.new nn.new ≡ counts_step ri_type presets.reset (counts a.old n.old nn.old) error }
    ensures sound { AreSoundCounts presets.reset (error_bound presets.maxval) (counts a.new n.new nn.new) }
{
    let reset = u32::from(presets.reset());
    *a += (value + 1 - u32::from(ri_type)) / 2;
    *nn += u32::from(error < 0);
    count_interruption_error(a, n, nn, reset);
}

/// Whether map is 1 for negative errors; otherwise it is 1 for positive ones.
fn maps_negative(k: u32, n: u32, nn: u32) -> bool
    requires { nn ≤ 65535 }
    ensures { result ≡ (not (k == 0) || nat_le n (2 * nn)) }
{
    k != 0 || n <= 2 * nn
}

/// Whether map is 1 for an error.
fn map_is_one(maps_negative: bool, error: i32) -> bool
    ensures { result ≡ (if maps_negative then int_lt error (pos 0) else int_lt (pos 0) error) }
{
    if maps_negative {
        return error < 0;
    }
    error > 0
}

/// The error of magnitude (`twice` + map) / 2, where map is 1 if `twice` is odd, else 0: negative if map is 1 and
/// `maps_negative` holds, or if neither is so.
fn signed_half(maps_negative: bool, twice: u32) -> i32
    requires { twice ≤ 65537 }
    ensures { result ≡ (if if maps_negative then twice % 2 == 1 else not (twice % 2 == 1)
        then neg_ℤ (pos ((twice + 1) / 2)) else pos ((twice + 1) / 2)) }
{
    let size = (twice + 1) / 2;
    let map = twice % 2 == 1;
    if map == maps_negative {
        return -(size as i32);
    }
    size as i32
}

/// Halves the counters if N is RESET, and then adds 1 to N.
fn count_interruption_error(a: &mut u32, n: &mut u32, nn: &mut u32, reset: u32)
    requires { n.old ≤ 65535 }
    ensures a { a.new ≡ (if n.old == reset then a.old / 2 else a.old) }
    ensures n { n.new ≡ (if n.old == reset then n.old / 2 + 1 else n.old + 1) }
    ensures nn { nn.new ≡ (if n.old == reset then nn.old / 2 else nn.old) }
{
    if *n == reset {
        *a >>= 1;
        *n >>= 1;
        *nn >>= 1;
    }
    *n += 1;
}

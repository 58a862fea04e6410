//! The coding parameters of T.87 (A.2.1, C.2.4.1).
ghost use Rattle.std.specs.Prelude.{◌≡◌, ◌<◌, ◌≤◌, ◌+◌, ◌↔◌, IsTrue, IfOk};
ghost use Rattle.ls_frame.specs.Parameters.{ceil_log2, clamped_threshold, unclamped_thresholds, default_parameters, explicit_parameters, range_of, qbpp_of, bpp_of, limit_of, IsLegal};

use std::marker::Model;
use thiserror::Error;

/// The default of RESET (C.2.4.1.1).
const DEFAULT_RESET: u16 = 64;

/// The least RESET (Table C.2).
const LEAST_RESET: u16 = 3;

/// Why parameters aren't within the ranges of Table C.2. `Presets::explicit` checks in this order.
#[derive(Clone, Copy, Debug, Drop, PartialEq, Eq, Error)]
pub enum PresetFault {
    /// MAXVAL is 0.
    #[error("maxval")]
    MaxvalRange,
    /// T1 isn't 1 to MAXVAL.
    #[error("T1")]
    T1Range,
    /// T2 isn't T1 to MAXVAL.
    #[error("T2")]
    T2Range,
    /// T3 isn't T2 to MAXVAL.
    #[error("T3")]
    T3Range,
    /// RESET isn't 3 to the greater of 255 and MAXVAL.
    #[error("RESET")]
    ResetRange,
}

/// The coding parameters of a scan, within the ranges of Table C.2:
/// 1 <= T1 <= T2 <= T3 <= MAXVAL and 3 <= RESET <= max(255, MAXVAL).
#[derive(Clone, Copy, Debug, PartialEq, Eq)]
pub struct Presets {
    maxval: u16,
    t1: u16,
    t2: u16,
    t3: u16,
    reset: u16,
}

impl Model for Presets {
    ghost use Rattle.ls_frame.specs.Parameters.{Parameters, IsLegal};

    ghost Value = { Parameters };

    ghost view = { λ p. record { maxval = p.maxval; t1 = p.t1; t2 = p.t2; t3 = p.t3; reset = p.reset } };

    ghost invariant = { λ p. IsLegal (record { maxval = p.maxval; t1 = p.t1; t2 = p.t2; t3 = p.t3; reset = p.reset }) };

    ghost inverse = { λ p. record { maxval = p.maxval; t1 = p.t1; t2 = p.t2; t3 = p.t3; reset = p.reset } };
}

impl Presets {
    ghost use Rattle.ls_frame.specs.Parameters.{Parameters, IsLegal};

    /// The default parameters for `maxval`, which apply if a codestream doesn't specify them (C.2.4.1.1). `maxval` must
    /// be at least 1.
    #[tactic(auto, unfolding(crate::specs::Parameters::default_parameters))]
    pub fn default_of(maxval: u16) -> Presets
        requires { 0 < maxval }
        ensures value { result ≡ default_parameters maxval }
        ensures maxval { result.maxval ≡ maxval }
    {
        let (first, second, third) = unclamped_thresholds(maxval);
        let t1 = clamped_threshold(first, 1, maxval);
        let t2 = clamped_threshold(second, t1, maxval);
        let t3 = clamped_threshold(third, t2, maxval);
        Presets {
            maxval,
            t1,
            t2,
            t3,
            reset: DEFAULT_RESET,
        }
    }

    /// Makes exactly these parameters: a 0 doesn't stand for a default. Otherwise returns the first that is out of its
    /// range (Table C.2), in `PresetFault`'s order.
    #[tactic(auto, unfolding(crate::specs::Parameters::explicit_parameters))]
    pub fn explicit(
        maxval: u16,
        t1: u16,
        t2: u16,
        t3: u16,
        reset: u16,
    ) -> Result<Presets, PresetFault>
        ensures value { let asked : Parameters = record {
          maxval = maxval;
          t1 = t1;
          t2 = t2;
          t3 = t3;
          reset = reset;
        } in result ≡ explicit_parameters asked }
        ensures maxval { IfOk result (λ presets. presets.maxval ≡ maxval) }
    {
        if maxval == 0 {
            return Err(PresetFault::MaxvalRange);
        }
        if t1 == 0 || t1 > maxval {
            return Err(PresetFault::T1Range);
        }
        if t2 < t1 || t2 > maxval {
            return Err(PresetFault::T2Range);
        }
        if t3 < t2 || t3 > maxval {
            return Err(PresetFault::T3Range);
        }
        if reset < LEAST_RESET || reset > maxval.max(255) {
            return Err(PresetFault::ResetRange);
        }
        Ok(Presets {
            maxval,
            t1,
            t2,
            t3,
            reset,
        })
    }

    /// MAXVAL, 1 to 65535.
    pub fn maxval(self) -> u16
        ensures value { result ≡ self.maxval }
        ensures legal { IsLegal self }
    {
        self.maxval
    }

    /// The threshold T1.
    pub fn t1(self) -> u16
        ensures value { result ≡ self.t1 }
        ensures legal { IsLegal self }
    {
        self.t1
    }

    /// The threshold T2.
    pub fn t2(self) -> u16
        ensures value { result ≡ self.t2 }
        ensures legal { IsLegal self }
    {
        self.t2
    }

    /// The threshold T3.
    pub fn t3(self) -> u16
        ensures value { result ≡ self.t3 }
        ensures legal { IsLegal self }
    {
        self.t3
    }

    /// RESET: the value of a context's counter N at which its counters are halved (A.6.1).
    pub fn reset(self) -> u16
        ensures value { result ≡ self.reset }
        ensures legal { IsLegal self }
    {
        self.reset
    }

    /// RANGE (A.2.1): the number of values that a sample may have, MAXVAL + 1.
    pub fn range(self) -> u32
        ensures { result ≡ range_of self.maxval }
    {
        u32::from(self.maxval) + 1
    }

    /// bpp (A.2.1): the number of bits of a sample, 2 to 16.
    pub fn bpp(self) -> u32
        ensures value { result ≡ bpp_of self.maxval }
        ensures low { 2 ≤ result }
        ensures high { result ≤ 16 }
    {
        bits_up_to(self.maxval).max(2)
    }

    /// qbpp (A.2.1): the number of bits of a mapped error, 1 to 16.
    pub fn qbpp(self) -> u32
        ensures value { result ≡ qbpp_of self.maxval }
        ensures low { 0 < result }
        ensures high { result ≤ 16 }
    {
        bits_up_to(self.maxval)
    }

    /// LIMIT (A.2.1): the maximum length of a code word in regular mode, in bits, 20 to 64.
    pub fn limit(self) -> u32
        ensures value { result ≡ limit_of self.maxval }
        ensures low { 20 ≤ result }
        ensures high { result ≤ 64 }
    {
        let bpp = self.bpp();
        2 * (bpp + bpp.max(8))
    }

    /// Whether these are the default parameters for their MAXVAL.
    pub fn is_default(self) -> bool
        ensures { IsTrue result ↔ (self ≡ default_parameters self.maxval) }
    {
        self == Presets::default_of(self.maxval)
    }
}

/// The default T1, T2 and T3 before they are clamped (C.2.4.1.1.1). `maxval` must be at least 1.
fn unclamped_thresholds(maxval: u16) -> (u16, u16, u16)
    requires { 0 < maxval }
    ensures { result ≡ unclamped_thresholds maxval }
{
    if maxval >= 128 {
        let factor = (maxval.min(4095) + 128) / 256;
        (factor + 2, 4 * factor + 3, 17 * factor + 4)
    } else {
        let factor = 256 / (maxval + 1);
        (
            (3 / factor).max(2),
            (7 / factor).max(3),
            (21 / factor).max(4),
        )
    }
}

/// The number of bits of `greatest`, 0 of 0: the least exponent whose power of two is over it.
#[tactic(auto, using(crate::proofs::ExponentLemmas::exponent_lemmas))]
fn bits_up_to(greatest: u16) -> u32
    ensures value { result ≡ ceil_log2 (greatest + 1) }
    ensures low { 0 < greatest → 0 < result }
    ensures high { result ≤ 16 }
{
    u16::BITS - greatest.leading_zeros()
}

/// Returns `value`, or `low` if `value` is outside `low` to `maxval` (CLAMP of C.2.4.1.1.1).
fn clamped_threshold(value: u16, low: u16, maxval: u16) -> u16
    ensures { result ≡ clamped_threshold value low maxval }
{
    if value > maxval || value < low {
        low
    } else {
        value
    }
}

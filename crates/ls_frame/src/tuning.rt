//! Parameters of which some are chosen and the others are defaults.
ghost use Rattle.std.specs.Prelude.{◌≡◌, ◌<◌, IfOk};
ghost use Rattle.ls_frame.specs.Parameters.{default_parameters, explicit_parameters};
ghost use Rattle.ls_frame.specs.Tuning.{or_default, tuned};

use crate::presets::{PresetFault, Presets};

/// Thresholds and RESET for frames of any maxval. A 0 stands for the default for a frame's maxval.
#[derive(Clone, Copy, Debug, PartialEq, Eq)]
pub struct Tuning {
    pub t1: u16,
    pub t2: u16,
    pub t3: u16,
    pub reset: u16,
}

impl Tuning {
    /// Returns the parameters for `maxval`, which must not be 0, or the first that is out of its range (Table C.2). A
    /// default depends on `maxval` alone, so values chosen beside it can put it out of its range.
    pub fn presets(&self, maxval: u16) -> Result<Presets, PresetFault>
        requires { 0 < maxval }
        ensures value { result ≡ explicit_parameters (tuned self.now maxval) }
        ensures ok { IfOk result (λ presets. presets ≡ tuned self.now maxval) }
        ensures maxval { IfOk result (λ presets. presets.maxval ≡ maxval) }
    {
        let defaults = Presets::default_of(maxval);
        Presets::explicit(
            maxval,
            or_default(self.t1, defaults.t1()),
            or_default(self.t2, defaults.t2()),
            or_default(self.t3, defaults.t3()),
            or_default(self.reset, defaults.reset()),
        )
    }
}

/// Returns `chosen`, or `default` if `chosen` is 0.
fn or_default(chosen: u16, default: u16) -> u16
    ensures { result ≡ or_default chosen default }
{
    if chosen == 0 { default } else { chosen }
}

//! What can be computed for a sample of regular mode before its context's counters are known (T.87 A.3, A.4.1).
ghost use Rattle.std.specs.Prelude.{◌≡◌, ◌==◌, ◌-◌, ◌≤◌, if◌then◌else◌};
ghost use Rattle.ls_coding.specs.Contexts.{is_run};
ghost use Rattle.ls_coding.specs.Samples.{AreSamples};
ghost use Rattle.ls_coding.specs.View.Mirrors.{IsMirrored, mirror_image};

use crate::context::{context_of_signed, signed_context};
use crate::error::median;
use crate::neighbours::Neighbours;
use ls_frame::Presets;

/// A sample of regular mode and its prediction (A.4.1). If SIGN is -1, each is subtracted from MAXVAL: once C is added
/// to the prediction, the difference of the two is the error with its sign already changed (A.4.2, A.4.3).
#[derive(Clone, Copy, Debug, PartialEq, Eq)]
pub struct Mirrored {
    /// The context's number, 0 to 364; 0 exactly if the neighbours call for run mode.
    pub context: u16,
    /// The prediction, not yet corrected by C.
    pub prediction: u16,
    /// The sample.
    pub sample: u16,
}

/// The argument of `State::code_regular_at` for a sample with these neighbours. It can be computed a line at a time.
///
/// Requires neighbours and a sample of at most the presets' `maxval`. Allocates nothing and cannot fail.
pub fn mirror(presets: &Presets, neighbours: &Neighbours, sample: u16) -> Mirrored
    requires samples { AreSamples presets.now.maxval neighbours.now }
    requires sample { sample ≤ presets.now.maxval }
    ensures value { IsMirrored presets.now neighbours.now sample result }
    ensures run { (result.context == 0) ≡ is_run neighbours.now }
{
    let context = context_of_signed(signed_context(presets, neighbours));
    let maxval = presets.maxval();
    Mirrored {
        context: context.number as u16,
        prediction: mirror_image(maxval, context.negative, median(neighbours)),
        sample: mirror_image(maxval, context.negative, sample),
    }
}

/// A sample, subtracted from MAXVAL if SIGN is -1.
fn mirror_image(maxval: u16, negative: bool, sample: u16) -> u16
    requires { sample ≤ maxval }
    ensures { result ≡ mirror_image maxval negative sample }
{
    if negative { maxval - sample } else { sample }
}

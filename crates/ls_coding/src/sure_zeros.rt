//! Code words of regular mode whose value is sure to be that of a sample (T.87 A.5.3).
ghost use Rattle.std.specs.Prelude.{◌≡◌, ◌<◌, ◌≤◌, ℕ, length, slice_index};
ghost use Rattle.ls_coding.specs.View.SureZeros.{sure_zeros};

use ls_frame::Presets;
use std::marker::Model;

/// A bound for each Golomb parameter: a word of regular mode with fewer zeros at its front is sure to be a short one,
/// and its value that of a sample. One table serves any number of scans with the same parameters.
///
/// In contracts the table stands for these parameters.
#[derive(Drop)]
pub struct SureZeros {
    presets: Presets,
    zeros: [u32; 18],
}

impl Model for SureZeros {
    ghost use Rattle.ls_frame.specs.Parameters.{Parameters};
    ghost use Rattle.ls_coding.specs.View.SureZeros.{AreSure};

    ghost Value = { Parameters };

    ghost view = { λ s. s.presets };

    ghost invariant = { λ s. AreSure s.presets s.zeros };
}

impl SureZeros {
    /// The table for these parameters. Allocates nothing.
    pub fn new(presets: &Presets) -> SureZeros
        ensures { result ≡ presets.now }
    {
        let presets = *presets;
        let mut zeros = [0; 18];
        fill(presets, &mut zeros);
        SureZeros { presets, zeros }
    }

    /// The bound for a Golomb parameter of at most 17. The bound is at most 24; a word with fewer zeros is sure.
    #[inline(always)]
    pub fn of(&self, k: u32) -> u32
        requires { k < 18 }
        ensures { result ≡ sure_zeros self.now k }
    {
        self.zeros[k as usize]
    }
}

/// Fills the table with the bounds.
fn fill(presets: Presets, zeros: &mut [u32])
    requires { length zeros.old ≡ 18 }
    ensures each { (k : ℕ) → k < 18 → slice_index zeros.new k ≡ sure_zeros presets k }
    ensures whole { length zeros.new ≡ 18 }
{
    for k in 0..zeros.len() {
        zeros[k] = sure_zeros(presets, k as u32);
    }
}

/// The bound for a Golomb parameter.
fn sure_zeros(presets: Presets, k: u32) -> u32
    requires { k < 18 }
    ensures { result ≡ sure_zeros presets k }
{
    let escape = presets.limit() - presets.qbpp() - 1;
    ((presets.range() - 1) >> k).min(escape).min(24)
}

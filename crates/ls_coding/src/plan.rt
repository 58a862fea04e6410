//! How a sample's word is decoded (T.87 A.5.3).
ghost use Rattle.std.specs.Prelude.{◌≡◌};

use crate::neighbours::Neighbours;
use std::marker::Model;

/// How to decode one sample: the code of its word, and what the word's value stands for. `plan_regular` and
/// `plan_interruption` of `State` make it.
///
/// Read a word of LG(k, glimit) with the scan's qbpp, by `take_golomb` of `ls_bits`, whose requirements the two numbers
/// meet; then pass the plan and the word's value to `accept_regular` or `accept_interruption`, whichever matches the
/// call that made the plan. A plan is valid only for the state that made it, and only until that state changes.
#[derive(Drop)]
pub struct Plan {
    pub(crate) neighbours: Neighbours,
    /// The Golomb parameter.
    pub(crate) k: u32,
    /// The most bits that the word may have.
    pub(crate) glimit: u32,
    /// The context's number in regular mode; RItype for a sample that interrupts a run.
    pub(crate) number: usize,
    /// Whether the error has its sign changed: SIGN is -1, or A.7.2 changes it.
    pub(crate) negative: bool,
    /// Px, the prediction.
    pub(crate) prediction: u16,
}

impl Model for Plan {
    ghost use Rattle.std.specs.Prelude.{pos};
    ghost use Rattle.ls_coding.specs.View.Plans.{Planned};

    ghost Value = { Planned };

    ghost view = { λ plan. record {
      neighbours = plan.neighbours;
      k = plan.k;
      glimit = plan.glimit;
      number = plan.number;
      negative = plan.negative;
      prediction = pos plan.prediction;
    } };
}

impl Plan {
    /// The Golomb parameter of the word (A.5.1), at most qbpp + 1.
    pub fn k(&self) -> u32
        ensures { result ≡ self.now.k }
    {
        self.k
    }

    /// The most bits that the word may have: LIMIT, or LIMIT - J - 1 if the sample interrupts a run (A.7.2).
    pub fn glimit(&self) -> u32
        ensures { result ≡ self.now.glimit }
    {
        self.glimit
    }
}

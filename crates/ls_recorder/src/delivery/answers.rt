//! What the passes of a box know: the results that each has sent and received.
use crossbeam_channel::protocol::{Lesson, Outcome, Protocol, Split};
use ls_pieces::{Coded, Uncoded};
use std::collections::LinkedList;

/// A worker's result for a job: the coded frame, or that it couldn't be coded.
pub type Answer = Result<Coded, Uncoded>;

/// What the holder of a pass knows: the results that it sent, and those that it received, in order. It exists only in
/// proofs: no value of it is made.
pub struct BoxView {
    pub sent: LinkedList<Answer>,
    pub received: LinkedList<Answer>,
}

/// The rule of a box, which asks nothing of what it holds.
pub struct BoxRule;

impl Protocol<Answer, BoxView> for BoxRule {
    ghost use Rattle.std.specs.Prelude.{⊤, []};
    ghost use Rattle.ls_recorder.specs.View.Answers.{box_view};

    ghost holds = { λ items views. ⊤ };

    ghost first = { box_view [] [] };
}

/// The step that makes another sender's pass.
pub struct SenderMade;

impl Split<BoxView> for SenderMade {
    ghost use Rattle.std.specs.Prelude.{[]};
    ghost use Rattle.ls_recorder.specs.View.Answers.{box_view};

    ghost left = { λ v. v };

    ghost right = { λ v. box_view [] [] };
}

/// The step in which a result is sent.
pub struct AnswerSent;

impl Outcome<Answer, BoxView> for AnswerSent {
    ghost use Rattle.std.specs.Prelude.{◌≡◌, ◌++◌, ◌∷◌, []};
    ghost use Rattle.ls_recorder.specs.View.Answers.{box_view};

    ghost then = { λ v x w. w ≡ box_view (v.sent ++ x ∷ []) v.received };
}

impl Lesson<Answer, BoxView> for AnswerSent {
    ghost use Rattle.std.specs.Prelude.{⊤};

    ghost fact = { λ v items. ⊤ };
}

/// The step in which a result is received.
pub struct AnswerReceived;

impl Outcome<Answer, BoxView> for AnswerReceived {
    ghost use Rattle.std.specs.Prelude.{◌≡◌, ◌++◌, ◌∷◌, []};
    ghost use Rattle.ls_recorder.specs.View.Answers.{box_view};

    ghost then = { λ v x w. w ≡ box_view v.sent (v.received ++ x ∷ []) };
}

impl Lesson<Answer, BoxView> for AnswerReceived {
    ghost use Rattle.std.specs.Prelude.{⊤};

    ghost fact = { λ v items. ⊤ };
}

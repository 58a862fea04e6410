//! The channel by which places go back: its messages, what the holder of each pass knows, its rule, and the kinds of
//! step that keep it.
use crossbeam_channel::protocol::{Join, Lesson, Outcome, Protocol, Split};

/// A message of the writing half to the reading half.
#[derive(Clone, Copy, Drop)]
pub enum Back {
    /// This number of places is free again.
    Places(u64),
    /// The writing half has stopped. No message comes after it.
    Stopped,
}

/// What the holder of a pass knows. It exists only in proofs: no value of it is made.
pub struct BackView {
    /// The shares of the pass, of two in all. A pass that has both is the only one left.
    pub shares: u64,
    /// The number of places that were handed back by this pass.
    pub sent: u64,
    /// The number of places that this pass received.
    pub received: u64,
}

/// The rule of the channel: `Kept` of `specs/View/Backs.antt`.
pub struct BackRule;

impl Protocol<Back, BackView> for BackRule {
    ghost use Rattle.ls_recorder.specs.View.Backs.{Kept, both_halves};

    ghost holds = { λ items views. Kept items views };

    ghost first = { both_halves };
}

/// The step that makes a pass for each half.
pub struct HalfMade;

impl Split<BackView> for HalfMade {
    ghost use Rattle.ls_recorder.specs.View.Backs.{back_view};

    ghost left = { λ v. back_view 1 v.sent v.received };

    ghost right = { λ v. back_view 1 0 0 };
}

/// The step in which the writing half sends a message.
pub struct BackSent;

impl Outcome<Back, BackView> for BackSent {
    ghost use Rattle.std.specs.Prelude.{◌≡◌, ◌+◌};
    ghost use Rattle.ls_recorder.specs.View.Backs.{back_view, places_in};

    ghost then = { λ v x w. w ≡ back_view v.shares (v.sent + places_in x) v.received };
}

impl Lesson<Back, BackView> for BackSent {
    ghost use Rattle.std.specs.Prelude.{⊤};

    ghost fact = { λ v items. ⊤ };
}

/// The step in which the reading half receives a message.
pub struct BackReceived;

impl Outcome<Back, BackView> for BackReceived {
    ghost use Rattle.std.specs.Prelude.{◌≡◌, ◌+◌};
    ghost use Rattle.ls_recorder.specs.View.Backs.{back_view, places_in};

    ghost then = { λ v x w. w ≡ back_view v.shares v.sent (v.received + places_in x) };
}

impl Lesson<Back, BackView> for BackReceived {
    ghost use Rattle.std.specs.Prelude.{⊤};

    ghost fact = { λ v items. ⊤ };
}

/// The step that joins the passes of both halves.
pub struct HalvesJoined;

impl Join<BackView> for HalvesJoined {
    ghost use Rattle.std.specs.Prelude.{◌+◌};
    ghost use Rattle.ls_recorder.specs.View.Backs.{back_view};

    ghost both = { λ v w. back_view (v.shares + w.shares) (v.sent + w.sent) (v.received + w.received) };

    ghost spent = { back_view 0 0 0 };
}

/// The step in which the last remaining pass is read.
pub struct Halves;

impl Lesson<Back, BackView> for Halves {
    ghost use Rattle.std.specs.Prelude.{◌≤◌};

    ghost fact = { λ v items. v.received ≤ v.sent };
}

//! How a thread waits for a message: it polls the channel, then sleeps.
ghost use Rattle.std.specs.Prelude.{◌≡◌, MatchResult};
ghost use Rattle.crossbeam_channel.specs.Claims.{view, IsSeatAt};
ghost use Rattle.crossbeam_channel.specs.Ends.{receives_on};
ghost use Rattle.crossbeam_channel.specs.Fifo.{Pops, Learns, Held};

use crossbeam_channel::protocol::{Lesson, Outcome, Protocol};
use crossbeam_channel::{Pass, RecvError, RuledReceiver, TryRecvError};
use std::hint::spin_loop;
use std::sync::Wait;

/// The fewest polls before a sleep, which take some microseconds.
const FEWEST_LOOKS: u32 = 50;

/// The most polls before a sleep, which take a tenth of a millisecond: by then two threads that were woken one after
/// the other are at work again.
const MOST_LOOKS: u32 = 1600;

/// How often a waiting thread polls before it sleeps: more often if polling has helped it lately, and less often if it
/// hasn't.
///
/// A sleeping thread takes long to wake, and waking it costs as much as coding a small frame. So polling is cheaper as
/// long as the threads it waits for are at work on small jobs. If their jobs are large, or if other threads need the
/// processor, polling only takes time from them.
#[derive(Drop)]
pub struct Patience {
    looks: u32,
}

impl Patience {
    /// Returns the patience of a thread that hasn't waited yet: the most polls.
    pub fn new() -> Patience {
        Patience { looks: MOST_LOOKS }
    }

    /// Doubles the number of polls, up to the most, after polling has found a message.
    fn grow(&mut self) {
        self.looks = self.looks.saturating_mul(2).min(MOST_LOOKS);
    }

    /// Halves the number of polls, down to the fewest, after polling has found none.
    fn shrink(&mut self) {
        self.looks = (self.looks / 2).max(FEWEST_LOOKS);
    }
}

/// Receives a message as `recv_as` does, but polls as often as `patience` says before it sleeps. `pass` must be of this
/// channel, and the step `M` must keep the rule `P`. If it fails, the pass's view is unchanged, and at one moment of the
/// call the channel was empty, so what `M` learns is learned of no messages. (It waits until a message comes or all
/// senders are gone, but the channel's contract doesn't say so.)
pub fn receive<T: Drop, V, P: Protocol<T, V>, M: Outcome<T, V> + Lesson<T, V>, R: Wait>(
    rt: &R,
    receiver: &RuledReceiver<T, V, P>,
    pass: &mut Pass<T, V>,
    patience: &mut Patience,
) -> Result<T, RecvError>
    requires channel { IsSeatAt (receives_on receiver.now) pass.old }
    requires rule { Pops P.holds pass.old.id (view pass.old) (M.then (view pass.old)) × Learns P.holds pass.old.id (view pass.old) (M.fact (view pass.old)) }
    ensures channel { IsSeatAt (receives_on receiver.now) pass.new × (pass.new.id ≡ pass.old.id) }
    ensures rule { MatchResult result (λ message. M.then (view pass.old) message (view pass.new)) (λ _. (view pass.new ≡ view pass.old) × Held 0 (M.fact (view pass.old))) }
{
    for look in 0..patience.looks {
        match receiver.try_recv_as::<M, R>(rt, pass) {
            Ok(message) => {
                if look > 0 {
                    patience.grow();
                }
                return Ok(message);
            }
            Err(TryRecvError::Disconnected) => return Err(RecvError),
            Err(TryRecvError::Empty) => spin_loop(),
        }
    }
    patience.shrink();
    receiver.recv_as::<M, R>(rt, pass)
}

//! The rule of a running queue's channel, which is an invariant, and the kinds of step that keep it.
ghost use Rattle.std.specs.Prelude.{◌≡◌, ◌<◌, ◌≤◌, slice_index_or};
ghost use Rattle.crossbeam_channel.specs.Ends.{sends_on, receives_on};

use crate::views::{Message, View};
use crossbeam_channel::protocol::{Join, Lesson, Outcome, Protocol, Split};
use crossbeam_channel::{Pass, RuledReceiver, RuledSender};

/// The rule of the channel: `Kept` of `specs/View/Account.antt`.
pub struct Rule;

impl<T> Protocol<Message<T>, View<T>> for Rule {
    ghost use Rattle.ls_queue.specs.View.Account.{Kept, first_view};

    ghost holds = { λ items views. Kept items views };

    ghost first = { first_view };
}

/// The step in which the closer makes a source seat.
pub struct SourceSeated;

impl<T> Split<View<T>> for SourceSeated {
    ghost use Rattle.std.specs.Prelude.{[]};
    ghost use Rattle.ls_queue.specs.View.Account.{source_made, source_view};

    ghost left = { λ v. source_made v };

    ghost right = { λ v. source_view v.sources [] };
}

/// The step in which the closer makes a worker seat.
pub struct WorkerSeated;

impl<T> Split<View<T>> for WorkerSeated {
    ghost use Rattle.std.specs.Prelude.{[], false};
    ghost use Rattle.ls_queue.specs.View.Account.{worker_made, worker_view};

    ghost left = { λ v. worker_made v };

    ghost right = { λ v. worker_view v.sources [] false };
}

/// The step in which a source seat sends a job.
pub struct JobSent;

impl<T> Outcome<Message<T>, View<T>> for JobSent {
    ghost use Rattle.std.specs.Prelude.{◌≡◌};
    ghost use Rattle.ls_queue.specs.View.Account.{after_put};

    ghost then = { λ v x w. w ≡ after_put v x };
}

impl<T> Lesson<Message<T>, View<T>> for JobSent {
    ghost use Rattle.std.specs.Prelude.{⊤};

    ghost fact = { λ v items. ⊤ };
}

/// The step in which a worker seat receives a job or an end mark.
pub struct Received;

impl<T> Outcome<Message<T>, View<T>> for Received {
    ghost use Rattle.ls_queue.specs.View.Account.{AfterTake};

    ghost then = { λ v x w. AfterTake v x w };
}

impl<T> Lesson<Message<T>, View<T>> for Received {
    ghost use Rattle.std.specs.Prelude.{⊤};

    ghost fact = { λ v items. ⊤ };
}

/// The step in which the closer sends an end mark.
pub struct MarkSent;

impl<T> Outcome<Message<T>, View<T>> for MarkSent {
    ghost use Rattle.std.specs.Prelude.{◌≡◌};
    ghost use Rattle.ls_queue.specs.View.Account.{after_mark};

    ghost then = { λ v x w. w ≡ after_mark v };
}

impl<T> Lesson<Message<T>, View<T>> for MarkSent {
    ghost use Rattle.std.specs.Prelude.{⊤};

    ghost fact = { λ v items. ⊤ };
}

/// The step in which the last remaining pass is read.
pub struct Settled;

impl<T> Lesson<Message<T>, View<T>> for Settled {
    ghost use Rattle.ls_queue.specs.View.Account.{IsSettled};

    ghost fact = { λ v items. IsSettled v items };
}

/// The step that joins a seat's pass to the closer's.
pub struct Joined;

impl<T> Join<View<T>> for Joined {
    ghost use Rattle.ls_queue.specs.View.Account.{joined, spent_view};

    ghost both = { λ v w. joined v w };

    ghost spent = { spent_view };
}

/// A pass of the channel, as each seat and the closer carry one. It takes no bytes.
pub type SeatPass<T> = Pass<Message<T>, View<T>>;

/// The channel of a queue: its sender, its receiver, and the numbers of sources and workers.
#[derive(Drop)]
pub struct Channel<T: Drop> {
    pub sender: RuledSender<Message<T>, View<T>, Rule>,
    pub receiver: RuledReceiver<Message<T>, View<T>, Rule>,
    /// The number of sources, 1 to 16.
    pub sources: u8,
    /// The number of workers, 1 to 16.
    pub workers: usize,
    ghost one_channel: { receives_on receiver ≡ sends_on sender },
    ghost some_source: { 1 ≤ sources },
    ghost few_sources: { sources ≤ 16 },
    ghost some_worker: { 1 ≤ workers },
    ghost few_workers: { workers ≤ 16 },
}

/// The number of items that each source put. All of them were taken.
#[derive(Drop)]
pub struct Account {
    /// The number of items that each source put, by source; 0 beyond the last source.
    pub(crate) counts: [u64; 16],
    pub(crate) sources: u8,
    ghost few: { sources ≤ 16 },
}

impl Account {
    /// Returns the number of items that `source` put. `source` must be below the number of sources of the settled
    /// queue.
    pub fn count(&self, source: u8) -> u64
        requires { source < self.now.sources }
        ensures { result ≡ slice_index_or self.now.counts source 0 }
    {
        self.counts[source as usize]
    }
}

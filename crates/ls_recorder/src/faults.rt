//! The reasons why a recording isn't begun.
use std::alloc::AllocError;
use thiserror::Error;

/// The reason why a recording isn't begun: the first of these that applies, in this order.
#[derive(Clone, Copy, Debug, Drop, PartialEq, Eq, Error)]
pub enum RecordFault {
    /// The number of sources isn't 1 to 16.
    #[error("sources")]
    Sources,
    /// The number of workers isn't 1 to 16.
    #[error("workers")]
    Workers,
    /// The capacity of the queue isn't 1 to 256.
    #[error("capacity")]
    Capacity,
    /// The window isn't 1 to 64.
    #[error("window")]
    Window,
    /// An allocation failed.
    #[error("no memory")]
    NoMemory,
    /// No thread can be made for a worker.
    #[error("not started")]
    NotStarted,
}

impl From<AllocError> for RecordFault {
    ghost use Rattle.std.specs.Prelude.{◌≡◌};
    ghost use Rattle.ls_recorder.specs.declared.faults.RecordFault.TheVariants.{NoMemory};

    ghost from_gives = { λ _ fault. fault ≡ NoMemory };

    fn from(_refused: AllocError) -> RecordFault {
        RecordFault::NoMemory
    }
}

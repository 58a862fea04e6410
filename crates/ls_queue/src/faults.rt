//! Why a queue can't be made, or its steps can't be replayed.
ghost use Rattle.std.specs.Prelude.{◌≡◌};
ghost use Rattle.ls_queue.specs.Faults.{range_fault, open_fault};

use std::alloc::AllocError;
use thiserror::Error;

/// The most sources of a queue.
pub const MOST_SOURCES: u8 = 16;

/// The most jobs that a queue may hold.
pub const MOST_CAPACITY: usize = 256;

/// The most workers of a running queue.
pub const MOST_WORKERS: usize = 16;

/// Why a queue can't be made, or its steps can't be replayed. Of several faults the first is returned, in the order
/// `Sources`, `Capacity`, `Workers`, `NoSource`, `NoMemory`.
#[derive(Clone, Copy, Debug, Drop, PartialEq, Eq, Error)]
pub enum QueueFault {
    /// The number of sources isn't 1 to 16.
    #[error("sources")]
    Sources,
    /// The capacity isn't 1 to 256.
    #[error("capacity")]
    Capacity,
    /// The number of workers isn't 1 to 16. Only `open` returns it.
    #[error("workers")]
    Workers,
    /// An allocation failed.
    #[error("no memory")]
    NoMemory,
    /// The step with this index, from 0, names a source that the queue doesn't have. Only `replay` returns it.
    #[error("step {0}: no such source")]
    NoSource(usize),
}

impl From<AllocError> for QueueFault {
    ghost use Rattle.std.specs.Prelude.{◌≡◌};
    ghost use Rattle.ls_queue.specs.declared.faults.QueueFault.TheVariants.{NoMemory};

    ghost from_gives = { λ _ fault. fault ≡ NoMemory };

    fn from(_refused: AllocError) -> QueueFault {
        QueueFault::NoMemory
    }
}

/// Returns the first of `Sources` and `Capacity` that applies to these numbers, if one does.
pub(crate) fn range_fault(sources: u8, capacity: usize) -> Option<QueueFault>
    ensures { result ≡ range_fault sources capacity }
{
    if sources == 0 || sources > MOST_SOURCES {
        return Some(QueueFault::Sources);
    }
    if capacity == 0 || capacity > MOST_CAPACITY {
        return Some(QueueFault::Capacity);
    }
    None
}

/// Returns the first of `Sources`, `Capacity` and `Workers` that applies to these numbers, if one does.
pub(crate) fn open_fault(sources: u8, workers: usize, capacity: usize) -> Option<QueueFault>
    ensures { result ≡ open_fault sources workers capacity }
{
    if let Some(fault) = range_fault(sources, capacity) {
        return Some(fault);
    }
    if workers == 0 || workers > MOST_WORKERS {
        return Some(QueueFault::Workers);
    }
    None
}

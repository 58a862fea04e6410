//! The reasons why the reading of a recording stopped, and why its salvage did.
ghost use Rattle.std.specs.Prelude.{◌≡◌, ℕ};
ghost use Rattle.ls_salvage.specs.View.Ends.{is_refusal, read_fault, salvage_fault};

use ls_film::codestreams::Unread;
use ls_stream::StreamFault;
use std::alloc::AllocError;
use thiserror::Error;

/// The reason why reading stopped.
#[derive(Clone, Copy, Debug, Drop, PartialEq, Eq)]
pub enum ReadFault {
    /// A read failed.
    Io,
    /// An allocation failed.
    NoMemory,
    /// 4,294,967,295 bytes, the most of a codestream, show neither its end nor a fault.
    NoEnd,
    /// No start was found in 2^62 bytes or more, and the search gave up.
    TooMuch,
}

impl ReadFault {
    /// Converts the reason why a codestream can't be taken.
    pub fn of(fault: Unread) -> ReadFault
        ensures { result ≡ read_fault fault }
    {
        match fault {
            Unread::Io => ReadFault::Io,
            Unread::Stream(fault) if is_refusal(fault) => ReadFault::NoMemory,
            Unread::Stream(_) => ReadFault::NoEnd,
        }
    }
}

impl From<AllocError> for ReadFault {
    ghost use Rattle.std.specs.Prelude.{◌≡◌};
    ghost use Rattle.ls_salvage.specs.declared.faults.ReadFault.TheVariants.{NoMemory};

    ghost from_gives = { λ _ fault. fault ≡ NoMemory };

    fn from(_refused: AllocError) -> ReadFault {
        ReadFault::NoMemory
    }
}

/// The reason why the salvage of a recording stopped.
///
/// Exactly the text of the frames of the parts before was written, except after `Output`, and exactly their gaps were
/// reported.
#[derive(Clone, Copy, Debug, Drop, PartialEq, Eq, Error)]
pub enum SalvageFault {
    /// A read failed after this many frames had been written.
    #[error("read failed")]
    Io(u64),
    /// A write failed after exactly this many bytes of the text.
    #[error("output failed after {0} bytes")]
    Output(u64),
    /// An allocation failed: for a codestream, its frame or its text, for bytes put back, or for reporting a gap. It is
    /// no damage.
    #[error("no memory")]
    NoMemory,
    /// 4,294,967,295 bytes, the most of a codestream, show neither its end nor a fault. They can't be put back.
    #[error("no end within 4294967295 bytes")]
    NoEnd,
    /// A frame numbered 4,294,967,295, the first past the most of a film. Or, with the same message: the parts so far
    /// have 2^62 bytes or more, or the search for a start gave up after 2^62 bytes or more.
    #[error("too many frames")]
    TooMuch,
}

impl From<AllocError> for SalvageFault {
    ghost use Rattle.std.specs.Prelude.{◌≡◌};
    ghost use Rattle.ls_salvage.specs.declared.faults.SalvageFault.TheVariants.{NoMemory};

    ghost from_gives = { λ _ fault. fault ≡ NoMemory };

    fn from(_refused: AllocError) -> SalvageFault {
        SalvageFault::NoMemory
    }
}

impl SalvageFault {
    /// Converts a fault of reading to one of a salvage that has written this many frames.
    pub fn of(frames: u64, fault: ReadFault) -> SalvageFault
        ensures { result ≡ salvage_fault frames fault }
    {
        match fault {
            ReadFault::Io => SalvageFault::Io(frames),
            ReadFault::NoMemory => SalvageFault::NoMemory,
            ReadFault::NoEnd => SalvageFault::NoEnd,
            ReadFault::TooMuch => SalvageFault::TooMuch,
        }
    }
}

/// Whether this is `NoMemory`, which is no fault of the bytes.
pub(crate) fn is_refusal(fault: StreamFault) -> bool
    ensures { result ≡ is_refusal fault }
{
    match fault {
        StreamFault::NoMemory => true,
        _ => false,
    }
}

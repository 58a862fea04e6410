//! Why writing an index, or a comparison, stopped.
use ls_frame::NetpbmFault;
use ls_stream::StreamFault;
use std::alloc::AllocError;
use thiserror::Error;

/// Why writing an index stopped.
///
/// Exactly the lines of the codestreams before the one at fault were written, except after `Output`. At most
/// `ls_film::MOST_FRAMES` lines were.
#[derive(Clone, Copy, Debug, Drop, PartialEq, Eq, Error)]
pub enum IndexFault {
    /// The codestream of this number, from 0, isn't complete by its markers and headers; the fault is never
    /// `StreamFault::NoMemory`.
    #[error("frame {0}: {1}")]
    Stream(u64, StreamFault),
    /// A read failed after this number of lines had been written.
    #[error("read failed")]
    Io(u64),
    /// A write failed after exactly this number of bytes of the lines had been written.
    #[error("output failed after {0} bytes")]
    Output(u64),
    /// An allocation failed for a codestream or its line.
    #[error("no memory")]
    NoMemory,
    /// The recording has more than `ls_film::MOST_FRAMES` codestreams: one is numbered 4,294,967,295.
    #[error("too many frames")]
    TooMany,
}

impl IndexFault {
    ghost use Rattle.std.specs.Prelude.{◌≡◌};
    ghost use Rattle.ls_archive.specs.View.Indexing.{index_fault};

    /// Converts a fault of the codestream of this number.
    pub(crate) fn of(number: u64, fault: StreamFault) -> IndexFault
        ensures { result ≡ index_fault number fault }
    {
        match fault {
            StreamFault::NoMemory => IndexFault::NoMemory,
            _ => IndexFault::Stream(number, fault),
        }
    }
}

impl From<AllocError> for IndexFault {
    ghost use Rattle.std.specs.Prelude.{◌≡◌};
    ghost use Rattle.ls_archive.specs.declared.faults.IndexFault.TheVariants.{NoMemory};

    ghost from_gives = { λ _ fault. fault ≡ NoMemory };

    fn from(_refused: AllocError) -> IndexFault {
        IndexFault::NoMemory
    }
}

/// Why a film can't be compared with a recording.
///
/// All frames before the one at fault were equal, at most `ls_film::MOST_FRAMES` of each.
#[derive(Clone, Copy, Debug, Drop, PartialEq, Eq, Error)]
pub enum VerifyFault {
    /// The film's frame of this number, from 0, can't be read; the fault is never `NetpbmFault::NoMemory`.
    #[error("frame {0}: {1}")]
    Film(u64, NetpbmFault),
    /// The codestream of this number, from 0, can't be decoded; the fault is never `StreamFault::NoMemory`.
    #[error("frame {0}: {1}")]
    Recording(u64, StreamFault),
    /// A read of the recording failed after this number of codestreams.
    #[error("read failed")]
    RecordingIo(u64),
    /// An allocation failed: for a frame of the film whose header had been read, or for a codestream or its frame.
    #[error("no memory")]
    NoMemory,
    /// The first `ls_film::MOST_FRAMES` frames of both are equal, and the film or the recording has another, which is
    /// numbered 4,294,967,295.
    #[error("too many frames")]
    TooMany,
}

impl VerifyFault {
    ghost use Rattle.std.specs.Prelude.{◌≡◌};
    ghost use Rattle.ls_archive.specs.View.Verifying.{film_fault, recording_fault};

    /// Converts a fault of the film's frame of this number.
    pub(crate) fn of_film(number: u64, fault: NetpbmFault) -> VerifyFault
        ensures { result ≡ film_fault number fault }
    {
        match fault {
            NetpbmFault::NoMemory => VerifyFault::NoMemory,
            _ => VerifyFault::Film(number, fault),
        }
    }

    /// Converts a fault of the recording's codestream of this number.
    pub(crate) fn of_recording(number: u64, fault: StreamFault) -> VerifyFault
        ensures { result ≡ recording_fault number fault }
    {
        match fault {
            StreamFault::NoMemory => VerifyFault::NoMemory,
            _ => VerifyFault::Recording(number, fault),
        }
    }
}

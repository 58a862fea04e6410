//! Why an engine over a film stopped.
use crate::engine::Stopped;
use ls_frame::NetpbmFault;
use thiserror::Error;

/// The most frames of a film.
pub const MOST_FRAMES: u64 = 4_294_967_295;

/// Why an engine that reads a film and writes a text of its frames stopped.
///
/// The text of exactly the frames before the one at fault was written, except after `Output`: that of at most
/// `MOST_FRAMES` frames.
#[derive(Clone, Copy, Debug, Drop, PartialEq, Eq, Error)]
pub enum FilmFault {
    /// The frame of this number, from 0, can't be read; the fault is never `NetpbmFault::NoMemory`.
    #[error("frame {0}: {1}")]
    Input(u64, NetpbmFault),
    /// A write failed after exactly this number of bytes of the text had been written.
    #[error("output failed after {0} bytes")]
    Output(u64),
    /// An allocation failed for a frame, after exactly its header, or all of it, had been read.
    #[error("no memory")]
    NoMemory,
    /// The film has more than `MOST_FRAMES` frames: one is numbered 4,294,967,295.
    #[error("too many frames")]
    TooMany,
}

impl FilmFault {
    ghost use Rattle.std.specs.Prelude.{◌≡◌};
    ghost use Rattle.ls_film.specs.View.Stopping.{film_fault};

    /// Converts why the engine stopped over Netpbm images.
    pub fn of(stopped: Stopped<NetpbmFault>) -> FilmFault
        ensures { result ≡ film_fault stopped }
    {
        match stopped {
            Stopped::Input(_, NetpbmFault::NoMemory) => FilmFault::NoMemory,
            Stopped::Input(number, fault) => FilmFault::Input(number, fault),
            Stopped::Output(written) => FilmFault::Output(written),
            Stopped::NoMemory => FilmFault::NoMemory,
            Stopped::TooMany => FilmFault::TooMany,
        }
    }
}

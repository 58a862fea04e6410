//! The causes of faults, and what is said when an engine over a file stops.
ghost use Rattle.std.specs.Prelude.{◌≡◌, MatchResult};

use ls_archive::{
    CheckFault, CheckPartFault, IndexFault, ListedFault, VerifyFault, VerifyPartFault,
};
use ls_console::{Cause, Console, DONE, FAILED, Reader, Shown, cause_of_input, explain};
use ls_files::Opens;
use ls_film::{FilmFault, PartFault, PlayFault};
use ls_frame::{Failed, Outlet};
use ls_salvage::SalvageFault;
use ls_stream::StreamFault;
use std::fmt::Display;

/// A fault that has a cause.
pub trait Caused {
    fn cause(&self) -> Cause;
}

impl Caused for FilmFault {
    fn cause(&self) -> Cause {
        match self {
            FilmFault::Input(number, fault) => cause_of_input(*number, *fault),
            FilmFault::Output(_) => Cause::Writing,
            _ => Cause::Other,
        }
    }
}

impl Caused for PlayFault {
    fn cause(&self) -> Cause {
        match self {
            PlayFault::Stream(0, StreamFault::NotSoi) => Cause::Format,
            PlayFault::Io(_) => Cause::Reading,
            PlayFault::Output(_) => Cause::Writing,
            _ => Cause::Other,
        }
    }
}

impl Caused for PartFault {
    fn cause(&self) -> Cause {
        match self {
            PartFault::Play(fault) => fault.cause(),
            PartFault::TooFew(_) => Cause::Other,
        }
    }
}

impl Caused for SalvageFault {
    fn cause(&self) -> Cause {
        match self {
            SalvageFault::Io(_) => Cause::Reading,
            SalvageFault::Output(_) => Cause::Writing,
            _ => Cause::Other,
        }
    }
}

impl Caused for IndexFault {
    fn cause(&self) -> Cause {
        match self {
            IndexFault::Stream(0, StreamFault::NotSoi) => Cause::Format,
            IndexFault::Io(_) => Cause::Reading,
            IndexFault::Output(_) => Cause::Writing,
            _ => Cause::Other,
        }
    }
}

impl Caused for CheckFault {
    fn cause(&self) -> Cause {
        match self {
            CheckFault::Io => Cause::Reading,
            CheckFault::IndexIo => Cause::Reading,
            _ => Cause::Other,
        }
    }
}

impl Caused for CheckPartFault {
    fn cause(&self) -> Cause {
        match self {
            CheckPartFault::Check(fault) => fault.cause(),
            CheckPartFault::TooFew(_) => Cause::Other,
        }
    }
}

impl Caused for ListedFault {
    fn cause(&self) -> Cause {
        match self {
            ListedFault::IndexIo | ListedFault::Io(_) => Cause::Reading,
            ListedFault::Output(_) => Cause::Writing,
            _ => Cause::Other,
        }
    }
}

impl Caused for VerifyFault {
    fn cause(&self) -> Cause {
        match self {
            VerifyFault::Film(number, fault) => cause_of_input(*number, *fault),
            VerifyFault::Recording(0, StreamFault::NotSoi) => Cause::Format,
            VerifyFault::RecordingIo(_) => Cause::Reading,
            _ => Cause::Other,
        }
    }
}

impl Caused for VerifyPartFault {
    fn cause(&self) -> Cause {
        match self {
            VerifyPartFault::Verify(fault) => fault.cause(),
            VerifyPartFault::Passing(fault) => fault.cause(),
            VerifyPartFault::FilmTooFew(_) | VerifyPartFault::RecordingTooFew(_) => Cause::Other,
        }
    }
}

/// Says why an engine over a file stopped, if it did, and returns the status. `written` is the last failure of its
/// output.
pub fn conclude<O, X, E>(
    file: &str,
    outcome: Result<u64, X>,
    reader: &Reader<'_, O>,
    written: Option<Failed>,
    console: &mut Console<E>,
) -> u8
where
    O: Opens,
    X: Caused + Copy + Display + Drop,
    E: Outlet,
    ensures { MatchResult outcome (λ _. result ≡ DONE) (λ _. result ≡ FAILED) }
{
    match outcome {
        Ok(_frames) => DONE,
        Err(fault) => {
            let shown = Shown(file);
            console.say(format_args!("{shown}: {fault}"));
            explain(file, fault.cause(), reader, written, console);
            FAILED
        }
    }
}

//! Whether the codestreams of a recording are strict: whether each scan has exactly the data that encoding gives.
ghost use Rattle.std.specs.Prelude.{◌≡◌, ⊤, false, refl, IfOk, IfErr, IfSome, IfNone, MatchResult};
ghost use Rattle.ls_frame.specs.View.Devices.{count_after};
ghost use Rattle.ls_inspect.specs.Strict.{SpellsStrictly};
ghost use Rattle.ls_film.specs.View.Playing.{blames_reader};
ghost use Rattle.ls_film.specs.View.Steps.{failed_by};
ghost use Rattle.ls_archive.specs.View.Strict.{IsStrict, IsLoose, StopsStrict, IsFoundBy, IsFaultBy, IsUnstrict, is_device, no_text};

use ls_film::PlayFault;
use ls_film::codestreams::{Unread, take_codestream};
use ls_film::engine::{Images, Made, Stopped, Text, write_text};
use ls_frame::{Counted, Feed, Frame};
use ls_inspect::inspect;
use std::alloc::{AllocError, Global};

/// How far a recording is strict.
#[derive(Clone, Copy, Debug, PartialEq, Eq)]
pub struct Strict {
    /// The number of strict codestreams up to the first that isn't, or to the end.
    pub frames: u64,
    /// The first component, from 0, whose scan has other data in the codestream after them; `None` at the end.
    pub loose: Option<u8>,
}

/// Reads the strict codestreams of a recording, up to and including the first that isn't strict, or to the end.
///
/// A codestream is strict if the data of its scans are exactly those that encoding its frame with its parameters gives:
/// `ls_inspect::inspect` says so. One that isn't can be decoded nevertheless, and another call goes on after it. One
/// codestream is in memory at a time.
///
/// Fails as playing the recording does. If the bytes of the reader are known (as in memory), the clauses say which were
/// read.
pub fn read_strict<R: Feed>(alloc: Global, recording: &mut R) -> Result<Strict, PlayFault>
    ensures strict { IfOk result (λ found. IfNone found.loose (IsStrict (R.remaining recording.old) (R.remaining recording.new) found.frames)) }
    ensures loose { IfOk result (λ found. IfSome found.loose (IsLoose (R.remaining recording.old) (R.remaining recording.new) found.frames)) }
    ensures stops { IfErr result (StopsStrict (R.remaining recording.old) (R.remaining recording.new)) }
    ensures reads { R.failed_reads recording.new ≡ count_after (failed_by blames_reader result) (R.failed_reads recording.old) }
{
    let mut nothing = Counted::new(Vec::new(alloc));
    match write_text::<Seen, NoText, StrictOnes, R, Counted<Vec<u8>>>(
        alloc,
        &mut StrictOnes,
        recording,
        &mut nothing,
    ) {
        Ok(frames) => Ok(Strict {
            frames,
            loose: None,
        }),
        Err(stopped) => found_by(stopped),
    }
}

/// What was found, given why the engine stopped.
fn found_by(stopped: Stopped<Unstrict>) -> Result<Strict, PlayFault>
    ensures { MatchResult result (IsFoundBy stopped) (IsFaultBy stopped) }
{
    let stopped = match stopped {
        Stopped::Input(frames, Unstrict::Loose(component)) => {
            return Ok(Strict {
                frames,
                loose: Some(component),
            });
        }
        Stopped::Input(number, Unstrict::Unread(fault)) => Stopped::Input(number, fault),
        Stopped::Output(written) => Stopped::Output(written),
        Stopped::NoMemory => Stopped::NoMemory,
        Stopped::TooMany => Stopped::TooMany,
    };
    Err(PlayFault::of(stopped))
}

/// A frame that was read, of which nothing is kept.
#[derive(Drop)]
pub(crate) struct Seen;

impl Made for Seen {
    ghost made = { λ f seen. ⊤ };

    fn make(_alloc: Global, _frame: Frame) -> Result<Seen, AllocError> {
        Ok(Seen)
    }
}

/// Nothing is written of frames.
struct NoText;

impl Text<Seen> for NoText {
    ghost text = { no_text };

    fn chunk(alloc: Global, _number: u64, _item: Seen) -> Result<Vec<u8>, AllocError> {
        Ok(Vec::new(alloc))
    }

    ghost empty = { refl };
}

/// Why the next codestream isn't read as a strict one.
#[derive(Clone, Copy, Drop)]
pub enum Unstrict {
    /// It can't be taken or decoded, or an allocation failed for it.
    Unread(Unread),
    /// It was taken, and the scan of this component, from 0, is the first with other data.
    Loose(u8),
}

/// Reads codestream by codestream, each of which must be strict.
#[derive(Drop)]
struct StrictOnes;

impl Images<Seen> for StrictOnes {
    type Fault = Unstrict;

    ghost image = { SpellsStrictly };

    ghost unread = { IsUnstrict };

    ghost of_device = { is_device };

    ghost stands = { λ source place read. place ≡ read };

    ghost owes = { λ source. false };

    ghost may_run = { ⊤ };

    fn next<R: Feed>(&mut self, alloc: Global, reader: &mut R) -> Result<Option<Seen>, Unstrict> {
        let bytes = match take_codestream(alloc, reader) {
            Ok(Some(bytes)) => bytes,
            Ok(None) => return Ok(None),
            Err(fault) => return Err(Unstrict::Unread(fault)),
        };
        match inspect(alloc, &bytes) {
            Ok(inspected) => match inspected.loose {
                None => Ok(Some(Seen)),
                Some(component) => Err(Unstrict::Loose(component)),
            },
            Err(fault) => Err(Unstrict::Unread(Unread::Stream(fault))),
        }
    }
}

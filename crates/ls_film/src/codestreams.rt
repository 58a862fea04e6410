//! The codestreams of a recording: the next is taken off a reader, and its frame decoded.
ghost use Rattle.std.specs.Prelude.{◌≡◌, Bool, List, ℕ, Option, Err, ⊤, true, false, refl, IfOk, IfErr, IfSome, IfNone, MatchResult};
ghost use Rattle.ls_frame.specs.Picture.{Picture};
ghost use Rattle.ls_frame.specs.View.Devices.{count_after};
ghost use Rattle.ls_frame.specs.View.Known.{WasAtEnd};
ghost use Rattle.ls_stream.specs.Grammar.{Spells};
ghost use Rattle.ls_film.specs.declared.codestreams.Unread.{Unread};
ghost use Rattle.ls_stream.specs.View.Outlines.{outline_of};
ghost use Rattle.ls_film.specs.View.Codestreams.{IsTaken, IsMadeOf, IsUnmade, IsOutlined, WasPassed, is_io, unread_of, IsUnread, IsUntaken};
ghost use Rattle.ls_film.specs.View.Steps.{failed_by};

use crate::engine::{Images, Made};
use ls_frame::Feed;
use ls_stream::laws::outlines_follow_the_grammar;
use ls_stream::{NextFault, Opening, StreamFault, decode_frame, next_stream};
use std::alloc::Global;

/// Why the next codestream gives no frame.
#[derive(Clone, Copy, Drop)]
pub enum Unread {
    /// It can't be decoded, or an allocation failed for it.
    Stream(StreamFault),
    /// A read failed.
    Io,
}

impl Unread {
    /// Why the next codestream can't be taken.
    fn of(fault: NextFault) -> Unread
        ensures { result ≡ unread_of fault }
    {
        match fault {
            NextFault::TooLarge => Unread::Stream(StreamFault::TooLarge),
            NextFault::Io => Unread::Io,
            NextFault::NoMemory => Unread::Stream(StreamFault::NoMemory),
        }
    }
}

/// Takes the bytes of the next codestream off a reader, and not a byte more; `None` exactly at the end.
///
/// Its fault is `Io`, if a read failed before the codestream was read whole, or `TooLarge` or `NoMemory` of a codestream.
pub fn take_codestream<R: Feed>(alloc: Global, reader: &mut R) -> Result<Option<Vec<u8>>, Unread>
    ensures taken { IfOk result (λ next. IfSome next (λ bytes. IsTaken (R.remaining reader.old) (R.remaining reader.new) bytes.items)) }
    ensures end { IfOk result (λ next. IfNone next (WasAtEnd (R.remaining reader.old) (R.remaining reader.new))) }
    ensures stops { IfErr result (λ fault. IsUnread fault (R.remaining reader.old) (R.remaining reader.new)) }
    ensures untaken { IfErr result (λ fault. IsUntaken fault (R.remaining reader.old) (R.remaining reader.new)) }
    ensures failures { R.failed_reads reader.new ≡ count_after (failed_by is_io result) (R.failed_reads reader.old) }
{
    match next_stream(alloc, reader) {
        Ok(Some(mut bytes)) => {
            // Memory that is taken later can begin after the codestream then, and not after room for more of it.
            bytes.shrink_to_fit();
            Ok(Some(bytes))
        }
        Ok(None) => Ok(None),
        Err(fault) => Err(Unread::of(fault)),
    }
}

/// Passes over the next codestream of a reader, and reads not a byte more: its markers and headers are looked at, and its
/// data isn't decoded. Returns `false` exactly at the end.
///
/// Its fault is as that of `take_codestream`. If there is one in its markers or headers, it is decoded, and its fault is
/// the first of all, so that the bytes after it aren't taken for further codestreams.
pub fn pass_codestream<R: Feed>(alloc: Global, reader: &mut R) -> Result<bool, Unread>
    ensures passed { IfOk result (λ is_passed. is_passed ≡ true → WasPassed (R.remaining reader.old) (R.remaining reader.new)) }
    ensures end { IfOk result (λ is_passed. is_passed ≡ false → WasAtEnd (R.remaining reader.old) (R.remaining reader.new)) }
    ensures stops { IfErr result (λ fault. IsUnread fault (R.remaining reader.old) (R.remaining reader.new)) }
    ensures failures { R.failed_reads reader.new ≡ count_after (failed_by is_io result) (R.failed_reads reader.old) }
{
    let bytes = match take_codestream(alloc, reader) {
        Ok(Some(bytes)) => bytes,
        Ok(None) => return Ok(false),
        Err(fault) => return Err(fault),
    };
    match look_over(&bytes) {
        Ok(()) => Ok(true),
        Err(found) => Err(Unread::Stream(first_fault(alloc, &bytes, found))),
    }
}

/// Looks at the markers and headers of the codestream at the front of bytes.
fn look_over(bytes: &[u8]) -> Result<(), StreamFault>
    ensures { MatchResult result (λ _. IsOutlined bytes.now) (λ fault. outline_of bytes.now ≡ Err fault) }
{
    let opening = match Opening::read(bytes) {
        Ok(opening) => opening,
        Err(fault) => return Err(fault),
    };
    match opening.skip() {
        Ok(_used) => Ok(()),
        Err(fault) => Err(fault),
    }
}

/// The first fault of bytes in whose markers or headers this fault was found.
fn first_fault(alloc: Global, bytes: &[u8], found: StreamFault) -> StreamFault
    requires { outline_of bytes.now ≡ Err found }
    ensures { IsUnmade bytes.now result }
{
    outlines_follow_the_grammar();
    match decode_frame(alloc, bytes) {
        Ok(_decoded) => found,
        Err(fault) => fault,
    }
}

/// What is made of the frame whose codestream these bytes begin with; or the fault of decoding them.
pub fn made_of<T: Made>(alloc: Global, bytes: &[u8]) -> Result<T, StreamFault>
    ensures { MatchResult result (IsMadeOf T.made bytes.now) (IsUnmade bytes.now) }
{
    let decoded = match decode_frame(alloc, bytes) {
        Ok(decoded) => decoded,
        Err(fault) => return Err(fault),
    };
    match T::make(alloc, decoded.frame) {
        Ok(made) => Ok(made),
        Err(_) => Err(StreamFault::NoMemory),
    }
}

/// A source of a recording's frames: an image is a codestream.
pub trait Recorded<T: Made>: Images<T, Fault = Unread> {
    ghost image_is: { (bytes : List ℕ) (f : Picture) → Self.Images.image bytes f → Spells bytes f };

    ghost unread_is: { (fault : Unread) (place read : Option (List ℕ)) → Self.Images.unread fault place read → IsUnread fault place read };

    ghost of_device_is: { Self.Images.of_device ≡ is_io };
}

/// Reads codestream by codestream: no byte is read before it is asked for.
#[derive(Drop)]
pub struct OneByOne;

impl<T: Made> Images<T> for OneByOne {
    type Fault = Unread;

    ghost image = { Spells };

    ghost unread = { IsUnread };

    ghost of_device = { is_io };

    ghost stands = { λ source place read. place ≡ read };

    ghost owes = { λ source. false };

    ghost may_run = { ⊤ };

    fn next<R: Feed>(&mut self, alloc: Global, reader: &mut R) -> Result<Option<T>, Unread> {
        let bytes = match take_codestream(alloc, reader) {
            Ok(Some(bytes)) => bytes,
            Ok(None) => return Ok(None),
            Err(fault) => return Err(fault),
        };
        match made_of::<T>(alloc, &bytes) {
            Ok(made) => Ok(Some(made)),
            Err(fault) => Err(Unread::Stream(fault)),
        }
    }
}

impl<T: Made> Recorded<T> for OneByOne {
    ghost image_is = { λ bytes f is. is };

    ghost unread_is = { λ fault place read is. is };

    ghost of_device_is = { refl };
}

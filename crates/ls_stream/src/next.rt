//! Taking one codestream at a time from a reader, by its markers alone.
mod awaited;

ghost use Rattle.std.specs.Prelude.{◌≡◌, ◌≢◌, ◌↔◌, ◌<◌, ◌⊎◌, ◌++◌, ℕ, List, [], length, IfOk, IfErr, OnErr, IfSome, IfNone, MatchResult, MatchOption};
ghost use Rattle.std.specs.Io.KnownBytes.{Keeps};
ghost use Rattle.ls_frame.specs.Picture.{Picture};
ghost use Rattle.ls_frame.specs.View.Devices.{count_after};
ghost use Rattle.ls_frame.specs.View.Known.{Tells, Gave, WasAtEnd, HadBytes, TakesPast, known};
ghost use Rattle.ls_bits.specs.Bits.{AreBytes};
ghost use Rattle.ls_stream.specs.declared.faults.StreamFault.{StreamFault};
ghost use Rattle.ls_stream.specs.Grammar.{Spells, most_bytes};
ghost use Rattle.ls_stream.specs.View.Extents.{IsNext, IsUndecided, BeginsEndless, with_left, failed_feed};
ghost use Rattle.ls_stream.specs.View.Places.{GivesNext};
ghost use Rattle.ls_stream.specs.View.Outlines.{outline_of, IsFirstFault};

use crate::segments::MOST_BYTES;
use awaited::Awaited;
use ls_frame::{Feed, FeedFault};
use std::alloc::{AllocError, Global};
use thiserror::Error;

/// Why the next codestream can't be taken.
#[derive(Clone, Copy, Debug, Drop, PartialEq, Eq, Error)]
pub enum NextFault {
    /// The codestream doesn't end within 4,294,967,295 bytes.
    #[error("too large")]
    TooLarge,
    /// A read failed.
    #[error("read failed")]
    Io,
    /// An allocation failed.
    #[error("no memory")]
    NoMemory,
}

/// Takes the bytes of the next codestream from a reader, and not a byte more. `None` exactly at the end of input.
///
/// They end with EOI; or with the byte that shows a fault of the markers: no SOI, no marker where one is due, a marker
/// that isn't supported, or a length below 2; or with the input. The contents of segments aren't examined. Decoding
/// these bytes gives what decoding all remaining bytes would, but for `NoMemory`: if any front of the remaining bytes
/// is a codestream of a frame, these bytes are that front; otherwise both have the same first fault.
///
/// If the bytes are known (as in memory), the clauses say which were read. `TooLarge` comes after exactly 4,294,967,295
/// bytes that show neither an end nor a fault. `Io` comes exactly if a read failed, after fewer bytes than that, which
/// show neither. `NoMemory` never comes at the end of input; after it the reader's place is unspecified.
pub fn next_stream<R: Feed>(alloc: Global, reader: &mut R) -> Result<Option<Vec<u8>>, NextFault>
    // The bytes are the next codestream, and exactly they were read.
    ensures stream { IfOk result (λ next. IfSome next (λ bytes. Gave (R.remaining reader.old) (R.remaining reader.new)
        (λ read. (bytes.items ≡ read) × IsNext read (known (R.remaining reader.new))))) }
    ensures end { IfOk result (λ next. IfNone next (WasAtEnd (R.remaining reader.old) (R.remaining reader.new))) }
    // If a front is a codestream of a frame, it is returned.
    ensures complete { Tells (R.remaining reader.old) → (front rest : List ℕ) (f : Picture)
        → known (R.remaining reader.old) ≡ front ++ rest → Spells front f
        → MatchResult result (λ next. MatchOption next ⊥ (λ bytes. bytes.items ≡ front))
        (λ fault. (fault ≡ NextFault.Io) ⊎ (fault ≡ NextFault.NoMemory)) }
    // The outline of the returned bytes, or its fault, is that of all remaining bytes.
    ensures outline { IfOk result (λ next. IfSome next (λ bytes. Tells (R.remaining reader.old)
        → outline_of (known (R.remaining reader.old)) ≡ with_left (known (R.remaining reader.new)) (outline_of bytes.items))) }
    // Their first fault, also one in a scan's data, is that of all remaining bytes.
    ensures fault { IfOk result (λ next. IfSome next (λ bytes. Tells (R.remaining reader.old) → AreBytes (known (R.remaining reader.old))
        → (fault : StreamFault) → IsFirstFault bytes.items fault ↔ IsFirstFault (known (R.remaining reader.old)) fault)) }
    ensures too_large { IfErr result (λ fault. fault ≡ NextFault.TooLarge →
        Gave (R.remaining reader.old) (R.remaining reader.new) (λ read. length read ≡ most_bytes)) }
    ensures endless { IfErr result (λ fault. fault ≡ NextFault.TooLarge → Tells (R.remaining reader.old) → BeginsEndless (known (R.remaining reader.old))) }
    // Before a read failed, no whole codestream was read.
    ensures io { IfErr result (λ fault. fault ≡ NextFault.Io → Gave (R.remaining reader.old) (R.remaining reader.new) IsUndecided) }
    ensures memory { IfErr result (λ fault. fault ≡ NextFault.NoMemory → HadBytes (R.remaining reader.old)) }
    ensures failures { R.failed_reads reader.new ≡ count_after (failed_feed result) (R.failed_reads reader.old) }
{
    let mut bytes = Vec::new(alloc);
    match read_stream(reader, &mut bytes) {
        Ok(Some(())) => Ok(Some(bytes)),
        Ok(None) => Ok(None),
        Err(fault) => Err(fault),
    }
}

/// Takes the bytes of the next codestream into `bytes`, which must be empty; `None` at the end of input.
///
/// After `NoMemory` the bytes taken show neither an end nor a fault, and are fewer than a codestream may have.
fn read_stream<R: Feed>(reader: &mut R, bytes: &mut Vec<u8>) -> Result<Option<()>, NextFault>
    requires { bytes.old.items ≡ [] }
    ensures bytes { GivesNext (λ _. bytes.new.items) (R.remaining reader.old) (R.remaining reader.new) result }
    ensures memory { IfErr result (λ fault. fault ≡ NextFault.NoMemory → HadBytes (R.remaining reader.old)) }
    ensures io { IfErr result (λ fault. fault ≡ NextFault.Io → Gave (R.remaining reader.old) (R.remaining reader.new)
        (λ read. (bytes.new.items ≡ read) × IsUndecided read)) }
    ensures undecided { IfErr result (λ fault. fault ≡ NextFault.NoMemory → IsUndecided bytes.new.items) }
    ensures failures { R.failed_reads reader.new ≡ count_after (failed_feed result) (R.failed_reads reader.old) }
{
    let mut place = Awaited::Start;
    'steps: while bytes.len() < MOST_BYTES {
        let most = place.most_at_once(MOST_BYTES - bytes.len());
        let last = match next_bytes(reader, most, bytes)? {
            Some(last) => last,
            None if bytes.is_empty() => return Ok(None),
            None => return Ok(Some(())),
        };
        match place.after(last) {
            Some(next) => place = next,
            None => return Ok(Some(())),
        }
    }
    Err(NextFault::TooLarge)
}

/// The bytes of capacity that are reserved once the first byte is there.
const FIRST_ROOM: usize = 65_536;

/// Takes from 1 to `most` bytes, in which each 0xFF but a last one is followed by a byte below 0x80. Returns the last
/// of them; `None` at the end of input. On a fault none is appended.
fn next_bytes<R: Feed>(
    reader: &mut R,
    most: usize,
    bytes: &mut Vec<u8>,
) -> Result<Option<u8>, NextFault>
    requires some { 0 < most }
    ensures taken { IfOk result (λ next. IfSome next
        (TakesPast 255 128 most (R.remaining reader.old) (R.remaining reader.new) bytes.old.items bytes.new.items)) }
    ensures end { IfOk result (λ next. IfNone next
        ((bytes.new.items ≡ bytes.old.items) × WasAtEnd (R.remaining reader.old) (R.remaining reader.new))) }
    ensures nothing { OnErr result (bytes.new.items ≡ bytes.old.items) }
    ensures fault { IfErr result (λ fault. fault ≢ NextFault.TooLarge) }
    ensures keeps { IfErr result (λ fault. fault ≡ NextFault.Io → Keeps (R.remaining reader.old) (R.remaining reader.new)) }
    ensures memory { IfErr result (λ fault. fault ≡ NextFault.NoMemory → (0 < length bytes.old.items) ⊎ HadBytes (R.remaining reader.old)) }
    ensures failures { R.failed_reads reader.new ≡ count_after (failed_feed result) (R.failed_reads reader.old) }
{
    if make_room(bytes).is_err() {
        return Err(NextFault::NoMemory);
    }
    match reader.feed_past(0xFF, 0x80, most, bytes) {
        Ok(next) => Ok(next),
        Err(FeedFault::Io) => Err(NextFault::Io),
        Err(FeedFault::NoMemory) => Err(NextFault::NoMemory),
    }
}

/// Reserves capacity once the first byte is there. All codestreams grow alike from there on, so memory that one has
/// freed fits the next.
fn make_room(bytes: &mut Vec<u8>) -> Result<(), AllocError>
    ensures same { bytes.new.items ≡ bytes.old.items }
    ensures first { OnErr result (0 < length bytes.old.items) }
{
    if bytes.len() == 1 {
        bytes.reserve(FIRST_ROOM)?;
    }
    Ok(())
}

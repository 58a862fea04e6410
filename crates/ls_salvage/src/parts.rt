//! The next part of a recording: a frame's codestream, or a gap.
ghost use Rattle.std.specs.Prelude.{◌≡◌, ◌≢◌, ◌<◌, ◌≤◌, ◌^◌, ◌++◌, length, drop, IfOk, IfErr, IfSome, IfNone};
ghost use Rattle.ls_frame.specs.View.Chunks.{left_in, inner_reader};
ghost use Rattle.ls_frame.specs.View.Devices.{count_after};
ghost use Rattle.ls_frame.specs.View.Known.{Tells, WasAtEnd, HadBytes, known};
ghost use Rattle.ls_film.specs.View.Steps.{failed_by};
ghost use Rattle.ls_salvage.specs.Salvage.{size_of};
ghost use Rattle.ls_salvage.specs.View.Ends.{most_place, is_io};
ghost use Rattle.ls_salvage.specs.View.Parts.{IsFound, HasPassed, part_of, GavePart, IsLawful, HasNoEnd, HasLongGap};

use crate::faults::{ReadFault, is_refusal};
use crate::starts::skip_to_start;
use ls_film::codestreams::take_codestream;
use ls_frame::{Buffered, Feed, Frame};
use ls_stream::{StreamFault, decode_frame};
use std::alloc::Global;

/// A frame or a fault, found where a codestream should begin.
#[derive(Drop)]
enum Found {
    /// A frame, and the number of bytes of its codestream.
    Frame(Frame, u64),
    /// The fault, and the bytes that were read.
    Fault(StreamFault, Vec<u8>),
}

/// The next part of a recording.
#[derive(Drop)]
pub enum NextPart {
    /// A frame, and the number of bytes of its codestream.
    Frame(Frame, u64),
    /// The number of bytes passed over, and why.
    Gap(u64, StreamFault),
}

/// Takes the next part of a recording off a reader, and not a byte more; `None` exactly at the end.
///
/// A part has at least one byte and fewer than 2^63. `Io` and `NoMemory` say that a read or an allocation failed, the
/// latter never at the end; `NoEnd`, that as many bytes as a codestream may have show neither its end nor a fault;
/// `TooMuch`, that no codestream begins here, 2^62 bytes or more are left, and the search for the next start gave up.
/// After a fault nothing is said of the reader's position.
pub fn next_part<R: Feed>(
    alloc: Global,
    reader: &mut Buffered<R>,
) -> Result<Option<NextPart>, ReadFault>
    ensures part { IfOk result (λ next. IfSome next (λ part.
        GavePart (left_in R.remaining reader.old) (left_in R.remaining reader.new) (part_of part))) }
    ensures lawful { IfOk result (λ next. IfSome next (λ part. IsLawful (part_of part))) }
    ensures some { IfOk result (λ next. IfSome next (λ part. 0 < size_of (part_of part))) }
    ensures small { IfOk result (λ next. IfSome next (λ part. size_of (part_of part) < 2 ^ 63)) }
    ensures end { IfOk result (λ next. IfNone next (WasAtEnd (left_in R.remaining reader.old) (left_in R.remaining reader.new))) }
    ensures no_end { IfErr result (λ fault. fault ≡ ReadFault.NoEnd → Tells (left_in R.remaining reader.old)
        → HasNoEnd (known (left_in R.remaining reader.old))) }
    ensures too_much { IfErr result (λ fault. fault ≡ ReadFault.TooMuch → Tells (left_in R.remaining reader.old)
        → HasLongGap (known (left_in R.remaining reader.old))) }
    ensures memory { IfErr result (λ fault. fault ≡ ReadFault.NoMemory → HadBytes (left_in R.remaining reader.old)) }
    ensures failures { R.failed_reads (inner_reader reader.new) ≡ count_after (failed_by is_io result) (R.failed_reads (inner_reader reader.old)) }
{
    match find_next(alloc, reader)? {
        None => Ok(None),
        Some(Found::Frame(frame, count)) => Ok(Some(NextPart::Frame(frame, count))),
        Some(Found::Fault(fault, bytes)) => {
            let count = pass_gap(alloc, reader, &bytes)?;
            Ok(Some(NextPart::Gap(count, fault)))
        }
    }
}

/// Takes the next codestream off a reader and decodes it; `None` exactly at the end. `NoMemory` is returned as such,
/// not as a fault of the bytes.
fn find_next<R: Feed>(alloc: Global, reader: &mut R) -> Result<Option<Found>, ReadFault>
    ensures found { IfOk result (λ next. IfSome next (λ found. IsFound (R.remaining reader.old) (R.remaining reader.new) found)) }
    ensures end { IfOk result (λ next. IfNone next (WasAtEnd (R.remaining reader.old) (R.remaining reader.new))) }
    ensures no_end { IfErr result (λ fault. fault ≡ ReadFault.NoEnd → Tells (R.remaining reader.old)
        → HasNoEnd (known (R.remaining reader.old))) }
    ensures few { IfErr result (λ fault. fault ≢ ReadFault.TooMuch) }
    ensures memory { IfErr result (λ fault. fault ≡ ReadFault.NoMemory → HadBytes (R.remaining reader.old)) }
    ensures failures { R.failed_reads reader.new ≡ count_after (failed_by is_io result) (R.failed_reads reader.old) }
{
    let bytes = match take_codestream(alloc, reader) {
        Ok(Some(bytes)) => bytes,
        Ok(None) => return Ok(None),
        Err(fault) => return Err(ReadFault::of(fault)),
    };
    match decode_frame(alloc, &bytes) {
        Ok(decoded) => Ok(Some(Found::Frame(decoded.frame, bytes.len() as u64))),
        Err(fault) if is_refusal(fault) => Err(ReadFault::NoMemory),
        Err(fault) => Ok(Some(Found::Fault(fault, bytes))),
    }
}

/// Passes over a gap, and returns the number of its bytes. It begins with the first of the bytes that were read, no
/// front of which is a codestream, and goes up to the next start after that byte. The other bytes that were read are
/// put back first, since that start may be among them.
pub fn pass_gap<R: Feed>(
    alloc: Global,
    reader: &mut Buffered<R>,
    read: &[u8],
) -> Result<u64, ReadFault>
    ensures passed { IfOk result (λ count. Tells (left_in R.remaining reader.old) → 0 < length read.now
        → HasPassed (read.now ++ known (left_in R.remaining reader.old)) count (left_in R.remaining reader.new)) }
    ensures some { IfOk result (λ count. 0 < count) }
    ensures small { IfOk result (λ count. count < 2 ^ 63) }
    ensures too_much { IfErr result (λ fault. fault ≡ ReadFault.TooMuch → Tells (left_in R.remaining reader.old)
        → most_place ≤ length (read.now ++ known (left_in R.remaining reader.old))) }
    ensures ends { IfErr result (λ fault. fault ≢ ReadFault.NoEnd) }
    ensures failures { R.failed_reads (inner_reader reader.new) ≡ count_after (failed_by is_io result) (R.failed_reads (inner_reader reader.old)) }
{
    reader.put_back(alloc, after_first(read))?;
    let count = skip_to_start(alloc, reader)?;
    Ok(count + 1)
}

/// All bytes but the first.
fn after_first(bytes: &[u8]) -> &[u8]
    ensures { result.now ≡ drop 1 bytes.now }
{
    match bytes.split_first() {
        Some((_, more)) => more,
        None => bytes,
    }
}

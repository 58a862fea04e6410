//! The search for the next start, that is, for the next place where a codestream may begin.
ghost use Rattle.std.specs.Prelude.{◌≡◌, ◌≢◌, ◌⊎◌, ◌<◌, ◌≤◌, ◌+◌, length, true, false, IfOk, IfErr, IfSome, IfNone};
ghost use Rattle.std.specs.List.{AllByRecursion};
ghost use Rattle.ls_frame.specs.View.Chunks.{left_in, inner_reader};
ghost use Rattle.ls_frame.specs.View.Devices.{count_after};
ghost use Rattle.ls_frame.specs.View.Known.{Tells, TakesUntil, WasAtEnd, known};
ghost use Rattle.ls_film.specs.View.Steps.{failed_by};
ghost use Rattle.ls_salvage.specs.Starts.{ff, may_follow_soi};
ghost use Rattle.ls_salvage.specs.View.Ends.{most_place, is_io};
ghost use Rattle.ls_salvage.specs.View.Skipping.{GoesOn, FoundStart, HasSkipped};

use crate::faults::ReadFault;
use ls_frame::{Buffered, Feed, FeedFault};
use std::alloc::Global;

/// The byte before the code of each marker; it may also stand before a marker as a fill byte (T.81 B.1.1.2).
const FF: u8 = 0xFF;

/// The code of SOI, start of image (T.81 B.2.1 and Table B.1).
const SOI: u8 = 0xD8;

/// The code of SOF55, the frame header of JPEG-LS (T.87 Table C.1).
const SOF55: u8 = 0xF7;

/// The code of LSE, preset parameters (T.87 Table C.1).
const LSE: u8 = 0xF8;

/// The code of COM, comment (T.81 Table B.1).
const COM: u8 = 0xFE;

/// The code of APP0, the first for application data (T.81 Table B.1).
const APP0: u8 = 0xE0;

/// The code of APP15, the last for application data (T.81 Table B.1).
const APP15: u8 = 0xEF;

/// The most bytes that are asked of the reader at once.
const MOST_AT_ONCE: usize = 65_536;

/// After this many bytes the search for a start gives up; after parts of this many bytes a salvage does: 2^62.
pub const MOST_PLACE: u64 = 4_611_686_018_427_387_904;

/// The part of a start, up to the FF after SOI, that was just read.
#[derive(Clone, Copy)]
enum Matched {
    Nothing,
    /// The first byte of SOI: FF.
    SoiBegun,
    /// SOI.
    Soi,
    /// SOI and FF, the first byte of a marker or a fill byte.
    SoiAndFf,
}

/// Takes the bytes up to the next start off a reader, or all if there is none, and returns the number of them, at most
/// 2^62 + 65,536.
///
/// Holds at most 64 KiB of them. The search gives up after 2^62 bytes without a complete start: `TooMuch`. `Io` and
/// `NoMemory` say that a read or an allocation failed. After a fault nothing is said of the reader's position.
pub fn skip_to_start<R: Feed>(alloc: Global, reader: &mut Buffered<R>) -> Result<u64, ReadFault>
    ensures skipped { IfOk result (λ count. Tells (left_in R.remaining reader.old)
        → Tells (left_in R.remaining reader.new) × HasSkipped count (known (left_in R.remaining reader.old)) (known (left_in R.remaining reader.new))) }
    ensures small { IfOk result (λ count. count ≤ most_place + 65536) }
    ensures too_much { IfErr result (λ fault. fault ≡ ReadFault.TooMuch → Tells (left_in R.remaining reader.old)
        → most_place ≤ length (known (left_in R.remaining reader.old))) }
    ensures ends { IfErr result (λ fault. fault ≢ ReadFault.NoEnd) }
    ensures failures { R.failed_reads (inner_reader reader.new) ≡ count_after (failed_by is_io result) (R.failed_reads (inner_reader reader.old)) }
{
    let mut run = Vec::new(alloc);
    let mut matched = Matched::Nothing;
    let mut count = 0;
    'steps: while count < MOST_PLACE {
        run.clear();
        let last = match next_bytes(reader, matched.most_at_once(), &mut run)? {
            Some(last) => last,
            None => return Ok(count),
        };
        count += run.len() as u64;
        match matched.after(last) {
            Some(next) => matched = next,
            None => {
                reader.put_back(alloc, &[FF, SOI, FF, last])?;
                return Ok(count - 4);
            }
        }
    }
    Err(ReadFault::TooMuch)
}

/// Takes bytes up to and including the first FF, at most `most`, and appends them. Returns the last of them; `None` at
/// the end of input. Requires that `most` is at least 1.
fn next_bytes<R: Feed>(
    reader: &mut R,
    most: usize,
    bytes: &mut Vec<u8>,
) -> Result<Option<u8>, ReadFault>
    requires some { 0 < most }
    ensures taken { IfOk result (λ next. IfSome next
        (TakesUntil ff most (R.remaining reader.old) (R.remaining reader.new) bytes.old.items bytes.new.items)) }
    ensures end { IfOk result (λ next. IfNone next
        ((bytes.new.items ≡ bytes.old.items) × WasAtEnd (R.remaining reader.old) (R.remaining reader.new))) }
    ensures fault { IfErr result (λ fault. (fault ≢ ReadFault.NoEnd) × (fault ≢ ReadFault.TooMuch)) }
    ensures failures { R.failed_reads reader.new ≡ count_after (failed_by is_io result) (R.failed_reads reader.old) }
{
    match reader.feed_until(FF, most, bytes) {
        Ok(next) => Ok(next),
        Err(FeedFault::Io) => Err(ReadFault::Io),
        Err(FeedFault::NoMemory) => Err(ReadFault::NoMemory),
    }
}

impl Matched {
    /// The number of bytes that may be taken at once: up to the next FF while nothing is matched, else one.
    fn most_at_once(self) -> usize
        ensures some { 0 < result }
        ensures most { result ≤ 65536 }
        ensures one { (self ≡ Matched.Nothing) ⊎ (result ≡ 1) }
    {
        match self {
            Matched::Nothing => MOST_AT_ONCE,
            _ => 1,
        }
    }

    /// Matches one more byte. Returns how much is matched then; `None` if the byte completes a start.
    #[tactic(auto, using(crate::proofs::SkipLemmas::after_lemmas))]
    fn after(self, byte: u8) -> Option<Matched>
        ensures goes_on { IfSome result (λ next. GoesOn self byte next) }
        ensures found { IfNone result (FoundStart self byte) }
    {
        match self {
            Matched::SoiAndFf => after_ff(byte),
            Matched::Soi if byte == FF => Some(Matched::SoiAndFf),
            Matched::SoiBegun if byte == SOI => Some(Matched::Soi),
            _ if byte == FF => Some(Matched::SoiBegun),
            _ => Some(Matched::Nothing),
        }
    }
}

/// As `Matched::after`, when SOI and FF are matched.
#[tactic(auto, using(crate::proofs::SkipLemmas::after_ff_lemmas))]
fn after_ff(byte: u8) -> Option<Matched>
    ensures goes_on { IfSome result (λ next. GoesOn Matched.SoiAndFf byte next) }
    ensures found { IfNone result (FoundStart Matched.SoiAndFf byte) }
{
    if may_follow_soi(byte) {
        return None;
    }
    if byte == SOI {
        return Some(Matched::Soi);
    }
    Some(Matched::Nothing)
}

/// Whether this byte may follow SOI and FF: the code of a marker that may, or FF, since the one before it may be a fill
/// byte.
fn may_follow_soi(code: u8) -> bool
    ensures { result ≡ may_follow_soi code }
{
    match code {
        SOF55 | LSE | COM | FF => true,
        _ => APP0 <= code && code <= APP15,
    }
}

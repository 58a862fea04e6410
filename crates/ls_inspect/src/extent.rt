//! The size of the codestream at the front of bytes, by its markers alone.
ghost use Rattle.std.specs.Prelude.{◌≡◌, ◌++◌, ℕ, List, take, Err, IfOk, IfErr};
ghost use Rattle.ls_frame.specs.Picture.{Picture};
ghost use Rattle.ls_stream.specs.Grammar.{Spells, most_bytes};
ghost use Rattle.ls_stream.specs.View.Extents.{extent_at};
ghost use Rattle.ls_stream.specs.View.Reading.{Gives};
ghost use Rattle.ls_inspect.specs.Ends.{EndsAfter, HasNoEnd};

use crate::markers::{Part, after_data, read_part, read_start};
use ls_stream::StreamFault;

/// The most bytes that a codestream may have.
const MOST_BYTES: usize = 4_294_967_295;

/// Returns the size of the codestream at the front of bytes, from SOI to EOI, found by its markers alone: the contents
/// of segments aren't examined. The bytes up to there are those that `next_stream` takes.
///
/// Fails with Truncated if the bytes end before EOI, and with TooLarge if 4,294,967,295 of them show neither EOI nor a
/// fault of the markers; else with the first fault of the markers: NotSoi, BadSegment or Unsupported(Marker). Then no
/// front of the bytes is a codestream of a frame. Allocates nothing.
pub fn extent_of(bytes: &[u8]) -> Result<usize, StreamFault>
    ensures ends { IfOk result (λ size. EndsAfter bytes.now size) }
    ensures stops { IfErr result (λ fault. HasNoEnd bytes.now fault) }
    ensures none { IfErr result (λ fault. (front rest : List ℕ) (f : Picture) → bytes.now ≡ front ++ rest → Spells front f → ⊥) }
{
    let first = first_bytes(bytes);
    match read_to_end(first) {
        Ok(left) => Ok(first.len() - left.len()),
        Err(fault) => Err(fault_of(bytes, fault)),
    }
}

/// The first bytes, no more than a codestream may have.
fn first_bytes(bytes: &[u8]) -> &[u8]
    ensures { result.now ≡ take most_bytes bytes.now }
{
    if bytes.len() > MOST_BYTES {
        &bytes[..MOST_BYTES]
    } else {
        bytes
    }
}

/// The fault of all bytes, given that of `first_bytes`: Truncated becomes TooLarge if these are as many as a codestream
/// may have.
#[tactic(auto, using(crate::proofs::EndLemmas::no_end_lemmas))]
fn fault_of(bytes: &[u8], fault: StreamFault) -> StreamFault
    requires { extent_at (take most_bytes bytes.now) ≡ Err fault }
    ensures { HasNoEnd bytes.now result }
{
    if bytes.len() < MOST_BYTES {
        return fault;
    }
    match fault {
        StreamFault::Truncated => StreamFault::TooLarge,
        fault => fault,
    }
}

/// Reads SOI, and then segments and scans up to EOI. Returns the bytes after it.
#[tactic(auto, using(crate::proofs::PartLemmas::extent_lemmas))]
fn read_to_end(bytes: &[u8]) -> Result<&[u8], StreamFault>
    ensures { Gives (λ rest. rest.now) result (extent_at bytes.now) }
{
    let mut rest = read_start(bytes)?;
    loop {
        let (part, left) = read_part(rest)?;
        match part {
            Part::End => return Ok(left),
            Part::Scan => rest = after_data(left),
            Part::Segment => rest = left,
        }
    }
}

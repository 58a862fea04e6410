//! What surrounds the data of scans, as far as markers tell (T.87 Annex C; T.81 B.1.1). Each function reads at the
//! front of bytes, and returns what it read and the bytes that are left, or the first fault of the markers. None of them
//! allocates.
ghost use Rattle.std.specs.Prelude.{◌≡◌, ◌+◌, ◌<◌, ◌≤◌, length, IfOk};
ghost use Rattle.ls_stream.specs.Markers.{code_of, is_application, marker_of};
ghost use Rattle.ls_stream.specs.Segments.{field_of};
ghost use Rattle.ls_stream.specs.View.Outlines.{after_data};
ghost use Rattle.ls_stream.specs.View.Reading.{Gives, byte_at, code_at, contents_at, marker_at, start_at};
ghost use Rattle.ls_inspect.specs.Parts.{part_at, part_by, part_of};

use byteorder::{BigEndian, ByteOrder};
use ls_bits::data_of;
use ls_stream::{StreamFault, What};

/// A part of a codestream, as its marker tells it.
#[derive(Clone, Copy)]
pub enum Part {
    /// A segment that has no data after it.
    Segment,
    /// The header of a scan, which has data after it.
    Scan,
    /// EOI.
    End,
}

/// Reads SOI.
#[tactic(auto, unfolding(ls_stream::specs::View::Reading::start_at))]
pub fn read_start(bytes: &[u8]) -> Result<&[u8], StreamFault>
    ensures { Gives (λ rest. rest.now) result (start_at bytes.now) }
{
    let (first, rest) = read_byte(bytes)?;
    if first != 0xFF {
        return Err(StreamFault::NotSoi);
    }
    let (second, rest) = read_byte(rest)?;
    if second != 0xD8 {
        return Err(StreamFault::NotSoi);
    }
    Ok(rest)
}

/// Reads a segment, the header of a scan, or EOI.
#[tactic(auto, unfolding(crate::specs::Parts::part_at))]
pub fn read_part(bytes: &[u8]) -> Result<(Part, &[u8]), StreamFault>
    ensures value { Gives (λ x. (x.0, x.1.now)) result (part_at bytes.now) }
    ensures shorter { IfOk result (λ x. length x.1.now < length bytes.now) }
{
    let (code, rest) = read_marker(bytes)?;
    read_after(code, rest)
}

/// The bytes after the scan data at the front.
pub fn after_data(bytes: &[u8]) -> &[u8]
    ensures { result.now ≡ after_data bytes.now }
{
    &bytes[data_of(bytes).len..]
}

/// Reads what follows a marker of this code: its segment, or nothing after EOI.
fn read_after(code: u8, bytes: &[u8]) -> Result<(Part, &[u8]), StreamFault>
    ensures value { Gives (λ x. (x.0, x.1.now)) result (part_by (part_of (marker_of code)) (code_of (marker_of code)) bytes.now) }
    ensures no_longer { IfOk result (λ x. length x.1.now ≤ length bytes.now) }
{
    match part_of(code) {
        None => Err(StreamFault::Unsupported(What::Marker(code))),
        Some(Part::End) => Ok((Part::End, bytes)),
        Some(Part::Scan) => {
            let (_, rest) = read_contents(bytes)?;
            Ok((Part::Scan, rest))
        }
        Some(Part::Segment) => {
            let (_, rest) = read_contents(bytes)?;
            Ok((Part::Segment, rest))
        }
    }
}

/// The part that a marker of this code begins, if it is supported after SOI.
#[tactic(auto, using(ls_stream::proofs::MarkerLemmas::code_back))]
fn part_of(code: u8) -> Option<Part>
    ensures part { result ≡ part_of (marker_of code) }
    ensures code { code_of (marker_of code) ≡ code }
{
    match code {
        0xD8 => None,
        0xD9 => Some(Part::End),
        0xDA => Some(Part::Scan),
        0xF7 => Some(Part::Segment),
        0xF8 => Some(Part::Segment),
        0xFE => Some(Part::Segment),
        code if is_application(code) => Some(Part::Segment),
        _ => None,
    }
}

/// Whether this is the code of one of APP0 to APP15.
fn is_application(code: u8) -> bool
    ensures { result ≡ is_application code }
{
    0xE0 <= code && code <= 0xEF
}

/// Reads a marker and the fill bytes before it (T.81 B.1.1.2). Returns its code.
#[tactic(auto, unfolding(ls_stream::specs::View::Reading::marker_at))]
fn read_marker(bytes: &[u8]) -> Result<(u8, &[u8]), StreamFault>
    ensures value { Gives (λ x. (marker_of x.0, x.1.now)) result (marker_at bytes.now) }
    ensures shorter { IfOk result (λ x. length x.1.now < length bytes.now) }
{
    let (first, rest) = read_byte(bytes)?;
    if first != 0xFF {
        return Err(StreamFault::BadSegment);
    }
    read_code(rest)
}

/// Reads the code of a marker after its 0xFF, and after any more of them.
#[tactic(auto, using(ls_stream::proofs::MarkerLemmas::code_lemmas))]
fn read_code(bytes: &[u8]) -> Result<(u8, &[u8]), StreamFault>
    ensures value { Gives (λ x. (x.0, x.1.now)) result (code_at bytes.now) }
    ensures shorter { IfOk result (λ x. length x.1.now < length bytes.now) }
{
    let mut rest = bytes;
    loop {
        let (byte, left) = read_byte(rest)?;
        rest = left;
        if byte == 0 {
            return Err(StreamFault::BadSegment);
        }
        if byte != 0xFF {
            return Ok((byte, rest));
        }
    }
}

/// Reads a segment from its length on, after its marker. Returns the contents and the bytes that are left.
#[tactic(auto, unfolding(ls_stream::specs::View::Reading::contents_at))]
fn read_contents(bytes: &[u8]) -> Result<(&[u8], &[u8]), StreamFault>
    ensures value { Gives (λ x. (x.0.now, x.1.now)) result (contents_at bytes.now) }
    ensures no_longer { IfOk result (λ x. length x.1.now ≤ length bytes.now) }
{
    if bytes.len() < 2 {
        return Err(StreamFault::Truncated);
    }
    let len = usize::from(field(bytes, 0));
    if len < 2 {
        return Err(StreamFault::BadSegment);
    }
    if bytes.len() < len {
        return Err(StreamFault::Truncated);
    }
    Ok((&bytes[2..len], &bytes[len..]))
}

/// The field of two bytes at a place, the upper byte first.
fn field(bytes: &[u8], place: usize) -> u16
    requires { place + 1 < length bytes.now }
    ensures { result ≡ field_of bytes.now place }
{
    BigEndian::read_u16(&bytes[place..])
}

/// Reads a byte.
#[tactic(auto, using(ls_stream::proofs::MarkerLemmas::byte_lemmas))]
fn read_byte(bytes: &[u8]) -> Result<(u8, &[u8]), StreamFault>
    ensures value { Gives (λ x. (x.0, x.1.now)) result (byte_at bytes.now) }
    ensures shorter { IfOk result (λ x. length x.1.now < length bytes.now) }
{
    if bytes.len() == 0 {
        return Err(StreamFault::Truncated);
    }
    Ok((bytes[0], &bytes[1..]))
}

//! Reading markers and the contents of marker segments (T.87 Annex C; T.81 B.1.1). Each function checks the fields in
//! their order, and reports a length that doesn't fit them as soon as that shows. None of them allocates.
ghost use Rattle.std.specs.Prelude.{◌≡◌, ◌+◌, ◌*◌, ◌<◌, ◌≤◌, length, IfOk};
ghost use Rattle.ls_frame.specs.Picture.{components, sample_count, most_samples};
ghost use Rattle.ls_stream.specs.Segments.{field_of};
ghost use Rattle.ls_stream.specs.View.Reading.{Gives, byte_at, code_at, marker_at, contents_at, kind_of_count, id_of, ids_of, frame_header_of, preset_fields_of, fields_of, scan_header_of};

use crate::faults::{StreamFault, What};
use crate::marker::Marker;
use crate::segments::SAMPLED_ONE_BY_ONE;
use byteorder::{BigEndian, ByteOrder};
use ls_frame::frame::MOST_SAMPLES;
use ls_frame::{Kind, Tuning};

/// A frame header of one or three components, with a size within the limits of frames.
#[derive(Clone, Copy)]
pub struct FrameHeader {
    /// Bits per sample (P), 2 to 16.
    pub precision: u8,
    /// Lines (Y).
    pub height: u16,
    /// Samples per line (X).
    pub width: u16,
    pub kind: Kind,
    /// The identifiers of the components (Ci), all different. Unused entries are 0.
    pub ids: [u8; 3],
}

/// Preset coding parameters as they are written: 0 stands for the default.
#[derive(Clone, Copy)]
pub struct PresetFields {
    pub maxval: u16,
    pub tuning: Tuning,
}

/// Reads a marker and the fill bytes before it (T.81 B.1.1.2). Returns the marker and the bytes that are left.
#[tactic(auto, unfolding(crate::specs::View::Reading::marker_at))]
pub fn read_marker(bytes: &[u8]) -> Result<(Marker, &[u8]), StreamFault>
    ensures value { Gives (λ x. (x.0, x.1.now)) result (marker_at bytes.now) }
    ensures shorter { IfOk result (λ x. length x.1.now < length bytes.now) }
{
    let (first, rest) = read_byte(bytes)?;
    if first != 0xFF {
        return Err(StreamFault::BadSegment);
    }
    let (code, rest) = read_code(rest)?;
    Ok((Marker::of_code(code), rest))
}

/// Reads a segment from its length on, after its marker. Returns the contents and the bytes that are left.
#[tactic(auto, unfolding(crate::specs::View::Reading::contents_at))]
pub fn read_contents(bytes: &[u8]) -> Result<(&[u8], &[u8]), StreamFault>
    ensures value { Gives (λ x. (x.0.now, x.1.now)) result (contents_at bytes.now) }
    ensures no_longer { IfOk result (λ x. length x.1.now ≤ length bytes.now) }
{
    if bytes.len() < 2 {
        return Err(StreamFault::Truncated);
    }
    let len = usize::from(field(bytes, 0));
    if len < 2 {
        return Err(StreamFault::BadSegment);
    }
    if bytes.len() < len {
        return Err(StreamFault::Truncated);
    }
    Ok((&bytes[2..len], &bytes[len..]))
}

/// Reads the contents of a frame header (SOF55; T.87 C.2.2). Quantization tables are ignored.
#[tactic(auto, unfolding(crate::specs::View::Reading::frame_header_of))]
pub fn read_frame_header(contents: &[u8]) -> Result<FrameHeader, StreamFault>
    ensures value { Gives (λ header. header) result (frame_header_of contents.now) }
    ensures width { IfOk result (λ header. 0 < header.width) }
    ensures height { IfOk result (λ header. 0 < header.height) }
    ensures few { IfOk result (λ header. sample_count header.kind header.width header.height ≤ most_samples) }
    ensures some_bits { IfOk result (λ header. 2 ≤ header.precision) }
    ensures bits { IfOk result (λ header. header.precision ≤ 16) }
{
    if contents.len() < 6 {
        return Err(StreamFault::BadSegment);
    }
    let precision = contents[0];
    if precision < 2 || precision > 16 {
        return Err(StreamFault::BadSegment);
    }
    let height = field(contents, 1);
    if height == 0 {
        return Err(StreamFault::Unsupported(What::HeightZero));
    }
    let width = field(contents, 3);
    if width == 0 {
        return Err(StreamFault::BadSegment);
    }
    let kind = kind_of_count(contents[5])?;
    if contents.len() != 6 + 3 * usize::from(kind.components()) {
        return Err(StreamFault::BadSegment);
    }
    let ids = read_ids(kind, contents)?;
    if u64::from(width) * u64::from(height) * u64::from(kind.components()) > MOST_SAMPLES {
        return Err(StreamFault::TooLarge);
    }
    Ok(FrameHeader {
        precision,
        height,
        width,
        kind,
        ids,
    })
}

/// Reads the contents of an LSE segment with preset parameters (ID 1; T.87 C.2.4.1.1).
#[tactic(auto, unfolding(crate::specs::View::Reading::preset_fields_of))]
pub fn read_presets(contents: &[u8]) -> Result<PresetFields, StreamFault>
    ensures { Gives (λ fields. fields_of fields) result (preset_fields_of contents.now) }
{
    if contents.len() < 1 {
        return Err(StreamFault::BadSegment);
    }
    if contents[0] != 1 {
        return Err(StreamFault::Unsupported(What::LseId(contents[0])));
    }
    if contents.len() != 11 {
        return Err(StreamFault::BadSegment);
    }
    Ok(PresetFields {
        maxval: field(contents, 1),
        tuning: Tuning {
            t1: field(contents, 3),
            t2: field(contents, 5),
            t3: field(contents, 7),
            reset: field(contents, 9),
        },
    })
}

/// Checks the contents of a scan header (SOS; T.87 C.2.3): it must be of one component, with this identifier, with no
/// mapping table, NEAR 0, not interleaved, and with no point transform.
#[tactic(auto, unfolding(crate::specs::View::Reading::scan_header_of))]
pub fn read_scan_header(contents: &[u8], id: u8) -> Result<(), StreamFault>
    ensures { Gives (λ done. tt) result (scan_header_of id contents.now) }
{
    if contents.len() < 4 {
        return Err(StreamFault::BadSegment);
    }
    if contents[0] != 1 {
        return Err(StreamFault::Unsupported(What::Interleave));
    }
    if contents.len() != 6 {
        return Err(StreamFault::BadSegment);
    }
    if contents[1] != id {
        return Err(StreamFault::Unsupported(What::ScanOrder));
    }
    if contents[2] != 0 {
        return Err(StreamFault::Unsupported(What::Mapping));
    }
    if contents[3] != 0 {
        return Err(StreamFault::Unsupported(What::Near));
    }
    if contents[4] != 0 {
        return Err(StreamFault::Unsupported(What::Interleave));
    }
    if contents[5] != 0 {
        return Err(StreamFault::Unsupported(What::PointTransform));
    }
    Ok(())
}

/// Reads a byte. Returns it and the bytes that are left.
#[tactic(auto, using(crate::proofs::MarkerLemmas::byte_lemmas))]
pub fn read_byte(bytes: &[u8]) -> Result<(u8, &[u8]), StreamFault>
    ensures value { Gives (λ x. (x.0, x.1.now)) result (byte_at bytes.now) }
    ensures shorter { IfOk result (λ x. length x.1.now < length bytes.now) }
{
    if bytes.len() == 0 {
        return Err(StreamFault::Truncated);
    }
    Ok((bytes[0], &bytes[1..]))
}

/// The field of two bytes at a place, the upper byte first.
pub fn field(bytes: &[u8], place: usize) -> u16
    requires { place + 1 < length bytes.now }
    ensures { result ≡ field_of bytes.now place }
{
    BigEndian::read_u16(&bytes[place..])
}

/// Reads the code of a marker after its 0xFF, and after any more of them. Returns it and the bytes that are left.
#[tactic(auto, using(crate::proofs::MarkerLemmas::code_lemmas))]
fn read_code(bytes: &[u8]) -> Result<(u8, &[u8]), StreamFault>
    ensures value { Gives (λ x. (x.0, x.1.now)) result (code_at bytes.now) }
    ensures shorter { IfOk result (λ x. length x.1.now < length bytes.now) }
{
    let mut rest = bytes;
    loop {
        let (byte, left) = read_byte(rest)?;
        rest = left;
        if byte == 0 {
            return Err(StreamFault::BadSegment);
        }
        if byte != 0xFF {
            return Ok((byte, rest));
        }
    }
}

/// The kind of frame with this number of components (Nf).
fn kind_of_count(count: u8) -> Result<Kind, StreamFault>
    ensures { Gives (λ kind. kind) result (kind_of_count count) }
{
    match count {
        1 => Ok(Kind::Gray),
        3 => Ok(Kind::Color),
        count => Err(StreamFault::Unsupported(What::Components(count))),
    }
}

/// Reads the identifiers of the components. Unused entries are 0.
#[tactic(auto, unfolding(crate::specs::View::Reading::ids_of))]
fn read_ids(kind: Kind, contents: &[u8]) -> Result<[u8; 3], StreamFault>
    requires { 6 + 3 * components kind ≤ length contents.now }
    ensures { Gives (λ ids. ids) result (ids_of kind contents.now) }
{
    match kind {
        Kind::Gray => {
            let first = read_id(&[], contents, 6)?;
            Ok([first, 0, 0])
        }
        Kind::Color => {
            let first = read_id(&[], contents, 6)?;
            let second = read_id(&[first], contents, 9)?;
            let third = read_id(&[first, second], contents, 12)?;
            Ok([first, second, third])
        }
    }
}

/// Reads the identifier of the component whose fields start at a place. It must differ from those before it, and the
/// sampling factors must be 1.
#[tactic(auto, unfolding(crate::specs::View::Reading::id_of))]
fn read_id(before: &[u8], contents: &[u8], place: usize) -> Result<u8, StreamFault>
    requires { place + 1 < length contents.now }
    ensures { Gives (λ id. id) result (id_of before.now contents.now place) }
{
    let id = contents[place];
    if before.contains(&id) {
        return Err(StreamFault::BadSegment);
    }
    if contents[place + 1] != SAMPLED_ONE_BY_ONE {
        return Err(StreamFault::Unsupported(What::Sampling));
    }
    Ok(id)
}

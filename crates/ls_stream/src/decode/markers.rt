//! Reading what surrounds the data of scans: headers and EOI, with the miscellaneous segments before them (T.87 Annex
//! C; T.81 B.2). Each function reads at the front of bytes, and returns what it read and the bytes that are left, or
//! the first fault from the left. None of them allocates.
ghost use Rattle.std.specs.Prelude.{◌≡◌, ◌<◌, ◌≤◌, length, take, IfOk};
ghost use Rattle.ls_frame.specs.Picture.{sample_count, most_samples};
ghost use Rattle.ls_stream.specs.Grammar.{parameters_of, most_bytes};
ghost use Rattle.ls_stream.specs.View.Outlines.{fault_of};
ghost use Rattle.ls_stream.specs.View.Reading.{Gives, start_at, skipped_at, presets_at, after_marker, part_at, ahead_at, frame_header_at, scan_header_at, next_scan_at, end_at, opening_at, fields_of};

use crate::faults::{StreamFault, What};
use crate::marker::Marker;
use crate::segments::read::{
    FrameHeader, PresetFields, read_byte, read_contents, read_frame_header, read_marker,
    read_presets, read_scan_header,
};
use crate::segments::{MOST_BYTES, greatest_maxval};
use ls_frame::{PresetFault, Presets, Tuning};

/// Each parameter by default, as in a codestream with no preset parameters.
const NO_PRESETS: PresetFields = PresetFields {
    maxval: 0,
    tuning: Tuning {
        t1: 0,
        t2: 0,
        t3: 0,
        reset: 0,
    },
};

/// The first bytes, no more than a codestream may have.
#[tactic(auto, using(crate::proofs::MostLemmas::first_all))]
pub fn first_bytes(bytes: &[u8]) -> &[u8]
    ensures { result.now ≡ take most_bytes bytes.now }
{
    if bytes.len() > MOST_BYTES {
        &bytes[..MOST_BYTES]
    } else {
        bytes
    }
}

/// The fault of all bytes, given that of `first_bytes`: if there are more, a byte that is needed after these is one too
/// many, and Truncated becomes TooLarge.
#[tactic(auto, using(crate::proofs::MostLemmas::past_other))]
pub fn fault_of(bytes: &[u8], fault: StreamFault) -> StreamFault
    ensures { result ≡ fault_of bytes.now fault }
{
    if bytes.len() <= MOST_BYTES {
        return fault;
    }
    match fault {
        StreamFault::Truncated => StreamFault::TooLarge,
        fault => fault,
    }
}

/// Reads all before the data of the first scan: SOI, the frame header, the coding parameters, and the header of the
/// first component's scan, with the miscellaneous segments between them.
#[tactic(auto, unfolding(crate::specs::View::Reading::opening_at))]
pub fn read_opening(bytes: &[u8]) -> Result<(FrameHeader, Presets, &[u8]), StreamFault>
    ensures value { Gives (λ x. (x.0, x.1, x.2.now)) result (opening_at bytes.now) }
    ensures width { IfOk result (λ x. 0 < x.0.width) }
    ensures height { IfOk result (λ x. 0 < x.0.height) }
    ensures few { IfOk result (λ x. sample_count x.0.kind x.0.width x.0.height ≤ most_samples) }
{
    let rest = read_start(bytes)?;
    let (header, written, rest) = find_frame_header(rest)?;
    let (written, rest) = find_scan_header(false, written, header.ids[0], rest)?;
    match presets_of(header.precision, written) {
        Ok(presets) => Ok((header, presets, rest)),
        Err(fault) => Err(StreamFault::BadPresets(fault)),
    }
}

/// Reads the header of the next scan, which must be of the component with this identifier, and the miscellaneous
/// segments before it, none of which may be LSE.
#[tactic(auto, unfolding(crate::specs::View::Reading::next_scan_at))]
pub fn find_next_scan(id: u8, bytes: &[u8]) -> Result<&[u8], StreamFault>
    ensures { Gives (λ rest. rest.now) result (next_scan_at id bytes.now) }
{
    let (_, rest) = find_scan_header(true, NO_PRESETS, id, bytes)?;
    Ok(rest)
}

/// Reads EOI after the last scan, and the miscellaneous segments before it, none of which may be LSE.
#[tactic(auto, unfolding(crate::specs::View::Reading::end_at))]
pub fn find_end(bytes: &[u8]) -> Result<&[u8], StreamFault>
    ensures { Gives (λ rest. rest.now) result (end_at bytes.now) }
{
    let (next, _, rest) = find_marker(true, NO_PRESETS, bytes)?;
    if next != Marker::EndOfImage {
        return Err(StreamFault::BadSegment);
    }
    Ok(rest)
}

/// Reads SOI.
#[tactic(auto, unfolding(crate::specs::View::Reading::start_at))]
fn read_start(bytes: &[u8]) -> Result<&[u8], StreamFault>
    ensures { Gives (λ rest. rest.now) result (start_at bytes.now) }
{
    let (first, rest) = read_byte(bytes)?;
    if first != 0xFF {
        return Err(StreamFault::NotSoi);
    }
    let (second, rest) = read_byte(rest)?;
    if second != 0xD8 {
        return Err(StreamFault::NotSoi);
    }
    Ok(rest)
}

/// Reads the frame header. Also returns the last preset parameters that were written before it.
#[tactic(auto, unfolding(crate::specs::View::Reading::frame_header_at))]
fn find_frame_header(bytes: &[u8]) -> Result<(FrameHeader, PresetFields, &[u8]), StreamFault>
    ensures value { Gives (λ x. (x.0, fields_of x.1, x.2.now)) result (frame_header_at bytes.now) }
    ensures width { IfOk result (λ x. 0 < x.0.width) }
    ensures height { IfOk result (λ x. 0 < x.0.height) }
    ensures few { IfOk result (λ x. sample_count x.0.kind x.0.width x.0.height ≤ most_samples) }
    ensures some_bits { IfOk result (λ x. 2 ≤ x.0.precision) }
    ensures bits { IfOk result (λ x. x.0.precision ≤ 16) }
{
    let (next, written, rest) = find_marker(false, NO_PRESETS, bytes)?;
    if next != Marker::StartOfFrame {
        return Err(StreamFault::BadSegment);
    }
    let (contents, rest) = read_contents(rest)?;
    let header = read_frame_header(contents)?;
    Ok((header, written, rest))
}

/// Reads the header of a scan of the component with this identifier. Also returns the last preset parameters that were
/// written before it.
#[tactic(auto, unfolding(crate::specs::View::Reading::scan_header_at))]
fn find_scan_header(
    late: bool,
    written: PresetFields,
    id: u8,
    bytes: &[u8],
) -> Result<(PresetFields, &[u8]), StreamFault>
    ensures { Gives (λ x. (fields_of x.0, x.1.now)) result (scan_header_at late (fields_of written) id bytes.now) }
{
    let (next, written, rest) = find_marker(late, written, bytes)?;
    if next != Marker::StartOfScan {
        return Err(StreamFault::BadSegment);
    }
    let (contents, rest) = read_contents(rest)?;
    read_scan_header(contents, id)?;
    Ok((written, rest))
}

/// The coding parameters that result from a precision and the last preset parameters that were written (T.87
/// C.2.4.1.1).
#[tactic(auto, unfolding(crate::specs::Grammar::parameters_of))]
fn presets_of(precision: u8, written: PresetFields) -> Result<Presets, PresetFault>
    requires some_bits { 2 ≤ precision }
    requires bits { precision ≤ 16 }
    ensures { result ≡ parameters_of precision (fields_of written) }
{
    let greatest = greatest_maxval(u32::from(precision));
    if written.maxval > greatest {
        return Err(PresetFault::MaxvalRange);
    }
    if written.maxval == 0 {
        written.tuning.presets(greatest)
    } else {
        written.tuning.presets(written.maxval)
    }
}

/// Reads up to the next marker that isn't of a miscellaneous segment. Also returns the last preset parameters that were
/// written before it, or `written` if there are none. If `late`, after the header of the first scan, there may be none.
#[tactic(auto, using(crate::proofs::AheadLemmas::ahead_lemmas))]
fn find_marker(
    late: bool,
    written: PresetFields,
    bytes: &[u8],
) -> Result<(Marker, PresetFields, &[u8]), StreamFault>
    ensures { Gives (λ x. (x.0, fields_of x.1, x.2.now)) result (ahead_at late (fields_of written) bytes.now) }
{
    let mut written = written;
    let mut rest = bytes;
    loop {
        let (next, last, left) = read_part(late, written, rest)?;
        written = last;
        rest = left;
        if let Some(marker) = next {
            return Ok((marker, written, rest));
        }
    }
}

/// Reads a miscellaneous segment, or the marker SOF55, SOS or EOI.
#[tactic(auto, unfolding(crate::specs::View::Reading::part_at))]
fn read_part(
    late: bool,
    written: PresetFields,
    bytes: &[u8],
) -> Result<(Option<Marker>, PresetFields, &[u8]), StreamFault>
    ensures value { Gives (λ x. (x.0, fields_of x.1, x.2.now)) result (part_at late (fields_of written) bytes.now) }
    ensures shorter { IfOk result (λ x. length x.2.now < length bytes.now) }
{
    let (marker, rest) = read_marker(bytes)?;
    read_after_marker(late, written, marker, rest)
}

/// Reads the rest of a miscellaneous segment after its marker, or nothing after SOF55, SOS or EOI.
#[tactic(auto, unfolding(crate::specs::View::Reading::after_marker))]
fn read_after_marker(
    late: bool,
    written: PresetFields,
    marker: Marker,
    bytes: &[u8],
) -> Result<(Option<Marker>, PresetFields, &[u8]), StreamFault>
    ensures value { Gives (λ x. (x.0, fields_of x.1, x.2.now)) result (after_marker late (fields_of written) marker bytes.now) }
    ensures no_longer { IfOk result (λ x. length x.2.now ≤ length bytes.now) }
{
    match marker {
        Marker::EndOfImage => Ok((Some(marker), written, bytes)),
        Marker::StartOfScan => Ok((Some(marker), written, bytes)),
        Marker::StartOfFrame => Ok((Some(marker), written, bytes)),
        Marker::PresetParameters => read_written(late, bytes),
        Marker::Application(_) => skip_segment(written, bytes),
        Marker::Comment => skip_segment(written, bytes),
        Marker::StartOfImage => Err(StreamFault::Unsupported(What::Marker(marker.code()))),
        Marker::Other(code) => Err(StreamFault::Unsupported(What::Marker(code))),
    }
}

/// Skips a segment, after its marker.
fn skip_segment(
    written: PresetFields,
    bytes: &[u8],
) -> Result<(Option<Marker>, PresetFields, &[u8]), StreamFault>
    ensures value { Gives (λ x. (x.0, fields_of x.1, x.2.now)) result (skipped_at (fields_of written) bytes.now) }
    ensures no_longer { IfOk result (λ x. length x.2.now ≤ length bytes.now) }
{
    let (_, rest) = read_contents(bytes)?;
    Ok((None, written, rest))
}

/// Reads preset parameters, after their marker.
fn read_written(
    late: bool,
    bytes: &[u8],
) -> Result<(Option<Marker>, PresetFields, &[u8]), StreamFault>
    ensures value { Gives (λ x. (x.0, fields_of x.1, x.2.now)) result (presets_at late bytes.now) }
    ensures no_longer { IfOk result (λ x. length x.2.now ≤ length bytes.now) }
{
    if late {
        return Err(StreamFault::Unsupported(What::LseLate));
    }
    let (contents, rest) = read_contents(bytes)?;
    let written = read_presets(contents)?;
    Ok((None, written, rest))
}

//! The headers of a codestream and what follows its scans: each fault, and none.
use crate::testing::check;
use crate::testing::codestreams::CODESTREAMS;
use ls_frame::PresetFault;
use ls_stream::{Opening, StreamFault, What, decode_frame};
use std::alloc::{AllocError, Global};
use std::process::Abort;

/// A gray frame of one pixel, its sample 0 of 8 bits.
const LONE: [u8; 28] = [
    0xFF, 0xD8, 0xFF, 0xF7, 0x00, 0x0B, 0x08, 0x00, 0x01, 0x00, 0x01, 0x01, 0x01, 0x11, 0x00, 0xFF,
    0xDA, 0x00, 0x08, 0x01, 0x01, 0x00, 0x00, 0x00, 0x00, 0x80, 0xFF, 0xD9,
];

/// A gray frame of one pixel with precision 2, MAXVAL 1 and preset parameters; its sample is 1.
const WITH_PRESETS: [u8; 43] = [
    0xFF, 0xD8, 0xFF, 0xF7, 0x00, 0x0B, 0x02, 0x00, 0x01, 0x00, 0x01, 0x01, 0x01, 0x11, 0x00, 0xFF,
    0xF8, 0x00, 0x0D, 0x01, 0x00, 0x01, 0x00, 0x01, 0x00, 0x01, 0x00, 0x01, 0x00, 0x40, 0xFF, 0xDA,
    0x00, 0x08, 0x01, 0x01, 0x00, 0x00, 0x00, 0x00, 0x40, 0xFF, 0xD9,
];

/// Checks that bytes, changed or cut at a place, are decoded with this fault, or with none.
fn check_fault(rt: &impl Abort, alloc: Global, at: usize, bytes: &[u8], want: Option<StreamFault>) {
    let got = match decode_frame(alloc, bytes) {
        Ok(_) => None,
        Err(fault) => Some(fault),
    };
    check(rt, "a fault", at, &got, &want);
}

/// Checks the fault, or none, of decoding bytes after one of them is changed.
fn check_changed(
    rt: &impl Abort,
    alloc: Global,
    bytes: &mut [u8],
    place: usize,
    byte: u8,
    want: Option<StreamFault>,
) {
    if place < bytes.len() {
        bytes[place] = byte;
    }
    check_fault(rt, alloc, place, bytes, want);
}

/// Checks the fault, or none, of decoding these bytes after the first `count` of a codestream.
fn check_after(
    rt: &impl Abort,
    alloc: Global,
    codestream: &[u8],
    count: usize,
    bytes: &[u8],
    want: Option<StreamFault>,
) -> Result<(), AllocError> {
    let mut all = codestream.get(..count).unwrap_or(codestream).to_vec(alloc)?;
    all.extend_from_slice(bytes)?;
    check_fault(rt, alloc, count, &all, want);
    Ok(())
}

/// A place in `LONE`, the new byte there, and the fault.
const CHANGED_HEADERS: &[(usize, u8, StreamFault)] = &[
    (0, 0x00, StreamFault::NotSoi),
    (1, 0xD9, StreamFault::NotSoi),
    (2, 0x00, StreamFault::BadSegment),
    (3, 0x00, StreamFault::BadSegment),
    (3, 0xDA, StreamFault::BadSegment),
    (3, 0xD9, StreamFault::BadSegment),
    (3, 0xC0, StreamFault::Unsupported(What::Marker(0xC0))),
    (3, 0xD8, StreamFault::Unsupported(What::Marker(0xD8))),
    (3, 0xF8, StreamFault::Unsupported(What::LseId(8))),
    (4, 0xFF, StreamFault::Truncated),
    (5, 0x01, StreamFault::BadSegment),
    (5, 0x07, StreamFault::BadSegment),
    (5, 0x0C, StreamFault::BadSegment),
    (6, 0x01, StreamFault::BadSegment),
    (6, 0x11, StreamFault::BadSegment),
    (10, 0x00, StreamFault::BadSegment),
    (11, 0x03, StreamFault::BadSegment),
    (8, 0x00, StreamFault::Unsupported(What::HeightZero)),
    (11, 0x02, StreamFault::Unsupported(What::Components(2))),
    (13, 0x21, StreamFault::Unsupported(What::Sampling)),
    (16, 0xD9, StreamFault::BadSegment),
    (16, 0xF7, StreamFault::BadSegment),
    (18, 0x05, StreamFault::BadSegment),
    (18, 0x07, StreamFault::BadSegment),
    (16, 0xDD, StreamFault::Unsupported(What::Marker(0xDD))),
    (19, 0x02, StreamFault::Unsupported(What::Interleave)),
    (23, 0x01, StreamFault::Unsupported(What::Interleave)),
    (20, 0x02, StreamFault::Unsupported(What::ScanOrder)),
    (21, 0x01, StreamFault::Unsupported(What::Mapping)),
    (22, 0x01, StreamFault::Unsupported(What::Near)),
    (24, 0x01, StreamFault::Unsupported(What::PointTransform)),
];

/// Checks the fault, or none, of decoding the lone pixel after a byte is changed.
fn check_lone(rt: &impl Abort, alloc: Global, place: usize, byte: u8, want: Option<StreamFault>) {
    let mut bytes = LONE;
    check_changed(rt, alloc, &mut bytes, place, byte, want);
}

#[test]
fn changed_headers_have_these_faults_with_ample_memory(rt: HostRuntime) {
    for (place, byte, fault) in CHANGED_HEADERS {
        check_lone(&rt, rt.alloc(), *place, *byte, Some(*fault));
    }
    check_lone(&rt, rt.alloc(), 14, 0x05, None);
}

/// A place in `WITH_PRESETS`, the new byte there, and the fault, if there is one.
const CHANGED_PRESETS: &[(usize, u8, Option<PresetFault>)] = &[
    (21, 0x04, Some(PresetFault::MaxvalRange)),
    (23, 0x02, Some(PresetFault::T1Range)),
    (25, 0x02, Some(PresetFault::T2Range)),
    (27, 0x02, Some(PresetFault::T3Range)),
    (29, 0x02, Some(PresetFault::ResetRange)),
    (21, 0x00, None),
];

/// Checks the fault, or none, of decoding the pixel with presets after a byte is changed.
fn check_presets(
    rt: &impl Abort,
    alloc: Global,
    place: usize,
    byte: u8,
    fault: Option<PresetFault>,
) {
    let mut bytes = WITH_PRESETS;
    let want = match fault {
        Some(fault) => Some(StreamFault::BadPresets(fault)),
        None => None,
    };
    check_changed(rt, alloc, &mut bytes, place, byte, want);
}

#[test]
fn changed_presets_have_these_faults_with_ample_memory(rt: HostRuntime) {
    for (place, byte, fault) in CHANGED_PRESETS {
        check_presets(&rt, rt.alloc(), *place, *byte, *fault);
    }
}

#[test]
fn a_front_of_a_codestream_is_truncated_with_ample_memory(rt: HostRuntime) {
    for len in 0..28 {
        let truncated = Some(StreamFault::Truncated);
        check_fault(&rt, rt.alloc(), len, &LONE[..len], truncated);
    }
    check_fault(&rt, rt.alloc(), 28, &LONE, None);
}

const COMMENT: [u8; 5] = [0xFF, 0xFE, 0x00, 0x03, 0x41];

const FILLED_EOI: [u8; 4] = [0xFF, 0xFF, 0xFF, 0xD9];

const SCAN: [u8; 10] = [0xFF, 0xDA, 0x00, 0x08, 0x01, 0x01, 0x00, 0x00, 0x00, 0x00];

const OTHER: [u8; 2] = [0xFF, 0xC0];

const LSE: [u8; 2] = [0xFF, 0xF8];

/// What follows the only scan, and the fault, if there is one.
const AFTER_THE_ONLY: &[(&[u8], Option<StreamFault>)] = &[
    (&FILLED_EOI, None),
    (&COMMENT, Some(StreamFault::Truncated)),
    (&OTHER, Some(StreamFault::Unsupported(What::Marker(0xC0)))),
    (&LSE, Some(StreamFault::Unsupported(What::LseLate))),
    (&SCAN, Some(StreamFault::BadSegment)),
];

/// What follows the first of three scans, where that of component 2 is due, and the fault, if there is one.
const AFTER_THE_FIRST: &[(&[u8], Option<StreamFault>)] = &[
    (&FILLED_EOI, Some(StreamFault::BadSegment)),
    (&COMMENT, Some(StreamFault::Truncated)),
    (&LSE, Some(StreamFault::Unsupported(What::LseLate))),
    (&SCAN, Some(StreamFault::Unsupported(What::ScanOrder))),
];

#[test]
fn what_follows_a_scan_has_these_faults_with_ample_memory(
    rt: HostRuntime,
) -> Result<(), AllocError> {
    for (bytes, want) in AFTER_THE_ONLY {
        check_after(&rt, rt.alloc(), &LONE, 26, bytes, *want)?;
    }
    let (_, colour, _) = CODESTREAMS[4];
    let rest = colour.get(32..).unwrap_or(&[]);
    check_after(&rt, rt.alloc(), colour, 32, rest, None)?;
    for (bytes, want) in AFTER_THE_FIRST {
        check_after(&rt, rt.alloc(), colour, 32, bytes, *want)?;
    }
    Ok(())
}

/// The bits per sample and the number of bytes of a codestream, by its markers and headers, or their first fault.
type Skipped = Result<(u8, usize), StreamFault>;

/// Checks the result of skipping through a codestream that is changed or cut at a place.
fn check_skipped(rt: &impl Abort, at: usize, bytes: &[u8], want: Skipped) {
    let got = match Opening::read(bytes) {
        Ok(opening) => opening.skip().map(|used| (opening.precision(), used)),
        Err(fault) => Err(fault),
    };
    check(rt, "markers and headers", at, &got, &want);
}

/// Checks that a codestream is skipped through by its markers and headers, and that each proper front is truncated.
fn check_fronts(rt: &impl Abort, codestream: &[u8], precision: u8) {
    let len = codestream.len();
    check_skipped(rt, len, codestream, Ok((precision, len)));
    for len in 0..codestream.len() {
        check_skipped(rt, len, &codestream[..len], Err(StreamFault::Truncated));
    }
}

#[test]
fn codestreams_are_read_over_by_markers_and_headers(rt: HostRuntime) {
    check_fronts(&rt, &LONE, 8);
    check_fronts(&rt, &WITH_PRESETS, 2);
}

/// A place in `LONE`, the new byte there, and the result by markers and headers, which ignores the data.
const CHANGED_AFTER_THE_HEADERS: &[(usize, u8, Skipped)] = &[
    (25, 0x00, Ok((8, 28))),
    (25, 0xC0, Ok((8, 28))),
    (26, 0x00, Err(StreamFault::Truncated)),
    (27, 0xDA, Err(StreamFault::BadSegment)),
    (27, 0xC0, Err(StreamFault::Unsupported(What::Marker(0xC0)))),
    (27, 0xFF, Err(StreamFault::Truncated)),
];

#[test]
fn faults_of_markers_after_the_headers_are_found(rt: HostRuntime) {
    for (place, byte, want) in CHANGED_AFTER_THE_HEADERS {
        let mut bytes = LONE;
        if *place < bytes.len() {
            bytes[*place] = *byte;
        }
        check_skipped(&rt, *place, &bytes, *want);
    }
}

ghost use Rattle.std.specs.Prelude.{◌≤◌};

use crate::testing::codestreams::{
    CODESTREAMS, PLANES, Plane, TUNINGS, around_scan, head, height_of,
};
use crate::testing::{
    Chance, PICTURES, Parts, Picture, Shape, check, drawn_frame, encode_tuned, frame_of,
    longest_line, parts_of, turned,
};
use ls_frame::{Frame, Kind, PresetFault};
use ls_stream::{Arrangement, Decoded, Lines, Opening, Regions, StreamFault, What, decode_frame};
use std::alloc::{AllocError, Global};
use std::process::Abort;
use std::test::Fail;

/// The parts of a decoded frame and the number of bytes of its codestream, or the fault.
type Answer<'a> = Result<(Parts<'a>, usize), StreamFault>;

/// Checks the result of decoding.
fn check_answer(
    rt: &impl Abort,
    name: &str,
    decoded: &Result<Decoded, StreamFault>,
    want: Answer<'_>,
) {
    let got = match decoded {
        Ok(Decoded { frame, used }) => Ok((parts_of(frame), *used)),
        Err(fault) => Err(*fault),
    };
    check(rt, name, 0, &got, &want);
}

/// Checks what bytes are decoded to in the caller's memory.
fn check_opened(
    rt: &impl Abort,
    alloc: Global,
    name: &str,
    bytes: &[u8],
    want: Answer<'_>,
) -> Result<(), AllocError> {
    match Opening::read(bytes) {
        Ok(opening) => {
            check_opened_to_words(rt, alloc, name, &opening, want)?;
            check_opened_to_planes(rt, alloc, name, &opening, want)?;
            check_opened_to_bytes(rt, alloc, name, &opening, want)
        }
        Err(fault) => {
            check(rt, name, 0, &Err(fault), &want);
            Ok(())
        }
    }
}

/// The number of bytes of an opening's codestream, or the fault; and the samples in the caller's memory.
type Opened<S> = (Result<usize, StreamFault>, Vec<S>);

/// Checks what an opening's frame was decoded to.
fn check_samples_of(
    rt: &impl Abort,
    name: &str,
    opening: &Opening<'_>,
    used: Result<usize, StreamFault>,
    samples: &[u16],
    want: Answer<'_>,
) {
    let form = opening.form();
    let parts = (form.kind, form.width, form.height, form.maxval, samples);
    let got = match used {
        Ok(used) => Ok((parts, used)),
        Err(fault) => Err(fault),
    };
    check(rt, name, 0, &got, &want);
}

/// Decodes an opening's frame to samples of 16 bits.
fn opened_to_words(alloc: Global, opening: &Opening<'_>) -> Result<Opened<u16>, AllocError> {
    let mut lines = Lines::new(alloc, opening.form().width)?;
    let regions = Regions::new(alloc, opening.presets())?;
    let mut samples = vec![in alloc; 0u16; opening.sample_count()]?;
    let used = opening.decode(&mut lines, &regions, &mut samples);
    Ok((used, samples))
}

/// Checks what an opening's frame is decoded to in samples of 16 bits.
fn check_opened_to_words(
    rt: &impl Abort,
    alloc: Global,
    name: &str,
    opening: &Opening<'_>,
    want: Answer<'_>,
) -> Result<(), AllocError> {
    let (used, samples) = opened_to_words(alloc, opening)?;
    check_samples_of(rt, name, opening, used, &samples, want);
    Ok(())
}

/// Decodes an opening's frame to planes, and puts their samples in the order of pixels.
fn opened_to_planes(alloc: Global, opening: &Opening<'_>) -> Result<Opened<u16>, AllocError> {
    let mut lines = Lines::new(alloc, opening.form().width)?;
    let regions = Regions::new(alloc, opening.presets())?;
    let mut planes = vec![in alloc; 0u16; opening.sample_count()]?;
    let used = opening.decode_arranged(Arrangement::Planes, &mut lines, &regions, &mut planes);
    let count = usize::from(opening.form().kind.components());
    Ok((used, turned(alloc, &planes, count)?))
}

/// Checks what an opening's frame is decoded to in planes.
fn check_opened_to_planes(
    rt: &impl Abort,
    alloc: Global,
    name: &str,
    opening: &Opening<'_>,
    want: Answer<'_>,
) -> Result<(), AllocError> {
    let (used, samples) = opened_to_planes(alloc, opening)?;
    check_samples_of(rt, name, opening, used, &samples, want);
    Ok(())
}

/// Decodes an opening's frame to samples of 8 bits.
fn opened_to_bytes(alloc: Global, opening: &Opening<'_>) -> Result<Opened<u8>, AllocError>
    requires { opening.now.parameters.maxval ≤ 255 }
{
    let mut lines = Lines::new(alloc, opening.form().width)?;
    let regions = Regions::new(alloc, opening.presets())?;
    let mut samples = vec![in alloc; 0u8; opening.sample_count()]?;
    let used = opening.decode(&mut lines, &regions, &mut samples);
    Ok((used, samples))
}

/// Checks what an opening's frame is decoded to in samples of 8 bits, if these hold its samples.
fn check_opened_to_bytes(
    rt: &impl Abort,
    alloc: Global,
    name: &str,
    opening: &Opening<'_>,
    want: Answer<'_>,
) -> Result<(), AllocError> {
    if opening.presets().maxval() > 255 {
        return Ok(());
    }
    let (used, samples) = opened_to_bytes(alloc, opening)?;
    check_samples_of(rt, name, opening, used, &widened(alloc, &samples)?, want);
    Ok(())
}

fn widened(alloc: Global, bytes: &[u8]) -> Result<Vec<u16>, AllocError> {
    bytes.iter().map(|byte| u16::from(*byte)).collect(alloc)
}

/// Checks what bytes are decoded to.
fn check_decoded(rt: &impl Abort, alloc: Global, name: &str, bytes: &[u8], want: Answer<'_>) {
    check_answer(rt, name, &decode_frame(alloc, bytes), want);
}

/// Checks that bytes aren't decoded, with this fault.
fn check_fault(rt: &impl Abort, alloc: Global, name: &str, bytes: &[u8], want: StreamFault) {
    check_decoded(rt, alloc, name, bytes, Err(want));
}

/// Checks that the codestream of a frame of these parts is decoded to it, also with one more byte after it.
fn check_codestream(
    rt: &impl Abort,
    alloc: Global,
    name: &str,
    parts: &Parts<'_>,
    bytes: &[u8],
) -> Result<(), AllocError> {
    check_decoded(rt, alloc, name, bytes, Ok((*parts, bytes.len())));
    check_opened(rt, alloc, name, bytes, Ok((*parts, bytes.len())))?;
    let mut longer = bytes.to_vec(alloc)?;
    longer.push(0x41)?;
    check_decoded(rt, alloc, name, &longer, Ok((*parts, bytes.len())));
    Ok(())
}

/// Checks that a plane is decoded from its scan, if its maxval is 255.
fn check_plane(rt: &impl Abort, alloc: Global, plane: &Plane) -> Result<(), AllocError> {
    let (name, maxval, width, samples, scan) = *plane;
    if maxval != 255 {
        return Ok(());
    }
    let height = height_of(width, samples);
    let bytes = around_scan(alloc, width, height, &[], scan)?;
    let parts = (Kind::Gray, width, height, maxval, samples);
    check_codestream(rt, alloc, name, &parts, &bytes)
}

#[test]
fn planes_are_decoded_from_their_scans_with_ample_memory(
    rt: HostRuntime,
) -> Result<(), AllocError> {
    for plane in PLANES {
        check_plane(&rt, rt.alloc(), plane)?;
    }
    Ok(())
}

#[test]
fn codestreams_are_decoded_to_their_frames_with_ample_memory(
    rt: HostRuntime,
) -> Result<(), AllocError> {
    for (parts, bytes, _) in CODESTREAMS {
        check_codestream(&rt, rt.alloc(), "whole", parts, bytes)?;
    }
    Ok(())
}

/// Checks that decoding fails with NoMemory, or returns what it does with ample memory.
fn check_or_refused(rt: &impl Abort, alloc: Global, parts: &Parts<'_>, bytes: &[u8]) {
    let decoded = decode_frame(alloc, bytes);
    let want = match decoded {
        Err(StreamFault::NoMemory) => Err(StreamFault::NoMemory),
        _ => Ok((*parts, bytes.len())),
    };
    check_answer(rt, "memory", &decoded, want);
}

#[test]
fn codestreams_are_decoded_or_memory_is_refused(rt: HostRuntime) {
    for (parts, bytes, _) in CODESTREAMS {
        check_or_refused(&rt, rt.alloc(), parts, bytes);
    }
}

/// Checks that a codestream of a gray line with this segment before its scan is decoded to these samples.
fn check_tuned(
    rt: &impl Abort,
    alloc: Global,
    lse: &[u8],
    scan: &[u8],
    width: u16,
    samples: &[u16],
) -> Result<(), AllocError> {
    let bytes = around_scan(alloc, width, 1, lse, scan)?;
    let parts = (Kind::Gray, width, 1, 255, samples);
    check_codestream(rt, alloc, "tuned", &parts, &bytes)
}

/// The default parameters except for RESET, which is 3.
const EARLY_RESET: [u8; 15] = [
    0xff, 0xf8, 0x00, 0x0d, 0x01, 0x00, 0xff, 0x00, 0x03, 0x00, 0x07, 0x00, 0x15, 0x00, 0x03,
];

#[test]
fn parameters_are_read_with_ample_memory(rt: HostRuntime) -> Result<(), AllocError> {
    for (_, lse) in TUNINGS {
        check_tuned(&rt, rt.alloc(), lse, &[0x80], 1, &[0])?;
    }
    let scan = [0x2c, 0xa4, 0x48];
    let samples = [3, 3, 3, 3, 4, 6, 6];
    check_tuned(&rt, rt.alloc(), &EARLY_RESET, &scan, 7, &samples)
}

/// A change of a codestream: the codestream's place in the table, the place of the first byte to remove, the number of
/// bytes to remove, and the bytes to insert there.
type Change = (usize, usize, usize, &'static [u8]);

/// Makes the changed codestream.
fn changed(alloc: Global, change: &Change) -> Result<Vec<u8>, AllocError> {
    let (codestream, place, gone, others) = *change;
    let bytes: &[u8] = match CODESTREAMS.get(codestream) {
        Some((_, bytes, _)) => bytes,
        None => &[],
    };
    let mut made = bytes.get(..place).unwrap_or(bytes).to_vec(alloc)?;
    made.extend_from_slice(others)?;
    made.extend_from_slice(bytes.get(place.saturating_add(gone)..).unwrap_or(&[]))?;
    Ok(made)
}

/// Checks what the changed codestream is decoded to.
fn check_changed(
    rt: &impl Abort,
    alloc: Global,
    change: &Change,
    want: Answer<'_>,
) -> Result<(), AllocError> {
    let bytes = changed(alloc, change)?;
    check_decoded(rt, alloc, "changed", &bytes, want);
    Ok(())
}

/// A changed codestream of a gray frame of one pixel, its MAXVAL, its sample, and the number of bytes that are read.
const LONE: &[(Change, u16, u16, usize)] = &[
    // A comment.
    ((1, 15, 0, &[0xff, 0xfe, 0x00, 0x03, 0x41]), 255, 0, 33),
    ((1, 26, 0, &[0xff, 0xfe, 0x00, 0x03, 0x41]), 255, 0, 33),
    // Fill bytes.
    ((1, 2, 0, &[0xff, 0xff]), 255, 0, 30),
    ((1, 26, 0, &[0xff]), 255, 0, 29),
    // Tq, which is ignored; another ID.
    ((1, 14, 1, &[0x05]), 255, 0, 28),
    (
        (
            1,
            12,
            9,
            &[0x09, 0x11, 0x00, 0xff, 0xda, 0x00, 0x08, 0x01, 0x09],
        ),
        255,
        0,
        28,
    ),
    // Parameters that are all 0, for the defaults; only MAXVAL 0; all 0 before other parameters, and after them.
    (
        (
            1,
            2,
            0,
            &[0xff, 0xf8, 0x00, 0x0d, 0x01, 0, 0, 0, 0, 0, 0, 0, 0, 0, 0],
        ),
        255,
        0,
        43,
    ),
    ((2, 21, 1, &[0x00]), 3, 3, 43),
    (
        (
            2,
            15,
            0,
            &[0xff, 0xf8, 0x00, 0x0d, 0x01, 0, 0, 0, 0, 0, 0, 0, 0, 0, 0],
        ),
        1,
        1,
        58,
    ),
    (
        (
            2,
            30,
            0,
            &[0xff, 0xf8, 0x00, 0x0d, 0x01, 0, 0, 0, 0, 0, 0, 0, 0, 0, 0],
        ),
        3,
        3,
        58,
    ),
    // Up to 15 bits after those of the plane; a stuffed bit isn't counted.
    ((1, 26, 0, &[0x00]), 255, 0, 29),
    ((1, 25, 1, &[0x05, 0xff, 0x7f]), 255, 9, 30),
    ((1, 25, 1, &[0x05]), 255, 9, 28),
];

#[test]
fn frames_are_decoded_from_codestreams_of_others_with_ample_memory(
    rt: HostRuntime,
) -> Result<(), AllocError> {
    for (change, maxval, sample, used) in LONE {
        let samples = [*sample];
        let parts: Parts<'_> = (Kind::Gray, 1, 1, *maxval, &samples);
        check_changed(&rt, rt.alloc(), change, Ok((parts, *used)))?;
    }
    Ok(())
}

/// A COM and an APPn segment follow SOI.
#[test]
fn segments_of_others_are_passed_over_with_ample_memory(rt: HostRuntime) -> Result<(), AllocError> {
    let (parts, _, _) = CODESTREAMS[0];
    let others = &[0xff, 0xfe, 0x00, 0x03, 0x41, 0xff, 0xe8, 0x00, 0x02];
    check_changed(&rt, rt.alloc(), &(0, 2, 0, others), Ok((parts, 66)))
}

/// Codestreams that a change in their headers, or after the first of these, makes invalid; and their faults.
const FAULTY: &[(Change, StreamFault)] = &[
    ((1, 0, 1, &[0x00]), StreamFault::NotSoi),
    ((1, 2, 1, &[0x00]), StreamFault::BadSegment),
    ((1, 4, 1, &[0xff]), StreamFault::Truncated),
    ((1, 7, 4, &[0xff, 0xff, 0xff, 0xff]), StreamFault::TooLarge),
    (
        (1, 3, 1, &[0xc0]),
        StreamFault::Unsupported(What::Marker(0xc0)),
    ),
    ((1, 3, 1, &[0xf8]), StreamFault::Unsupported(What::LseId(8))),
    (
        (1, 8, 1, &[0x00]),
        StreamFault::Unsupported(What::HeightZero),
    ),
    (
        (1, 11, 1, &[0x02]),
        StreamFault::Unsupported(What::Components(2)),
    ),
    (
        (1, 13, 1, &[0x21]),
        StreamFault::Unsupported(What::Sampling),
    ),
    (
        (1, 19, 1, &[0x02]),
        StreamFault::Unsupported(What::Interleave),
    ),
    (
        (1, 20, 1, &[0x02]),
        StreamFault::Unsupported(What::ScanOrder),
    ),
    ((1, 21, 1, &[0x01]), StreamFault::Unsupported(What::Mapping)),
    ((1, 22, 1, &[0x01]), StreamFault::Unsupported(What::Near)),
    (
        (1, 24, 1, &[0x01]),
        StreamFault::Unsupported(What::PointTransform),
    ),
    (
        (
            1,
            2,
            0,
            &[
                0xff, 0xf8, 0x00, 0x0d, 0x01, 0x01, 0, 0, 0, 0, 0, 0, 0, 0, 0,
            ],
        ),
        StreamFault::BadPresets(PresetFault::MaxvalRange),
    ),
    (
        (1, 27, 1, &[0xc0]),
        StreamFault::Unsupported(What::Marker(0xc0)),
    ),
    ((1, 27, 1, &[0xf8]), StreamFault::Unsupported(What::LseLate)),
    ((1, 27, 1, &[0xda]), StreamFault::BadSegment),
    ((4, 31, 1, &[0x00]), StreamFault::BadCode(0)),
    ((4, 42, 1, &[0x00]), StreamFault::BadCode(1)),
    ((4, 53, 1, &[0x00]), StreamFault::BadCode(2)),
    ((4, 32, 0, &[0x00, 0x00]), StreamFault::LeftoverBits(0)),
    ((4, 43, 0, &[0x00, 0x00]), StreamFault::LeftoverBits(1)),
    ((4, 54, 0, &[0x00, 0x00]), StreamFault::LeftoverBits(2)),
    (
        (4, 37, 1, &[0x03]),
        StreamFault::Unsupported(What::ScanOrder),
    ),
    ((4, 33, 1, &[0xd9]), StreamFault::BadSegment),
    ((4, 53, 3, &[]), StreamFault::Truncated),
];

#[test]
fn changed_codestreams_have_these_faults_with_ample_memory(
    rt: HostRuntime,
) -> Result<(), AllocError> {
    for (change, fault) in FAULTY {
        check_changed(&rt, rt.alloc(), change, Err(*fault))?;
    }
    Ok(())
}

/// What is wrong, a width and a height, the data and what follows it, and the fault.
const MALFORMED_SCANS: &[(&str, u16, u16, &[u8], StreamFault)] = &[
    (
        "an escape word of a small value",
        1,
        1,
        &[0x00, 0x00, 0x01, 0x00, 0xff, 0xd9],
        StreamFault::BadCode(0),
    ),
    (
        "an escape word of a small value at the end of the input",
        1,
        1,
        &[0x00, 0x00, 0x01, 0x00],
        StreamFault::BadCode(0),
    ),
    (
        "a run past the line",
        5,
        1,
        &[0xf4, 0xff, 0xd9],
        StreamFault::BadCode(0),
    ),
    (
        "a run that is interrupted by its own value",
        4,
        2,
        &[0xe0, 0xba, 0x14, 0xff, 0xd9],
        StreamFault::BadCode(0),
    ),
    (
        "no word before a marker",
        1,
        1,
        &[0x00, 0xff, 0xd9],
        StreamFault::BadCode(0),
    ),
    (
        "no word before the end of the input",
        1,
        1,
        &[0x00],
        StreamFault::Truncated,
    ),
    (
        "no data before a marker",
        1,
        1,
        &[0xff, 0xd9],
        StreamFault::BadCode(0),
    ),
    ("no data", 1, 1, &[], StreamFault::Truncated),
    (
        "23 further bits",
        1,
        1,
        &[0x80, 0x00, 0x00, 0xff, 0xd9],
        StreamFault::LeftoverBits(0),
    ),
    (
        "16 further bits",
        1,
        1,
        &[0x05, 0x00, 0x00, 0xff, 0xd9],
        StreamFault::LeftoverBits(0),
    ),
    (
        "further bits at the end of the input",
        1,
        1,
        &[0x80, 0x00, 0x00],
        StreamFault::LeftoverBits(0),
    ),
    (
        "no marker after the data",
        1,
        1,
        &[0x80, 0xff],
        StreamFault::Truncated,
    ),
];

/// Checks the fault of a scan of this data, with what follows it.
fn check_scan(
    rt: &impl Abort,
    alloc: Global,
    name: &str,
    head: &[u8],
    rest: &[u8],
    fault: StreamFault,
) -> Result<(), AllocError> {
    let mut bytes = head.to_vec(alloc)?;
    bytes.extend_from_slice(rest)?;
    check_fault(rt, alloc, name, &bytes, fault);
    Ok(())
}

#[test]
fn malformed_scans_have_these_faults_with_ample_memory(rt: HostRuntime) -> Result<(), AllocError> {
    for (name, width, height, rest, fault) in MALFORMED_SCANS {
        let head = head(*width, *height);
        check_scan(&rt, rt.alloc(), name, &head, rest, *fault)?;
    }
    Ok(())
}

/// Checks that each proper front of a codestream is truncated.
fn check_fronts(rt: &impl Abort, alloc: Global, bytes: &[u8]) {
    for len in 0..bytes.len() {
        check_fault(rt, alloc, "front", &bytes[..len], StreamFault::Truncated);
    }
}

#[test]
fn fronts_of_codestreams_are_truncated_with_ample_memory(rt: HostRuntime) {
    for (_, bytes, _) in CODESTREAMS {
        check_fronts(&rt, rt.alloc(), bytes);
    }
}

// ---- round trips

/// Checks that a frame is decoded from its codestream by these parameters, each 0 for its default.
fn check_round_trip(
    rt: &impl Abort,
    alloc: Global,
    name: &str,
    frame: &Frame,
    chosen: [u16; 4],
) -> Result<(), Fail> {
    let bytes = encode_tuned(alloc, frame, chosen)?;
    let want = Ok((parts_of(frame), bytes.len()));
    check_decoded(rt, alloc, name, &bytes, want);
    Ok(())
}

/// Checks that a picture of this kind, coded by these parameters, comes back.
fn check_picture(
    rt: &impl Abort,
    alloc: Global,
    chance: &mut Chance,
    shape: Shape,
    picture: Picture,
    chosen: [u16; 4],
) -> Result<(), Fail> {
    let frame = drawn_frame(rt, alloc, chance, shape, picture)?;
    check_round_trip(rt, alloc, "a picture", &frame, chosen)
}

/// Checks that gray samples of maxval 255 come back.
fn check_samples(
    rt: &impl Abort,
    alloc: Global,
    width: u16,
    height: u16,
    samples: &[u16],
) -> Result<(), Fail> {
    let frame = frame_of(rt, alloc, Kind::Gray, width, height, 255, samples)?;
    check_round_trip(rt, alloc, "samples", &frame, [0; 4])
}

/// MAXVAL and a choice of T1, T2, T3 and RESET, each 0 for its default.
const CHOICES: &[(u16, [u16; 4])] = &[
    (1, [0, 0, 0, 0]),
    (2, [0, 0, 0, 3]),
    (6, [1, 1, 6, 0]),
    (7, [4, 4, 7, 3]),
    (100, [0, 0, 0, 0]),
    (254, [254, 254, 254, 255]),
    (255, [0, 0, 0, 0]),
    (256, [1, 1, 1, 3]),
    (1000, [0, 0, 0, 1000]),
    (4095, [0, 0, 0, 0]),
    (65534, [0, 0, 0, 0]),
    (65535, [1, 32768, 65535, 65535]),
];

const SMALL: &[(Kind, u16, u16)] = &[
    (Kind::Gray, 1, 9),
    (Kind::Gray, 13, 1),
    (Kind::Gray, 23, 11),
    (Kind::Color, 9, 7),
];

/// Checks that small pictures of each size come back.
fn check_small(
    rt: &impl Abort,
    alloc: Global,
    chance: &mut Chance,
    maxval: u16,
    picture: Picture,
    chosen: [u16; 4],
) -> Result<(), Fail> {
    for (kind, width, height) in SMALL {
        let shape = (*kind, *width, *height, maxval);
        check_picture(rt, alloc, chance, shape, picture, chosen)?;
    }
    Ok(())
}

#[test]
fn small_pictures_come_back_with_ample_memory(rt: HostRuntime) -> Result<(), Fail> {
    let mut chance = Chance { state: 3 };
    for (maxval, chosen) in CHOICES {
        for picture in PICTURES {
            check_small(&rt, rt.alloc(), &mut chance, *maxval, *picture, *chosen)?;
        }
    }
    Ok(())
}

/// The longest lines, the longest columns, and colour.
const LARGE: &[(Shape, Picture)] = &[
    ((Kind::Color, 61, 37, 65535), Picture::Ramp),
    ((Kind::Gray, 65535, 1, 4095), Picture::Runs),
    ((Kind::Gray, 1, 65535, 255), Picture::Ramp),
    ((Kind::Gray, 1, 65535, 1), Picture::Extremes),
];

#[test]
fn large_pictures_come_back_with_ample_memory(rt: HostRuntime) -> Result<(), Fail> {
    for (shape, picture) in LARGE {
        let mut chance = Chance { state: 4 };
        check_picture(&rt, rt.alloc(), &mut chance, *shape, *picture, [0; 4])?;
    }
    Ok(())
}

/// A million samples, all but a few of them 0.
fn million_samples(alloc: Global) -> Result<Vec<u16>, AllocError> {
    let mut samples = vec![in alloc; 0u16; 1025 * 1024]?;
    for place in [1024, 5000, 5001, 524_288, 1_049_599] {
        if let Some(sample) = samples.get_mut(place) {
            *sample = 200;
        }
    }
    Ok(samples)
}

#[test]
fn a_million_samples_come_back_with_ample_memory(rt: HostRuntime) -> Result<(), Fail> {
    let samples = million_samples(rt.alloc())?;
    check_samples(&rt, rt.alloc(), 1024, 1025, &samples)
}

#[test]
fn the_longest_runs_come_back_with_ample_memory(rt: HostRuntime) -> Result<(), Fail> {
    for last in [0, 7] {
        let samples = longest_line(rt.alloc(), last)?;
        check_samples(&rt, rt.alloc(), 65535, 1, &samples)?;
    }
    Ok(())
}

mod sums;

use crate::testing::codestreams::{CODESTREAMS, PLANES, Plane, TUNINGS, around_scan, height_of};
use crate::testing::{
    Chance, PICTURES, Parts, Picture, Shape, Sum, check_bytes, check_number, check_sum,
    drawn_frame, encode_tuned, frame_of, frame_of_parts, longest_line, turned,
};
use ls_frame::{Form, Frame, Kind, PictureView, Presets, Samples};
use ls_stream::{
    ArrangedView, Arrangement, Lines, code_bound, encode_frame, encode_into, encode_picture,
    encode_side_by_side, encode_with, encode_within, picture_bound,
};
use std::alloc::{AllocError, Global};
use std::process::Abort;
use std::test::Fail;
use std::thread::Threads;
use sums::{LARGE, LONGEST_RUNS, SMALL};

/// Checks the codestream of a frame with the default parameters.
fn check_coded(
    rt: &impl Abort,
    alloc: Global,
    name: &str,
    frame: &Frame,
    want: &[u8],
) -> Result<(), AllocError> {
    check_bytes(rt, name, &encode_frame(alloc, frame)?, want);
    Ok(())
}

/// Checks that the codestream of a plane has its scan, if its maxval is 255.
fn check_plane(rt: &impl Abort, alloc: Global, plane: &Plane) -> Result<(), AllocError> {
    let (name, maxval, width, samples, scan) = *plane;
    if maxval != 255 {
        return Ok(());
    }
    let height = height_of(width, samples);
    let frame = frame_of(rt, alloc, Kind::Gray, width, height, maxval, samples)?;
    let want = around_scan(alloc, width, height, &[], scan)?;
    check_coded(rt, alloc, name, &frame, &want)
}

#[test]
fn gray_frames_have_their_planes_scans_with_ample_memory(
    rt: HostRuntime,
) -> Result<(), AllocError> {
    for plane in PLANES {
        check_plane(&rt, rt.alloc(), plane)?;
    }
    Ok(())
}

/// Checks the codestream of a frame of these parts, by default and with explicit defaults, and the bound on its length.
fn check_codestream(
    rt: &(impl Abort + Threads),
    alloc: Global,
    parts: &Parts<'_>,
    want: &[u8],
    bound: u64,
) -> Result<(), AllocError> {
    let frame = frame_of_parts(rt, alloc, parts)?;
    let presets = Presets::default_of(frame.maxval());
    check_coded(rt, alloc, "by default", &frame, want)?;
    let explicit = encode_with(alloc, &frame, &presets)?;
    check_bytes(rt, "explicit", &explicit, want);
    let beside = encode_side_by_side(rt, alloc, &frame, &presets)?;
    check_bytes(rt, "side by side", &beside, want);
    let view = frame.view();
    let view = ArrangedView::new(view.picture(), Arrangement::Pixels);
    let pictured = encode_picture(alloc, &view, &presets)?;
    let pictured = pictured.unwrap_or(Vec::new(alloc));
    check_bytes(rt, "of a picture", &pictured, want);
    let picture = picture_bound(&view, &presets);
    check_number(rt, "bound of a picture", picture, bound);
    check_number(rt, "bound", code_bound(&frame, &presets), bound);
    check_planes(rt, alloc, &frame, want)
}

/// Checks the codestream of a frame whose samples are plane by plane.
fn check_planes(
    rt: &impl Abort,
    alloc: Global,
    frame: &Frame,
    want: &[u8],
) -> Result<(), AllocError> {
    let pixels = usize::from(frame.width()) * usize::from(frame.height());
    let planes = turned(alloc, frame.samples(), pixels)?;
    let picture = PictureView::new(frame.form(), Samples::Words(&planes)).expect(rt, "a picture");
    let view = ArrangedView::new(&picture, Arrangement::Planes);
    let presets = Presets::default_of(frame.maxval());
    let pictured = encode_picture(alloc, &view, &presets)?;
    let pictured = pictured.unwrap_or(Vec::new(alloc));
    check_bytes(rt, "of planes", &pictured, want);
    Ok(())
}

#[test]
fn frames_have_these_codestreams_and_bounds_with_ample_memory(
    rt: HostRuntime,
) -> Result<(), AllocError> {
    for (parts, want, bound) in CODESTREAMS {
        check_codestream(&rt, rt.alloc(), parts, want, *bound)?;
    }
    Ok(())
}

/// Checks that a picture of twelve samples, 8 at this place and 7 elsewhere, has a codestream with maxval 8, and none
/// with maxval 7.
fn check_sample_over_maxval(
    rt: &impl Abort,
    alloc: Global,
    kind: Kind,
    width: u16,
    height: u16,
    place: usize,
) -> Result<(), AllocError> {
    let mut samples = [7u16; 12];
    if let Some(sample) = samples.get_mut(place) {
        *sample = 8;
    }
    for (maxval, codestreams, arrangement) in [
        (7, 0, Arrangement::Pixels),
        (8, 1, Arrangement::Pixels),
        (7, 0, Arrangement::Planes),
        (8, 1, Arrangement::Planes),
    ] {
        let form = Form {
            kind,
            width,
            height,
            maxval,
        };
        let made = PictureView::new(form, Samples::Words(&samples));
        let picture = made.expect(rt, "a picture");
        let presets = Presets::default_of(maxval);
        let view = ArrangedView::new(&picture, arrangement);
        let coded = encode_picture(alloc, &view, &presets)?;
        let coded = u64::from(coded.is_some());
        check_number(rt, "codestreams", coded, codestreams);
    }
    Ok(())
}

#[test]
fn pictures_with_a_sample_over_maxval_have_no_codestream_with_ample_memory(
    rt: HostRuntime,
) -> Result<(), AllocError> {
    for place in 0..12 {
        check_sample_over_maxval(&rt, rt.alloc(), Kind::Gray, 4, 3, place)?;
        check_sample_over_maxval(&rt, rt.alloc(), Kind::Color, 2, 2, place)?;
    }
    Ok(())
}

/// Once its buffer and its lines are allocated, encoding allocates nothing: this passes whichever allocation fails.
#[test]
fn codestreams_go_after_bytes_without_memory(rt: HostRuntime) {
    for (parts, want, bound) in CODESTREAMS {
        if let Ok(frame) = frame_of_parts(&rt, rt.alloc(), parts) {
            let _refused = encode_after_a_byte(&rt, rt.alloc(), &frame, want, *bound);
            let _refused = encode_into_a_slice(&rt, rt.alloc(), &frame, want, *bound);
        }
    }
}

/// Encodes after a byte 07, into a capacity of just the bound.
fn encode_after_a_byte(
    rt: &impl Abort,
    alloc: Global,
    frame: &Frame,
    want: &[u8],
    bound: u64,
) -> Result<(), AllocError> {
    let (bytes, capacity, width) = encoded_after_a_byte(rt, alloc, frame, bound)?;
    check_after_a_byte(rt, &bytes, want);
    check_number(rt, "capacity", bytes.capacity() as u64, capacity as u64);
    let frame_width = u64::from(frame.width());
    check_number(rt, "width", u64::from(width), frame_width);
    Ok(())
}

/// Returns the bytes, the capacity that they had before, and the width of the lines afterwards.
fn encoded_after_a_byte(
    rt: &impl Abort,
    alloc: Global,
    frame: &Frame,
    bound: u64,
) -> Result<(Vec<u8>, usize, u16), AllocError> {
    let presets = Presets::default_of(frame.maxval());
    let room = code_bound(frame, &presets) as usize;
    check_number(rt, "bound", room as u64, bound);
    let mut bytes = Vec::with_capacity(alloc, room + 1)?;
    let mut lines = Lines::new(alloc, frame.width())?;
    bytes.push_reserved(0x07);
    let capacity = bytes.capacity();
    let bytes = encode_within(frame, &presets, &mut lines, bytes);
    Ok((bytes, capacity, lines.width()))
}

/// Encodes into a slice of bytes 5A, one more than the bound, and checks that those after the codestream don't change.
fn encode_into_a_slice(
    rt: &impl Abort,
    alloc: Global,
    frame: &Frame,
    want: &[u8],
    bound: u64,
) -> Result<(), AllocError> {
    let (bytes, count) = encoded_into_a_slice(rt, alloc, frame, bound)?;
    let (codestream, behind) = bytes.split_at(count.min(bytes.len()));
    check_bytes(rt, "in a slice", codestream, want);
    check_number(rt, "behind it", changed_of(behind), 0);
    Ok(())
}

/// Returns the slice, and the number of its bytes that are the codestream's.
fn encoded_into_a_slice(
    rt: &impl Abort,
    alloc: Global,
    frame: &Frame,
    bound: u64,
) -> Result<(Vec<u8>, usize), AllocError> {
    let presets = Presets::default_of(frame.maxval());
    let view = frame.view();
    let view = ArrangedView::new(view.picture(), Arrangement::Pixels);
    let room = picture_bound(&view, &presets) as usize;
    check_number(rt, "bound of its picture", room as u64, bound);
    let mut bytes = vec![in alloc; 0x5Au8; room + 1]?;
    let mut lines = Lines::new(alloc, frame.width())?;
    let count = encode_into(&view, &presets, &mut lines, &mut bytes);
    Ok((bytes, count.unwrap_or(0)))
}

/// The number of these bytes that aren't 5A.
fn changed_of(bytes: &[u8]) -> u64 {
    let mut changed = 0;
    for byte in bytes {
        changed = u64::saturating_add(changed, u64::from(*byte != 0x5A));
    }
    changed
}

/// Checks that a byte 07 is before these bytes.
fn check_after_a_byte(rt: &impl Abort, got: &[u8], want: &[u8]) {
    check_bytes(rt, "before", got.get(..1).unwrap_or(&[]), &[0x07]);
    check_bytes(rt, "after", got.get(1..).unwrap_or(&[]), want);
}

/// Checks that these T1, T2, T3 and RESET give this segment before the scan of a frame, a lone zero.
fn check_tuning(
    rt: &impl Abort,
    alloc: Global,
    frame: &Frame,
    chosen: [u16; 4],
    lse: &[u8],
) -> Result<(), Fail> {
    let want = around_scan(alloc, 1, 1, lse, &[0x80])?;
    check_bytes(rt, "tuned", &encode_tuned(alloc, frame, chosen)?, &want);
    Ok(())
}

#[test]
fn parameters_are_written_where_they_are_not_the_default_with_ample_memory(
    rt: HostRuntime,
) -> Result<(), Fail> {
    let frame = frame_of(&rt, rt.alloc(), Kind::Gray, 1, 1, 255, &[0])?;
    for (chosen, lse) in TUNINGS {
        check_tuning(&rt, rt.alloc(), &frame, *chosen, lse)?;
    }
    Ok(())
}

/// The codestream of a frame, coded by the default parameters of maxval 255 except for RESET, which is 3.
fn encode_with_early_reset(alloc: Global, frame: &Frame) -> Result<Vec<u8>, Fail> {
    let presets = Presets::explicit(frame.maxval(), 3, 7, 21, 3)?;
    Ok(encode_with(alloc, frame, &presets)?)
}

#[test]
fn counters_are_halved_as_reset_says_with_ample_memory(rt: HostRuntime) -> Result<(), Fail> {
    let samples = [3, 3, 3, 3, 4, 6, 6];
    let frame = frame_of(&rt, rt.alloc(), Kind::Gray, 7, 1, 255, &samples)?;
    let bytes = encode_with_early_reset(rt.alloc(), &frame)?;
    let end = [0x2c, 0xa4, 0x48, 0xff, 0xd9];
    check_bytes(&rt, "early reset", bytes.get(40..).unwrap_or(&[]), &end);
    Ok(())
}

// ---- compared with CharLS

const SIZES: &[(u16, u16)] = &[(1, 1), (1, 9), (13, 1), (23, 11)];

/// Adds the codestream of a picture, coded by parameters of its maxval, each 0 for its default.
fn add_picture(
    rt: &impl Abort,
    alloc: Global,
    sum: &mut Sum,
    chance: &mut Chance,
    shape: Shape,
    picture: Picture,
    chosen: [u16; 4],
) -> Result<(), Fail> {
    let frame = drawn_frame(rt, alloc, chance, shape, picture)?;
    sum.add(&encode_tuned(alloc, &frame, chosen)?);
    Ok(())
}

/// Adds the codestreams of a picture in each small size.
fn add_sizes(
    rt: &impl Abort,
    alloc: Global,
    sum: &mut Sum,
    chance: &mut Chance,
    maxval: u16,
    picture: Picture,
    chosen: [u16; 4],
) -> Result<(), Fail> {
    for (width, height) in SIZES {
        let shape = (Kind::Gray, *width, *height, maxval);
        add_picture(rt, alloc, sum, chance, shape, picture, chosen)?;
    }
    Ok(())
}

/// The sum of small pictures of each kind and size by these parameters.
fn small_sum(
    rt: &impl Abort,
    alloc: Global,
    chance: &mut Chance,
    maxval: u16,
    chosen: [u16; 4],
) -> Result<Sum, Fail> {
    let mut sum = Sum::new();
    for picture in PICTURES {
        add_sizes(rt, alloc, &mut sum, chance, maxval, *picture, chosen)?;
    }
    Ok(sum)
}

/// With each set of parameters.
#[test]
fn small_pictures_are_coded_as_charls_does_with_ample_memory(rt: HostRuntime) -> Result<(), Fail> {
    let mut chance = Chance { state: 1 };
    for (maxval, chosen, bytes, fnv) in SMALL {
        let sum = small_sum(&rt, rt.alloc(), &mut chance, *maxval, *chosen)?;
        check_sum(&rt, "small pictures", sum, (*bytes, *fnv));
    }
    Ok(())
}

/// The sum of a larger picture with the default parameters.
fn large_sum(rt: &impl Abort, alloc: Global, shape: Shape, picture: Picture) -> Result<Sum, Fail> {
    let mut chance = Chance { state: 2 };
    let mut sum = Sum::new();
    add_picture(rt, alloc, &mut sum, &mut chance, shape, picture, [0; 4])?;
    Ok(sum)
}

/// Enough samples for counters to be halved many times, in three components; one column; more than a million samples.
#[test]
fn large_pictures_are_coded_as_charls_does_with_ample_memory(rt: HostRuntime) -> Result<(), Fail> {
    for (components, width, height, maxval, picture, bytes, fnv) in LARGE {
        let kind = match components {
            3 => Kind::Color,
            _ => Kind::Gray,
        };
        let shape = (kind, *width, *height, *maxval);
        let sum = large_sum(&rt, rt.alloc(), shape, *picture)?;
        check_sum(&rt, "large pictures", sum, (*bytes, *fnv));
    }
    Ok(())
}

/// The sum of a line of 65,535 samples, all of them 0 but the last.
fn longest_sum(rt: &impl Abort, alloc: Global, last: u16) -> Result<Sum, AllocError> {
    let samples = longest_line(alloc, last)?;
    let frame = frame_of(rt, alloc, Kind::Gray, 65535, 1, 255, &samples)?;
    let mut sum = Sum::new();
    sum.add(&encode_frame(alloc, &frame)?);
    Ok(sum)
}

#[test]
fn the_longest_runs_are_coded_as_charls_does_with_ample_memory(
    rt: HostRuntime,
) -> Result<(), AllocError> {
    for (last, bytes, fnv) in LONGEST_RUNS {
        let sum = longest_sum(&rt, rt.alloc(), *last)?;
        check_sum(&rt, "the longest runs", sum, (*bytes, *fnv));
    }
    Ok(())
}

use crate::frames::testing::{
    Parts, check, check_items, check_samples, form_of, frame_of, parts_of,
};
use ls_frame::{Frame, FrameFault, FrameView, Kind, PictureView, Samples};
use std::alloc::{AllocError, Global};
use std::process::Abort;

/// Parts that don't make a frame, and why not.
type Refused<'a> = (Parts<'a>, FrameFault);

const REFUSED: &[Refused<'static>] = &[
    ((Kind::Gray, 0, 1, 0, &[]), FrameFault::ZeroSize),
    ((Kind::Gray, 1, 0, 0, &[]), FrameFault::ZeroSize),
    (
        (Kind::Color, 65535, 65535, 0, &[]),
        FrameFault::TooManySamples,
    ),
    (
        (Kind::Gray, 16384, 16385, 0, &[]),
        FrameFault::TooManySamples,
    ),
    ((Kind::Gray, 16384, 16384, 0, &[]), FrameFault::WrongCount),
    ((Kind::Gray, 2, 1, 0, &[0]), FrameFault::WrongCount),
    ((Kind::Gray, 2, 1, 0, &[0, 0, 0]), FrameFault::WrongCount),
    ((Kind::Gray, 1, 1, 0, &[0]), FrameFault::ZeroMaxval),
    (
        (Kind::Gray, 2, 1, 7, &[8, 9]),
        FrameFault::SampleTooLarge(0),
    ),
    (
        (Kind::Gray, 2, 1, 7, &[7, 8]),
        FrameFault::SampleTooLarge(1),
    ),
];

/// Checks that parts don't make a frame, that the fault is the expected one, and that the samples are returned.
fn check_refused(rt: &impl Abort, alloc: Global, i: usize, refused: &Refused<'_>) {
    let ((kind, width, height, maxval, samples), want) = *refused;
    check_view_refused(rt, i, refused);
    let Ok(given) = samples.to_vec(alloc) else {
        return;
    };
    let made = Frame::new(kind, width, height, maxval, given);
    let (fault, returned) = made.expect_err(rt, "parts that make a frame");
    check(rt, "a fault", i, &fault, &want);
    check_items(rt, "the samples", i, &returned, samples);
}

/// Checks that parts make neither a view nor a picture, with the same fault, but do make a picture if the fault is a
/// sample over maxval.
fn check_view_refused(rt: &impl Abort, i: usize, refused: &Refused<'_>) {
    let (parts, want) = *refused;
    let (form, samples) = (form_of(&parts), Samples::Words(parts.4));
    let made = FrameView::new(form, samples);
    check(rt, "a view's fault", i, &made.err(), &Some(want));
    let made = PictureView::new(form, samples);
    let want = match want {
        FrameFault::SampleTooLarge(_) => None,
        fault => Some(fault),
    };
    check(rt, "a picture's fault", i, &made.err(), &want);
}

#[test]
fn the_first_fault_is_named_and_the_samples_come_back(rt: HostRuntime) {
    for (i, refused) in REFUSED.iter().enumerate() {
        check_refused(&rt, rt.alloc(), i, refused);
    }
}

const FRAMES: &[Parts<'static>] = &[
    (Kind::Gray, 1, 1, 1, &[0]),
    (Kind::Gray, 2, 1, 7, &[7, 7]),
    (Kind::Gray, 2, 3, 65535, &[0, 1, 255, 256, 65534, 65535]),
    (Kind::Color, 2, 1, 9, &[1, 2, 3, 4, 5, 6]),
];

/// Checks that a frame and its view have these parts.
fn check_parts(rt: &impl Abort, i: usize, frame: &Frame, parts: &Parts<'_>) {
    check(rt, "the parts", i, &parts_of(frame), parts);
    let form = form_of(parts);
    let samples = parts.4;
    let view = frame.view();
    check(rt, "the frame's form", i, &frame.form(), &form);
    check(rt, "the view's form", i, &view.form(), &form);
    let want = Samples::Words(samples);
    check_samples(rt, "its samples", i, view.samples(), want);
    let picture = view.picture();
    check(rt, "the picture's form", i, &picture.form(), &form);
    let want = Samples::Words(samples);
    check_samples(rt, "the picture's samples", i, picture.samples(), want);
}

#[test]
fn a_frame_has_the_parts_that_it_was_made_of(rt: HostRuntime) {
    for (i, parts) in FRAMES.iter().enumerate() {
        if let Ok(frame) = frame_of(&rt, rt.alloc(), parts) {
            check_parts(&rt, i, &frame, parts);
        }
    }
}

/// The parts of two frames, and whether the frames are equal.
type Pair<'a> = (Parts<'a>, Parts<'a>, bool);

const PAIRS: &[Pair<'static>] = &[
    (
        (Kind::Gray, 2, 1, 7, &[1, 2]),
        (Kind::Gray, 2, 1, 7, &[1, 2]),
        true,
    ),
    (
        (Kind::Color, 1, 1, 7, &[1, 2, 3]),
        (Kind::Color, 1, 1, 7, &[1, 2, 3]),
        true,
    ),
    (
        (Kind::Gray, 3, 1, 7, &[1, 2, 3]),
        (Kind::Color, 1, 1, 7, &[1, 2, 3]),
        false,
    ),
    (
        (Kind::Gray, 2, 1, 7, &[1, 2]),
        (Kind::Gray, 1, 2, 7, &[1, 2]),
        false,
    ),
    (
        (Kind::Gray, 2, 1, 7, &[1, 2]),
        (Kind::Gray, 2, 1, 8, &[1, 2]),
        false,
    ),
    (
        (Kind::Gray, 2, 1, 7, &[1, 2]),
        (Kind::Gray, 2, 1, 7, &[1, 3]),
        false,
    ),
    (
        (Kind::Gray, 2, 1, 7, &[1, 2]),
        (Kind::Gray, 2, 1, 7, &[0, 2]),
        false,
    ),
];

/// Whether the left frame equals the right one, and the right one the left.
fn are_equal(
    rt: &impl Abort,
    alloc: Global,
    left: &Parts<'_>,
    right: &Parts<'_>,
) -> Result<(bool, bool), AllocError> {
    let left = frame_of(rt, alloc, left)?;
    let right = frame_of(rt, alloc, right)?;
    Ok((left == right, right == left))
}

fn check_pair(rt: &impl Abort, alloc: Global, i: usize, (left, right, alike): &Pair<'_>) {
    if let Ok(got) = are_equal(rt, alloc, left, right) {
        check(rt, "equal both ways", i, &got, &(*alike, *alike));
    }
}

#[test]
fn frames_are_equal_if_they_are_alike_in_all(rt: HostRuntime) {
    for (i, pair) in PAIRS.iter().enumerate() {
        check_pair(&rt, rt.alloc(), i, pair);
    }
}

#[test]
fn colour_has_three_components(rt: HostRuntime) {
    check(&rt, "gray", 0, &Kind::Gray.components(), &1);
    check(&rt, "colour", 0, &Kind::Color.components(), &3);
}

use crate::testing::{ANOTHER_FORM, BROKEN_DATA};
use ls_archive::{Difference, Verdict, VerifyFault, verify, verify_bytes};
use ls_frame::{Counted, Feed, Kind, NetpbmFault};
use ls_stream::StreamFault;
use ls_testing::Pieces;
use ls_testing::films::{
    BLACK, FILM, FILM_CODESTREAMS, FIRST_CODESTREAM, TWO_CODESTREAMS, TWO_IMAGES,
};
use std::alloc::Global;
use std::process::Abort;

/// The result of a comparison, and the numbers of failed reads of the film and of the recording.
type Outcome = (Result<Verdict, VerifyFault>, u64, u64);

/// Checks the outcome of a comparison; unless memory is ample, an allocation may have failed instead.
fn check_outcome(rt: &impl Abort, name: &str, got: Outcome, want: Outcome, ample: bool) {
    let refused = !ample && got.0 == Err(VerifyFault::NoMemory);
    let want = if refused {
        (Err(VerifyFault::NoMemory), 0, 0)
    } else {
        want
    };
    assert_eq!(rt; got, want, "{name}");
}

/// Compares what two readers give.
fn outcome_of(alloc: Global, film: Pieces<'_>, recording: Pieces<'_>) -> Outcome {
    let mut film = Counted::new(film);
    let mut recording = Counted::new(recording);
    let ended = verify(alloc, &mut film, &mut recording);
    (ended, Feed::failures(&film), Feed::failures(&recording))
}

/// The name of a case, the bytes of a film and of a recording, and the result of comparing them.
type Case = (
    &'static str,
    &'static [u8],
    &'static [u8],
    Result<Verdict, VerifyFault>,
);

const CASES: &[Case] = &[
    ("no frames", b"", b"", Ok(Verdict::Same(0))),
    ("three frames", FILM, FILM_CODESTREAMS, Ok(Verdict::Same(3))),
    (
        "a recording of another form",
        BLACK,
        ANOTHER_FORM,
        Ok(Verdict::Same(1)),
    ),
    (
        "a film of another form",
        b"P5\t#black\n1 1\r255 \x00",
        FIRST_CODESTREAM,
        Ok(Verdict::Same(1)),
    ),
    (
        "another second sample",
        b"P5\n1 1\n255\n\x00P5\n1 1\n255\n\xfe",
        TWO_CODESTREAMS,
        Ok(Verdict::Differs(1, Difference::Samples)),
    ),
    (
        "another first sample",
        b"P5\n1 1\n255\n\x01P5\n1 1\n255\n\xff",
        TWO_CODESTREAMS,
        Ok(Verdict::Differs(0, Difference::Samples)),
    ),
    (
        "another maxval",
        b"P5\n1 1\n254\n\x00",
        FIRST_CODESTREAM,
        Ok(Verdict::Differs(0, Difference::Maxvals(254, 255))),
    ),
    (
        "another kind",
        b"P6\n1 1\n255\n\x00\x00\x00",
        FIRST_CODESTREAM,
        Ok(Verdict::Differs(0, Difference::Kinds(Kind::Color, Kind::Gray))),
    ),
    (
        "another size",
        b"P5\n2 1\n255\n\x00\x00",
        FIRST_CODESTREAM,
        Ok(Verdict::Differs(0, Difference::Sizes(2, 1, 1, 1))),
    ),
    (
        "a recording without the last frame",
        TWO_IMAGES,
        FIRST_CODESTREAM,
        Ok(Verdict::Missing(1)),
    ),
    (
        "a recording without frames",
        BLACK,
        b"",
        Ok(Verdict::Missing(0)),
    ),
    (
        "a film without the last frame",
        BLACK,
        TWO_CODESTREAMS,
        Ok(Verdict::Extra(1)),
    ),
    (
        "a film without frames",
        b"",
        FIRST_CODESTREAM,
        Ok(Verdict::Extra(0)),
    ),
    (
        "a film that breaks off",
        b"P5\n1 1\n255\n\x00P5\n1 1\n255\n",
        TWO_CODESTREAMS,
        Err(VerifyFault::Film(1, NetpbmFault::Truncated)),
    ),
    (
        "two that are neither: the film is named",
        b"A",
        b"A",
        Err(VerifyFault::Film(0, NetpbmFault::BadMagic)),
    ),
    (
        "another byte after the codestreams",
        BLACK,
        b"\xff\xd8\
\xff\xf7\x00\x0b\x08\x00\x01\x00\x01\x01\x01\x11\x00\
\xff\xda\x00\x08\x01\x01\x00\x00\x00\x00\x80\xff\xd9A",
        Err(VerifyFault::Recording(1, StreamFault::NotSoi)),
    ),
    (
        "data that is no plane's",
        BLACK,
        BROKEN_DATA,
        Err(VerifyFault::Recording(0, StreamFault::BadCode(0))),
    ),
    (
        "a recording that breaks off after the film has ended",
        b"",
        b"\xff",
        Err(VerifyFault::Recording(0, StreamFault::Truncated)),
    ),
];

/// Checks the comparison of what two readers give.
fn check_case(rt: &impl Abort, alloc: Global, case: &Case, ample: bool) {
    let (name, film, recording, result) = *case;
    let film = Pieces::new(film, 3, None);
    let recording = Pieces::new(recording, 2, None);
    let got = outcome_of(alloc, film, recording);
    check_outcome(rt, name, got, (result, 0, 0), ample);
}

fn check_cases(rt: &impl Abort, alloc: Global, ample: bool) {
    for case in CASES {
        check_case(rt, alloc, case, ample);
    }
}

#[test]
fn films_are_compared_with_ample_memory(rt: HostRuntime) {
    check_cases(&rt, rt.alloc(), true);
}

#[test]
fn films_are_compared_or_memory_is_refused(rt: HostRuntime) {
    check_cases(&rt, rt.alloc(), false);
}

/// Checks the comparison of a film and a recording in memory.
fn check_in_memory(rt: &impl Abort, alloc: Global, case: &Case) {
    let (name, film, recording, result) = *case;
    let got = verify_bytes(alloc, film, recording);
    check_outcome(rt, name, (got, 0, 0), (result, 0, 0), true);
}

#[test]
fn films_in_memory_are_compared_with_ample_memory(rt: HostRuntime) {
    for case in CASES {
        check_in_memory(&rt, rt.alloc(), case);
    }
}

/// The result of comparing `TWO_IMAGES` with the first `len` bytes of `TWO_CODESTREAMS`.
fn end_of_front(len: usize) -> Result<Verdict, VerifyFault> {
    match len {
        0 => Ok(Verdict::Missing(0)),
        1..=27 => Err(VerifyFault::Recording(0, StreamFault::Truncated)),
        28 => Ok(Verdict::Missing(1)),
        29..=55 => Err(VerifyFault::Recording(1, StreamFault::Truncated)),
        _ => Ok(Verdict::Same(2)),
    }
}

/// Checks the comparison of `TWO_IMAGES` with the first `len` bytes of `TWO_CODESTREAMS`.
fn check_front(rt: &impl Abort, alloc: Global, len: usize) {
    let front = TWO_CODESTREAMS.get(..len).unwrap_or(&[]);
    let got = verify_bytes(alloc, TWO_IMAGES, front);
    check_outcome(rt, "a front", (got, 0, 0), (end_of_front(len), 0, 0), true);
}

#[test]
fn recordings_that_break_off_are_told_from_short_ones_with_ample_memory(rt: HostRuntime) {
    for len in 0..=TWO_CODESTREAMS.len() {
        check_front(&rt, rt.alloc(), len);
    }
}

/// Checks that a comparison stops if the read of this number of the recording fails.
fn check_recording_read(rt: &impl Abort, alloc: Global, call: usize) {
    let film = Pieces::new(TWO_IMAGES, 4096, None);
    let recording = Pieces::new(TWO_CODESTREAMS, 1, Some(call));
    let got = outcome_of(alloc, film, recording);
    let number = if call < 28 { 0 } else { 1 };
    let want = (Err(VerifyFault::RecordingIo(number)), 0, 1);
    check_outcome(rt, "a read", got, want, true);
}

#[test]
fn a_failed_read_of_the_recording_ends_the_comparison_with_ample_memory(rt: HostRuntime) {
    for call in 0..TWO_CODESTREAMS.len() {
        check_recording_read(&rt, rt.alloc(), call);
    }
}

/// Checks that a comparison stops if the read of this number of the film fails.
fn check_film_read(rt: &impl Abort, alloc: Global, call: usize) {
    let film = Pieces::new(TWO_IMAGES, 1, Some(call));
    let recording = Pieces::new(TWO_CODESTREAMS, 4096, None);
    let got = outcome_of(alloc, film, recording);
    let number = if call < 12 { 0 } else { 1 };
    let want = (Err(VerifyFault::Film(number, NetpbmFault::Io)), 1, 0);
    check_outcome(rt, "a read", got, want, true);
}

#[test]
fn a_failed_read_of_the_film_ends_the_comparison_with_ample_memory(rt: HostRuntime) {
    for call in 0..TWO_IMAGES.len() {
        check_film_read(&rt, rt.alloc(), call);
    }
}

/// Checks which read ends a comparison if the reads of these numbers fail, of the film and of the recording.
fn check_both(rt: &impl Abort, alloc: Global, calls: (usize, usize), want: Outcome) {
    let film = Pieces::new(TWO_IMAGES, 1, Some(calls.0));
    let recording = Pieces::new(TWO_CODESTREAMS, 1, Some(calls.1));
    let got = outcome_of(alloc, film, recording);
    check_outcome(rt, "a read of each", got, want, true);
}

#[test]
fn film_and_recording_are_read_in_turn_with_ample_memory(rt: HostRuntime) {
    let first_image = (Err(VerifyFault::Film(0, NetpbmFault::Io)), 1, 0);
    check_both(&rt, rt.alloc(), (0, 0), first_image);
    let first_codestream = (Err(VerifyFault::RecordingIo(0)), 0, 1);
    check_both(&rt, rt.alloc(), (12, 27), first_codestream);
    let second_image = (Err(VerifyFault::Film(1, NetpbmFault::Io)), 1, 0);
    check_both(&rt, rt.alloc(), (12, 28), second_image);
}

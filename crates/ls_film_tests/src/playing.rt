use crate::testing::{
    ANNEX_H_IMAGE, COLOUR, Ending, Outcome, TWO_VALUES, check, check_ending, check_text, ending,
};
use ls_film::{PlayFault, play, play_bytes};
use ls_frame::{Counted, Feed, PresetFault};
use ls_stream::{StreamFault, What};
use ls_testing::films::{ANNEX_H, TWO_CODESTREAMS, TWO_IMAGES};
use ls_testing::{Memory, Mishap, Pieces, Sink};
use std::alloc::Global;
use std::process::Abort;

/// Checks the outcome of playing. If memory may be refused, it may instead have reported that, with no failed read or
/// write.
fn check_played(
    rt: &impl Abort,
    memory: Memory,
    case: &str,
    got: &Ending<PlayFault>,
    want: &Outcome<'_, PlayFault>,
) {
    if matches!(
        (memory, got.0),
        (Memory::Refusable, Err(PlayFault::NoMemory))
    ) {
        let want = (Err(PlayFault::NoMemory), got.1.written(), 0, 0);
        check_ending(rt, case, got, &want);
    } else {
        check_ending(rt, case, got, want);
    }
}

/// Plays a recording to a writer.
fn played(alloc: Global, reader: Pieces<'_>, writer: Sink) -> Ending<PlayFault> {
    match play(alloc, Counted::new(reader), Counted::new(writer)) {
        Ok((frames, reader, writer)) => ending(Ok(frames), Feed::failures(&reader), writer),
        Err((fault, reader, writer)) => ending(Err(fault), Feed::failures(&reader), writer),
    }
}

/// The name of a recording, its bytes, the result of playing it, and the images that this writes.
type Recording<'a> = (&'a str, &'a [u8], Result<u64, PlayFault>, &'a [u8]);

const RECORDINGS: &[Recording<'static>] = &[
    ("no codestream", b"", Ok(0), b""),
    ("the picture of Annex H.3", ANNEX_H, Ok(1), ANNEX_H_IMAGE),
    ("two codestreams", TWO_CODESTREAMS, Ok(2), TWO_IMAGES),
    ("two values", TWO_VALUES, Ok(1), b"P5\n1 1\n1\n\x01"),
    ("colour", COLOUR, Ok(1), b"P6\n1 1\n255\n\x00\x00\x00"),
    (
        "a codestream without its end after a whole one",
        b"\xff\xd8\
\xff\xf7\x00\x0b\x08\x00\x01\x00\x01\x01\x01\x11\x00\
\xff\xda\x00\x08\x01\x01\x00\x00\x00\x00\x80\xff\xd9\
\xff\xd8\
\xff\xf7\x00\x0b\x08\x00\x04\x00\x04\x01\x01\x11\x00\
\xff\xda\x00\x08\x01\x01\x00\x00\x00\x00\
\xc0\x00\x00\x6c\x80\x20\x8e\x01\xc0\x00\x00\x57\x40\x00\x00\x6e\xe6\x00\x00\x01\xbc\x18\x00\
\x00\x05\xd8\x00\x00\x91\x60",
        Err(PlayFault::Stream(1, StreamFault::Truncated)),
        b"P5\n1 1\n255\n\x00",
    ),
    (
        "another byte after a codestream",
        b"\xff\xd8\
\xff\xf7\x00\x0b\x08\x00\x01\x00\x01\x01\x01\x11\x00\
\xff\xda\x00\x08\x01\x01\x00\x00\x00\x00\x80\xff\xd9A",
        Err(PlayFault::Stream(1, StreamFault::NotSoi)),
        b"P5\n1 1\n255\n\x00",
    ),
];

/// Checks that a recording is shown, read in chunks of three bytes and written to a writer that takes two.
fn check_recording(rt: &impl Abort, alloc: Global, memory: Memory, recording: &Recording<'_>) {
    let (case, bytes, result, images) = *recording;
    let reader = Pieces::new(bytes, 3, None);
    let got = played(alloc, reader, Sink::new(2, Mishap::Nothing));
    check_played(rt, memory, case, &got, &(result, images, 0, 0));
}

#[test]
fn each_frame_is_shown_with_ample_memory(rt: HostRuntime) {
    for recording in RECORDINGS {
        check_recording(&rt, rt.alloc(), Memory::Ample, recording);
    }
}

#[test]
fn each_frame_is_shown_or_memory_is_refused(rt: HostRuntime) {
    for recording in RECORDINGS {
        check_recording(&rt, rt.alloc(), Memory::Refusable, recording);
    }
}

/// Checks what the call for recordings in memory returns and writes.
fn check_bytes_of(rt: &impl Abort, alloc: Global, recording: &Recording<'_>) {
    let (case, bytes, result, images) = *recording;
    let (shown, ended) = play_bytes(alloc, bytes);
    check(rt, case, &(ended, shown.as_slice()), &(result, images));
}

#[test]
fn recordings_in_memory_are_shown_with_ample_memory(rt: HostRuntime) {
    for recording in RECORDINGS {
        check_bytes_of(&rt, rt.alloc(), recording);
    }
}

/// Checks that each proper front of a codestream is refused as truncated.
fn check_fronts(rt: &impl Abort, alloc: Global, codestream: &[u8]) {
    let truncated = Err(PlayFault::Stream(0, StreamFault::Truncated));
    for len in 1..codestream.len() {
        check_bytes_of(rt, alloc, &("a front", &codestream[..len], truncated, b""));
    }
}

#[test]
fn fronts_of_codestreams_are_truncated_with_ample_memory(rt: HostRuntime) {
    for codestream in [ANNEX_H, TWO_VALUES, COLOUR] {
        check_fronts(&rt, rt.alloc(), codestream);
    }
}

/// Checks that a write that fails after `i` bytes of two images ends the playing.
fn check_failed_write(rt: &impl Abort, alloc: Global, i: usize) {
    let reader = Pieces::new(TWO_CODESTREAMS, 4096, None);
    let got = played(alloc, reader, Sink::new(1, Mishap::Fails(i)));
    let shown = TWO_IMAGES.get(..i).unwrap_or(&[]);
    let want = (Err(PlayFault::Output(i as u64)), shown, 0, 1);
    check_ending(rt, "a failed write", &got, &want);
}

#[test]
fn a_failed_write_ends_the_playing_with_ample_memory(rt: HostRuntime) {
    for i in 0..TWO_IMAGES.len() {
        check_failed_write(&rt, rt.alloc(), i);
    }
}

/// Checks that a read that fails at byte `i` of two codestreams ends the playing.
fn check_failed_read(rt: &impl Abort, alloc: Global, i: usize) {
    let reader = Pieces::new(TWO_CODESTREAMS, 1, Some(i));
    let got = played(alloc, reader, Sink::new(4096, Mishap::Nothing));
    let (frames, bytes) = if i < 28 { (0, 0) } else { (1, 12) };
    let shown = TWO_IMAGES.get(..bytes).unwrap_or(&[]);
    let want = (Err(PlayFault::Io(frames)), shown, 1, 0);
    check_ending(rt, "a failed read", &got, &want);
}

#[test]
fn a_failed_read_ends_the_playing_with_ample_memory(rt: HostRuntime) {
    for i in 0..TWO_CODESTREAMS.len() {
        check_failed_read(&rt, rt.alloc(), i);
    }
}

/// Faults, and their texts.
const TEXTS: &[(PlayFault, &str)] = &[
    (
        PlayFault::Stream(3, StreamFault::Truncated),
        "frame 3: truncated",
    ),
    (PlayFault::Stream(0, StreamFault::NotSoi), "frame 0: no SOI"),
    (
        PlayFault::Stream(3, StreamFault::BadSegment),
        "frame 3: bad segment",
    ),
    (
        PlayFault::Stream(3, StreamFault::Unsupported(What::Marker(0xc0))),
        "frame 3: unsupported: marker c0",
    ),
    (
        PlayFault::Stream(3, StreamFault::BadPresets(PresetFault::T1Range)),
        "frame 3: bad presets: T1",
    ),
    (
        PlayFault::Stream(3, StreamFault::TooLarge),
        "frame 3: too large",
    ),
    (
        PlayFault::Stream(3, StreamFault::BadCode(2)),
        "frame 3: bad code in component 2",
    ),
    (
        PlayFault::Stream(3, StreamFault::LeftoverBits(1)),
        "frame 3: leftover bits in component 1",
    ),
    (PlayFault::Io(3), "read failed"),
    (PlayFault::Output(7), "output failed after 7 bytes"),
    (PlayFault::NoMemory, "no memory"),
    (PlayFault::TooMuch, "too many frames"),
];

#[test]
fn faults_have_their_texts(rt: HostRuntime) {
    for (fault, text) in TEXTS {
        check_text(&rt, *fault, text);
    }
}

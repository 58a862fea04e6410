use crate::testing::{Outcome, check_ending, check_text, ending};
use ls_film::{Part, PartFault, PlayFault, play_part};
use ls_frame::{Counted, Feed};
use ls_stream::StreamFault;
use ls_testing::films::{TWO_CODESTREAMS, TWO_IMAGES};
use ls_testing::{Mishap, Pieces, Sink};
use std::alloc::Global;
use std::process::Abort;

/// Plays the part from the first of `frames` to the last, and checks the outcome.
fn check_part(
    rt: &impl Abort,
    alloc: Global,
    case: &str,
    frames: (u64, Option<u64>),
    reader: Pieces<'_>,
    writer: Sink,
    want: Outcome<'_, PartFault>,
) {
    let (first, last) = frames;
    if first > 9 || last.is_some_and(|last| last < first || last > 9) {
        panic!(rt; "no part");
    }
    let part = Part { first, last };
    let mut reader = Counted::new(reader);
    let mut writer = Counted::new(writer);
    let result = play_part(alloc, part, &mut reader, &mut writer);
    let got = ending(result, Feed::failures(&reader), writer);
    check_ending(rt, case, &got, &want);
}

const TOO_FEW: Result<u64, PartFault> = Err(PartFault::TooFew(2));

/// A part of two codestreams: its name, its first and last frames, the result of playing it, and which bytes of their
/// images it writes.
type Row<'a> = (
    &'a str,
    (u64, Option<u64>),
    Result<u64, PartFault>,
    (usize, usize),
);

const PARTS: &[Row<'static>] = &[
    ("all there is", (0, None), Ok(2), (0, 24)),
    ("both frames", (0, Some(1)), Ok(2), (0, 24)),
    ("the first", (0, Some(0)), Ok(1), (0, 12)),
    ("from the second on", (1, None), Ok(1), (12, 24)),
    ("the second", (1, Some(1)), Ok(1), (12, 24)),
    ("more than both", (0, Some(5)), TOO_FEW, (0, 24)),
    ("more than the second", (1, Some(2)), TOO_FEW, (12, 24)),
    ("from a third on", (2, None), TOO_FEW, (0, 0)),
    ("frames after a third", (7, Some(9)), TOO_FEW, (0, 0)),
];

/// Checks that a part is shown, read in chunks of three bytes and written to a writer that takes two.
fn check_shown(rt: &impl Abort, alloc: Global, row: &Row<'_>) {
    let (case, frames, result, (from, to)) = *row;
    let reader = Pieces::new(TWO_CODESTREAMS, 3, None);
    let writer = Sink::new(2, Mishap::Nothing);
    let shown = TWO_IMAGES.get(from..to).unwrap_or(&[]);
    let want = (result, shown, 0, 0);
    check_part(rt, alloc, case, frames, reader, writer, want);
}

#[test]
fn parts_are_shown_with_ample_memory(rt: HostRuntime) {
    for row in PARTS {
        check_shown(&rt, rt.alloc(), row);
    }
}

/// Two codestreams whose data is damaged.
const DAMAGED: &[u8] = b"\xff\xd8\
\xff\xf7\x00\x0b\x08\x00\x01\x00\x01\x01\x01\x11\x00\
\xff\xda\x00\x08\x01\x01\x00\x00\x00\x00\x00\xff\xd9\
\xff\xd8\
\xff\xf7\x00\x0b\x08\x00\x01\x00\x01\x01\x01\x11\x00\
\xff\xda\x00\x08\x01\x01\x00\x00\x00\x00\x00\xff\xd9";

fn check_damaged(rt: &impl Abort, alloc: Global, number: u64) {
    let fault = PlayFault::Stream(number, StreamFault::BadCode(0));
    let reader = Pieces::new(DAMAGED, 4096, None);
    let writer = Sink::new(4096, Mishap::Nothing);
    let want = (Err(PartFault::Play(fault)), b"".as_slice(), 0, 0);
    let frames = (number, None);
    check_part(rt, alloc, "damage", frames, reader, writer, want);
}

#[test]
fn faults_are_numbered_as_in_the_recording_with_ample_memory(rt: HostRuntime) {
    for number in 0..2 {
        check_damaged(&rt, rt.alloc(), number);
    }
}

#[test]
fn nothing_is_read_after_a_part_with_ample_memory(rt: HostRuntime) {
    // The read after the first codestream's bytes fails.
    let reader = Pieces::new(TWO_CODESTREAMS, 1, Some(28));
    let writer = Sink::new(4096, Mishap::Nothing);
    let want = (Ok(1), &TWO_IMAGES[..12], 0, 0);
    let frames = (0, Some(0));
    check_part(&rt, rt.alloc(), "the first", frames, reader, writer, want);
}

/// Checks that a read that fails at byte `i` of two codestreams ends the part that begins after the first of them.
fn check_failed_read(rt: &impl Abort, alloc: Global, i: usize) {
    let reader = Pieces::new(TWO_CODESTREAMS, 1, Some(i));
    let writer = Sink::new(4096, Mishap::Nothing);
    let want = (Err(PartFault::Play(PlayFault::Io(0))), b"".as_slice(), 1, 0);
    check_part(rt, alloc, "a failed read", (1, None), reader, writer, want);
}

#[test]
fn a_failed_read_ends_the_part_with_ample_memory(rt: HostRuntime) {
    for i in 0..TWO_CODESTREAMS.len() {
        check_failed_read(&rt, rt.alloc(), i);
    }
}

/// Checks that a write that fails after `i` bytes of the second image ends the part.
fn check_failed_write(rt: &impl Abort, alloc: Global, i: usize) {
    let reader = Pieces::new(TWO_CODESTREAMS, 4096, None);
    let writer = Sink::new(1, Mishap::Fails(i));
    let fault = PartFault::Play(PlayFault::Output(i as u64));
    let second = TWO_IMAGES.get(12..).unwrap_or(&[]);
    let want = (Err(fault), second.get(..i).unwrap_or(second), 0, 1);
    check_part(rt, alloc, "a failed write", (1, None), reader, writer, want);
}

#[test]
fn a_failed_write_ends_the_part_with_ample_memory(rt: HostRuntime) {
    for i in 0..12 {
        check_failed_write(&rt, rt.alloc(), i);
    }
}

#[test]
fn faults_of_parts_have_their_texts(rt: HostRuntime) {
    check_text(&rt, PartFault::TooFew(7), "only 7 frames");
    check_text(
        &rt,
        PartFault::Play(PlayFault::Stream(3, StreamFault::Truncated)),
        "frame 3: truncated",
    );
}

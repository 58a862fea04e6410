use crate::frames::testing::{
    Mishap, Parts, Sink, check, check_items, check_so, frame_of, long_samples,
};
use ls_frame::{Counted, Frame, Kind, Outlet, WriteFault, first_frame, write_frame};
use std::alloc::Global;
use std::process::Abort;

/// The parts of a frame, and its canonical text.
type Text<'a> = (Parts<'a>, &'a [u8]);

const SHORT: Text<'static> = ((Kind::Gray, 1, 1, 255, &[255]), b"P5\n1 1\n255\n\xFF");

const TEXTS: &[Text<'static>] = &[
    SHORT,
    ((Kind::Gray, 1, 2, 1, &[1, 0]), b"P5\n1 2\n1\n\x01\x00"),
    (
        (Kind::Color, 1, 1, 10, &[1, 2, 10]),
        b"P6\n1 1\n10\n\x01\x02\x0A",
    ),
    ((Kind::Gray, 1, 1, 256, &[256]), b"P5\n1 1\n256\n\x01\x00"),
    ((Kind::Gray, 1, 1, 256, &[255]), b"P5\n1 1\n256\n\x00\xFF"),
    (
        (Kind::Gray, 1, 1, 65535, &[4660]),
        b"P5\n1 1\n65535\n\x12\x34",
    ),
];

/// Checks the result of writing a frame, the number of failures, and the bytes written.
fn check_written(
    rt: &impl Abort,
    frame: &Frame,
    sink: Sink<'_>,
    want: (Result<(), WriteFault>, u64),
    bytes: &[u8],
) {
    let mut writer = Counted::new(sink);
    let got = write_frame(&mut writer, frame);
    let got = (got, Outlet::failures(&writer));
    check(rt, "a text, and failures", bytes.len(), &got, &want);
    let sink = writer.into_inner();
    check_items(rt, "its bytes", bytes.len(), sink.written(), bytes);
}

/// Checks that a frame is written as its text.
fn check_text(rt: &impl Abort, alloc: Global, (parts, text): &Text<'_>) {
    if let Ok(frame) = frame_of(rt, alloc, parts) {
        let sink = Sink::new(16, &[], Mishap::Fails);
        check_written(rt, &frame, sink, (Ok(()), 0), text);
    }
}

#[test]
fn a_frame_has_one_text(rt: HostRuntime) {
    for text in TEXTS {
        check_text(&rt, rt.alloc(), text);
    }
}

/// Checks writing a frame to a writer that accepts one byte per call, and whose call after the bytes `before` goes
/// wrong.
fn check_fault(rt: &impl Abort, frame: &Frame, before: &[u8], mishap: Mishap) {
    let call = before.len();
    let failing = [call];
    let want = Err(WriteFault { written: call });
    check_written(rt, frame, Sink::new(1, &failing, mishap), (want, 1), before);
}

fn check_faults(rt: &impl Abort, frame: &Frame, text: &[u8]) {
    for i in 0..text.len() {
        check_fault(rt, frame, &text[..i], Mishap::Fails);
        check_fault(rt, frame, &text[..i], Mishap::TakesNothing);
    }
}

#[test]
fn a_fault_says_how_much_of_the_text_went_out(rt: HostRuntime) {
    let (parts, text) = &SHORT;
    if let Ok(frame) = frame_of(&rt, rt.alloc(), parts) {
        check_faults(&rt, &frame, text);
    }
}

/// Writes a frame to memory and returns its text.
fn text_of(rt: &impl Abort, alloc: Global, frame: &Frame) -> Vec<u8> {
    let mut writer = Counted::new(Vec::new(alloc));
    check(rt, "a text", 0, &write_frame(&mut writer, frame), &Ok(()));
    writer.into_inner()
}

/// Reads the image at the front of a text. Returns its length in bytes, and whether it is this frame.
fn read_back(alloc: Global, text: &[u8], frame: &Frame) -> Option<(usize, bool)> {
    match first_frame(alloc, text) {
        Ok(Some((read, taken))) => Some((taken, read == *frame)),
        _ => None,
    }
}

/// Checks that a frame of 100 by 90 samples is written as a text of `size` bytes, and read back.
fn check_long_frame(rt: &impl Abort, alloc: Global, maxval: u16, size: usize) {
    let samples = long_samples::<9000>(maxval);
    let frame = frame_of(rt, alloc, &(Kind::Gray, 100, 90, maxval, &samples));
    let frame = frame.expect(rt, "memory for a frame");
    let text = text_of(rt, alloc, &frame);
    let got = (text.len(), read_back(alloc, &text, &frame));
    check(
        rt,
        "a text, and what is read of it",
        size,
        &got,
        &(size, Some((size, true))),
    );
}

#[test]
fn a_frame_of_several_chunks_is_read_back_with_ample_memory(rt: HostRuntime) {
    check_long_frame(&rt, rt.alloc(), 255, 9014);
    check_long_frame(&rt, rt.alloc(), 65535, 18016);
}

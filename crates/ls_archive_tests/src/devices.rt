//! Salvage over readers and writers whose calls fail, and with no text.
use crate::testing::{
    BLACK, BLACK_IMAGE, Outcome, WHITE, WHITE_IMAGE, check, check_text, ended, joined,
};
use ls_film::engine::Text;
use ls_frame::{Buffered, Counted, Frame};
use ls_salvage::{Gap, ImageText, NoText, SalvageFault, Salvaged, salvage};
use ls_stream::StreamFault;
use ls_testing::{Mishap, Pieces, Sink};
use std::alloc::Global;
use std::process::Abort;

/// How a salvage ended, the writer that it wrote to, and the gaps that it reported.
type Ending = (Result<Salvaged, SalvageFault>, Sink, Vec<Gap>);

/// Salvages a recording to a writer.
fn salvaged<T: Text<Frame>>(
    rt: &impl Abort,
    alloc: Global,
    reader: Pieces<'_>,
    writer: Sink,
) -> Ending {
    let mut reader = Buffered::new(alloc, Counted::new(reader)).expect(rt, "memory");
    let mut writer = Counted::new(writer);
    let mut gaps = Vec::new(alloc);
    let salvaged = salvage::<T, Vec<Gap>, Counted<Pieces<'_>>, Counted<Sink>>(
        alloc,
        &mut reader,
        &mut writer,
        &mut gaps,
    );
    (salvaged, writer.into_inner(), gaps)
}

/// Checks how a salvage ended.
fn check_ending(rt: &impl Abort, name: &str, ending: &Ending, want: Outcome<'_>) {
    let (salvaged, sink, gaps) = ending;
    check(
        rt,
        name,
        &(*salvaged, sink.written(), gaps.as_slice()),
        &want,
    );
}

const JUNK: Gap = Gap {
    frame: 1,
    place: 28,
    count: 4,
    fault: StreamFault::NotSoi,
};

/// Checks that a failed read, at this byte of two codestreams with junk between them, ends a salvage.
fn check_failed_read(rt: &impl Abort, alloc: Global, recording: &[u8], place: usize) {
    let reader = Pieces::new(recording, 1, Some(place));
    let writer = Sink::new(4096, Mishap::Nothing);
    let ending = salvaged::<ImageText>(rt, alloc, reader, writer);
    let frames = u64::from(place >= 28);
    let shown = if place < 28 { b"" } else { BLACK_IMAGE };
    let gaps: &[Gap] = if place < 36 { &[] } else { &[JUNK] };
    let want = (Err(SalvageFault::Io(frames)), shown, gaps);
    check_ending(rt, "a failed read", &ending, want);
}

#[test]
fn a_failed_read_ends_a_salvage_with_ample_memory(rt: HostRuntime) {
    let recording = joined(&rt, rt.alloc(), &[BLACK, b"junk", WHITE]);
    for place in 0..recording.len() {
        check_failed_read(&rt, rt.alloc(), &recording, place);
    }
}

/// Checks that a write that fails after `place` bytes of the images ends a salvage.
fn check_failed_write(
    rt: &impl Abort,
    alloc: Global,
    recording: &[u8],
    images: &[u8],
    place: usize,
) {
    let reader = Pieces::new(recording, 4096, None);
    let writer = Sink::new(1, Mishap::Fails(place));
    let ending = salvaged::<ImageText>(rt, alloc, reader, writer);
    let shown = images.get(..place).unwrap_or(images);
    let gaps: &[Gap] = if place < 12 { &[] } else { &[JUNK] };
    let want = (Err(SalvageFault::Output(place as u64)), shown, gaps);
    check_ending(rt, "a failed write", &ending, want);
}

#[test]
fn a_failed_write_ends_a_salvage_with_ample_memory(rt: HostRuntime) {
    let recording = joined(&rt, rt.alloc(), &[BLACK, b"junk", WHITE]);
    let images = joined(&rt, rt.alloc(), &[BLACK_IMAGE, WHITE_IMAGE]);
    for place in 0..images.len() {
        check_failed_write(&rt, rt.alloc(), &recording, &images, place);
    }
}

/// Checks that a salvage without text, off chunks of at most `most` bytes, reports the junk and writes nothing.
fn check_without_text(rt: &impl Abort, alloc: Global, recording: &[u8], most: usize) {
    let reader = Pieces::new(recording, most, None);
    let writer = Sink::new(1, Mishap::Fails(0));
    let ending = salvaged::<NoText>(rt, alloc, reader, writer);
    check_ending(rt, "no text", &ending, (ended(2, 1), b"", &[JUNK]));
}

#[test]
fn damage_is_told_of_without_text_with_ample_memory(rt: HostRuntime) {
    let recording = joined(&rt, rt.alloc(), &[BLACK, b"junk", WHITE]);
    for most in [1, 3, 4096] {
        check_without_text(&rt, rt.alloc(), &recording, most);
    }
}

/// Faults, and their texts.
const TEXTS: &[(SalvageFault, &str)] = &[
    (SalvageFault::Io(3), "read failed"),
    (SalvageFault::Output(7), "output failed after 7 bytes"),
    (SalvageFault::NoMemory, "no memory"),
    (SalvageFault::NoEnd, "no end within 4294967295 bytes"),
    (SalvageFault::TooMuch, "too many frames"),
];

#[test]
fn faults_have_their_texts(rt: HostRuntime) {
    for (fault, text) in TEXTS {
        check_text(&rt, *fault, text);
    }
}

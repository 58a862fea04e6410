use crate::testing::{ANOTHER_FORM, BROKEN_DATA, MIXED};
use ls_archive::{IndexFault, index_bytes, write_index};
use ls_frame::{Counted, Feed, Outlet};
use ls_stream::StreamFault;
use ls_testing::films::{ANNEX_H, FIRST_CODESTREAM, TWO_CODESTREAMS};
use ls_testing::{Mishap, Pieces, Sink};
use std::alloc::Global;
use std::process::Abort;

/// The result of writing an index, what was written, and the numbers of failed reads and of failed writes.
type Outcome<'a> = (Result<u64, IndexFault>, &'a [u8], u64, u64);

/// Checks the outcome of writing an index; unless memory is ample, an allocation may have failed instead, after a front
/// of the lines.
fn check_outcome(rt: &impl Abort, name: &str, got: Outcome<'_>, want: Outcome<'_>, ample: bool) {
    let refused = !ample && got.0 == Err(IndexFault::NoMemory) && want.1.starts_with(got.1);
    let want = if refused {
        (Err(IndexFault::NoMemory), got.1, 0, 0)
    } else {
        want
    };
    assert_eq!(rt; got, want, "{name}");
}

/// An index that was written: the result, the writer, and the numbers of failed reads and of failed writes.
#[derive(Drop)]
struct Made {
    answer: Result<u64, IndexFault>,
    index: Sink,
    reads: u64,
    writes: u64,
}

impl Made {
    fn outcome(&self) -> Outcome<'_> {
        (self.answer, self.index.written(), self.reads, self.writes)
    }
}

/// Writes the index of what a reader gives.
fn make(alloc: Global, reader: Pieces<'_>, writer: Sink, sums: bool) -> Made {
    let mut reader = Counted::new(reader);
    let mut writer = Counted::new(writer);
    let answer = write_index(alloc, &mut reader, &mut writer, sums);
    Made {
        answer,
        reads: Feed::failures(&reader),
        writes: Outlet::failures(&writer),
        index: writer.into_inner(),
    }
}

/// The name of a recording, its bytes, the result of writing its index, and the index with sums and without. The sums
/// are those of `sha256sum`.
type Case = (
    &'static str,
    &'static [u8],
    Result<u64, IndexFault>,
    &'static [u8],
    &'static [u8],
);

const RECORDINGS: &[Case] = &[
    ("no codestream", b"", Ok(0), b"", b""),
    (
        "one codestream",
        FIRST_CODESTREAM,
        Ok(1),
        b"0 0 28 gray 1 1 255 8 3 7 21 64 14c5eaab40e8fcaf165a37d64d027b1357eb15846597672e4e87ef4c04547aa1\n",
        b"0 0 28 gray 1 1 255 8 3 7 21 64\n",
    ),
    (
        "the picture of Annex H.3",
        ANNEX_H,
        Ok(1),
        b"0 0 57 gray 4 4 255 8 3 7 21 64 06ff7ac46b7ec27f62f4bf3271ed59f7c900bf60e4b7b0a67a5cf586d7adb829\n",
        b"0 0 57 gray 4 4 255 8 3 7 21 64\n",
    ),
    (
        "three codestreams of other kinds and maxvals",
        MIXED,
        Ok(3),
        b"0 0 56 color 1 1 255 8 3 7 21 64 98909a4bb8eca74ae69b90ebbfd16f283f425332f82ea59226adc5154379dc4b\n\
1 56 43 gray 1 1 1 2 1 1 1 64 c46740c0d93901da94f104f3cbcc31f60c5a1eebcbe9f2c8e467bc451d9e4fa9\n\
2 99 29 gray 1 1 65535 16 18 67 276 64 94b1fb3f67dd7a9a0b5561c90b2c840450fd0e7f167d87c4e1eb3207fb5c2ab8\n",
        b"0 0 56 color 1 1 255 8 3 7 21 64\n\
1 56 43 gray 1 1 1 2 1 1 1 64\n\
2 99 29 gray 1 1 65535 16 18 67 276 64\n",
    ),
    (
        "headers of another form",
        ANOTHER_FORM,
        Ok(1),
        b"0 0 48 gray 1 1 255 8 3 7 21 32 317275ba4089eb07fcc2512d7e4483b4069ad3e3958961b2fcb0032aa8196325\n",
        b"0 0 48 gray 1 1 255 8 3 7 21 32\n",
    ),
    (
        "data that isn't decoded",
        BROKEN_DATA,
        Ok(1),
        b"0 0 28 gray 1 1 255 8 3 7 21 64 695e0c278247cd81705e644300fecae27dacbefc5365980e6ff81d4c037dbd1d\n",
        b"0 0 28 gray 1 1 255 8 3 7 21 64\n",
    ),
    (
        "another byte after a codestream",
        b"\xff\xd8\
\xff\xf7\x00\x0b\x08\x00\x01\x00\x01\x01\x01\x11\x00\
\xff\xda\x00\x08\x01\x01\x00\x00\x00\x00\x80\xff\xd9A",
        Err(IndexFault::Stream(1, StreamFault::NotSoi)),
        b"0 0 28 gray 1 1 255 8 3 7 21 64 14c5eaab40e8fcaf165a37d64d027b1357eb15846597672e4e87ef4c04547aa1\n",
        b"0 0 28 gray 1 1 255 8 3 7 21 64\n",
    ),
    (
        "a codestream whose second scan is missing",
        b"\xff\xd8\
\xff\xf7\x00\x11\x08\x00\x01\x00\x01\x03\x01\x11\x00\x02\x11\x00\x03\x11\x00\
\xff\xda\x00\x08\x01\x01\x00\x00\x00\x00\x80\xff\xd9",
        Err(IndexFault::Stream(0, StreamFault::BadSegment)),
        b"",
        b"",
    ),
];

/// Checks the index of a recording, with sums or without.
fn check_recording(rt: &impl Abort, alloc: Global, case: &Case, sums: bool, ample: bool) {
    let (name, recording, result, with_sums, without) = *case;
    let lines = if sums { with_sums } else { without };
    let reader = Pieces::new(recording, 3, None);
    let made = make(alloc, reader, Sink::new(2, Mishap::Nothing), sums);
    check_outcome(rt, name, made.outcome(), (result, lines, 0, 0), ample);
}

fn check_recordings(rt: &impl Abort, alloc: Global, ample: bool) {
    for case in RECORDINGS {
        check_recording(rt, alloc, case, true, ample);
        check_recording(rt, alloc, case, false, ample);
    }
}

#[test]
fn each_codestream_has_its_line_with_ample_memory(rt: HostRuntime) {
    check_recordings(&rt, rt.alloc(), true);
}

#[test]
fn each_codestream_has_its_line_or_memory_is_refused(rt: HostRuntime) {
    check_recordings(&rt, rt.alloc(), false);
}

/// Checks that this is the index of a recording in memory.
fn check_in_memory(
    rt: &impl Abort,
    alloc: Global,
    name: &str,
    recording: &[u8],
    sums: bool,
    want: (Result<u64, IndexFault>, &[u8]),
) {
    let (written, ended) = index_bytes(alloc, recording, sums);
    let got = (ended, written.as_slice(), 0, 0);
    check_outcome(rt, name, got, (want.0, want.1, 0, 0), true);
}

/// Checks the index of a recording in memory, with sums and without.
fn check_case_in_memory(rt: &impl Abort, alloc: Global, case: &Case) {
    let (name, recording, result, with_sums, without) = *case;
    check_in_memory(rt, alloc, name, recording, true, (result, with_sums));
    check_in_memory(rt, alloc, name, recording, false, (result, without));
}

#[test]
fn recordings_in_memory_have_their_index_with_ample_memory(rt: HostRuntime) {
    for case in RECORDINGS {
        check_case_in_memory(&rt, rt.alloc(), case);
    }
}

/// The lines of `TWO_CODESTREAMS`, without sums.
const TWO_LINES: &[u8] = b"0 0 28 gray 1 1 255 8 3 7 21 64\n1 28 28 gray 1 1 255 8 3 7 21 64\n";

/// The first of them.
const FIRST_LINE: &[u8] = b"0 0 28 gray 1 1 255 8 3 7 21 64\n";

/// The result of writing the index of the first `len` bytes of `TWO_CODESTREAMS`, and that index.
fn index_of_front(len: usize) -> (Result<u64, IndexFault>, &'static [u8]) {
    match len {
        0 => (Ok(0), b""),
        1..=27 => (Err(IndexFault::Stream(0, StreamFault::Truncated)), b""),
        28 => (Ok(1), FIRST_LINE),
        29..=55 => (
            Err(IndexFault::Stream(1, StreamFault::Truncated)),
            FIRST_LINE,
        ),
        _ => (Ok(2), TWO_LINES),
    }
}

/// Checks the index of the first `len` bytes of `TWO_CODESTREAMS`.
fn check_front(rt: &impl Abort, alloc: Global, len: usize) {
    let front = TWO_CODESTREAMS.get(..len).unwrap_or(&[]);
    check_in_memory(rt, alloc, "a front", front, false, index_of_front(len));
}

#[test]
fn recordings_that_break_off_are_truncated_with_ample_memory(rt: HostRuntime) {
    for len in 0..=TWO_CODESTREAMS.len() {
        check_front(&rt, rt.alloc(), len);
    }
}

/// Checks that the index stops if the write of this number fails.
fn check_failed_write(rt: &impl Abort, alloc: Global, call: usize) {
    let reader = Pieces::new(TWO_CODESTREAMS, 4096, None);
    let made = make(alloc, reader, Sink::new(1, Mishap::Fails(call)), false);
    let lines = TWO_LINES.get(..call).unwrap_or(&[]);
    let want = (Err(IndexFault::Output(call as u64)), lines, 0, 1);
    check_outcome(rt, "a write", made.outcome(), want, true);
}

#[test]
fn a_failed_write_ends_the_index_with_ample_memory(rt: HostRuntime) {
    for call in 0..TWO_LINES.len() {
        check_failed_write(&rt, rt.alloc(), call);
    }
}

/// Checks that the index stops if the read of this number fails.
fn check_failed_read(rt: &impl Abort, alloc: Global, call: usize) {
    let reader = Pieces::new(TWO_CODESTREAMS, 1, Some(call));
    let made = make(alloc, reader, Sink::new(4096, Mishap::Nothing), false);
    let (number, lines) = if call < 28 {
        (0, b"".as_slice())
    } else {
        (1, FIRST_LINE)
    };
    let want = (Err(IndexFault::Io(number)), lines, 1, 0);
    check_outcome(rt, "a read", made.outcome(), want, true);
}

#[test]
fn a_failed_read_ends_the_index_with_ample_memory(rt: HostRuntime) {
    for call in 0..TWO_CODESTREAMS.len() {
        check_failed_read(&rt, rt.alloc(), call);
    }
}

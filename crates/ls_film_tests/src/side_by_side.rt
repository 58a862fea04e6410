use crate::testing::check;
use ls_film::{PlayFault, play_by};
use ls_frame::{Counted, Feed, Outlet};
use ls_stream::StreamFault;
use ls_testing::films::{TWO_CODESTREAMS, TWO_IMAGES};
use ls_testing::{Mishap, Pieces, Sink};
use std::alloc::Global;
use std::process::Abort;
use std::thread::Threads;

/// The result of playing, what was written, and the numbers of failed reads and of failed writes.
type Outcome<'a> = (Result<u64, PlayFault>, &'a [u8], u64, u64);

/// Checks the outcome of playing; unless memory is ample, an allocation may have failed instead, after a front of the
/// images and perhaps after the read that fails.
fn check_outcome(rt: &impl Abort, got: Outcome<'_>, want: Outcome<'_>, ample: bool) {
    let refused = !ample
        && got.0 == Err(PlayFault::NoMemory)
        && want.1.starts_with(got.1)
        && got.2 <= want.2;
    let want = if refused {
        (Err(PlayFault::NoMemory), got.1, got.2, 0)
    } else {
        want
    };
    check(rt, "a recording that is played by several", &got, &want);
}

/// A recording's bytes, where a read of it fails, what happens to its writer, and how its playing ends.
type Case<'a> = (&'a [u8], Option<usize>, Mishap, Outcome<'a>);

/// Plays a recording with this number of workers, and checks the outcome.
fn check_case<Rt: Threads + Abort + Sync>(
    rt: &Rt,
    alloc: Global,
    workers: u8,
    case: &Case<'_>,
    ample: bool,
) {
    let (recording, failure, mishap, want) = *case;
    let reader = Counted::new(Pieces::new(recording, 3, failure));
    let writer = Counted::new(Sink::new(2, mishap));
    let (result, reader, writer) = match play_by(rt, alloc, usize::from(workers), reader, writer) {
        Ok((frames, reader, writer)) => (Ok(frames), reader, writer),
        Err((fault, reader, writer)) => (Err(fault), reader, writer),
    };
    let reads = Feed::failures(&reader);
    let writes = Outlet::failures(&writer);
    let sink = writer.into_inner();
    check_outcome(rt, (result, sink.written(), reads, writes), want, ample);
}

/// A codestream of the recordings, its image, and the codestream with a byte after it.
const BLACK: &[u8] = b"\xff\xd8\
\xff\xf7\x00\x0b\x08\x00\x01\x00\x01\x01\x01\x11\x00\
\xff\xda\x00\x08\x01\x01\x00\x00\x00\x00\x80\xff\xd9";

const BLACK_IMAGE: &[u8] = b"P5\n1 1\n255\n\x00";

const WITH_ANOTHER: &[u8] = b"\xff\xd8\
\xff\xf7\x00\x0b\x08\x00\x01\x00\x01\x01\x01\x11\x00\
\xff\xda\x00\x08\x01\x01\x00\x00\x00\x00\x80\xff\xd9A";

const CASES: &[Case<'static>] = &[
    (b"", None, Mishap::Nothing, (Ok(0), b"", 0, 0)),
    (
        TWO_CODESTREAMS,
        None,
        Mishap::Nothing,
        (Ok(2), TWO_IMAGES, 0, 0),
    ),
    (
        WITH_ANOTHER,
        None,
        Mishap::Nothing,
        (
            Err(PlayFault::Stream(1, StreamFault::NotSoi)),
            BLACK_IMAGE,
            0,
            0,
        ),
    ),
    (
        BLACK,
        Some(28),
        Mishap::Nothing,
        (Err(PlayFault::Io(1)), BLACK_IMAGE, 1, 0),
    ),
    (
        BLACK,
        Some(3),
        Mishap::Nothing,
        (Err(PlayFault::Io(0)), b"", 1, 0),
    ),
    (
        BLACK,
        None,
        Mishap::Fails(2),
        (Err(PlayFault::Output(4)), b"P5\n1", 0, 1),
    ),
];

fn check_cases<Rt: Threads + Abort + Sync>(rt: &Rt, alloc: Global, ample: bool) {
    for workers in [0u8, 1, 2, 16] {
        for case in CASES {
            check_case(rt, alloc, workers, case, ample);
        }
    }
}

#[test]
fn each_frame_is_shown_by_several_with_ample_memory(rt: HostRuntime) {
    check_cases(&rt, rt.alloc(), true);
}

#[test]
fn each_frame_is_shown_by_several_or_memory_is_refused(rt: HostRuntime) {
    check_cases(&rt, rt.alloc(), false);
}

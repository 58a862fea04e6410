use crate::testing::check;
use ls_frame::{Counted, Tuning};
use ls_recorder::{OpenGate, record};
use std::alloc::Global;
use std::sync::Wait;
use std::thread::Threads;

/// The recording of a film in memory, coded by four workers. `None` if memory or threads are refused, or the film is
/// at fault.
fn record_film<R: Threads + Wait + Sync>(rt: &R, alloc: Global, film: &[u8]) -> Option<Vec<u8>> {
    let defaults = Tuning {
        t1: 0,
        t2: 0,
        t3: 0,
        reset: 0,
    };
    let writer = Counted::new(Vec::new(alloc));
    let mut films = Vec::with_capacity(alloc, 1).ok()?;
    films.push_reserved((Counted::new(film), writer, defaults));
    let mut recording = record(rt, alloc, films, 4, 8, 4, &OpenGate).ok()?;
    let track = recording.tracks.pop()?;
    let _frames = track.result.ok()?;
    Some(track.writer.into_inner())
}

#[test]
fn the_page_records_a_film_with_ample_memory(rt: HostRuntime) {
    let recording = record_film(&rt, rt.alloc(), ls_testing::films::TWO_IMAGES);
    let right = recording.map(|bytes| bytes.as_slice() == ls_testing::films::TWO_CODESTREAMS);
    check(&rt, "the page", right, true);
}

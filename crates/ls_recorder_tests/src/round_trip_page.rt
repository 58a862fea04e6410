use crate::testing::check;
use ls_frame::Tuning;
use ls_recorder::{OpenGate, Sizes};
use ls_roundtrip::record_and_play;
use std::alloc::Global;
use std::sync::Wait;
use std::thread::Threads;

/// What the recording of a film in memory shows, coded by four workers and decoded by two. `None` if memory or threads
/// are refused, or the film is at fault.
fn come_back<R: Threads + Wait + Sync>(rt: &R, alloc: Global, film: &[u8]) -> Option<Vec<u8>> {
    let defaults = Tuning {
        t1: 0,
        t2: 0,
        t3: 0,
        reset: 0,
    };
    let sizes = Sizes {
        workers: 4,
        capacity: 8,
        window: 4,
    };
    let mut films = Vec::with_capacity(alloc, 1).ok()?;
    films.push_reserved((film, defaults));
    let mut played_back = record_and_play(rt, alloc, films, sizes, 2, &OpenGate).ok()?;
    let first = played_back.pop()?;
    let _frames = first.played.ok()?;
    Some(first.shown)
}

#[test]
fn the_page_shows_a_film_with_ample_memory(rt: HostRuntime) {
    let shown = come_back(&rt, rt.alloc(), ls_testing::films::TWO_IMAGES);
    let right = shown.map(|bytes| bytes.as_slice() == ls_testing::films::TWO_IMAGES);
    check(&rt, "the page", right, true);
}

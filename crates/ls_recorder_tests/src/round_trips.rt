use crate::testing::{DEFAULTS, check};
use ls_frame::Tuning;
use ls_recorder::{OpenGate, Sizes};
use ls_roundtrip::{PlayedBack, record_and_play};
use ls_testing::films::{FILM, FILM_CODESTREAMS, TWO_CODESTREAMS, TWO_IMAGES};
use std::alloc::Global;
use std::process::Abort;
use std::sync::Wait;
use std::thread::Threads;

/// Whether a film's recording is this, and playing it gives the film. If memory isn't ample, an allocation may also
/// fail.
fn comes_back(
    played_back: &PlayedBack,
    film: &[u8],
    coded: &[u8],
    frames: u64,
    ample: bool,
) -> bool {
    let recorded = (played_back.recorded, played_back.recording.as_slice()) == (Ok(frames), coded);
    let played = (played_back.played, played_back.shown.as_slice()) == (Ok(frames), film);
    recorded && (played || !ample) || !ample && played_back.recorded.is_err()
}

/// The number of workers, the window, and the number of players.
const MEANS: [(usize, usize, u8); 6] = [
    (1, 1, 1),
    (1, 8, 16),
    (2, 1, 2),
    (2, 8, 3),
    (4, 1, 4),
    (4, 8, 1),
];

/// Whether two films come back from a recording with these numbers. `None` if an allocation fails.
fn two_come_back<R: Threads + Wait + Sync>(
    rt: &R,
    alloc: Global,
    means: (usize, usize, u8),
    ample: bool,
) -> Option<bool> {
    let (workers, window, players) = means;
    // No players would count as one.
    let players = usize::from(players).max(1);
    let sizes = Sizes {
        workers,
        capacity: 8,
        window,
    };
    let mut films: Vec<(&[u8], Tuning)> = Vec::with_capacity(alloc, 2).ok()?;
    films.push_reserved((FILM, DEFAULTS));
    films.push_reserved((TWO_IMAGES, DEFAULTS));
    let mut played_back = record_and_play(rt, alloc, films, sizes, players, &OpenGate).ok()?;
    let second = played_back.pop()?;
    let first = played_back.pop()?;
    let first = comes_back(&first, FILM, FILM_CODESTREAMS, 3, ample);
    Some(first && comes_back(&second, TWO_IMAGES, TWO_CODESTREAMS, 2, ample))
}

fn check_films<R: Threads + Wait + Sync + Abort>(rt: &R, alloc: Global, ample: bool) {
    for means in MEANS {
        let right = two_come_back(rt, alloc, means, ample);
        check(rt, "two films", right, ample);
    }
}

#[test]
fn films_come_back_with_ample_memory(rt: HostRuntime) {
    check_films(&rt, rt.alloc(), true);
}

#[test]
fn films_come_back_or_memory_is_refused(rt: HostRuntime) {
    check_films(&rt, rt.alloc(), false);
}

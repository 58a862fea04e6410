ghost use Rattle.std.specs.Prelude.{◌≡◌, length, IfSome};

use crate::testing::{DEFAULTS, MEANS, RUNS, RUNS_CODED, THREE, THREE_CODED, check};
use ls_frame::{Counted, NetpbmFault, Tuning};
use ls_recorder::{Gate, LaneFault, Moment, Notice, OpenGate, RecordFault, Track, record};
use ls_testing::films::{ANNEX_H, BLACK, FIRST_CODESTREAM, TWO_CODESTREAMS, TWO_IMAGES};
use ls_testing::{Mishap, Pieces, Sink};
use std::alloc::Global;
use std::hint::spin_loop;
use std::process::Abort;
use std::sync::Wait;
use std::sync::atomic::{AtomicBool, AtomicU64, Ordering};
use std::thread::Threads;

/// The image of T.87's Annex H.3, and then one with a sample greater than its maxval.
const SPOILT: &[u8] = b"P5\n4 4\n255\n\
\x00\x00\x5a\x4a\x44\x32\x2b\xcd\x40\x91\x91\x91\x64\x91\x91\x91\
P5\n1 1\n7\n\x08";

/// A film in memory, the writer of its recording, and its tuning.
type Film = (Counted<Pieces<'static>>, Counted<Sink>, Tuning);

/// A film in memory whose reader and writer pass at most `most` bytes a call. Read number `failing` fails, and `mishap`
/// happens to the writer.
fn film_of(film: &'static [u8], most: usize, failing: Option<usize>, mishap: Mishap) -> Film {
    let reader = Counted::new(Pieces::new(film, most, failing));
    (reader, Counted::new(Sink::new(most, mishap)), DEFAULTS)
}

/// A film, and another to which nothing happens. `None` if an allocation fails.
fn beside(alloc: Global, first: Film, other: &'static [u8]) -> Option<Vec<Film>>
    ensures { IfSome result (λ films. length films.items ≡ 2) }
{
    let mut films = Vec::with_capacity(alloc, 2).ok()?;
    films.push_reserved(first);
    films.push_reserved(film_of(other, 4096, None, Mishap::Nothing));
    Some(films)
}

/// The result of a lane, and the bytes that it wrote.
type Outcome<'a> = (Result<u64, LaneFault>, &'a [u8]);

/// The track of such a film.
type FilmTrack = Track<Counted<Pieces<'static>>, Counted<Sink>>;

/// Whether a track ended like this. If memory isn't ample, it may instead have run out of memory or threads, and have
/// written only the first bytes.
fn ended(track: &FilmTrack, want: &Outcome<'_>, ample: bool) -> bool {
    let got = (track.result, track.writer.get_ref().written());
    let refused = got.0 == Err(LaneFault::NoMemory) || got.0 == Err(LaneFault::NotStarted);
    got == *want || !ample && refused && want.1.starts_with(got.1)
}

/// Whether `count` is the number of frames recorded, if the track was recorded completely.
fn is_counted(track: &FilmTrack, count: u64) -> bool {
    match track.result {
        Ok(frames) => frames == count,
        Err(_) => true,
    }
}

/// Whether a track ended like this, and `count` is right for it.
fn is_right(track: Option<&FilmTrack>, count: u64, want: &Outcome<'_>, ample: bool) -> bool {
    match track {
        Some(track) => is_counted(track, count) && ended(track, want, ample),
        None => false,
    }
}

/// Whether two tracks ended like this, and these are the counts of their frames.
fn are_right(tracks: &[FilmTrack], counts: [u64; 2], want: &[Outcome<'_>; 2], ample: bool) -> bool {
    tracks.len() == 2
        && is_right(tracks.first(), counts[0], &want[0], ample)
        && is_right(tracks.last(), counts[1], &want[1], ample)
}

/// Whether recording these films ends like this, with these counts in the account. If memory isn't ample, it may fail
/// to begin.
fn records<R: Threads + Wait + Sync>(
    rt: &R,
    alloc: Global,
    films: Vec<Film>,
    workers: usize,
    window: usize,
    want: &[Outcome<'_>; 2],
    ample: bool,
) -> bool
    requires { length films.items ≡ 2 }
{
    match record(rt, alloc, films, workers, 8, window, &OpenGate) {
        Ok(recording) => {
            let counts = [recording.account.count(0), recording.account.count(1)];
            are_right(&recording.tracks, counts, want, ample)
        }
        Err((fault, _films)) => {
            !ample && (fault == RecordFault::NoMemory || fault == RecordFault::NotStarted)
        }
    }
}

/// Whether two films are recorded with these numbers of workers and window. `None` if an allocation fails.
fn two_films<R: Threads + Wait + Sync>(
    rt: &R,
    alloc: Global,
    means: &(usize, usize),
    ample: bool,
) -> Option<bool> {
    let (workers, window) = *means;
    let films = beside(alloc, film_of(THREE, 4096, None, Mishap::Nothing), RUNS)?;
    let want = [(Ok(3), THREE_CODED), (Ok(2), RUNS_CODED)];
    Some(records(rt, alloc, films, workers, window, &want, ample))
}

fn check_recordings<R: Threads + Wait + Sync + Abort>(rt: &R, alloc: Global, ample: bool) {
    for means in MEANS {
        let right = two_films(rt, alloc, means, ample);
        check(rt, "two films", right, ample);
    }
}

#[test]
fn films_are_recorded_with_ample_memory(rt: HostRuntime) {
    check_recordings(&rt, rt.alloc(), true);
}

#[test]
fn films_are_recorded_or_memory_is_refused(rt: HostRuntime) {
    check_recordings(&rt, rt.alloc(), false);
}

/// Whether a film that ends like this leaves the recording of the black pixel beside it intact. `None` if an allocation
/// fails.
fn ends_alone<R: Threads + Wait + Sync>(
    rt: &R,
    alloc: Global,
    film: Film,
    want: Outcome<'_>,
) -> Option<bool> {
    let films = beside(alloc, film, BLACK)?;
    let want = [want, (Ok(1), FIRST_CODESTREAM)];
    Some(records(rt, alloc, films, 2, 4, &want, true))
}

#[test]
fn a_spoilt_film_ends_its_own_lane_with_ample_memory(rt: HostRuntime) {
    let fault = LaneFault::Input(1, NetpbmFault::SampleTooLarge);
    let film = film_of(SPOILT, 4096, None, Mishap::Nothing);
    let right = ends_alone(&rt, rt.alloc(), film, (Err(fault), ANNEX_H));
    check(&rt, "a spoilt film", right, true);
}

/// Whether a lane that reads byte by byte ends at the read of this number. `None` if an allocation fails.
fn ends_at_read<R: Threads + Wait + Sync>(rt: &R, alloc: Global, call: u8) -> Option<bool> {
    // Twelve reads for each image, and one for the end.
    let before = call / 12;
    let fault = LaneFault::Input(u64::from(before), NetpbmFault::Io);
    let coded = TWO_CODESTREAMS.get(..28 * usize::from(before))?;
    let film = film_of(TWO_IMAGES, 1, Some(usize::from(call)), Mishap::Nothing);
    ends_alone(rt, alloc, film, (Err(fault), coded))
}

#[test]
fn a_failed_read_ends_its_own_lane_with_ample_memory(rt: HostRuntime) {
    for call in 0..25 {
        let right = ends_at_read(&rt, rt.alloc(), call);
        check(&rt, "a failed read", right, true);
    }
}

/// Whether a lane that writes byte by byte ends at the write of this number. `None` if an allocation fails.
fn ends_at_write<R: Threads + Wait + Sync>(rt: &R, alloc: Global, call: usize) -> Option<bool> {
    let coded = TWO_CODESTREAMS.get(..call)?;
    let want = (Err(LaneFault::Output(call as u64)), coded);
    let film = film_of(TWO_IMAGES, 1, None, Mishap::Fails(call));
    ends_alone(rt, alloc, film, want)
}

#[test]
fn a_failed_write_ends_its_own_lane_with_ample_memory(rt: HostRuntime) {
    for call in 0..56 {
        let right = ends_at_write(&rt, rt.alloc(), call);
        check(&rt, "a failed write", right, true);
    }
}

#[test]
fn a_failed_write_of_ten_bytes_ends_its_own_lane_with_ample_memory(rt: HostRuntime) {
    let want = (Err(LaneFault::Output(30)), &THREE_CODED[..30]);
    let film = film_of(THREE, 10, None, Mishap::Fails(3));
    let right = ends_alone(&rt, rt.alloc(), film, want);
    check(&rt, "the fourth write", right, true);
}

/// Numbers that a recording can't be made with, as films, workers, capacity and window; and why not.
type BadRange = (usize, usize, usize, usize, RecordFault);

const BAD_RANGES: &[BadRange] = &[
    (0, 0, 0, 0, RecordFault::Sources),
    (17, 0, 0, 0, RecordFault::Sources),
    (1, 0, 0, 0, RecordFault::Workers),
    (1, 17, 1, 1, RecordFault::Workers),
    (1, 1, 0, 0, RecordFault::Capacity),
    (1, 1, 257, 1, RecordFault::Capacity),
    (1, 1, 1, 0, RecordFault::Window),
    (1, 1, 1, 65, RecordFault::Window),
];

/// `count` copies of this film, of which at most `most` bytes are read and written a call. `None` if an allocation
/// fails.
fn copies_of(alloc: Global, count: usize, film: &'static [u8], most: usize) -> Option<Vec<Film>> {
    let mut films: Vec<Film> = Vec::new(alloc);
    for _film in 0..count {
        films.push(film_of(film, most, None, Mishap::Nothing)).ok()?;
    }
    Some(films)
}

/// Whether a recording is refused for this reason, and the films are returned. `None` if an allocation fails.
fn is_refused<R: Threads + Wait + Sync>(rt: &R, alloc: Global, range: &BadRange) -> Option<bool> {
    let (count, workers, capacity, window, want) = *range;
    let films = copies_of(alloc, count, BLACK, 1)?;
    match record(rt, alloc, films, workers, capacity, window, &OpenGate) {
        Ok(_) => Some(false),
        Err((fault, films)) => Some(fault == want && films.len() == count),
    }
}

#[test]
fn numbers_out_of_range_are_refused_with_ample_memory(rt: HostRuntime) {
    for range in BAD_RANGES {
        let right = is_refused(&rt, rt.alloc(), range);
        check(&rt, "a range", right, true);
    }
}

/// A gate that lets the first frame be coded only once the second was, and the second only once the first has begun:
/// both are in time only if jobs are coded side by side.
#[derive(Drop)]
struct SideBySide {
    begun: AtomicBool,
    done: AtomicBool,
    late: AtomicBool,
}

/// Spins until a flag is set, for a limited number of turns; if it isn't set by then, it is late.
fn wait_for(flag: &AtomicBool, late: &AtomicBool) {
    for _turn in 0..200_000_000u32 {
        if flag.load(Ordering::SeqCst) {
            return;
        }
        spin_loop();
    }
    late.store(true, Ordering::SeqCst);
}

impl Gate for SideBySide {
    fn pass(&self, _source: u8, number: u64, moment: Moment) {
        match (number, moment) {
            (0, Moment::Before) => {
                self.begun.store(true, Ordering::SeqCst);
                wait_for(&self.done, &self.late);
            }
            (1, Moment::Before) => wait_for(&self.begun, &self.late),
            (1, Moment::After) => self.done.store(true, Ordering::SeqCst),
            _ => {}
        }
    }
}

/// Whether a film of two frames is recorded through this gate, with this window. `None` if an allocation fails.
fn records_through<R: Threads + Wait + Sync, G: Gate>(
    rt: &R,
    alloc: Global,
    window: usize,
    gate: &G,
) -> Option<bool> {
    let films = copies_of(alloc, 1, TWO_IMAGES, 4096)?;
    match record(rt, alloc, films, 2, 8, window, gate) {
        Ok(recording) => Some(is_whole(&recording.tracks)),
        Err(_) => None,
    }
}

/// Whether the last of these tracks is a complete recording of the two frames.
fn is_whole(tracks: &[FilmTrack]) -> bool {
    match tracks.last() {
        Some(track) => ended(track, &(Ok(2), TWO_CODESTREAMS), true),
        None => false,
    }
}

#[test]
fn frames_are_coded_side_by_side_with_ample_memory(rt: HostRuntime) {
    let gate = SideBySide {
        begun: AtomicBool::new(false),
        done: AtomicBool::new(false),
        late: AtomicBool::new(false),
    };
    let right = records_through(&rt, rt.alloc(), 2, &gate);
    check(&rt, "side by side", right, true);
    check(&rt, "in time", Some(!gate.late.into_inner()), true);
}

/// A gate that lets the second frame be read only once the first one is written.
#[derive(Drop)]
struct OneByOne {
    written: AtomicBool,
    late: AtomicBool,
}

impl Gate for OneByOne {
    fn pass(&self, _source: u8, _number: u64, _moment: Moment) {}

    fn notice(&self, _source: u8, notice: Notice) {
        match notice {
            Notice::Reading(1) => wait_for(&self.written, &self.late),
            Notice::Written { number: 0, .. } => self.written.store(true, Ordering::SeqCst),
            _ => {}
        }
    }
}

#[test]
fn a_frame_is_written_whatever_its_reader_does_next_with_ample_memory(rt: HostRuntime) {
    for window in [1, 4, 16, 64] {
        let gate = OneByOne {
            written: AtomicBool::new(false),
            late: AtomicBool::new(false),
        };
        let right = records_through(&rt, rt.alloc(), window, &gate);
        check(&rt, "one by one", right, true);
        check(&rt, "in time", Some(!gate.late.into_inner()), true);
    }
}

/// Thirteen black pixels: more than three windows of four.
const THIRTEEN: &[u8] = b"P5\n1 1\n255\n\x00P5\n1 1\n255\n\x00P5\n1 1\n255\n\x00P5\n1 1\n255\n\x00\
P5\n1 1\n255\n\x00P5\n1 1\n255\n\x00P5\n1 1\n255\n\x00P5\n1 1\n255\n\x00P5\n1 1\n255\n\x00\
P5\n1 1\n255\n\x00P5\n1 1\n255\n\x00P5\n1 1\n255\n\x00P5\n1 1\n255\n\x00";

/// A gate that holds the first frame before it is coded, and the lane after each frame it writes, each for a while: so
/// the reader gets as far ahead as it may. It notes if a frame is read too early, that is, before all but a window of
/// the frames up to it are written.
#[derive(Drop)]
struct Held {
    window: u64,
    written: AtomicU64,
    early: AtomicBool,
}

/// Spins for a while, or until a flag is set.
fn hold(flag: &AtomicBool) {
    for _turn in 0..2_000_000u32 {
        if flag.load(Ordering::SeqCst) {
            return;
        }
        spin_loop();
    }
}

impl Gate for Held {
    fn pass(&self, _source: u8, number: u64, moment: Moment) {
        if number == 0 && moment == Moment::Before {
            hold(&self.early);
        }
    }

    fn notice(&self, _source: u8, notice: Notice) {
        match notice {
            Notice::Reading(number) => {
                let written = self.written.load(Ordering::SeqCst);
                if number >= written.saturating_add(self.window) {
                    self.early.store(true, Ordering::SeqCst);
                }
            }
            Notice::Written { .. } => {
                self.written.fetch_add(1, Ordering::SeqCst);
                hold(&self.early);
            }
            _ => {}
        }
    }
}

/// Whether thirteen frames are recorded through this gate, with this window. `None` if memory or threads are refused.
fn records_thirteen<R: Threads + Wait + Sync, G: Gate>(
    rt: &R,
    alloc: Global,
    window: usize,
    gate: &G,
) -> Option<bool> {
    let films = copies_of(alloc, 1, THIRTEEN, 4096)?;
    match record(rt, alloc, films, 2, 8, window, gate) {
        Ok(mut recording) => Some(recording.tracks.pop()?.result == Ok(13)),
        Err(_) => None,
    }
}

#[test]
fn no_frame_is_read_before_the_window_allows_it_with_ample_memory(rt: HostRuntime) {
    for window in [1, 3, 4] {
        let gate = Held {
            window: window as u64,
            written: AtomicU64::new(0),
            early: AtomicBool::new(false),
        };
        let right = records_thirteen(&rt, rt.alloc(), window, &gate);
        check(&rt, "thirteen frames", right, true);
        check(&rt, "not early", Some(!gate.early.into_inner()), true);
    }
}

/// A gate that counts the events of a film.
#[derive(Drop)]
struct Counts {
    began: AtomicU64,
    read: AtomicU64,
    bytes: AtomicU64,
    put: AtomicU64,
    written: AtomicU64,
    coded: AtomicU64,
    ended: AtomicU64,
}

impl Gate for Counts {
    fn pass(&self, _source: u8, _number: u64, _moment: Moment) {}

    fn notice(&self, _source: u8, notice: Notice) {
        let (counter, amount) = match notice {
            Notice::Began => (&self.began, 1),
            Notice::Reading(_) | Notice::Stops(_) => return,
            Notice::Read { bytes, .. } => {
                self.bytes.fetch_add(bytes, Ordering::SeqCst);
                (&self.read, 1)
            }
            Notice::Put(_) => (&self.put, 1),
            Notice::Written { bytes, .. } => {
                self.coded.fetch_add(bytes, Ordering::SeqCst);
                (&self.written, 1)
            }
            Notice::Ended(Ok(2)) => (&self.ended, 1),
            Notice::Ended(_) => return,
        };
        counter.fetch_add(amount, Ordering::SeqCst);
    }
}

#[test]
fn a_gate_is_shown_what_comes_of_a_film_with_ample_memory(rt: HostRuntime) {
    let gate = Counts {
        began: AtomicU64::new(0),
        read: AtomicU64::new(0),
        bytes: AtomicU64::new(0),
        put: AtomicU64::new(0),
        written: AtomicU64::new(0),
        coded: AtomicU64::new(0),
        ended: AtomicU64::new(0),
    };
    let right = records_through(&rt, rt.alloc(), 4, &gate);
    check(&rt, "counted", right, true);
    let frames = [
        gate.began.into_inner(),
        gate.read.into_inner(),
        gate.put.into_inner(),
        gate.written.into_inner(),
        gate.ended.into_inner(),
    ];
    check(&rt, "frames", Some(frames == [1, 2, 2, 2, 1]), true);
    let bytes = [gate.bytes.into_inner(), gate.coded.into_inner()];
    check(&rt, "bytes", Some(bytes == [2, 56]), true);
}

//! Recording films side by side, and playing back each recording.
ghost use Rattle.std.specs.Prelude.{◌≡◌, ◌⊎◌, ◌<◌, ◌≤◌, ◌^◌, [], None, Some, length, vec_capacity, IfOk, IfErr};
ghost use Rattle.std.specs.List.{AllZip};
ghost use Rattle.ls_roundtrip.specs.View.RoundTrips.{IsUnrecorded, IsPlayed, ComeBack};
ghost use Rattle.ls_recorder.specs.Sizes.{record_fault};

use ls_film::{PlayFault, play_bytes_by};
use ls_frame::laws::{
    default_parameters_are_legal, images_have_one_frame, no_image_begins_another,
    parameters_are_legal_or_at_fault,
};
use ls_frame::{Counted, Tuning};
use ls_recorder::{Gate, LaneFault, RecordFault, Sizes, Track, record};
use std::alloc::{AllocError, Global};
use std::sync::Wait;
use std::thread::Threads;

/// A film in memory that was recorded and played back.
#[derive(Drop)]
pub struct PlayedBack {
    /// Its recording: the bytes that were written.
    pub recording: Vec<u8>,
    /// The number of frames recorded, or why recording stopped.
    pub recorded: Result<u64, LaneFault>,
    /// The images played back from the recording: the bytes that were written.
    pub shown: Vec<u8>,
    /// The number of frames played, or why playing stopped.
    pub played: Result<u64, PlayFault>,
}

/// Records 1 to 16 films side by side, each with its tuning, and plays back each recording, one after the other, with
/// `players` players each.
///
/// For 1 to 16 workers, a capacity of 1 to 256, a window of 1 to 64, any number of players, and any order in which the
/// threads run: if a film was recorded completely (`recorded` is `Ok`), its recording is the codestreams of all its
/// frames, in order, with nothing between; if its tuning is all zeros, that is what `ls_film::code_film` writes of the
/// film. Playing it gives exactly the film's frames, each as its canonical Netpbm image, or ends in `NoMemory` or
/// `Output` (`PlayFault`). If a film's lane stopped, its recording is what the fault says (`LaneFault`); except after
/// `Output` it is complete codestreams, and playing it gives exactly their frames, or ends in one of these two.
///
/// Fails with `NoMemory`; or with the first of `Sources`, `Workers`, `Capacity` and `Window` that applies; or, if none
/// does, with `NotStarted`, which stands for a worker without a thread. Then nothing is returned. If no thread can be
/// made for a player, the calling thread plays; no players count as one.
pub fn record_and_play<Rt: Threads + Wait + Sync, G: Gate>(
    rt: &Rt,
    alloc: Global,
    films: Vec<(&[u8], Tuning)>,
    sizes: Sizes,
    players: usize,
    gate: &G,
) -> Result<Vec<PlayedBack>, RecordFault>
    ensures comes_back { IfOk result (λ played_back. ComeBack films.entry.items played_back.items) }
    ensures refused { IfErr result (λ fault. (fault ≡ RecordFault.NoMemory)
        ⊎ ((record_fault (length films.entry.items) sizes.workers sizes.capacity sizes.window ≡ Some fault)
        ⊎ ((record_fault (length films.entry.items) sizes.workers sizes.capacity sizes.window ≡ None) × (fault ≡ RecordFault.NotStarted)))) }
{
    default_parameters_are_legal();
    parameters_are_legal_or_at_fault();
    no_image_begins_another();
    images_have_one_frame();
    let Ok(room) = Vec::with_capacity(alloc, films.len()) else {
        return Err(RecordFault::NoMemory);
    };
    let Ok(unrecorded) = unrecorded(alloc, films) else {
        return Err(RecordFault::NoMemory);
    };
    let Sizes {
        workers,
        capacity,
        window,
    } = sizes;
    match record(rt, alloc, unrecorded, workers, capacity, window, gate) {
        Ok(recording) => Ok(play_all(rt, alloc, players, recording.tracks, room)),
        Err((fault, _unrecorded)) => Err(fault),
    }
}

/// A film in memory, the writer of its recording, and its tuning.
type Unrecorded<'a> = (&'a [u8], Counted<Vec<u8>>, Tuning);

/// The films, each with an empty recording.
fn unrecorded<'a>(
    alloc: Global,
    mut films: Vec<(&'a [u8], Tuning)>,
) -> Result<Vec<Unrecorded<'a>>, AllocError>
    ensures are { IfOk result (λ made. AllZip IsUnrecorded films.entry.items made.items) }
    ensures len { IfOk result (λ made. length made.items ≡ length films.entry.items) }
{
    let mut made = Vec::with_capacity(alloc, films.len())?;
    while !films.is_empty() {
        let (film, tuning) = films.remove(0);
        made.push_reserved((film, Counted::new(Vec::new(alloc)), tuning));
    }
    Ok(made)
}

/// Plays back the recording of each film. Requires that `room` is empty, with capacity for as many results as tracks.
fn play_all<Rt: Threads + Sync>(
    rt: &Rt,
    alloc: Global,
    players: usize,
    mut tracks: Vec<Track<&[u8], Counted<Vec<u8>>>>,
    room: Vec<PlayedBack>,
) -> Vec<PlayedBack>
    requires room { length tracks.items ≤ vec_capacity room }
    requires none { room.items ≡ [] }
    ensures { AllZip IsPlayed tracks.entry.items result.items }
{
    let mut played_back = room;
    'tracks: while !tracks.is_empty() {
        let track = tracks.remove(0);
        played_back.push_reserved(play_back(rt, alloc, players, track));
    }
    played_back
}

/// Plays back the recording of a film.
fn play_back<Rt: Threads + Sync>(
    rt: &Rt,
    alloc: Global,
    players: usize,
    track: Track<&[u8], Counted<Vec<u8>>>,
) -> PlayedBack
    ensures { IsPlayed track.entry result }
{
    let recording = track.writer.into_inner();
    let (shown, played) = play_bytes_by(rt, alloc, players, &recording);
    PlayedBack {
        recording,
        recorded: track.result,
        shown,
        played,
    }
}

//! Playing a recording: codestream after codestream is decoded, and its frame written as a Netpbm image.
ghost use Rattle.std.specs.Prelude.{◌≡◌, ◌<◌, ◌+◌, ◌^◌, ℕ, List, length, IfOk, IfErr, MatchResult, refl};
ghost use Rattle.ls_frame.specs.View.Devices.{count_after};
ghost use Rattle.ls_stream.specs.Grammar.{Spells};
ghost use Rattle.ls_film.specs.View.Engine.{Completes};
ghost use Rattle.ls_film.specs.Showing.{show};
ghost use Rattle.ls_film.specs.View.Sources.{IsShown};
ghost use Rattle.ls_film.specs.View.Playing.{play_fault, Stops, StopsAhead, HasReadAhead, Plays, blames_reader, blames_writer};
ghost use Rattle.ls_film.specs.View.Steps.{failed_by};

use crate::ahead::SideBySide;
use crate::codestreams::{OneByOne, Unread};
use crate::engine::{Made, Stopped, Text, write_text};
use ls_frame::laws::canonical_texts_are_short;
use ls_frame::{Counted, Feed, Frame, Outlet, write_frame};
use ls_stream::StreamFault;
use ls_stream::laws::{
    codestreams_spell_their_frames, no_codestream_begins_another, one_frame_each,
};
use std::alloc::{AllocError, Global};
use std::marker::Model;
use std::thread::Threads;
use thiserror::Error;

/// Why the playing of a recording stopped.
///
/// The images of exactly the frames before the codestream at fault were written, except after `Output`: those of at
/// most `ls_film::MOST_FRAMES` frames.
#[derive(Clone, Copy, Debug, Drop, PartialEq, Eq, Error)]
pub enum PlayFault {
    /// The codestream of this number, from 0, can't be decoded; the fault is never `StreamFault::NoMemory`.
    #[error("frame {0}: {1}")]
    Stream(u64, StreamFault),
    /// A read failed after the images of this number of frames had been written.
    #[error("read failed")]
    Io(u64),
    /// A write failed after exactly this number of bytes of the images had been written.
    #[error("output failed after {0} bytes")]
    Output(u64),
    /// An allocation failed for a codestream, its frame or its image.
    #[error("no memory")]
    NoMemory,
    /// The images of `ls_film::MOST_FRAMES` frames were written, and another frame follows.
    #[error("too many frames")]
    TooMuch,
}

impl PlayFault {
    /// Converts why the engine stopped over codestreams.
    pub fn of(stopped: Stopped<Unread>) -> PlayFault
        ensures { result ≡ play_fault stopped }
    {
        match stopped {
            Stopped::Input(_, Unread::Stream(StreamFault::NoMemory)) => PlayFault::NoMemory,
            Stopped::Input(number, Unread::Stream(fault)) => PlayFault::Stream(number, fault),
            Stopped::Input(frames, Unread::Io) => PlayFault::Io(frames),
            Stopped::Output(written) => PlayFault::Output(written),
            Stopped::NoMemory => PlayFault::NoMemory,
            Stopped::TooMany => PlayFault::TooMuch,
        }
    }
}

impl PlayFault {
    ghost use Rattle.ls_film.specs.View.Parts.{later, number_in};

    /// Converts a fault met after the first `first` codestreams: the number of a codestream is then counted from the
    /// beginning of the recording.
    ///
    /// Requires that this number is below 2^64.
    pub(crate) fn later(self, first: u64) -> PlayFault
        requires { first + number_in self < 2 ^ 64 }
        ensures { result ≡ later first self }
    {
        match self {
            PlayFault::Stream(number, fault) => PlayFault::Stream(first + number, fault),
            other => other,
        }
    }
}

/// Writes the canonical Netpbm image of each frame of a recording. Returns the number of frames, or the fault, with the
/// reader and the writer.
///
/// Each image is written before the next codestream is read. If the bytes of reader and writer are known (as in
/// memory), the clauses say which were read and written. After `Io` these are the codestreams of the frames written, and
/// no whole one after them. After `Stream` and `NoMemory` the reader's place is unspecified; `NoMemory` is never
/// returned at the end.
pub fn play<R: Feed, W: Outlet>(
    alloc: Global,
    mut reader: R,
    mut writer: W,
) -> Result<(u64, R, W), (PlayFault, R, W)>
    ensures completes { IfOk result (λ played. Completes Spells show
        (R.remaining reader) (R.remaining played.1) (W.contents writer) (W.contents played.2) played.0) }
    ensures stops { IfErr result (λ stopped. Stops
        (R.remaining reader) (R.remaining stopped.1) (W.contents writer) (W.contents stopped.2) stopped.0) }
    ensures reads { MatchResult result (λ played. R.failed_reads played.1 ≡ R.failed_reads reader)
        (λ stopped. R.failed_reads stopped.1 ≡ count_after (blames_reader stopped.0) (R.failed_reads reader)) }
    ensures writes { MatchResult result (λ played. W.failed_writes played.2 ≡ W.failed_writes writer)
        (λ stopped. W.failed_writes stopped.2 ≡ count_after (blames_writer stopped.0) (W.failed_writes writer)) }
{
    match play_recording(alloc, &mut reader, &mut writer) {
        Ok(frames) => Ok((frames, reader, writer)),
        Err(fault) => Err((fault, reader, writer)),
    }
}

/// As `play`, with at most `workers` threads that decode codestreams side by side.
///
/// Twice as many codestreams as workers are taken at once, and their images are written in order before the next are
/// taken. If no thread can be started, the calling one decodes them all; no workers count as one. `Io` is returned once
/// all frames that were read before are written. After another fault the reader's place is unspecified, and a read after
/// the codestream at fault may have failed.
pub fn play_by<Rt: Threads + Sync, R: Feed, W: Outlet>(
    rt: &Rt,
    alloc: Global,
    workers: usize,
    mut reader: R,
    mut writer: W,
) -> Result<(u64, R, W), (PlayFault, R, W)>
    ensures completes { IfOk result (λ played. Completes Spells show
        (R.remaining reader) (R.remaining played.1) (W.contents writer) (W.contents played.2) played.0) }
    ensures stops { IfErr result (λ stopped. StopsAhead
        (R.remaining reader) (R.remaining stopped.1) (W.contents writer) (W.contents stopped.2) stopped.0) }
    ensures reads { MatchResult result (λ played. R.failed_reads played.1 ≡ R.failed_reads reader)
        (λ stopped. HasReadAhead (R.failed_reads reader) (R.failed_reads stopped.1) stopped.0) }
    ensures writes { MatchResult result (λ played. W.failed_writes played.2 ≡ W.failed_writes writer)
        (λ stopped. W.failed_writes stopped.2 ≡ count_after (blames_writer stopped.0) (W.failed_writes writer)) }
{
    match play_recording_by(rt, alloc, workers, &mut reader, &mut writer) {
        Ok(frames) => Ok((frames, reader, writer)),
        Err(fault) => Err((fault, reader, writer)),
    }
}

/// As `play`, from a borrowed reader to a borrowed writer.
pub fn play_recording<R: Feed, W: Outlet>(
    alloc: Global,
    reader: &mut R,
    writer: &mut W,
) -> Result<u64, PlayFault>
    ensures completes { IfOk result (Completes Spells show
        (R.remaining reader.old) (R.remaining reader.new) (W.contents writer.old) (W.contents writer.new)) }
    ensures stops { IfErr result (Stops
        (R.remaining reader.old) (R.remaining reader.new) (W.contents writer.old) (W.contents writer.new)) }
    ensures reads { R.failed_reads reader.new ≡ count_after (failed_by blames_reader result) (R.failed_reads reader.old) }
    ensures writes { W.failed_writes writer.new ≡ count_after (failed_by blames_writer result) (W.failed_writes writer.old) }
{
    match write_text::<Image, ImageText, OneByOne, R, W>(alloc, &mut OneByOne, reader, writer) {
        Ok(frames) => Ok(frames),
        Err(stopped) => Err(PlayFault::of(stopped)),
    }
}

/// As `play_by`, from a borrowed reader to a borrowed writer.
pub fn play_recording_by<Rt: Threads + Sync, R: Feed, W: Outlet>(
    rt: &Rt,
    alloc: Global,
    workers: usize,
    reader: &mut R,
    writer: &mut W,
) -> Result<u64, PlayFault>
    ensures completes { IfOk result (Completes Spells show
        (R.remaining reader.old) (R.remaining reader.new) (W.contents writer.old) (W.contents writer.new)) }
    ensures stops { IfErr result (StopsAhead
        (R.remaining reader.old) (R.remaining reader.new) (W.contents writer.old) (W.contents writer.new)) }
    ensures reads { MatchResult result (λ frames. R.failed_reads reader.new ≡ R.failed_reads reader.old)
        (λ fault. HasReadAhead (R.failed_reads reader.old) (R.failed_reads reader.new) fault) }
    ensures writes { W.failed_writes writer.new ≡ count_after (failed_by blames_writer result) (W.failed_writes writer.old) }
{
    let mut source = SideBySide::new(rt, alloc, workers);
    match write_text::<Image, ImageText, SideBySide<'_, Rt, Image>, R, W>(
        alloc,
        &mut source,
        reader,
        writer,
    ) {
        Ok(frames) => Ok(frames),
        Err(stopped) => Err(PlayFault::of(stopped)),
    }
}

/// The images of a recording in memory, as far as they were written, and how the playing ended.
///
/// A fault says what `play` says of it. It is never `Io`, since memory is read; `Output` stands for a failed allocation
/// for what is written. If the recording is codestreams of at most `ls_film::MOST_FRAMES` frames, whatever their
/// parameters, these are shown and nothing else, or the fault is `NoMemory` or `Output`.
pub fn play_bytes(alloc: Global, recording: &[u8]) -> (Vec<u8>, Result<u64, PlayFault>)
    ensures { Plays recording.now result.0.items result.1 }
{
    no_codestream_begins_another();
    one_frame_each();
    codestreams_spell_their_frames();
    match play(alloc, recording, Counted::new(Vec::new(alloc))) {
        Ok((frames, _rest, shown)) => (shown.into_inner(), Ok(frames)),
        Err((fault, _rest, shown)) => (shown.into_inner(), Err(fault)),
    }
}

/// As `play_bytes`, with at most `workers` threads that decode codestreams side by side. No workers count as one.
pub fn play_bytes_by<Rt: Threads + Sync>(
    rt: &Rt,
    alloc: Global,
    workers: usize,
    recording: &[u8],
) -> (Vec<u8>, Result<u64, PlayFault>)
    ensures { Plays recording.now result.0.items result.1 }
{
    no_codestream_begins_another();
    one_frame_each();
    codestreams_spell_their_frames();
    match play_by(rt, alloc, workers, recording, Counted::new(Vec::new(alloc))) {
        Ok((frames, _rest, shown)) => (shown.into_inner(), Ok(frames)),
        Err((fault, _rest, shown)) => (shown.into_inner(), Err(fault)),
    }
}

/// The canonical Netpbm image of a frame: shorter than 2^32 bytes.
#[derive(Drop)]
pub struct Image {
    bytes: Vec<u8>,
}

impl Model for Image {
    ghost use Rattle.std.specs.Prelude.{◌<◌, ◌^◌, ℕ, List, length};

    ghost Value = { List ℕ };

    ghost view = { λ image. image.bytes.items };

    ghost invariant = { λ image. length image.bytes.items < 2 ^ 32 };
}

impl Image {
    /// Its bytes.
    pub fn into_bytes(self) -> Vec<u8>
        ensures value { result.items ≡ self }
        ensures short { length result.items < 2 ^ 32 }
    {
        self.bytes
    }
}

impl Made for Image {
    ghost made = { IsShown };

    fn make(alloc: Global, frame: Frame) -> Result<Image, AllocError> {
        canonical_texts_are_short();
        let room = Vec::with_capacity(alloc, 32 + 2 * frame.samples().len())?;
        let mut image = Counted::new(room);
        match write_frame(&mut image, &frame) {
            Ok(()) => Ok(Image {
                bytes: image.into_inner(),
            }),
            Err(_) => Err(AllocError),
        }
    }
}

/// The canonical Netpbm images of frames.
pub struct ImageText;

impl Text<Frame> for ImageText {
    ghost text = { show };

    fn chunk(alloc: Global, _number: u64, frame: Frame) -> Result<Vec<u8>, AllocError> {
        Ok(Image::make(alloc, frame)?.into_bytes())
    }

    ghost empty = { refl };
}

impl Text<Image> for ImageText {
    ghost text = { show };

    fn chunk(_alloc: Global, _number: u64, image: Image) -> Result<Vec<u8>, AllocError> {
        Ok(image.into_bytes())
    }

    ghost empty = { refl };
}

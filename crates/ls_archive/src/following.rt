//! Writes the index of a recording while the recording is being written.
ghost use Rattle.std.specs.Prelude.{◌≡◌, ◌≤◌, ◌<◌, ◌+◌, ◌*◌, ◌^◌, ◌++◌, ℕ, List, [], length, take, Option, None, OnOk, OnErr, IfOk, IfErr, IfSome, IfNone, MatchResult, is_err};
ghost use Rattle.std.specs.Io.{WritesAtMost};
ghost use Rattle.std.specs.Io.KnownBytes.{Appends, Keeps, WriteAppends};
ghost use Rattle.ls_frame.specs.View.Devices.{count_after};
ghost use Rattle.ls_stream.specs.Grammar.{most_bytes};
ghost use Rattle.ls_film.specs.Film.{most_frames};
ghost use Rattle.ls_film.specs.View.Steps.{failed_by};
ghost use Rattle.ls_archive.specs.View.Entries.{IsEntry};
ghost use Rattle.ls_archive.specs.View.Indexing.{blames_writer};
ghost use Rattle.ls_archive.specs.View.Followed.{nothing, holding, stepped, HoldsBack};
ghost use Rattle.ls_archive.specs.View.Following.{index_of, followed, recording_of, following, broken, HasFollowed, SpellNoFrame, FollowsOn, StopsFollowing, IsOfWriting, IsUntold, IsTold, HasIndexed, HasRecorded, IsComplete};

use crate::entry::Indexed;
use crate::faults::IndexFault;
use crate::index::{line, write_line};
use ls_film::MOST_FRAMES;
use ls_frame::{Failed, Outlet};
use ls_stream::StreamFault;
use std::alloc::{AllocError, Global};
use std::io;
use std::io::Write;
use std::marker::Model;

/// The last two bytes of a codestream: EOI (T.87, C.1.1).
const EOI: [u8; 2] = [0xFF, 0xD9];

/// How far a recording has been followed.
#[derive(Drop)]
pub struct Progress {
    /// The bytes since the end of the last codestream.
    pending: Vec<u8>,
    /// The number of codestreams that have ended.
    number: u64,
    /// Their size, in bytes.
    offset: u64,
    /// The size of their lines, in bytes.
    written: u64,
}

impl Model for Progress {
    ghost use Rattle.ls_archive.specs.View.Followed.{Followed, IsFollowed};

    ghost Value = { Followed };

    ghost view = { λ p. record { pending = p.pending.items; number = p.number; offset = p.offset; written = p.written } };

    ghost invariant = { λ p. IsFollowed (record { pending = p.pending.items; number = p.number; offset = p.offset; written = p.written }) };
}

impl Progress {
    /// The state before the first byte.
    fn new(alloc: Global) -> Progress
        ensures { result ≡ nothing }
    {
        Progress {
            pending: Vec::new(alloc),
            number: 0,
            offset: 0,
            written: 0,
        }
    }

    /// Takes the recording's next bytes, and returns the codestream that ends with them, if one does.
    fn take(&mut self, alloc: Global, bytes: &[u8]) -> Result<Option<Indexed>, AllocError>
        ensures entry { IfOk result (λ next. IfSome next (λ entry. IsEntry entry × (entry.bytes ≡ self.old.pending ++ bytes.now))) }
        ensures none { IfOk result (λ next. IfSome next (λ entry. self.new ≡ holding [] self.old)) }
        ensures held { IfOk result (λ next. IfNone next (self.new ≡ holding (self.old.pending ++ bytes.now) self.old)) }
        ensures waits { IfOk result (λ next. IfNone next (SpellNoFrame (self.old.pending ++ bytes.now))) }
        ensures some { OnErr result (0 < length bytes.now) }
    {
        self.pending.extend_from_slice(bytes)?;
        if !self.pending.ends_with(&EOI) {
            return Ok(None);
        }
        Ok(Indexed::take(alloc, &mut self.pending))
    }

    /// Counts a codestream of `size` bytes; `written` is the size of all lines, in bytes, its own line included.
    fn step(&mut self, size: usize, written: u64)
        requires room { self.old.number < most_frames }
        requires few { size ≤ most_bytes }
        requires small { written ≤ 2 ^ 32 * (self.old.number + 1) }
        ensures { self.new ≡ stepped size written self.old }
    {
        self.number += 1;
        self.offset += size as u64;
        self.written = written;
    }
}

/// Writes the index of a recording while the recording is being written: it is passed the recording's bytes as they are
/// written.
///
/// A line is written once the bytes since the last codestream, those of this call included, are complete by their
/// markers and headers, as `write_index` requires. It is the line that `write_index` writes, with its sum. Then no bytes
/// are held back; after any other call those of the call are held back too, and aren't a codestream of a frame. So a
/// recording of codestreams of frames gets a complete index if each codestream ends where the bytes of a call end, as
/// when each is written by a call of its own.
#[derive(Drop)]
pub struct Follower<I> {
    alloc: Global,
    index: I,
    progress: Progress,
}

impl<I: Outlet> Follower<I> {
    /// Begins the index of a recording of which nothing has been written yet. Allocates nothing and can't fail.
    pub fn new(alloc: Global, index: I) -> Follower<I>
        ensures index { index_of result ≡ index }
        ensures none { followed result ≡ nothing }
        ensures nothing { HasFollowed [] (I.contents index) (I.contents index) nothing }
    {
        Follower {
            alloc,
            index,
            progress: Progress::new(alloc),
        }
    }

    /// Takes the recording's next bytes; if a codestream ends with them, writes its line.
    ///
    /// Fails with `Output` if a write fails, and says exactly how many bytes of all lines were written; with `TooMany`
    /// if the codestream is numbered 4,294,967,295; or with `NoMemory`. After the last two exactly the lines of the
    /// codestreams before it were written. It isn't to be called again after a failure.
    pub fn follow(&mut self, bytes: &[u8]) -> Result<(), IndexFault>
        ensures follows { OnOk result (FollowsOn bytes.now
            (I.contents (index_of self.old)) (I.contents (index_of self.new)) (followed self.old) (followed self.new)) }
        ensures waits { OnOk result (SpellNoFrame (followed self.new).pending) }
        ensures holds { OnOk result (HoldsBack bytes.now (followed self.old) (followed self.new)) }
        ensures stops { IfErr result (StopsFollowing bytes.now
            (I.contents (index_of self.old)) (I.contents (index_of self.new)) (followed self.old)) }
        ensures kinds { IfErr result IsOfWriting }
        ensures failures { I.failed_writes (index_of self.new)
            ≡ count_after (failed_by blames_writer result) (I.failed_writes (index_of self.old)) }
    {
        let alloc = self.alloc;
        let Some(indexed) = self.progress.take(alloc, bytes)? else {
            return Ok(());
        };
        let Progress {
            number,
            offset,
            written,
            ..
        } = self.progress;
        if number == MOST_FRAMES {
            return Err(IndexFault::TooMany);
        }
        let line = line(alloc, true, number, offset, &indexed)?;
        let written = write_line(&mut self.index, line.as_bytes(), written)?;
        self.progress.step(indexed.bytes().len(), written);
        Ok(())
    }

    /// Why the index of a recording that ends here isn't complete, if bytes are held back: `Stream`, with the number of
    /// their codestream and `Truncated`.
    pub fn unfinished(&self) -> Option<IndexFault>
        ensures none { IfNone result ((followed self.now).pending ≡ []) }
        ensures some { IfSome result (λ fault. (0 < length (followed self.now).pending) × (fault ≡ IndexFault.Stream (followed self.now).number StreamFault.Truncated)) }
    {
        let Progress {
            pending,
            number,
            ..
        } = &self.progress;
        if pending.is_empty() {
            None
        } else {
            Some(IndexFault::Stream(*number, StreamFault::Truncated))
        }
    }

    /// Returns the writer of the index.
    pub fn into_inner(self) -> I
        ensures { result ≡ index_of self }
    {
        self.index
    }
}

/// A recording's writer that also writes an index of the recording, if one is to be written.
///
/// As a writer it is the recording's: it takes bytes and fails as the recording's writer does. Exactly the bytes that
/// the recording's writer takes of each call are followed. If the index fails, the recording goes on without it;
/// `into_parts` returns why.
///
/// So, over all calls: if the index didn't fail, its lines are exactly those of the codestreams of which the recording
/// consists, up to the bytes that are held back; if none are, it is the index that `write_index` writes for the
/// recording, with sums.
#[derive(Drop)]
pub struct Indexing<W, I> {
    recording: W,
    index: Option<Follower<I>>,
    fault: Option<IndexFault>,
}

impl<W: Outlet, I: Outlet> Indexing<W, I> {
    /// Wraps the writer of a recording of which nothing has been written yet, and its index, if one is to be written.
    pub fn new(recording: W, index: Option<Follower<I>>) -> Indexing<W, I>
        ensures recording { recording_of result ≡ recording }
        ensures index { following result ≡ index }
        ensures unbroken { broken result ≡ None }
        ensures begins { (begun : Option (List ℕ)) → IfSome index (λ f. HasFollowed [] begun (I.contents (index_of f)) (followed f))
            → HasRecorded W.contents I.contents (W.contents recording) begun [] result }
    {
        Indexing {
            recording,
            index,
            fault: None,
        }
    }

    /// Returns the recording's writer, its index, and why the index stopped early, if it did.
    ///
    /// What was written over all calls stands in the recording, and its index is of exactly these bytes.
    pub fn into_parts(self) -> (W, Option<Follower<I>>, Option<IndexFault>)
        ensures recording { result.0 ≡ recording_of self }
        ensures index { result.1 ≡ following self }
        ensures fault { result.2 ≡ broken self }
        ensures recorded { (start begun : Option (List ℕ)) (bytes : List ℕ) → HasRecorded W.contents I.contents start begun bytes self
            → Appends start (W.contents result.0) bytes × HasIndexed I.contents begun bytes result.1 result.2 }
        ensures complete { (start begun : Option (List ℕ)) (bytes : List ℕ) → HasRecorded W.contents I.contents start begun bytes self
            → IsComplete I.contents begun bytes result.1 result.2 }
    {
        (self.recording, self.index, self.fault)
    }

    /// Passes the recording's next bytes to the index, which follows them or stops. An index that stopped before isn't
    /// changed.
    fn tell(&mut self, bytes: &[u8])
        ensures recording { recording_of self.new ≡ recording_of self.old }
        ensures index { IsTold I.contents bytes.now (following self.old) (broken self.old) (following self.new) (broken self.new) }
    {
        if self.fault.is_some() {
            return;
        }
        if let Some(index) = &mut self.index {
            self.fault = index.follow(bytes).err();
        }
    }
}

impl<W: Outlet, I: Outlet> Write for Indexing<W, I> {
    ghost contents = { λ i. W.contents (recording_of i) };

    fn write(&mut self, buf: &[u8]) -> io::Result<usize>
        ensures bound { WritesAtMost result buf.now }
        ensures bytes { WriteAppends (W.contents (recording_of self.old)) (W.contents (recording_of self.new)) result buf.now }
        ensures told { IfOk result (λ taken. IsTold I.contents (take taken buf.now) (following self.old) (broken self.old) (following self.new) (broken self.new)) }
        ensures untold { OnErr result (IsUntold self.old self.new) }
        ensures recorded { (start begun : Option (List ℕ)) (bytes : List ℕ) → HasRecorded W.contents I.contents start begun bytes self.old
            → MatchResult result (λ taken. HasRecorded W.contents I.contents start begun (bytes ++ take taken buf.now) self.new)
            (λ _. HasRecorded W.contents I.contents start begun bytes self.new) }
    {
        let taken = self.recording.write(buf)?;
        self.tell(&buf[..taken]);
        Ok(taken)
    }

    fn flush(&mut self) -> io::Result<()>
        ensures bytes { Keeps (W.contents (recording_of self.old)) (W.contents (recording_of self.new)) }
        ensures untold { IsUntold self.old self.new }
        ensures recorded { (start begun : Option (List ℕ)) (bytes : List ℕ) → HasRecorded W.contents I.contents start begun bytes self.old
            → HasRecorded W.contents I.contents start begun bytes self.new }
    {
        self.recording.flush()
    }
}

impl<W: Outlet, I: Outlet> Outlet for Indexing<W, I> {
    ghost failed_writes = { λ i. W.failed_writes (recording_of i) };

    fn give(&mut self, buf: &[u8]) -> Result<usize, Failed>
        ensures bound { WritesAtMost result buf.now }
        ensures takes { 0 < length buf.now → IfOk result (λ taken. 0 < taken) }
        ensures bytes { WriteAppends (W.contents (recording_of self.old)) (W.contents (recording_of self.new)) result buf.now }
        ensures failures { W.failed_writes (recording_of self.new) ≡ count_after (is_err result) (W.failed_writes (recording_of self.old)) }
        ensures told { IfOk result (λ taken. IsTold I.contents (take taken buf.now) (following self.old) (broken self.old) (following self.new) (broken self.new)) }
        ensures untold { OnErr result (IsUntold self.old self.new) }
        ensures recorded { (start begun : Option (List ℕ)) (bytes : List ℕ) → HasRecorded W.contents I.contents start begun bytes self.old
            → MatchResult result (λ taken. HasRecorded W.contents I.contents start begun (bytes ++ take taken buf.now) self.new)
            (λ _. HasRecorded W.contents I.contents start begun bytes self.new) }
    {
        let taken = self.recording.give(buf)?;
        self.tell(&buf[..taken]);
        Ok(taken)
    }

    fn failures(&self) -> u64 {
        Outlet::failures(&self.recording)
    }
}

//! Codes a film while the index of its codestreams is written.
ghost use Rattle.std.specs.Prelude.{◌≡◌, ℕ, List, [], Option, None, Some, IfOk, IfErr};
ghost use Rattle.std.specs.Io.KnownBytes.{Appends};
ghost use Rattle.ls_frame.specs.Netpbm.{IsImageOf};
ghost use Rattle.ls_frame.specs.View.Devices.{count_after};
ghost use Rattle.ls_film.specs.Coding.{default_file};
ghost use Rattle.ls_film.specs.View.Engine.{Completes};
ghost use Rattle.ls_film.specs.View.Steps.{failed_by};
ghost use Rattle.ls_film.specs.View.Stopping.{Stops, blames_reader, blames_writer};
ghost use Rattle.ls_archive.specs.View.Coded.{CodesWithIndex};
ghost use Rattle.ls_archive.specs.View.Following.{followed, recording_of, IsComplete};

use crate::faults::IndexFault;
use crate::following::{Follower, Indexing};
use ls_film::{FilmFault, code_film_by};
use ls_frame::{Failed, Feed, Outlet};
use std::alloc::Global;
use std::io;
use std::io::Write;
use std::marker::{Brand, Model, PhantomData};
use std::thread::Threads;

/// A film that was coded while its index was written.
#[derive(Drop)]
pub struct CodedFilm<W, I> {
    /// The number of frames, or why the coding stopped.
    pub result: Result<u64, FilmFault>,
    /// The writer of the codestreams.
    pub recording: W,
    /// The writer of the index.
    pub index: I,
    /// Why the index isn't complete, if it isn't.
    pub broken: Option<IndexFault>,
}

/// Codes a film, as `code_film_by` does, and writes the index of the codestreams, with sums, as they are written.
///
/// If the index fails, the coding goes on without it. If neither fails, the index is what `write_index` writes for the
/// codestreams.
pub fn code_film_with_index<Rt: Threads, R: Feed, W: Outlet, I: Outlet>(
    rt: &Rt,
    alloc: Global,
    film: &mut R,
    recording: W,
    index: I,
) -> CodedFilm<W, I>
    ensures completes { IfOk result.result (CodesWithIndex (R.remaining film.old) (R.remaining film.new)
        (W.contents recording) (W.contents result.recording) (I.contents index) (I.contents result.index) result.broken) }
    ensures stops { IfErr result.result (Stops default_file
        (R.remaining film.old) (R.remaining film.new) (W.contents recording) (W.contents result.recording)) }
    ensures reads { R.failed_reads film.new ≡ count_after (failed_by blames_reader result.result) (R.failed_reads film.old) }
    ensures writes { W.failed_writes result.recording ≡ count_after (failed_by blames_writer result.result) (W.failed_writes recording) }
{
    code_from::<Brand, Rt, R, W, I>(rt, alloc, film, recording, index)
}

/// The same, where `K` says what both writers have at first.
fn code_from<K: Beginning, Rt: Threads, R: Feed, W: Outlet, I: Outlet>(
    rt: &Rt,
    alloc: Global,
    film: &mut R,
    recording: W,
    index: I,
) -> CodedFilm<W, I>
    requires start { K.start ≡ W.contents recording }
    requires begun { K.begun ≡ I.contents index }
    ensures completes { IfOk result.result (CodesWithIndex (R.remaining film.old) (R.remaining film.new)
        K.start (W.contents result.recording) K.begun (I.contents result.index) result.broken) }
    ensures stops { IfErr result.result (Stops default_file
        (R.remaining film.old) (R.remaining film.new) K.start (W.contents result.recording)) }
    ensures reads { R.failed_reads film.new ≡ count_after (failed_by blames_reader result.result) (R.failed_reads film.old) }
    ensures writes { W.failed_writes result.recording ≡ count_after (failed_by blames_writer result.result) (W.failed_writes recording) }
{
    let mut writer = Begun::<K, W, I>::new(alloc, recording, index);
    let result = code_film_by(rt, alloc, film, &mut writer);
    let (recording, follower, broken) = writer.into_parts();
    let broken = broken_at_end(result, broken, &follower);
    CodedFilm {
        result,
        recording,
        index: follower.into_inner(),
        broken,
    }
}

/// Why an index isn't complete at the end of its recording, whose coding ended so. Of a coding that stopped, the index
/// is as far as it came.
fn broken_at_end<I: Outlet>(
    coded: Result<u64, FilmFault>,
    broken: Option<IndexFault>,
    follower: &Follower<I>,
) -> Option<IndexFault>
    ensures { IfOk coded (λ _. result ≡ None → (broken ≡ None) × ((followed follower.now).pending ≡ [])) }
{
    match (coded, broken) {
        (Ok(_frames), None) => follower.unfinished(),
        (_, broken) => broken,
    }
}

/// What the writers of a recording and of its index have at first.
trait Beginning {
    ghost start: { Option (List ℕ) };

    ghost begun: { Option (List ℕ) };
}

/// Each call of `code_from` picks its own.
impl Beginning for Brand {
    ghost use Rattle.std.specs.Prelude.{None};

    ghost start = { None };

    ghost begun = { None };
}

/// A recording and its index, whose writers had what `K` says. What was written since is the same for both, whatever
/// engine writes.
#[derive(Drop)]
struct Begun<K: Beginning, W: Outlet, I: Outlet> {
    writer: Indexing<W, I>,
    beginning: PhantomData<K>,
}

impl<K: Beginning, W: Outlet, I: Outlet> Model for Begun<K, W, I> {
    ghost use Rattle.ls_archive.specs.declared.following.Indexing.{Indexing};
    ghost use Rattle.ls_archive.specs.View.Coded.{HasWritten};

    ghost Value = { Indexing W I };

    ghost view = { λ b. b.writer };

    ghost invariant = { λ b. HasWritten W.contents I.contents K.start K.begun b.writer };
}

impl<K: Beginning, W: Outlet, I: Outlet> Begun<K, W, I> {
    fn new(alloc: Global, recording: W, index: I) -> Begun<K, W, I>
        requires start { K.start ≡ W.contents recording }
        requires begun { K.begun ≡ I.contents index }
        ensures { recording_of result ≡ recording }
    {
        let follower = Follower::new(alloc, index);
        Begun {
            writer: Indexing::new(recording, Some(follower)),
            beginning: PhantomData,
        }
    }

    /// Returns both writers, and why the index stopped early, if it did.
    fn into_parts(self) -> (W, Follower<I>, Option<IndexFault>)
        ensures recording { result.0 ≡ recording_of self }
        ensures index { (bytes : List ℕ) × Appends K.start (W.contents result.0) bytes
            × IsComplete I.contents K.begun bytes (Some result.1) result.2 }
    {
        let (recording, follower, broken) = self.writer.into_parts();
        let Some(follower) = follower else {
            unreachable!()
        };
        (recording, follower, broken)
    }
}

impl<K: Beginning, W: Outlet, I: Outlet> Write for Begun<K, W, I> {
    ghost contents = { λ b. W.contents (recording_of b) };

    fn write(&mut self, buf: &[u8]) -> io::Result<usize> {
        self.writer.write(buf)
    }

    fn flush(&mut self) -> io::Result<()> {
        self.writer.flush()
    }
}

impl<K: Beginning, W: Outlet, I: Outlet> Outlet for Begun<K, W, I> {
    ghost failed_writes = { λ b. W.failed_writes (recording_of b) };

    fn give(&mut self, buf: &[u8]) -> Result<usize, Failed> {
        self.writer.give(buf)
    }

    fn failures(&self) -> u64 {
        Outlet::failures(&self.writer)
    }
}

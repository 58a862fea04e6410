//! Reading a recording ahead: codestreams are taken off the reader before they are asked for, and threads decode them
//! side by side.
//!
//! What it gives is what `OneByOne` gives of the same recording, whatever the threads do.
ghost use Rattle.std.specs.Prelude.{◌≡◌, ◌<◌, ◌≤◌, ◌^◌, ◌↔◌, ◌||◌, [], length, Option, List, ℕ, IfOk, IfErr, IfNone, IsTrue, true, false, refl};
ghost use Rattle.std.specs.List.{AllByRecursion};
ghost use Rattle.std.specs.Thread.{IsSync};
ghost use Rattle.ls_frame.specs.View.Devices.{count_after};
ghost use Rattle.ls_stream.specs.Grammar.{Spells};
ghost use Rattle.ls_film.specs.View.Codestreams.{IsUnread, is_io};
ghost use Rattle.ls_film.specs.View.Sources.{IsShown, IsItself};
ghost use Rattle.ls_film.specs.View.Steps.{failed_by};
ghost use Rattle.ls_film.specs.View.Ahead.{IsMade, IsBatch, IsAhead, GivesAhead, codestreams_of, failed_after, IsFull};

use crate::codestreams::{Recorded, Unread, made_of, take_codestream};
use crate::engine::{Images, Made};
use crate::playing::Image;
use ls_frame::{Feed, Frame};
use ls_stream::StreamFault;
use std::alloc::Global;
use std::thread;
use std::thread::Threads;

/// Reads a recording ahead by threads.
///
/// Once all codestreams that were taken are given, it takes twice as many as there are workers. Where no thread can be
/// started, the calling one decodes them all.
#[derive(Drop)]
pub struct SideBySide<'rt, Rt, T> {
    rt: &'rt Rt,
    workers: usize,
    ahead: Ahead<T>,
}

/// Codestreams that were taken off a reader, one after the other, and not yet given.
#[derive(Drop)]
pub struct Ahead<T> {
    pub jobs: Vec<Fetched<T>>,
    pub after: After,
}

/// A codestream, and what was made of its frame.
#[derive(Drop)]
pub struct Fetched<T> {
    /// The codestream's bytes.
    pub bytes: Vec<u8>,
    /// What was made of its frame, or why there is none. `NoMemory` before it is worked on.
    pub made: Result<T, StreamFault>,
}

/// What comes after codestreams that were taken.
#[derive(Clone, Copy)]
pub enum After {
    /// Nothing after them was read yet.
    More,
    /// The end of the recording.
    End,
    /// A codestream that can't be taken.
    Fault(Unread),
}

/// The most workers: more count as this number.
const MOST_WORKERS: usize = 4_294_967_296;

/// Bytes of codestreams that justify one more thread.
const BYTES_A_THREAD: usize = 8192;

impl<'rt, Rt, T> SideBySide<'rt, Rt, T> {
    /// A recording of which nothing was read yet, for this number of threads at most, of which the calling one is one.
    /// No workers count as one.
    pub fn new(rt: &'rt Rt, alloc: Global, workers: usize) -> SideBySide<'rt, Rt, T>
        ensures jobs { result.ahead.jobs.items ≡ [] }
        ensures after { result.ahead.after ≡ After.More }
    {
        SideBySide {
            rt,
            workers,
            ahead: Ahead {
                jobs: Vec::new(alloc),
                after: After::More,
            },
        }
    }
}

impl<T> Ahead<T> {
    /// Whether all that were taken are given, and nothing after them was read.
    fn is_spent(&self) -> bool
        ensures { IsTrue result ↔ ((self.now.jobs.items ≡ []) × (self.now.after ≡ After.More)) }
    {
        self.jobs.is_empty() && matches!(self.after, After::More)
    }
}

impl<'rt, Rt: Threads + Sync> Images<Image> for SideBySide<'rt, Rt, Image> {
    type Fault = Unread;

    ghost image = { Spells };

    ghost unread = { IsUnread };

    ghost of_device = { is_io };

    ghost stands = { λ source place read. IsAhead IsShown place read source.ahead };

    ghost owes = { λ source. failed_after source.ahead.after };

    ghost may_run = { IsSync Rt.row };

    fn next<R: Feed>(&mut self, alloc: Global, reader: &mut R) -> Result<Option<Image>, Unread> {
        next_ahead::<Image, Rt, R>(&mut self.ahead, self.rt, alloc, self.workers, reader)
    }
}

impl<'rt, Rt: Threads + Sync> Recorded<Image> for SideBySide<'rt, Rt, Image> {
    ghost image_is = { λ bytes f is. is };

    ghost unread_is = { λ fault place read is. is };

    ghost of_device_is = { refl };
}

impl<'rt, Rt: Threads + Sync> Images<Frame> for SideBySide<'rt, Rt, Frame> {
    type Fault = Unread;

    ghost image = { Spells };

    ghost unread = { IsUnread };

    ghost of_device = { is_io };

    ghost stands = { λ source place read. IsAhead IsItself place read source.ahead };

    ghost owes = { λ source. failed_after source.ahead.after };

    ghost may_run = { IsSync Rt.row };

    fn next<R: Feed>(&mut self, alloc: Global, reader: &mut R) -> Result<Option<Frame>, Unread> {
        next_ahead::<Frame, Rt, R>(&mut self.ahead, self.rt, alloc, self.workers, reader)
    }
}

impl<'rt, Rt: Threads + Sync> Recorded<Frame> for SideBySide<'rt, Rt, Frame> {
    ghost image_is = { λ bytes f is. is };

    ghost unread_is = { λ fault place read is. is };

    ghost of_device_is = { refl };
}

/// Gives what was made of the next codestream's frame. If all that were taken are given, it first takes the next ones
/// and has them decoded.
fn next_ahead<T: Made + Send + Drop, Rt: Threads + Sync, R: Feed>(
    ahead: &mut Ahead<T>,
    rt: &Rt,
    alloc: Global,
    workers: usize,
    reader: &mut R,
) -> Result<Option<T>, Unread>
    ensures gives { (place : Option (List ℕ)) → IsAhead T.made place (R.remaining reader.old) ahead.old
        → GivesAhead T.made place (R.remaining reader.new) ahead.new result }
    ensures failures { (failed : ℕ) → R.failed_reads reader.old ≡ count_after (failed_after ahead.old.after) failed
        → R.failed_reads reader.new ≡ count_after (failed_by is_io result || failed_after ahead.new.after) failed }
    ensures end { IfOk result (λ next. IfNone next (failed_after ahead.new.after ≡ false)) }
{
    if ahead.is_spent() {
        let mut taken = take(alloc, reader, batch_for(workers));
        work_on::<T, Rt>(rt, alloc, workers, &mut taken);
        *ahead = taken;
    }
    give::<T>(ahead)
}

/// Gives what was made of the frame of the first codestream; or what comes after all, if none is left.
///
/// It requires that something was read after them if none is left.
fn give<T: Made + Drop>(ahead: &mut Ahead<T>) -> Result<Option<T>, Unread>
    requires { ahead.now.jobs.items ≡ [] → ahead.now.after ≡ After.More → ⊥ }
    ensures gives { (place read : Option (List ℕ)) → IsAhead T.made place read ahead.old → GivesAhead T.made place read ahead.new result }
    ensures after { ahead.new.after ≡ ahead.old.after }
    ensures end { IfOk result (λ next. IfNone next (failed_after ahead.new.after ≡ false)) }
    ensures io { IfErr result (λ fault. is_io fault ≡ true → failed_after ahead.new.after ≡ true) }
{
    if ahead.jobs.is_empty() {
        return match ahead.after {
            After::Fault(fault) => Err(fault),
            After::End => Ok(None),
            After::More => unreachable!(),
        };
    }
    let job = ahead.jobs.remove(0);
    let Fetched {
        bytes: _codestream,
        made,
    } = job;
    match made {
        Ok(made) => Ok(Some(made)),
        Err(fault) => Err(Unread::Stream(fault)),
    }
}

/// Takes this number of codestreams off a reader, or all there are before the end or a fault.
fn take<T: Drop, R: Feed>(alloc: Global, reader: &mut R, most: usize) -> Ahead<T>
    requires { 0 < most }
    ensures taken { IsBatch (R.remaining reader.old) (R.remaining reader.new) result }
    ensures full { IsFull most result }
    ensures failures { R.failed_reads reader.new ≡ count_after (failed_after result.after) (R.failed_reads reader.old) }
{
    let mut jobs = Vec::new(alloc);
    for _place in 0..most {
        let job = match take_codestream(alloc, reader) {
            Ok(Some(bytes)) => Fetched {
                bytes,
                made: Err(StreamFault::NoMemory),
            },
            Ok(None) => {
                return Ahead {
                    jobs,
                    after: After::End,
                };
            }
            Err(fault) => {
                return Ahead {
                    jobs,
                    after: After::Fault(fault),
                };
            }
        };
        if jobs.push(job).is_err() {
            return Ahead {
                jobs,
                after: After::Fault(Unread::Stream(StreamFault::NoMemory)),
            };
        }
    }
    Ahead {
        jobs,
        after: After::More,
    }
}

/// Works on all codestreams that were taken, by this number of workers at most.
fn work_on<T: Made + Send + Drop, Rt: Threads + Sync>(
    rt: &Rt,
    alloc: Global,
    workers: usize,
    ahead: &mut Ahead<T>,
)
    ensures made { AllByRecursion (IsMade T.made) ahead.new.jobs.items }
    ensures same { codestreams_of ahead.new.jobs.items ≡ codestreams_of ahead.old.jobs.items }
    ensures after { ahead.new.after ≡ ahead.old.after }
{
    let threads = threads_for(&ahead.jobs, workers);
    work_on_all::<T, Rt>(rt, alloc, &mut ahead.jobs, threads);
}

/// Works on codestreams that were taken, by this number of threads at most.
fn work_on_all<T: Made + Send + Drop, Rt: Threads + Sync>(
    rt: &Rt,
    alloc: Global,
    jobs: &mut [Fetched<T>],
    threads: usize,
)
    requires { 0 < threads }
    ensures { AllByRecursion (IsMade T.made) jobs.new × (codestreams_of jobs.new ≡ codestreams_of jobs.old) }
{
    thread::for_each_mut(
        rt,
        jobs,
        threads,
        &|_place: usize, job: &mut Fetched<T>|
            ensures { (job.new.bytes ≡ job.old.bytes) × IsMade T.made job.new }
        { work::<T>(alloc, job) },
    );
}

/// Decodes a codestream that was taken, and makes of its frame what is to be made.
fn work<T: Made + Drop>(alloc: Global, job: &mut Fetched<T>)
    ensures bytes { job.new.bytes ≡ job.old.bytes }
    ensures made { IsMade T.made job.new }
{
    job.made = made_of::<T>(alloc, &job.bytes);
}

/// What a thread works on: the bytes of a codestream.
pub trait Task {
    /// The number of these bytes.
    fn size(&self) -> usize;
}

impl<T> Task for Fetched<T> {
    fn size(&self) -> usize {
        self.bytes.len()
    }
}

/// The number of codestreams that are taken at once for this number of workers: two for each.
///
/// No workers count as one, and more than 4,294,967,296 as that number.
pub fn batch_for(workers: usize) -> usize
    ensures some { 0 < result }
    ensures few { result ≤ 2 ^ 33 }
{
    2 * workers.max(1).min(MOST_WORKERS)
}

/// The number of threads that codestreams justify by their bytes: at most that of the workers, of which none count as
/// one.
pub fn threads_for<W: Task>(jobs: &[W], workers: usize) -> usize
    ensures some { 0 < result }
    ensures few { 0 < workers → result ≤ workers }
{
    let mut bytes = 0usize;
    for job in jobs {
        bytes = bytes.saturating_add(job.size());
    }
    workers.max(1).min(1 + bytes / BYTES_A_THREAD)
}

//! Who looks at the bytes of a batch's codestreams: the calling thread alone, or several side by side.
ghost use Rattle.std.specs.Prelude.{◌<◌, ◌≤◌, ◌^◌, ℕ, ⊤};
ghost use Rattle.std.specs.List.{AllZip};
ghost use Rattle.std.specs.Thread.{IsSync};
ghost use Rattle.ls_archive.specs.View.Batches.{IsLookedAt};

use crate::checking::batches::Listed;
use crate::checking::damage_of;
use ls_film::ahead::{Task, batch_for, threads_for};
use std::alloc::Global;
use std::mem::replace;
use std::thread;
use std::thread::Threads;

/// Looks at the bytes of listed codestreams, batch by batch.
pub trait Looking {
    /// The most codestreams of a batch.
    ghost most: { ℕ };

    /// What `look_at_all` requires: with threads, that they may share what it was lent.
    ghost may_run: { Type 0 };

    /// The number of codestreams that are taken at once.
    fn batch(&self) -> u64
        ensures some { 0 < result }
        ensures few { result ≤ most };

    /// Looks at the bytes of all these codestreams, and frees them.
    fn look_at_all(&self, alloc: Global, jobs: &mut Vec<Listed>)
        requires { may_run }
        ensures { AllZip IsLookedAt jobs.old.items jobs.new.items };
}

/// The calling thread alone: it looks at a codestream before the next is taken.
#[derive(Drop)]
pub struct Alone;

impl Looking for Alone {
    ghost most = { 1 };

    ghost may_run = { ⊤ };

    fn batch(&self) -> u64 {
        1
    }

    fn look_at_all(&self, alloc: Global, jobs: &mut Vec<Listed>) {
        for job in jobs.iter_mut() {
            look_at_job(alloc, job);
        }
    }
}

/// At most this number of threads side by side. Where none can be started, the calling one looks at all codestreams.
#[derive(Drop)]
pub struct ByThreads<'rt, Rt> {
    pub rt: &'rt Rt,
    pub workers: usize,
}

impl<'rt, Rt: Threads + Sync> Looking for ByThreads<'rt, Rt> {
    ghost most = { 2 ^ 33 };

    ghost may_run = { IsSync Rt.row };

    fn batch(&self) -> u64 {
        batch_for(self.workers) as u64
    }

    fn look_at_all(&self, alloc: Global, jobs: &mut Vec<Listed>) {
        look_side_by_side(self.rt, alloc, self.workers, jobs)
    }
}

impl Task for Listed {
    fn size(&self) -> usize {
        self.bytes.len()
    }
}

/// Looks at the bytes of all these codestreams, by at most `workers` threads.
fn look_side_by_side<Rt: Threads + Sync>(
    rt: &Rt,
    alloc: Global,
    workers: usize,
    jobs: &mut Vec<Listed>,
)
    ensures { AllZip IsLookedAt jobs.old.items jobs.new.items }
{
    let threads = threads_for(jobs, workers);
    thread::for_each_mut(
        rt,
        jobs,
        threads,
        &|_place: usize, job: &mut Listed|
            ensures { IsLookedAt job.old job.new }
        { look_at_job(alloc, job) },
    );
}

/// Looks at the bytes of a listed codestream, and frees them.
fn look_at_job(alloc: Global, job: &mut Listed)
    ensures { IsLookedAt job.old job.new }
{
    let bytes = replace(&mut job.bytes, Vec::new(alloc));
    job.damage = damage_of(alloc, job.number, job.offset, &job.line, bytes);
}

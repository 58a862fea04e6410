//! The lines of an index, a batch at once: they are taken off it with the bytes of their codestreams, and what was
//! found in these is reported.
ghost use Rattle.std.specs.Prelude.{◌≡◌, ◌≢◌, ◌+◌, ◌*◌, ◌^◌, ◌<◌, ◌≤◌, List, [], ℕ, Option, length, IfOk, IfErr, OnErr, MatchResult};
ghost use Rattle.ls_film.specs.Film.{most_frames};
ghost use Rattle.ls_frame.specs.View.Devices.{count_after};
ghost use Rattle.ls_archive.specs.declared.checking.Finding.{Finding};
ghost use Rattle.ls_archive.specs.View.Batches.{Place, IsTaken, ComesAfter, IsBatch, IsLooked, HasCheckedTo, LeadsOn, LeadsSomewhere, fails_index, fails_recording};

use crate::checking::{
    CheckFault, Damage, Findings, IndexLine, next_written, take_bytes, tell_damage,
};
use ls_frame::Feed;
use std::alloc::{AllocError, Global};

/// How far a check is.
#[derive(Clone, Copy)]
pub struct SoFar {
    /// The number of the next line, which is the number of lines checked so far.
    pub number: u64,
    /// The offset that the next line must say.
    pub offset: u64,
    /// The number of damaged codestreams so far.
    pub damaged: u64,
}

/// A line of an index, and the bytes that stand at its offset.
#[derive(Drop)]
pub struct Listed {
    pub number: u64,
    pub offset: u64,
    pub line: IndexLine,
    /// As many as the line says, or all that were left; none once they were looked at.
    pub bytes: Vec<u8>,
    /// What is wrong with them, or that an allocation failed; the latter also before they are looked at.
    pub damage: Result<Option<Damage>, AllocError>,
}

/// Lines that were taken off an index one after the other.
#[derive(Drop)]
pub struct Batch {
    pub jobs: Vec<Listed>,
    pub after: After,
}

/// What comes after lines that were taken.
#[derive(Clone, Copy)]
pub enum After {
    /// Nothing after them was read yet.
    More,
    /// The end of the index.
    End,
    /// The fault for which a check stops.
    Fault(CheckFault),
}

/// Takes `most` lines off an index, or those before its end or a fault if there are fewer, with the bytes of their
/// codestreams. With `growing` the index may end within a line.
pub fn take<I: Feed, R: Feed>(
    alloc: Global,
    index: &mut I,
    recording: &mut R,
    so_far: SoFar,
    most: u64,
    growing: bool,
) -> Batch
    requires few { so_far.number + most ≤ most_frames }
    requires bounded { so_far.offset ≤ 2 ^ 32 * so_far.number }
    ensures batch { IsBatch growing
        (record { index = I.remaining index.old; recording = R.remaining recording.old; number = so_far.number; offset = so_far.offset })
        (I.remaining index.new) (R.remaining recording.new) result }
    ensures few { length result.jobs.items ≤ most }
    ensures full { result.after ≡ After.More → length result.jobs.items ≡ most }
    ensures lacks { result.after ≢ After.More → length result.jobs.items < most }
    ensures index_reads { I.failed_reads index.new ≡ count_after (fails_index result.after) (I.failed_reads index.old) }
    ensures reads { R.failed_reads recording.new ≡ count_after (fails_recording result.after) (R.failed_reads recording.old) }
{
    let mut jobs = Vec::new(alloc);
    let mut offset = so_far.offset;
    for number in so_far.number..so_far.number + most {
        match next_job(alloc, index, recording, number, offset, growing) {
            Ok(job) => {
                offset += u64::from(job.line.size);
                if jobs.push(job).is_err() {
                    return Batch {
                        jobs,
                        after: After::Fault(CheckFault::NoMemory),
                    };
                }
            }
            Err(after) => return Batch { jobs, after },
        }
    }
    Batch {
        jobs,
        after: After::More,
    }
}

/// Takes the next line off an index, with the bytes of its codestream. Fails with what comes instead of it.
fn next_job<I: Feed, R: Feed>(
    alloc: Global,
    index: &mut I,
    recording: &mut R,
    number: u64,
    offset: u64,
    growing: bool,
) -> Result<Listed, After>
    ensures taken { IfOk result (λ job. IsTaken
        (record { index = I.remaining index.old; recording = R.remaining recording.old; number = number; offset = offset })
        (record { index = I.remaining index.new; recording = R.remaining recording.new; number = number + 1; offset = offset + job.line.size })
        job) }
    ensures after { IfErr result (ComesAfter growing
        (record { index = I.remaining index.old; recording = R.remaining recording.old; number = number; offset = offset })
        (I.remaining index.new) (R.remaining recording.new)) }
    ensures known { IfErr result (λ after. after ≢ After.More) }
    ensures index_reads { MatchResult result (λ _. I.failed_reads index.new ≡ I.failed_reads index.old)
        (λ after. I.failed_reads index.new ≡ count_after (fails_index after) (I.failed_reads index.old)) }
    ensures reads { MatchResult result (λ _. R.failed_reads recording.new ≡ R.failed_reads recording.old)
        (λ after. R.failed_reads recording.new ≡ count_after (fails_recording after) (R.failed_reads recording.old)) }
{
    let line = match next_written(alloc, index, number, offset, growing) {
        Ok(Some(line)) => line,
        Ok(None) => return Err(After::End),
        Err(fault) => return Err(After::Fault(fault)),
    };
    match take_bytes(alloc, recording, line.size as usize) {
        Ok(bytes) => Ok(Listed {
            number,
            offset,
            line,
            bytes,
            damage: Err(AllocError),
        }),
        Err(fault) => Err(After::Fault(fault)),
    }
}

/// Reports what is wrong with the bytes of listed codestreams, in order, and returns how far the check is then.
pub fn tell_all<F: Findings>(
    jobs: &[Listed],
    so_far: SoFar,
    findings: &mut F,
) -> Result<SoFar, AllocError>
    requires few { so_far.number + length jobs.now ≤ most_frames }
    requires bounded { so_far.offset ≤ 2 ^ 32 * so_far.number }
    requires damaged { so_far.damaged ≤ so_far.number }
    ensures told { IfOk result (λ done. LeadsOn (F.found findings.old) (F.found findings.new) so_far done jobs.now []) }
    ensures stops { OnErr result (LeadsSomewhere (F.found findings.old) (F.found findings.new) so_far jobs.now) }
    ensures some { OnErr result (0 < length jobs.now) }
    ensures number { IfOk result (λ done. done.number ≡ so_far.number + length jobs.now) }
    ensures bounded { IfOk result (λ done. done.offset ≤ 2 ^ 32 * done.number) }
    ensures damaged { IfOk result (λ done. done.damaged ≤ done.number) }
{
    let mut so_far = so_far;
    for job in jobs {
        so_far = tell_of(job, so_far, findings)?;
    }
    Ok(so_far)
}

/// Reports what is wrong with the bytes of the next listed codestream, if anything is, and returns how far the check is
/// then.
fn tell_of<F: Findings>(job: &Listed, so_far: SoFar, findings: &mut F) -> Result<SoFar, AllocError>
    requires few { so_far.number < most_frames }
    requires bounded { so_far.offset ≤ 2 ^ 32 * so_far.number }
    requires damaged { so_far.damaged ≤ so_far.number }
    ensures told { (first start : ℕ) (index recording : Option (List ℕ)) (found : Option (List Finding)) (at next : Place)
        → HasCheckedTo first start index recording found (F.found findings.old) at so_far → IsLooked at next job.now
        → IfOk result (HasCheckedTo first start index recording found (F.found findings.new) next) }
    ensures none { OnErr result (F.found findings.new ≡ F.found findings.old) }
    ensures memory { OnErr result (job.now.damage ≢ Ok None) }
    ensures number { IfOk result (λ done. done.number ≡ so_far.number + 1) }
    ensures bounded { IfOk result (λ done. done.offset ≤ 2 ^ 32 * done.number) }
    ensures damaged { IfOk result (λ done. done.damaged ≤ done.number) }
{
    let damage = match job.damage {
        Ok(damage) => damage,
        Err(_) => return Err(AllocError),
    };
    let damaged = tell_damage(job.number, job.offset, &job.line, damage, findings)?;
    let size = job.line.size;
    Ok(SoFar {
        number: so_far.number + 1,
        offset: so_far.offset + u64::from(size),
        damaged: so_far.damaged + damaged,
    })
}

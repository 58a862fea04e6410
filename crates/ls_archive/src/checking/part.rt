//! Checks a part of a recording by the lines of its index, so that nothing before it need be read.
ghost use Rattle.std.specs.Prelude.{◌≡◌, ◌+◌, ◌*◌, ◌^◌, ◌<◌, ◌≤◌, false, Some, None, IfOk, IfErr, IfSome};
ghost use Rattle.ls_frame.specs.View.Devices.{count_after};
ghost use Rattle.ls_film.specs.Film.{most_frames};
ghost use Rattle.ls_film.specs.View.Steps.{failed_by};
ghost use Rattle.ls_archive.specs.View.CheckedLines.{IsCheckedPart, StopsPart, FailsPart, HasReadPart, HasReadPartBatches, blames_index, blames_recording};

use crate::checking::batches::SoFar;
use crate::checking::looking::{Alone, ByThreads, Looking};
use crate::checking::{CheckFault, Checked, Findings, Until, check_lines};
use ls_film::{MOST_FRAMES, Part};
use ls_frame::Feed;
use std::alloc::Global;
use std::thread::Threads;
use thiserror::Error;

/// Why a check of a part stopped.
///
/// Exactly the findings on the lines before were reported.
#[derive(Clone, Copy, Debug, Drop, PartialEq, Eq, Error)]
pub enum CheckPartFault {
    /// A fault as of `check`, never `CheckFault::TooMany`.
    #[error("{0}")]
    Check(CheckFault),
    /// The index has only this number of lines: it lacks the part's last one. All of the part's lines that it has were
    /// checked.
    #[error("only {0} frames")]
    TooFew(u64),
}

/// Checks a part of a recording by the lines of its index, and reports each damaged codestream to `findings`, in order.
/// The index's reader stands at the part's first line, and the recording's at the offset that this line says.
///
/// For each of these lines the recording's bytes are looked at as `check` does. Whatever follows them in the recording
/// isn't read, and `Checked::more` is false. A part that goes to the end ends with the index; if that ends within a line,
/// then before it, since it may still be written. Such a part may have no line. If the bytes of both readers are known
/// (as in memory), the clauses say what was found in them; if those received by `findings` are, which were reported.
/// After a fault the places of both readers are as for `check`.
///
/// Requires frames with numbers below `ls_film::MOST_FRAMES`, in order, and an offset that the codestreams before them
/// can end at.
pub fn check_listed<I: Feed, R: Feed, F: Findings>(
    alloc: Global,
    part: Part,
    offset: u64,
    index: &mut I,
    recording: &mut R,
    findings: &mut F,
) -> Result<Checked, CheckPartFault>
    requires first { part.first < most_frames }
    requires last { IfSome part.last (λ last. (part.first ≤ last) × (last < most_frames)) }
    requires bounded { offset ≤ 2 ^ 32 * part.first }
    ensures checked { IfOk result (IsCheckedPart part.first offset part.last (I.remaining index.old) (I.remaining index.new)
        (R.remaining recording.old) (R.remaining recording.new) (F.found findings.old) (F.found findings.new)) }
    ensures more { IfOk result (λ checked. checked.more ≡ false) }
    ensures stops { IfErr result (StopsPart part.first offset (I.remaining index.old) (I.remaining index.new)
        (R.remaining recording.old) (R.remaining recording.new) (F.found findings.old) (F.found findings.new) part.last) }
    ensures fails { IfErr result (FailsPart part.first offset (I.remaining index.old) (I.remaining index.new)
        (R.remaining recording.old) (R.remaining recording.new) (F.found findings.old) (F.found findings.new)) }
    ensures index_reads { I.failed_reads index.new ≡ count_after (failed_by blames_index result) (I.failed_reads index.old) }
    ensures reads { R.failed_reads recording.new ≡ count_after (failed_by blames_recording result) (R.failed_reads recording.old) }
{
    check_part::<Alone, I, R, F>(alloc, &Alone, part, offset, index, recording, findings)
}

/// As `check_listed`, with at most `workers` threads that look at the codestreams side by side, as `check_by` has.
pub fn check_listed_by<Rt: Threads + Sync, I: Feed, R: Feed, F: Findings>(
    rt: &Rt,
    alloc: Global,
    workers: usize,
    part: Part,
    offset: u64,
    index: &mut I,
    recording: &mut R,
    findings: &mut F,
) -> Result<Checked, CheckPartFault>
    requires first { part.first < most_frames }
    requires last { IfSome part.last (λ last. (part.first ≤ last) × (last < most_frames)) }
    requires bounded { offset ≤ 2 ^ 32 * part.first }
    ensures checked { IfOk result (IsCheckedPart part.first offset part.last (I.remaining index.old) (I.remaining index.new)
        (R.remaining recording.old) (R.remaining recording.new) (F.found findings.old) (F.found findings.new)) }
    ensures more { IfOk result (λ checked. checked.more ≡ false) }
    ensures stops { IfErr result (StopsPart part.first offset (I.remaining index.old) (I.remaining index.new)
        (R.remaining recording.old) (R.remaining recording.new) (F.found findings.old) (F.found findings.new) part.last) }
    ensures fails { IfErr result (FailsPart part.first offset (I.remaining index.old) (I.remaining index.new)
        (R.remaining recording.old) (R.remaining recording.new) (F.found findings.old) (F.found findings.new)) }
    ensures index_reads { HasReadPart (failed_by blames_index result) (I.failed_reads index.old) (I.failed_reads index.new) result }
    ensures reads { HasReadPart (failed_by blames_recording result) (R.failed_reads recording.old) (R.failed_reads recording.new) result }
{
    let threads = ByThreads { rt, workers };
    check_part::<ByThreads<'_, Rt>, I, R, F>(
        alloc, &threads, part, offset, index, recording, findings,
    )
}

/// Checks a part by the lines of its index, whoever looks at the codestreams.
fn check_part<L: Looking, I: Feed, R: Feed, F: Findings>(
    alloc: Global,
    looking: &L,
    part: Part,
    offset: u64,
    index: &mut I,
    recording: &mut R,
    findings: &mut F,
) -> Result<Checked, CheckPartFault>
    requires may_run { L.may_run }
    requires first { part.first < most_frames }
    requires last { IfSome part.last (λ last. (part.first ≤ last) × (last < most_frames)) }
    requires bounded { offset ≤ 2 ^ 32 * part.first }
    ensures checked { IfOk result (IsCheckedPart part.first offset part.last (I.remaining index.old) (I.remaining index.new)
        (R.remaining recording.old) (R.remaining recording.new) (F.found findings.old) (F.found findings.new)) }
    ensures more { IfOk result (λ checked. checked.more ≡ false) }
    ensures stops { IfErr result (StopsPart part.first offset (I.remaining index.old) (I.remaining index.new)
        (R.remaining recording.old) (R.remaining recording.new) (F.found findings.old) (F.found findings.new) part.last) }
    ensures fails { IfErr result (FailsPart part.first offset (I.remaining index.old) (I.remaining index.new)
        (R.remaining recording.old) (R.remaining recording.new) (F.found findings.old) (F.found findings.new)) }
    ensures index_reads { HasReadPartBatches L.most (failed_by blames_index result) (I.failed_reads index.old) (I.failed_reads index.new) result }
    ensures reads { HasReadPartBatches L.most (failed_by blames_recording result) (R.failed_reads recording.old) (R.failed_reads recording.new) result }
{
    match part.last {
        Some(last) => check_between(
            alloc, looking, part.first, last, offset, index, recording, findings,
        ),
        None => check_rest(
            alloc, looking, part.first, offset, index, recording, findings,
        ),
    }
}

/// Checks the codestreams of the lines from `first` to `last`.
fn check_between<L: Looking, I: Feed, R: Feed, F: Findings>(
    alloc: Global,
    looking: &L,
    first: u64,
    last: u64,
    offset: u64,
    index: &mut I,
    recording: &mut R,
    findings: &mut F,
) -> Result<Checked, CheckPartFault>
    requires may_run { L.may_run }
    requires order { first ≤ last }
    requires few { last < most_frames }
    requires bounded { offset ≤ 2 ^ 32 * first }
    ensures checked { IfOk result (IsCheckedPart first offset (Some last) (I.remaining index.old) (I.remaining index.new)
        (R.remaining recording.old) (R.remaining recording.new) (F.found findings.old) (F.found findings.new)) }
    ensures more { IfOk result (λ checked. checked.more ≡ false) }
    ensures stops { IfErr result (StopsPart first offset (I.remaining index.old) (I.remaining index.new)
        (R.remaining recording.old) (R.remaining recording.new) (F.found findings.old) (F.found findings.new) (Some last)) }
    ensures fails { IfErr result (FailsPart first offset (I.remaining index.old) (I.remaining index.new)
        (R.remaining recording.old) (R.remaining recording.new) (F.found findings.old) (F.found findings.new)) }
    ensures index_reads { HasReadPartBatches L.most (failed_by blames_index result) (I.failed_reads index.old) (I.failed_reads index.new) result }
    ensures reads { HasReadPartBatches L.most (failed_by blames_recording result) (R.failed_reads recording.old) (R.failed_reads recording.new) result }
{
    let begun = SoFar {
        number: first,
        offset,
        damaged: 0,
    };
    let until = Until {
        end: last + 1,
        growing: false,
    };
    match check_lines(alloc, looking, index, recording, findings, begun, until) {
        Ok((so_far, ended)) => {
            if ended {
                return Err(CheckPartFault::TooFew(so_far.number));
            }
            Ok(Checked {
                frames: so_far.number - first,
                damaged: so_far.damaged,
                bytes: so_far.offset - offset,
                more: false,
            })
        }
        Err(fault) => Err(CheckPartFault::Check(fault)),
    }
}

/// Checks the codestreams of the lines from `first` on.
fn check_rest<L: Looking, I: Feed, R: Feed, F: Findings>(
    alloc: Global,
    looking: &L,
    first: u64,
    offset: u64,
    index: &mut I,
    recording: &mut R,
    findings: &mut F,
) -> Result<Checked, CheckPartFault>
    requires may_run { L.may_run }
    requires few { first < most_frames }
    requires bounded { offset ≤ 2 ^ 32 * first }
    ensures checked { IfOk result (IsCheckedPart first offset None (I.remaining index.old) (I.remaining index.new)
        (R.remaining recording.old) (R.remaining recording.new) (F.found findings.old) (F.found findings.new)) }
    ensures more { IfOk result (λ checked. checked.more ≡ false) }
    ensures stops { IfErr result (StopsPart first offset (I.remaining index.old) (I.remaining index.new)
        (R.remaining recording.old) (R.remaining recording.new) (F.found findings.old) (F.found findings.new) None) }
    ensures fails { IfErr result (FailsPart first offset (I.remaining index.old) (I.remaining index.new)
        (R.remaining recording.old) (R.remaining recording.new) (F.found findings.old) (F.found findings.new)) }
    ensures index_reads { HasReadPartBatches L.most (failed_by blames_index result) (I.failed_reads index.old) (I.failed_reads index.new) result }
    ensures reads { HasReadPartBatches L.most (failed_by blames_recording result) (R.failed_reads recording.old) (R.failed_reads recording.new) result }
{
    let begun = SoFar {
        number: first,
        offset,
        damaged: 0,
    };
    let until = Until {
        end: MOST_FRAMES,
        growing: true,
    };
    match check_lines(alloc, looking, index, recording, findings, begun, until) {
        Ok((so_far, _ended)) => Ok(Checked {
            frames: so_far.number - first,
            damaged: so_far.damaged,
            bytes: so_far.offset - offset,
            more: false,
        }),
        Err(fault) => Err(CheckPartFault::Check(fault)),
    }
}

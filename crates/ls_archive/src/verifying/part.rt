//! Whether a part of a recording has the frames that the film has there.
ghost use Rattle.std.specs.Prelude.{◌≡◌, ◌+◌, ◌<◌, ◌≤◌, ◌^◌, ℕ, Some, None, false, IfOk, IfErr, IfSome, OnOk};
ghost use Rattle.ls_frame.specs.View.Devices.{count_after};
ghost use Rattle.ls_film.specs.Film.{most_frames};
ghost use Rattle.ls_film.specs.View.Parts.{GavePassed};
ghost use Rattle.ls_film.specs.View.Steps.{failed_by};
ghost use Rattle.ls_archive.specs.View.Verifying.{number_of, number_in};
ghost use Rattle.ls_archive.specs.View.VerifiedParts.{later, later_fault, IsDifference, GaveImages, FindsFrom, StopsRest, FailsRest, StopsImages, StopsStreams, FindsPart, StopsVerifyPart, FailsVerifyPart, blames_film, blames_recording};

use crate::faults::VerifyFault;
use crate::verifying::{Verdict, compare_all, compare_first, next_image};
use ls_film::codestreams::OneByOne;
use ls_film::part::pass_streams;
use ls_film::{Part, PlayFault};
use ls_frame::Feed;
use std::alloc::Global;
use thiserror::Error;

/// Why a part of a film can't be compared with that of a recording.
///
/// All frames of the part before the one at fault were equal.
#[derive(Clone, Copy, Debug, Drop, PartialEq, Eq, Error)]
pub enum VerifyPartFault {
    /// A fault as of `verify`, with frames numbered from the beginning of film and recording. The film's may be one before
    /// the part.
    #[error("{0}")]
    Verify(VerifyFault),
    /// The codestreams before the part can't be passed over: a fault as of `ls_film::play_part`.
    #[error("{0}")]
    Passing(PlayFault),
    /// The film has only this number of frames: it ends before the part, or it ends together with the recording, and the
    /// part's last frame is missing.
    #[error("only {0} frames")]
    FilmTooFew(u64),
    /// The recording has only this number of codestreams, and ends before the part.
    #[error("only {0} frames")]
    RecordingTooFew(u64),
}

/// Whether a part of a recording has the frames that the film has there, whatever the form of the headers on both sides.
/// A part that goes to the end has all frames from its first on, and may have none.
///
/// The film's images before the part are read and dropped; then the codestreams before it are passed over by their
/// markers, so faults that only decoding would show aren't found in them. Then a frame of each is read in turn, up to the
/// first two that differ, and nothing after the part. In the verdict frames are numbered from the beginning, but
/// `Verdict::Same` has the number of those compared. If the bytes are known (as in memory), the clauses say which were
/// read. After a fault the places of both readers are unspecified.
///
/// Requires a first frame below `ls_film::MOST_FRAMES`, and a last one, if any, below it too and not before the first.
pub fn verify_part<F: Feed, R: Feed>(
    alloc: Global,
    part: Part,
    film: &mut F,
    recording: &mut R,
) -> Result<Verdict, VerifyPartFault>
    requires first { part.first < most_frames }
    requires last { IfSome part.last (λ last. (part.first ≤ last) × (last < most_frames)) }
    ensures finds { IfOk result (FindsPart (F.remaining film.old) (F.remaining film.new)
        (R.remaining recording.old) (R.remaining recording.new) part.first part.last) }
    ensures stops { IfErr result (StopsVerifyPart (F.remaining film.old) (F.remaining film.new)
        (R.remaining recording.old) (R.remaining recording.new) part.first part.last) }
    ensures io { IfErr result (FailsVerifyPart (R.remaining recording.old) (R.remaining recording.new) part.first) }
    ensures film_reads { F.failed_reads film.new ≡ count_after (failed_by blames_film result) (F.failed_reads film.old) }
    ensures recording_reads { R.failed_reads recording.new ≡ count_after (failed_by blames_recording result) (R.failed_reads recording.old) }
{
    pass_images(alloc, film, part.first)?;
    pass_codestreams(alloc, recording, part.first)?;
    match part.last {
        Some(last) => compare_between(alloc, part.first, last, film, recording),
        None => compare_rest(alloc, part.first, film, recording),
    }
}

/// Reads the film's first `count` images, and drops them.
fn pass_images<F: Feed>(alloc: Global, film: &mut F, count: u64) -> Result<(), VerifyPartFault>
    ensures passed { OnOk result (GaveImages (F.remaining film.old) (F.remaining film.new) count) }
    ensures stops { IfErr result (StopsImages (F.remaining film.old) (F.remaining film.new) count) }
    ensures reads { F.failed_reads film.new ≡ count_after (failed_by blames_film result) (F.failed_reads film.old) }
    ensures blame { failed_by blames_recording result ≡ false }
{
    for number in 0..count {
        match next_image(alloc, film, number) {
            Ok(Some(_)) => {}
            Ok(None) => return Err(VerifyPartFault::FilmTooFew(number)),
            Err(fault) => return Err(VerifyPartFault::Verify(fault)),
        }
    }
    Ok(())
}

/// Passes over the recording's first `count` codestreams by their markers.
fn pass_codestreams<R: Feed>(
    alloc: Global,
    recording: &mut R,
    count: u64,
) -> Result<(), VerifyPartFault>
    ensures passed { OnOk result (GavePassed (R.remaining recording.old) (R.remaining recording.new) count) }
    ensures stops { IfErr result (StopsStreams (R.remaining recording.old) (R.remaining recording.new) count) }
    ensures reads { R.failed_reads recording.new ≡ count_after (failed_by blames_recording result) (R.failed_reads recording.old) }
    ensures blame { failed_by blames_film result ≡ false }
{
    match pass_streams(alloc, recording, count) {
        Ok(run) => {
            if run.ended {
                return Err(VerifyPartFault::RecordingTooFew(run.frames));
            }
            Ok(())
        }
        Err(fault) => Err(VerifyPartFault::Passing(fault)),
    }
}

/// Compares what film and recording have left, up to the end of both; their first frames have the number `first`.
fn compare_rest<F: Feed, R: Feed>(
    alloc: Global,
    first: u64,
    film: &mut F,
    recording: &mut R,
) -> Result<Verdict, VerifyPartFault>
    requires { first < most_frames }
    ensures finds { IfOk result (FindsFrom (F.remaining film.old) (F.remaining film.new) (R.remaining recording.old) (R.remaining recording.new) first None) }
    ensures stops { IfErr result (StopsRest (F.remaining film.old) (F.remaining film.new) (R.remaining recording.old) (R.remaining recording.new) first None) }
    ensures io { IfErr result (FailsRest (R.remaining recording.old) (R.remaining recording.new) first) }
    ensures film_reads { F.failed_reads film.new ≡ count_after (failed_by blames_film result) (F.failed_reads film.old) }
    ensures recording_reads { R.failed_reads recording.new ≡ count_after (failed_by blames_recording result) (R.failed_reads recording.old) }
{
    match compare_all(alloc, film, &mut OneByOne, recording) {
        Ok(verdict) => Ok(verdict.later(first)),
        Err(fault) => Err(VerifyPartFault::Verify(fault.later(first))),
    }
}

/// Compares the frames from `first` to `last`, at whose beginning both stand.
fn compare_between<F: Feed, R: Feed>(
    alloc: Global,
    first: u64,
    last: u64,
    film: &mut F,
    recording: &mut R,
) -> Result<Verdict, VerifyPartFault>
    requires order { first ≤ last }
    requires few { last < most_frames }
    ensures finds { IfOk result (FindsFrom (F.remaining film.old) (F.remaining film.new) (R.remaining recording.old) (R.remaining recording.new) first (Some last)) }
    ensures stops { IfErr result (StopsRest (F.remaining film.old) (F.remaining film.new) (R.remaining recording.old) (R.remaining recording.new) first (Some last)) }
    ensures io { IfErr result (FailsRest (R.remaining recording.old) (R.remaining recording.new) first) }
    ensures film_reads { F.failed_reads film.new ≡ count_after (failed_by blames_film result) (F.failed_reads film.old) }
    ensures recording_reads { R.failed_reads recording.new ≡ count_after (failed_by blames_recording result) (R.failed_reads recording.old) }
{
    let most = last - first + 1;
    match compare_first(alloc, film, &mut OneByOne, recording, most) {
        Ok(None) => Ok(Verdict::Same(most)),
        Ok(Some(verdict)) => found_within(first, verdict),
        Err(fault) => Err(VerifyPartFault::Verify(fault.later(first))),
    }
}

/// The result if this verdict on the frames from `first` on is found before a part's last frame: if both are at their
/// ends, that frame is missing.
fn found_within(first: u64, verdict: Verdict) -> Result<Verdict, VerifyPartFault>
    requires { first + number_of verdict < 2 ^ 64 }
    ensures differs { IfOk result (λ found. (found ≡ later first verdict) × IsDifference verdict) }
    ensures same { IfErr result (λ fault. (frames : ℕ) × (verdict ≡ Verdict.Same frames) × (fault ≡ VerifyPartFault.FilmTooFew (first + frames))) }
    ensures film_blame { failed_by blames_film result ≡ false }
    ensures recording_blame { failed_by blames_recording result ≡ false }
{
    match verdict {
        Verdict::Same(frames) => Err(VerifyPartFault::FilmTooFew(first + frames)),
        _ => Ok(verdict.later(first)),
    }
}

impl Verdict {
    /// Numbers the frames of a verdict on what follows the first `first` ones from the beginning.
    fn later(self, first: u64) -> Verdict
        requires { first + number_of self < 2 ^ 64 }
        ensures { result ≡ later first self }
    {
        match self {
            Verdict::Same(frames) => Verdict::Same(frames),
            Verdict::Differs(number, difference) => Verdict::Differs(first + number, difference),
            Verdict::Missing(number) => Verdict::Missing(first + number),
            Verdict::Extra(number) => Verdict::Extra(first + number),
        }
    }
}

impl VerifyFault {
    /// Numbers the frame of a fault that was met after the first `first` ones from the beginning.
    fn later(self, first: u64) -> VerifyFault
        requires { first + number_in self < 2 ^ 64 }
        ensures { result ≡ later_fault first self }
    {
        match self {
            VerifyFault::Film(number, fault) => VerifyFault::Film(first + number, fault),
            VerifyFault::Recording(number, fault) => VerifyFault::Recording(first + number, fault),
            VerifyFault::RecordingIo(number) => VerifyFault::RecordingIo(first + number),
            other => other,
        }
    }
}

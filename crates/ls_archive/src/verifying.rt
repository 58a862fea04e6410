//! Whether a recording has a film's frames, frame by frame, whatever the headers' form.
ghost use Rattle.std.specs.Prelude.{◌≡◌, ◌≤◌, ◌<◌, ◌⊎◌, ◌||◌, ℕ, false, List, Option, length, IfOk, IfErr, IfSome, IfNone, MatchResult};
ghost use Rattle.ls_frame.specs.Netpbm.{IsImageOf};
ghost use Rattle.ls_frame.specs.Picture.{Picture};
ghost use Rattle.ls_frame.specs.View.Devices.{count_after};
ghost use Rattle.ls_stream.specs.Grammar.{Spells};
ghost use Rattle.ls_film.specs.Film.{most_frames, IsFilm};
ghost use Rattle.ls_film.specs.View.Steps.{failed_by};
ghost use Rattle.ls_archive.specs.Verify.{Compares, difference_of};
ghost use Rattle.ls_archive.specs.View.Comparing.{GivesCoded, HasCompared, HasFound, HasRunTo, FindsAhead, HasReadAhead};
ghost use Rattle.ls_archive.specs.View.Verifying.{FailsAfter, FailsNext, Finds, Stops, GaveNext, StopsFilm, StopsRecording, verdict_at, at_most, blames_film, blames_recording, FindsIn, StopsIn, number_of, number_in};

pub mod part;

use crate::faults::VerifyFault;
use ls_film::MOST_FRAMES;
use ls_film::ahead::SideBySide;
use ls_film::codestreams::{OneByOne, Recorded, Unread};
use ls_film::engine::Images;
use ls_frame::laws::{
    bytes_break_or_hold_an_image, images_have_one_frame, no_image_begins_another,
};
use ls_frame::{Feed, Frame, Kind, next_frame};
use ls_stream::laws::{no_codestream_begins_another, one_frame_each};
use std::alloc::Global;
use std::thread::Threads;

/// What two frames differ in: the first of these that differs. The film's value comes before the recording's.
#[derive(Clone, Copy, Debug, Drop, PartialEq, Eq)]
pub enum Difference {
    /// Their kinds.
    Kinds(Kind, Kind),
    /// Their widths and heights: width and height of the film's frame, then those of the recording's.
    Sizes(u16, u16, u16, u16),
    /// Their maxvals.
    Maxvals(u16, u16),
    /// Only their samples.
    Samples,
}

/// What a comparison finds.
#[derive(Clone, Copy, Debug, Drop, PartialEq, Eq)]
pub enum Verdict {
    /// Film and recording have the same frames, this number of them.
    Same(u64),
    /// This number of frames are the same; then each has another, and these two differ in this.
    Differs(u64, Difference),
    /// The recording ends after this number of the film's frames, and the film has another.
    Missing(u64),
    /// The film ends after this number of the recording's frames, and the recording has another.
    Extra(u64),
}

/// Whether a recording has the frames of a film of Netpbm images, whatever the form of the headers on both sides.
///
/// A frame of each is read in turn, the film's first, up to the first two that differ. If the bytes are known (as in
/// memory), the clauses say which were read. After a fault the places of both readers are unspecified.
pub fn verify<F: Feed, R: Feed>(
    alloc: Global,
    film: &mut F,
    recording: &mut R,
) -> Result<Verdict, VerifyFault>
    ensures finds { IfOk result (Finds
        (F.remaining film.old) (F.remaining film.new) (R.remaining recording.old) (R.remaining recording.new)) }
    ensures stops { IfErr result (Stops (F.remaining film.old) (R.remaining recording.old)) }
    ensures io { IfErr result (FailsAfter (R.remaining recording.old) (R.remaining recording.new)) }
    ensures film_reads { F.failed_reads film.new ≡ count_after (failed_by blames_film result) (F.failed_reads film.old) }
    ensures recording_reads { R.failed_reads recording.new ≡ count_after (failed_by blames_recording result) (R.failed_reads recording.old) }
{
    compare_all::<OneByOne, F, R>(alloc, film, &mut OneByOne, recording)
}

/// As `verify`, with at most `workers` threads that decode the recording's codestreams side by side.
///
/// The recording may be read further than the verdict says, and a read of it after the frames compared may have failed.
/// `RecordingIo` is returned once all frames that were read before are compared. No workers count as one.
pub fn verify_by<Rt: Threads + Sync, F: Feed, R: Feed>(
    rt: &Rt,
    alloc: Global,
    workers: usize,
    film: &mut F,
    recording: &mut R,
) -> Result<Verdict, VerifyFault>
    ensures finds { IfOk result (FindsAhead
        (F.remaining film.old) (F.remaining film.new) (R.remaining recording.old)) }
    ensures stops { IfErr result (Stops (F.remaining film.old) (R.remaining recording.old)) }
    ensures io { IfErr result (FailsAfter (R.remaining recording.old) (R.remaining recording.new)) }
    ensures film_reads { F.failed_reads film.new ≡ count_after (failed_by blames_film result) (F.failed_reads film.old) }
    ensures recording_reads { HasReadAhead (R.failed_reads recording.old) (R.failed_reads recording.new) result }
{
    let mut source = SideBySide::new(rt, alloc, workers);
    compare_all::<SideBySide<'_, Rt, Frame>, F, R>(alloc, film, &mut source, recording)
}

/// Whether a recording in memory has the frames of a film in memory.
///
/// The program compares by `verify`. This is the same over bytes in memory, all of which are known. If they are a film
/// and a recording of at most `ls_film::MOST_FRAMES` frames each, the verdict is that on their frames, or the fault is
/// `NoMemory`.
pub fn verify_bytes(alloc: Global, film: &[u8], recording: &[u8]) -> Result<Verdict, VerifyFault>
    ensures finds { IfOk result (FindsIn film.now recording.now) }
    ensures stops { IfErr result (StopsIn film.now recording.now) }
    ensures of_films { (frames others : List Picture) → length frames ≤ most_frames → length others ≤ most_frames
        → IsFilm IsImageOf film.now frames → IsFilm Spells recording.now others
        → MatchResult result (Compares frames others) (λ fault. fault ≡ VerifyFault.NoMemory) }
{
    no_image_begins_another();
    images_have_one_frame();
    bytes_break_or_hold_an_image();
    no_codestream_begins_another();
    one_frame_each();
    let mut images = film;
    let mut codestreams = recording;
    verify(alloc, &mut images, &mut codestreams)
}

/// Compares a film with a recording, whose frames come from a source.
pub(crate) fn compare_all<S: Recorded<Frame>, F: Feed, R: Feed>(
    alloc: Global,
    film: &mut F,
    source: &mut S,
    recording: &mut R,
) -> Result<Verdict, VerifyFault>
    requires { S.Images.may_run }
    ensures finds { (place : Option (List ℕ)) → S.Images.stands source.old place (R.remaining recording.old)
        → IfOk result (HasFound S.Images.stands (F.remaining film.old) (F.remaining film.new) place (R.remaining recording.new) source.new) }
    ensures stops { (place : Option (List ℕ)) → S.Images.stands source.old place (R.remaining recording.old)
        → IfErr result (Stops (F.remaining film.old) place) }
    ensures io { (place : Option (List ℕ)) → S.Images.stands source.old place (R.remaining recording.old)
        → IfErr result (FailsAfter place (R.remaining recording.new)) }
    ensures film_reads { F.failed_reads film.new ≡ count_after (failed_by blames_film result) (F.failed_reads film.old) }
    ensures recording_reads { (failed : ℕ) → R.failed_reads recording.old ≡ count_after (S.Images.owes source.old) failed
        → R.failed_reads recording.new ≡ count_after (failed_by blames_recording result || S.Images.owes source.new) failed }
    ensures number { MatchResult result (λ verdict. number_of verdict ≤ most_frames) (λ fault. number_in fault ≤ most_frames) }
{
    let first = compare_first::<S, F, R>(alloc, film, source, recording, MOST_FRAMES)?;
    if let Some(verdict) = first {
        return Ok(verdict);
    }
    let last = compare::<S, F, R>(alloc, film, source, recording, MOST_FRAMES)?;
    at_most(last)
}

/// Compares the first `most` frames of a film and a recording, and returns the verdict on them; `None` if both have so
/// many, and these are equal.
pub(crate) fn compare_first<S: Recorded<Frame>, F: Feed, R: Feed>(
    alloc: Global,
    film: &mut F,
    source: &mut S,
    recording: &mut R,
    most: u64,
) -> Result<Option<Verdict>, VerifyFault>
    requires may_run { S.Images.may_run }
    requires few { most ≤ most_frames }
    ensures finds { (place : Option (List ℕ)) → S.Images.stands source.old place (R.remaining recording.old)
        → IfOk result (λ verdict. IfSome verdict (HasFound S.Images.stands (F.remaining film.old) (F.remaining film.new) place (R.remaining recording.new) source.new)) }
    ensures same { (place : Option (List ℕ)) → S.Images.stands source.old place (R.remaining recording.old)
        → IfOk result (λ verdict. IfNone verdict (HasRunTo S.Images.stands (F.remaining film.old) (F.remaining film.new) place (R.remaining recording.new) source.new most)) }
    ensures before { IfOk result (λ verdict. IfSome verdict (λ verdict. number_of verdict < most)) }
    ensures stops { (place : Option (List ℕ)) → S.Images.stands source.old place (R.remaining recording.old)
        → IfErr result (Stops (F.remaining film.old) place) }
    ensures io { (place : Option (List ℕ)) → S.Images.stands source.old place (R.remaining recording.old)
        → IfErr result (FailsAfter place (R.remaining recording.new)) }
    ensures number { IfErr result (λ fault. number_in fault < most) }
    ensures film_reads { F.failed_reads film.new ≡ count_after (failed_by blames_film result) (F.failed_reads film.old) }
    ensures recording_reads { (failed : ℕ) → R.failed_reads recording.old ≡ count_after (S.Images.owes source.old) failed
        → R.failed_reads recording.new ≡ count_after (failed_by blames_recording result || S.Images.owes source.new) failed }
{
    for number in 0..most {
        let compared = compare::<S, F, R>(alloc, film, source, recording, number)?;
        if let Some(verdict) = compared {
            return Ok(Some(verdict));
        }
    }
    Ok(None)
}

/// Reads the frames of this number, and returns the verdict on them; `None` if they are equal.
fn compare<S: Recorded<Frame>, F: Feed, R: Feed>(
    alloc: Global,
    film: &mut F,
    source: &mut S,
    recording: &mut R,
    number: u64,
) -> Result<Option<Verdict>, VerifyFault>
    requires { S.Images.may_run }
    ensures compared { (place : Option (List ℕ)) → S.Images.stands source.old place (R.remaining recording.old)
        → IfOk result (HasCompared S.Images.stands (F.remaining film.old) (F.remaining film.new) place (R.remaining recording.new) source.new number) }
    ensures stops { (place : Option (List ℕ)) → S.Images.stands source.old place (R.remaining recording.old)
        → IfErr result (λ fault. StopsFilm (F.remaining film.old) number fault ⊎ StopsRecording place number fault) }
    ensures io { (place : Option (List ℕ)) → S.Images.stands source.old place (R.remaining recording.old)
        → IfErr result (FailsNext place (R.remaining recording.new) number) }
    ensures film_reads { F.failed_reads film.new ≡ count_after (failed_by blames_film result) (F.failed_reads film.old) }
    ensures recording_reads { (failed : ℕ) → R.failed_reads recording.old ≡ count_after (S.Images.owes source.old) failed
        → R.failed_reads recording.new ≡ count_after (failed_by blames_recording result || S.Images.owes source.new) failed }
    ensures number { MatchResult result (λ verdict. IfSome verdict (λ verdict. number_of verdict ≡ number)) (λ fault. number_in fault ≤ number) }
{
    let image = next_image(alloc, film, number)?;
    let coded = next_coded::<S, R>(alloc, source, recording, number)?;
    Ok(verdict_at(number, &image, &coded))
}

/// The film's frame of this number; `None` exactly at its end.
pub(crate) fn next_image<F: Feed>(
    alloc: Global,
    film: &mut F,
    number: u64,
) -> Result<Option<Frame>, VerifyFault>
    ensures next { IfOk result (GaveNext IsImageOf (F.remaining film.old) (F.remaining film.new)) }
    ensures stops { IfErr result (StopsFilm (F.remaining film.old) number) }
    ensures film_reads { F.failed_reads film.new ≡ count_after (failed_by blames_film result) (F.failed_reads film.old) }
{
    match next_frame(alloc, film) {
        Ok(next) => Ok(next),
        Err(fault) => Err(VerifyFault::of_film(number, fault)),
    }
}

/// The recording's frame of this number; `None` exactly at its end.
fn next_coded<S: Recorded<Frame>, R: Feed>(
    alloc: Global,
    source: &mut S,
    recording: &mut R,
    number: u64,
) -> Result<Option<Frame>, VerifyFault>
    requires { S.Images.may_run }
    ensures next { (place : Option (List ℕ)) → S.Images.stands source.old place (R.remaining recording.old)
        → IfOk result (GivesCoded S.Images.stands place (R.remaining recording.new) source.new) }
    ensures stops { (place : Option (List ℕ)) → S.Images.stands source.old place (R.remaining recording.old)
        → IfErr result (StopsRecording place number) }
    ensures io { (place : Option (List ℕ)) → S.Images.stands source.old place (R.remaining recording.old)
        → IfErr result (FailsNext place (R.remaining recording.new) number) }
    ensures number { IfErr result (λ fault. number_in fault ≤ number) }
    ensures film_reads { failed_by blames_film result ≡ false }
    ensures recording_reads { (failed : ℕ) → R.failed_reads recording.old ≡ count_after (S.Images.owes source.old) failed
        → R.failed_reads recording.new ≡ count_after (failed_by blames_recording result || S.Images.owes source.new) failed }
{
    match source.next(alloc, recording) {
        Ok(next) => Ok(next),
        Err(Unread::Stream(fault)) => Err(VerifyFault::of_recording(number, fault)),
        Err(Unread::Io) => Err(VerifyFault::RecordingIo(number)),
    }
}

/// The verdict on the frames of this number, or the ends, of film and recording; `None` if they are two equal frames.
fn verdict_at(number: u64, image: &Option<Frame>, coded: &Option<Frame>) -> Option<Verdict>
    ensures { result ≡ verdict_at number image.now coded.now }
{
    match (image, coded) {
        (Some(image), Some(coded)) if image == coded => None,
        (Some(image), Some(coded)) => Some(Verdict::Differs(number, difference_of(image, coded))),
        (Some(_), None) => Some(Verdict::Missing(number)),
        (None, Some(_)) => Some(Verdict::Extra(number)),
        (None, None) => Some(Verdict::Same(number)),
    }
}

/// What two different frames differ in.
fn difference_of(image: &Frame, coded: &Frame) -> Difference
    ensures { result ≡ difference_of image.now coded.now }
{
    if image.kind() != coded.kind() {
        return Difference::Kinds(image.kind(), coded.kind());
    }
    if image.width() != coded.width() || image.height() != coded.height() {
        return Difference::Sizes(image.width(), image.height(), coded.width(), coded.height());
    }
    if image.maxval() != coded.maxval() {
        return Difference::Maxvals(image.maxval(), coded.maxval());
    }
    Difference::Samples
}

/// The result after the most frames of a film, where both must end.
fn at_most(verdict: Option<Verdict>) -> Result<Verdict, VerifyFault>
    ensures { result ≡ at_most verdict }
{
    match verdict {
        Some(Verdict::Same(frames)) => Ok(Verdict::Same(frames)),
        _ => Err(VerifyFault::TooMany),
    }
}

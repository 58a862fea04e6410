//! Checks a recording by its index.
//!
//! A line of the index says at which offset its codestream begins and how many bytes it has. So damage, even to
//! markers, doesn't keep any other codestream from being checked.
ghost use Rattle.std.specs.Prelude.{if◌then◌else◌, ◌≡◌, ◌≢◌, ◌⊎◌, ◌+◌, ◌*◌, ◌^◌, ◌<◌, ◌≤◌, ◌++◌, ◌∷◌, ◌↔◌, ℕ, List, [], Option, Some, IsTrue, decimal, flat_map, IsSome, IfOk, IfErr, IfSome, IfNone, OnOk, OnErr, MatchOption, codes, length, true, false, Err};
ghost use Rattle.ls_frame.specs.declared.frame.Kind.{Kind};
ghost use Rattle.ls_frame.specs.Picture.{Picture};
ghost use Rattle.ls_frame.specs.View.Devices.{count_after, failed_read};
ghost use Rattle.ls_frame.specs.View.Known.{Tells, Gave, HadBytes, WasAtEnd, known};
ghost use Rattle.ls_film.specs.Film.{most_frames};
ghost use Rattle.ls_film.specs.Listing.{kind_text, column};
ghost use Rattle.ls_stream.specs.Grammar.{Spells, most_bytes};
ghost use Rattle.ls_film.specs.View.Steps.{failed_by};
ghost use Rattle.ls_archive.specs.View.Checking.{Line, HasNoLineFeed, beginning, AreNumbers, EndsColumn, IsSum, sum_at_end, AreColumns, IsLine, HasEntry, HasLine, IsGood, IsDamage};
ghost use Rattle.ls_archive.specs.Index.{line};
ghost use Rattle.ls_archive.specs.View.Checks.{FindsMore, GaveAtMost, IsOneLine, IsFrontLine, IsTorn, is_of_line, are_of_line, IsUntorn, EndsLines, IsFound, HasLooked, HasChecked, IsChecked, StopsNextLine, StopsReading, Stops, Fails, blames_index, blames_recording};
ghost use Rattle.ls_archive.specs.View.Batches.{HasReadBeyond, HasReadBatches};
ghost use Rattle.ls_archive.specs.View.CheckedLines.{HasCheckedLines, StopsLines, FailsLines};
ghost use Rattle.ls_archive.specs.declared.checking.Finding.{Finding};

mod batches;
mod looking;
pub mod part;

use crate::entry::Indexed;
use crate::index::line;
use crate::strict::Seen;
use batches::{After, SoFar, take, tell_all};
use hex::{FromHex, encode_to_slice};
use itoa::Buffer;
use looking::{Alone, ByThreads, Looking};
use ls_film::MOST_FRAMES;
use ls_film::codestreams::made_of;
use ls_film::engine::Made;
use ls_frame::{Feed, FeedFault};
use ls_stream::StreamFault;
use ls_stream::laws::outlines_follow_the_grammar;
use memchr::memchr;
use std::alloc::{AllocError, Global};
use std::str::from_utf8;
use std::thread::Threads;
use thiserror::Error;

/// What is wrong with the bytes at the offset of a line of the index.
#[derive(Clone, Copy, Debug, Drop, PartialEq, Eq, Error)]
pub enum Damage {
    /// They don't match the line, and are fewer than it says: the recording ends before.
    #[error("truncated")]
    Truncated,
    /// They are as many as the line says, but `write_index` writes another line for them, or none.
    #[error("changed")]
    Changed,
    /// They match the line, but can't be decoded: this is their first fault, never `StreamFault::NoMemory`.
    #[error("{0}")]
    Fault(StreamFault),
}

/// A damaged codestream.
#[derive(Clone, Copy, Debug, Drop, PartialEq, Eq)]
pub struct Finding {
    /// Its number in the index, from 0.
    pub number: u64,
    /// The offset at which it should begin: the number of bytes of the recording before it.
    pub place: u64,
    /// The size that it should have, in bytes.
    pub count: u64,
    /// The SHA-256 that it should have, if the index says one.
    pub sum: Option<[u8; 32]>,
    /// What is wrong with the bytes at that offset.
    pub damage: Damage,
}

/// Receives findings, one at a time.
pub trait Findings {
    /// Those received so far, in order, if they are known (as a vector's are).
    ghost found: { Self → Option (List Finding) };

    /// Receives one more finding. On an error it isn't received.
    fn tell(&mut self, finding: Finding) -> Result<(), AllocError>
        ensures told { OnOk result (FindsMore (found self.old) (found self.new) (finding ∷ [])) }
        ensures none { OnErr result (found self.new ≡ found self.old) };
}

/// Collects findings in memory, in order.
impl Findings for Vec<Finding> {
    ghost use Rattle.std.specs.Prelude.{Some};

    ghost found = { λ findings. Some findings.items };

    fn tell(&mut self, finding: Finding) -> Result<(), AllocError> {
        match self.push(finding) {
            Ok(()) => Ok(()),
            Err(_) => Err(AllocError),
        }
    }
}

/// The result of a check by an index.
#[derive(Clone, Copy, Debug, PartialEq, Eq)]
pub struct Checked {
    /// The number of lines of the index: `ls_film::MOST_FRAMES` at most.
    pub frames: u64,
    /// The number of their codestreams that are damaged, which is the number of findings that were reported.
    pub damaged: u64,
    /// The total of the sizes that the lines say, in bytes.
    pub bytes: u64,
    /// Whether the recording goes on after these bytes.
    pub more: bool,
}

/// Why a check stopped.
///
/// Exactly the findings on the lines before were reported.
#[derive(Clone, Copy, Debug, Drop, PartialEq, Eq, Error)]
pub enum CheckFault {
    /// The index has no valid line of this number, from 0, where that should stand: another number, an offset other
    /// than the end of the codestream before, or a form that `write_index` doesn't write (such as CR before LF, or a
    /// sum in upper case), or the index ends before the line's LF.
    #[error("line {0}: not of an index")]
    Line(u64),
    /// A read of the index failed.
    #[error("read failed")]
    IndexIo,
    /// A read of the recording failed.
    #[error("read failed")]
    Io,
    /// An allocation failed. Never comes once the whole index is read and the recording has nothing after its
    /// codestreams.
    #[error("no memory")]
    NoMemory,
    /// The index has more than `ls_film::MOST_FRAMES` lines: one is numbered 4,294,967,295.
    #[error("too many frames")]
    TooMany,
}

impl From<AllocError> for CheckFault {
    ghost use Rattle.std.specs.Prelude.{◌≡◌};
    ghost use Rattle.ls_archive.specs.declared.checking.CheckFault.TheVariants.{NoMemory};

    ghost from_gives = { λ _ fault. fault ≡ NoMemory };

    fn from(_refused: AllocError) -> CheckFault {
        CheckFault::NoMemory
    }
}

/// Checks a recording by its index, and reports each damaged codestream to `findings`, in order.
///
/// For each line of the index it looks at the recording's bytes from the line's offset on, as many as the line says, or
/// all that are left. They are good if `write_index` writes this line for them, with their SHA-256 or without, and they
/// are a codestream of a frame.
///
/// So an index with sums finds bytes of another SHA-256. One without sums finds bytes of another size, with other
/// headers, or with data that can't be decoded; a changed byte that affects none of these isn't found.
///
/// A line has the form that `write_index` writes: number, offset and size of its codestream, the kind, eight numbers,
/// and the sum or nothing, with one blank between, and LF; the offset is where the codestream of the line before ends.
/// One codestream is in memory at a time. If the bytes of both readers are known (as in memory), the clauses say what
/// was found in them; if those received by `findings` are, which were reported. After `IndexIo` and `Io` the damage of
/// all codestreams that were read before the failed read was reported. After any other fault the places of both readers
/// are unspecified.
pub fn check<I: Feed, R: Feed, F: Findings>(
    alloc: Global,
    index: &mut I,
    recording: &mut R,
    findings: &mut F,
) -> Result<Checked, CheckFault>
    ensures checked { IfOk result (IsChecked (I.remaining index.old) (R.remaining recording.old) (F.found findings.old) (F.found findings.new)) }
    ensures stops { IfErr result (Stops (I.remaining index.old) (R.remaining recording.old) (F.found findings.old) (F.found findings.new)) }
    ensures fails { IfErr result (Fails (I.remaining index.old) (I.remaining index.new) (R.remaining recording.old) (R.remaining recording.new) (F.found findings.old) (F.found findings.new)) }
    ensures index_reads { I.failed_reads index.new ≡ count_after (failed_by blames_index result) (I.failed_reads index.old) }
    ensures reads { R.failed_reads recording.new ≡ count_after (failed_by blames_recording result) (R.failed_reads recording.old) }
{
    check_all::<Alone, I, R, F>(alloc, &Alone, index, recording, findings)
}

/// As `check`, with at most `workers` threads that look at the codestreams side by side.
///
/// Twice as many lines as workers are taken off the index at once, with the bytes of their codestreams; what is wrong
/// with these is reported, in order, before the next are taken. If no thread can be made, the calling one looks at all
/// of them; no workers count as one. The findings, the result and the fault are as `check` says, whatever the threads
/// do. With `NoMemory` a read may have failed too, after what the allocation was for.
pub fn check_by<Rt: Threads + Sync, I: Feed, R: Feed, F: Findings>(
    rt: &Rt,
    alloc: Global,
    workers: usize,
    index: &mut I,
    recording: &mut R,
    findings: &mut F,
) -> Result<Checked, CheckFault>
    ensures checked { IfOk result (IsChecked (I.remaining index.old) (R.remaining recording.old) (F.found findings.old) (F.found findings.new)) }
    ensures stops { IfErr result (Stops (I.remaining index.old) (R.remaining recording.old) (F.found findings.old) (F.found findings.new)) }
    ensures fails { IfErr result (Fails (I.remaining index.old) (I.remaining index.new) (R.remaining recording.old) (R.remaining recording.new) (F.found findings.old) (F.found findings.new)) }
    ensures index_reads { HasReadBeyond (failed_by blames_index result) (I.failed_reads index.old) (I.failed_reads index.new) result }
    ensures reads { HasReadBeyond (failed_by blames_recording result) (R.failed_reads recording.old) (R.failed_reads recording.new) result }
{
    let threads = ByThreads { rt, workers };
    check_all::<ByThreads<'_, Rt>, I, R, F>(alloc, &threads, index, recording, findings)
}

/// Checks a recording by its index, batch by batch, whoever looks at the codestreams.
fn check_all<L: Looking, I: Feed, R: Feed, F: Findings>(
    alloc: Global,
    looking: &L,
    index: &mut I,
    recording: &mut R,
    findings: &mut F,
) -> Result<Checked, CheckFault>
    requires { L.may_run }
    ensures checked { IfOk result (IsChecked (I.remaining index.old) (R.remaining recording.old) (F.found findings.old) (F.found findings.new)) }
    ensures stops { IfErr result (Stops (I.remaining index.old) (R.remaining recording.old) (F.found findings.old) (F.found findings.new)) }
    ensures fails { IfErr result (Fails (I.remaining index.old) (I.remaining index.new) (R.remaining recording.old) (R.remaining recording.new) (F.found findings.old) (F.found findings.new)) }
    ensures index_reads { HasReadBatches L.most (failed_by blames_index result) (I.failed_reads index.old) (I.failed_reads index.new) result }
    ensures reads { HasReadBatches L.most (failed_by blames_recording result) (R.failed_reads recording.old) (R.failed_reads recording.new) result }
{
    let begun = SoFar {
        number: 0,
        offset: 0,
        damaged: 0,
    };
    let until = Until {
        end: MOST_FRAMES,
        growing: false,
    };
    let (so_far, ended) = check_lines(alloc, looking, index, recording, findings, begun, until)?;
    if ended {
        end_of(alloc, recording, so_far)
    } else {
        end_at_most(alloc, index, recording, so_far)
    }
}

/// Where a check of lines ends.
#[derive(Clone, Copy)]
pub(crate) struct Until {
    /// The number after that of the last line that is checked, unless the index ends before it.
    pub(crate) end: u64,
    /// Whether the index may end within a line, which then isn't there yet.
    pub(crate) growing: bool,
}

/// Checks the codestreams of the next lines of an index, batch by batch, whoever looks at them. Returns how far the
/// check is then, and whether the index ended.
pub(crate) fn check_lines<L: Looking, I: Feed, R: Feed, F: Findings>(
    alloc: Global,
    looking: &L,
    index: &mut I,
    recording: &mut R,
    findings: &mut F,
    begun: SoFar,
    until: Until,
) -> Result<(SoFar, bool), CheckFault>
    requires may_run { L.may_run }
    requires order { begun.number ≤ until.end }
    requires few { until.end ≤ most_frames }
    requires bounded { begun.offset ≤ 2 ^ 32 * begun.number }
    requires none { begun.damaged ≡ 0 }
    ensures checked { IfOk result (λ done. HasCheckedLines begun.number begun.offset until.growing (I.remaining index.old) (I.remaining index.new)
        (R.remaining recording.old) (R.remaining recording.new) (F.found findings.old) (F.found findings.new) done.0.number done.0.offset done.0.damaged done.1) }
    ensures all { IfOk result (λ done. done.1 ≡ false → done.0.number ≡ until.end) }
    ensures lacks { IfOk result (λ done. done.1 ≡ true → done.0.number < until.end) }
    ensures stops { IfErr result (StopsLines begun.number begun.offset (I.remaining index.old) (I.remaining index.new)
        (R.remaining recording.old) (R.remaining recording.new) (F.found findings.old) (F.found findings.new) until.growing) }
    ensures fails { IfErr result (FailsLines begun.number begun.offset (I.remaining index.old) (I.remaining index.new)
        (R.remaining recording.old) (R.remaining recording.new) (F.found findings.old) (F.found findings.new)) }
    ensures index_reads { HasReadBatches L.most (failed_by blames_index result) (I.failed_reads index.old) (I.failed_reads index.new) result }
    ensures reads { HasReadBatches L.most (failed_by blames_recording result) (R.failed_reads recording.old) (R.failed_reads recording.new) result }
{
    let mut so_far = begun;
    while so_far.number < until.end {
        let most = looking.batch().min(until.end - so_far.number);
        let mut batch = take(alloc, index, recording, so_far, most, until.growing);
        looking.look_at_all(alloc, &mut batch.jobs);
        so_far = tell_all(&batch.jobs, so_far, findings)?;
        match batch.after {
            After::More => {}
            After::End => return Ok((so_far, true)),
            After::Fault(fault) => return Err(fault),
        }
    }
    Ok((so_far, false))
}

/// Ends a check after the most lines that an index may have: fails with `TooMany` if another line follows.
fn end_at_most<I: Feed, R: Feed>(
    alloc: Global,
    index: &mut I,
    recording: &mut R,
    so_far: SoFar,
) -> Result<Checked, CheckFault>
    requires { so_far.number ≡ most_frames }
    ensures checked { (lines whole : Option (List ℕ)) (found found' : Option (List Finding))
        → HasChecked 0 0 lines (I.remaining index.old) whole (R.remaining recording.old) found found' so_far.number so_far.offset so_far.damaged
        → IfOk result (IsChecked lines whole found found') }
    ensures stops { (lines whole : Option (List ℕ)) (found found' : Option (List Finding))
        → HasChecked 0 0 lines (I.remaining index.old) whole (R.remaining recording.old) found found' so_far.number so_far.offset so_far.damaged
        → IfErr result (Stops lines whole found found') }
    ensures fails { (lines whole : Option (List ℕ)) (found found' : Option (List Finding))
        → HasChecked 0 0 lines (I.remaining index.old) whole (R.remaining recording.old) found found' so_far.number so_far.offset so_far.damaged
        → IfErr result (Fails lines (I.remaining index.new) whole (R.remaining recording.new) found found') }
    ensures index_reads { I.failed_reads index.new ≡ count_after (failed_by blames_index result) (I.failed_reads index.old) }
    ensures reads { R.failed_reads recording.new ≡ count_after (failed_by blames_recording result) (R.failed_reads recording.old) }
{
    let None = next_line(alloc, index, so_far.number, so_far.offset)? else {
        return Err(CheckFault::TooMany);
    };
    end_of(alloc, recording, so_far)
}

/// Ends a check at the end of its index.
fn end_of<R: Feed>(alloc: Global, recording: &mut R, so_far: SoFar) -> Result<Checked, CheckFault>
    ensures checked { (lines mid index' whole : Option (List ℕ)) (found found' : Option (List Finding))
        → HasChecked 0 0 lines mid whole (R.remaining recording.old) found found' so_far.number so_far.offset so_far.damaged → WasAtEnd mid index'
        → IfOk result (IsChecked lines whole found found') }
    ensures stops { (lines mid index' whole : Option (List ℕ)) (found found' : Option (List Finding))
        → HasChecked 0 0 lines mid whole (R.remaining recording.old) found found' so_far.number so_far.offset so_far.damaged → WasAtEnd mid index'
        → IfErr result (Stops lines whole found found') }
    ensures fails { (lines mid index' whole : Option (List ℕ)) (found found' : Option (List Finding))
        → HasChecked 0 0 lines mid whole (R.remaining recording.old) found found' so_far.number so_far.offset so_far.damaged → WasAtEnd mid index'
        → IfErr result (Fails lines index' whole (R.remaining recording.new) found found') }
    ensures blame { failed_by blames_index result ≡ false }
    ensures reads { R.failed_reads recording.new ≡ count_after (failed_by blames_recording result) (R.failed_reads recording.old) }
{
    let more = has_more(alloc, recording)?;
    Ok(Checked {
        frames: so_far.number,
        damaged: so_far.damaged,
        bytes: so_far.offset,
        more,
    })
}

/// A line of an index: its text, the size of its codestream in bytes, and the codestream's SHA-256, if the line says
/// one.
#[derive(Drop)]
pub(crate) struct IndexLine {
    text: Vec<u8>,
    pub(crate) size: u32,
    pub(crate) sum: Option<[u8; 32]>,
}

/// The most bytes of a line.
const MOST_LINE: usize = 1024;

/// Takes the next line off an index; `None` at its end. Fails with `Line` if it isn't a line of the codestream of this
/// number, which begins at this offset.
pub(crate) fn next_line<I: Feed>(
    alloc: Global,
    index: &mut I,
    number: u64,
    offset: u64,
) -> Result<Option<IndexLine>, CheckFault>
    ensures is { IfOk result (λ next. IfSome next (λ line. IsLine number offset (record { text = line.text.items; size = line.size; sum = line.sum }))) }
    ensures gave { IfOk result (λ next. IfSome next (λ line. Gave (I.remaining index.old) (I.remaining index.new) (λ bytes. line.text.items ≡ bytes))) }
    ensures end { IfOk result (λ next. IfNone next (WasAtEnd (I.remaining index.old) (I.remaining index.new))) }
    ensures blame { IfErr result (λ fault. fault ≢ CheckFault.Io) }
    ensures stops { IfErr result (StopsNextLine (I.remaining index.old) (I.remaining index.new) number offset) }
    ensures failures { I.failed_reads index.new ≡ count_after (failed_by blames_index result) (I.failed_reads index.old) }
{
    next_written(alloc, index, number, offset, false)
}

/// The same; with `growing` also `None` where the index ends within a line.
pub(crate) fn next_written<I: Feed>(
    alloc: Global,
    index: &mut I,
    number: u64,
    offset: u64,
    growing: bool,
) -> Result<Option<IndexLine>, CheckFault>
    ensures is { IfOk result (λ next. IfSome next (λ line. IsLine number offset (record { text = line.text.items; size = line.size; sum = line.sum }))) }
    ensures gave { IfOk result (λ next. IfSome next (λ line. Gave (I.remaining index.old) (I.remaining index.new) (λ bytes. line.text.items ≡ bytes))) }
    ensures end { IfOk result (λ next. IfNone next (EndsLines growing (I.remaining index.old) (I.remaining index.new))) }
    ensures blame { IfErr result (λ fault. fault ≢ CheckFault.Io) }
    ensures stops { IfErr result (StopsNextLine (I.remaining index.old) (I.remaining index.new) number offset) }
    ensures untorn { IfErr result (IsUntorn growing (I.remaining index.old)) }
    ensures failures { I.failed_reads index.new ≡ count_after (failed_by blames_index result) (I.failed_reads index.old) }
{
    let text = match take_line(alloc, index) {
        Ok(Some(text)) => text,
        Ok(None) => return Ok(None),
        Err(FeedFault::Io) => return Err(CheckFault::IndexIo),
        Err(FeedFault::NoMemory) => return Err(CheckFault::NoMemory),
    };
    if ends_within(growing, &text) {
        return Ok(None);
    }
    let Some((size, columns)) = size_in(alloc, number, offset, &text)? else {
        return Err(CheckFault::Line(number));
    };
    match sum_in(columns) {
        Some(sum) => Ok(Some(IndexLine { text, size, sum })),
        None => Err(CheckFault::Line(number)),
    }
}

/// Whether a text that was taken off an index isn't a line yet, where the index may end within one.
fn ends_within(growing: bool, text: &[u8]) -> bool
    ensures some { result ≡ true → (growing ≡ true) × IsTorn text.now }
    ensures none { result ≡ false → growing ≡ true → IsTorn text.now → ⊥ }
{
    if !growing {
        return false;
    }
    is_torn(text)
}

/// Whether a text that was taken off an index may be the beginning of a line: it has no LF, though a line may be longer,
/// and no byte that a line hasn't.
fn is_torn(text: &[u8]) -> bool
    ensures some { result ≡ true → IsTorn text.now }
    ensures none { result ≡ false → IsTorn text.now → ⊥ }
{
    match memchr(b'\n', text) {
        Some(_) => false,
        None => is_beginning(text),
    }
}

/// Whether a line may have more bytes than these, and each of them.
fn is_beginning(text: &[u8]) -> bool
    ensures some { result ≡ true → (length text.now < 1024) × (are_of_line text.now ≡ true) }
    ensures none { result ≡ false → length text.now < 1024 → are_of_line text.now ≡ true → ⊥ }
{
    if is_short(text.len()) {
        are_of_line(text)
    } else {
        false
    }
}

/// Whether lines have each of these bytes before LF.
fn are_of_line(text: &[u8]) -> bool
    ensures { result ≡ are_of_line text.now }
{
    text.iter().all(|byte| is_of_line(*byte))
}

/// Whether lines have such a byte before LF: of a number, of a word in small letters, or a blank.
fn is_of_line(byte: u8) -> bool
    ensures { result ≡ is_of_line byte }
{
    byte == b' ' || b'0' <= byte && byte <= b'9' || b'a' <= byte && byte <= b'z'
}

/// Whether a line may have more bytes than these.
fn is_short(count: usize) -> bool
    ensures some { result ≡ true → count < 1024 }
    ensures none { result ≡ false → 1024 ≤ count }
{
    count < MOST_LINE
}

/// Takes the bytes up to and including the next LF off a reader, or as many as a line may have, or all that are left;
/// `None` at its end.
fn take_line<I: Feed>(alloc: Global, reader: &mut I) -> Result<Option<Vec<u8>>, FeedFault>
    ensures gave { IfOk result (λ next. IfSome next (λ line. Gave (I.remaining reader.old) (I.remaining reader.new) (λ bytes. line.items ≡ bytes))) }
    ensures one { IfOk result (λ next. IfSome next (λ line. IsOneLine line.items)) }
    ensures front { IfOk result (λ next. IfSome next (λ line. Tells (I.remaining reader.old) → IsFrontLine (known (I.remaining reader.old)) line.items)) }
    ensures short { IfOk result (λ next. IfSome next (λ line. length line.items ≤ 1024)) }
    ensures torn { IfOk result (λ next. IfSome next (λ line. IsTorn line.items → Tells (I.remaining reader.old) → known (I.remaining reader.new) ≡ [])) }
    ensures end { IfOk result (λ next. IfNone next (WasAtEnd (I.remaining reader.old) (I.remaining reader.new))) }
    ensures io { IfErr result (λ fault. fault ≡ FeedFault.Io → Gave (I.remaining reader.old) (I.remaining reader.new) HasNoLineFeed) }
    ensures memory { IfErr result (λ fault. fault ≡ FeedFault.NoMemory → HadBytes (I.remaining reader.old)) }
    ensures failures { I.failed_reads reader.new ≡ count_after (failed_read result) (I.failed_reads reader.old) }
{
    let mut line = Vec::new(alloc);
    while line.len() < MOST_LINE {
        match reader.feed_until(b'\n', MOST_LINE - line.len(), &mut line)? {
            Some(b'\n') => return Ok(Some(line)),
            Some(_) => {}
            None if line.is_empty() => return Ok(None),
            None => return Ok(Some(line)),
        }
    }
    Ok(Some(line))
}

/// Parses the beginning of the line of the codestream of this number, which begins at this offset: returns the
/// codestream's size in bytes, and what follows up to LF; `None` if the text doesn't begin and end as such a line.
fn size_in(
    alloc: Global,
    number: u64,
    offset: u64,
    text: &[u8],
) -> Result<Option<(u32, &[u8])>, AllocError>
    ensures some { IfOk result (λ found. IfSome found (λ parts. text.now ≡ (beginning number offset parts.0 ++ parts.1.now) ++ codes "\n")) }
    ensures given { (size : ℕ) (rest : List ℕ) → size ≤ most_bytes → text.now ≡ (beginning number offset size ++ rest) ++ codes "\n"
        → IfOk result (λ found. MatchOption found ⊥ (λ parts. (parts.0 ≡ size) × (parts.1.now ≡ rest))) }
{
    let Some(columns) = text.strip_suffix(b"\n") else {
        return Ok(None);
    };
    let front = format!(in alloc; "{number} {offset} ")?;
    let Some(columns) = columns.strip_prefix(front.as_bytes()) else {
        return Ok(None);
    };
    let Some(size) = leading_number(columns) else {
        return Ok(None);
    };
    // The number as it is written, with no sign and no leading zero.
    let wanted = format!(in alloc; "{size} ")?;
    match columns.strip_prefix(wanted.as_bytes()) {
        Some(rest) => Ok(Some((size, rest))),
        None => Ok(None),
    }
}

/// The number at the front of a text, up to the first blank or the end, if there is one.
fn leading_number(text: &[u8]) -> Option<u32>
    ensures { (number : ℕ) (rest : List ℕ) → number ≤ most_bytes → EndsColumn rest → text.now ≡ decimal number ++ rest → result ≡ Some number }
{
    let digits = from_utf8(&text[..end_of_column(text)]).ok()?;
    digits.parse().ok()
}

/// The number of bytes before the first blank, or of all if there is none.
fn end_of_column(text: &[u8]) -> usize
    ensures few { result ≤ length text.now }
    ensures number { (number : ℕ) (rest : List ℕ) → number ≤ most_bytes → EndsColumn rest → text.now ≡ decimal number ++ rest → result ≡ length (decimal number) }
{
    match memchr(b' ', text) {
        Some(end) => end,
        None => text.len(),
    }
}

/// Parses what follows the size in a line: returns the SHA-256 at its end, or `Some(None)` if there is none; `None` if
/// it isn't the kind, eight numbers, and such a sum or nothing, as `write_index` writes them.
fn sum_in(columns: &[u8]) -> Option<Option<[u8; 32]>>
    ensures some { IfSome result (AreColumns columns.now) }
    ensures given { (sum : Option (List ℕ)) → AreColumns columns.now sum → result ≡ Some sum }
{
    let left = after_numbers(after_kind(columns)?, 8)?;
    sum_at_end(left)
}

/// Parses a blank and a SHA-256 in lower case, or `Some(None)` from an empty text; `None` from any other text.
fn sum_at_end(text: &[u8]) -> Option<Option<[u8; 32]>>
    ensures some { IfSome result (λ sum. IsSum sum × (text.now ≡ sum_at_end sum)) }
    ensures given { (sum : Option (List ℕ)) → IsSum sum → text.now ≡ sum_at_end sum → result ≡ Some sum }
{
    if text.is_empty() {
        return Some(None);
    }
    let digits = text.strip_prefix(b" ")?;
    let sum = <[u8; 32] as FromHex>::from_hex(digits).ok()?;
    // The sum as it is written, in lower case.
    let mut wanted = [0u8; 64];
    encode_to_slice(sum.as_slice(), &mut wanted).ok()?;
    if digits == wanted.as_slice() {
        Some(Some(sum))
    } else {
        None
    }
}

/// What follows the kind at the front of a text, if there is one.
fn after_kind(text: &[u8]) -> Option<&[u8]>
    ensures some { IfSome result (λ rest. (kind : Kind) × (text.now ≡ kind_text kind ++ rest.now)) }
    ensures given { (kind : Kind) (rest : List ℕ) → text.now ≡ kind_text kind ++ rest → MatchOption result ⊥ (λ left. left.now ≡ rest) }
{
    match text.strip_prefix(b"gray") {
        Some(rest) => Some(rest),
        None => text.strip_prefix(b"color"),
    }
}

/// What follows `count` columns of numbers below 2^16, if a text begins with that many.
fn after_numbers(text: &[u8], count: usize) -> Option<&[u8]>
    ensures some { IfSome result (λ rest. (numbers : List ℕ) × AreNumbers count numbers × (text.now ≡ flat_map column numbers ++ rest.now)) }
    ensures given { (numbers : List ℕ) (rest : List ℕ) → AreNumbers count numbers → EndsColumn rest → text.now ≡ flat_map column numbers ++ rest
        → MatchOption result ⊥ (λ left. left.now ≡ rest) }
{
    let mut left = text;
    let mut passed = 0;
    'columns: while passed < count {
        left = after_number(left)?;
        passed += 1;
    }
    Some(left)
}

/// What follows a blank and a number below 2^16, written without sign or leading zeros, up to the next blank or the
/// end; `None` if a text doesn't begin so.
fn after_number(text: &[u8]) -> Option<&[u8]>
    ensures some { IfSome result (λ rest. (number : ℕ) × (number < 2 ^ 16) × (text.now ≡ column number ++ rest.now)) }
    ensures given { (number : ℕ) (rest : List ℕ) → number < 2 ^ 16 → EndsColumn rest → text.now ≡ column number ++ rest
        → MatchOption result ⊥ (λ left. left.now ≡ rest) }
{
    let left = text.strip_prefix(b" ")?;
    let number = leading_number(left)?;
    if number > 65_535 {
        return None;
    }
    let mut buffer = Buffer::new();
    left.strip_prefix(buffer.format(number).as_bytes())
}

/// Takes `most` bytes off a reader, or all that are left. Fails with `Io` if a read fails, or with `NoMemory`.
pub(crate) fn take_bytes<R: Feed>(
    alloc: Global,
    reader: &mut R,
    most: usize,
) -> Result<Vec<u8>, CheckFault>
    ensures taken { IfOk result (λ bytes. GaveAtMost (R.remaining reader.old) (R.remaining reader.new) most bytes.items) }
    ensures blame { IfErr result (λ fault. fault ≢ CheckFault.IndexIo) }
    ensures stops { IfErr result (StopsReading (R.remaining reader.old) (R.remaining reader.new) most) }
    ensures failures { R.failed_reads reader.new ≡ count_after (failed_by blames_recording result) (R.failed_reads reader.old) }
{
    let mut bytes = Vec::new(alloc);
    while bytes.len() < most {
        match reader.feed_until(0xFF, most - bytes.len(), &mut bytes) {
            Ok(Some(_)) => {}
            Ok(None) => return Ok(bytes),
            Err(FeedFault::Io) => return Err(CheckFault::Io),
            Err(FeedFault::NoMemory) => return Err(CheckFault::NoMemory),
        }
    }
    Ok(bytes)
}

/// Whether a reader has a byte left; takes that byte.
fn has_more<R: Feed>(alloc: Global, reader: &mut R) -> Result<bool, CheckFault>
    ensures more { IfOk result (λ more. Tells (R.remaining reader.old) → IsTrue more ↔ (0 < length (known (R.remaining reader.old)))) }
    ensures blame { IfErr result (λ fault. fault ≢ CheckFault.IndexIo) }
    ensures stops { IfErr result (StopsReading (R.remaining reader.old) (R.remaining reader.new) 1) }
    ensures failures { R.failed_reads reader.new ≡ count_after (failed_by blames_recording result) (R.failed_reads reader.old) }
{
    let bytes = take_bytes(alloc, reader, 1)?;
    Ok(!bytes.is_empty())
}

/// Reports what is wrong with the bytes at the offset of a line's codestream, if anything is, and returns the number of
/// damaged codestreams: 1 or 0.
fn tell_damage<F: Findings>(
    number: u64,
    offset: u64,
    line: &IndexLine,
    damage: Option<Damage>,
    findings: &mut F,
) -> Result<u64, AllocError>
    ensures looked { (bytes : List ℕ) → IsFound number offset (record { text = line.now.text.items; size = line.now.size; sum = line.now.sum }) bytes damage
        → IfOk result (HasLooked number offset (record { text = line.now.text.items; size = line.now.size; sum = line.now.sum }) bytes
        (F.found findings.old) (F.found findings.new)) }
    ensures few { IfOk result (λ damaged. damaged ≤ 1) }
    ensures none { OnErr result (F.found findings.new ≡ F.found findings.old) }
    ensures memory { OnErr result (IsSome damage) }
{
    let Some(damage) = damage else {
        return Ok(0);
    };
    findings.tell(Finding {
        number,
        place: offset,
        count: u64::from(line.size),
        sum: line.sum,
        damage,
    })?;
    Ok(1)
}

/// What is wrong with the bytes at the offset of a line's codestream; `None` if they are good.
fn damage_of(
    alloc: Global,
    number: u64,
    offset: u64,
    line: &IndexLine,
    bytes: Vec<u8>,
) -> Result<Option<Damage>, AllocError>
    ensures good { IfOk result (λ found. IfNone found (IsGood number offset line.now.text.items bytes.items)) }
    ensures damaged { IfOk result (λ found. IfSome found (λ _. IsGood number offset line.now.text.items bytes.items → ⊥)) }
    ensures damage { IfOk result (λ found. IfSome found (IsDamage number offset (record { text = line.now.text.items; size = line.now.size; sum = line.now.sum }) bytes.items)) }
    ensures memory { OnErr result (HasEntry bytes.items) }
{
    match looked_at::<Seen>(alloc, number, offset, line, bytes)? {
        Ok(_) => Ok(None),
        Err(damage) => Ok(Some(damage)),
    }
}

/// What is made of the frame at the offset of a line's codestream, or what is wrong with the bytes there.
pub(crate) fn looked_at<T: Made>(
    alloc: Global,
    number: u64,
    offset: u64,
    line: &IndexLine,
    bytes: Vec<u8>,
) -> Result<Result<T, Damage>, AllocError>
    ensures good { IfOk result (λ looked. IfOk looked (λ made. HasLine number offset line.now.text.items bytes.items
        × ((f : Picture) × Spells bytes.items f × T.made f made))) }
    ensures damaged { IfOk result (λ looked. OnErr looked (IsGood number offset line.now.text.items bytes.items → ⊥)) }
    ensures damage { IfOk result (λ looked. IfErr looked (IsDamage number offset (record { text = line.now.text.items; size = line.now.size; sum = line.now.sum }) bytes.items)) }
    ensures memory { OnErr result (HasEntry bytes.items) }
{
    outlines_follow_the_grammar();
    let is_short = bytes.len() < line.size as usize;
    let mut bytes = bytes;
    let Some(indexed) = Indexed::take(alloc, &mut bytes) else {
        return Ok(Err(changed(is_short)));
    };
    if !is_line_of(alloc, number, offset, &line.text, &indexed)? {
        return Ok(Err(changed(is_short)));
    }
    match made_of::<T>(alloc, indexed.bytes()) {
        Ok(made) => Ok(Ok(made)),
        Err(fault) => undecoded(fault),
    }
}

/// Converts a fault of decoding to `Damage`; fails if it is `NoMemory`.
fn undecoded<T>(fault: StreamFault) -> Result<Result<T, Damage>, AllocError>
    ensures found { IfOk result (λ found. (fault ≢ StreamFault.NoMemory) × (found ≡ Err (Damage.Fault fault))) }
    ensures memory { OnErr result (fault ≡ StreamFault.NoMemory) }
{
    if fault == StreamFault::NoMemory {
        return Err(AllocError);
    }
    Ok(Err(Damage::Fault(fault)))
}

/// The damage of bytes that don't match their line: the recording ends before, or they were changed.
fn changed(is_short: bool) -> Damage
    ensures { result ≡ (if is_short then Damage.Truncated else Damage.Changed) }
{
    if is_short {
        Damage::Truncated
    } else {
        Damage::Changed
    }
}

/// Whether a text is the line of a codestream of this number and at this offset, with its sum or without.
fn is_line_of(
    alloc: Global,
    number: u64,
    offset: u64,
    text: &[u8],
    indexed: &Indexed,
) -> Result<bool, AllocError>
    ensures { IfOk result (λ is. IsTrue is ↔ ((text.now ≡ line true number offset indexed.now) ⊎ (text.now ≡ line false number offset indexed.now))) }
{
    let with_sum = line(alloc, true, number, offset, indexed)?;
    let without = line(alloc, false, number, offset, indexed)?;
    Ok(text == with_sum.as_bytes() || text == without.as_bytes())
}

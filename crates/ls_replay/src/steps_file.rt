//! Reading a steps file.
ghost use Rattle.std.specs.Prelude.{◌⊎◌, ℕ, IfOk, IfErr, ◌≡◌, ◌<◌, ◌≤◌, List, ◌∷◌, ◌==◌, not, length, take, drop, MatchResult, Ok, Err, bytes_eq};
ghost use Rattle.std.specs.List.{prefix_len, slice_split};
ghost use Rattle.ls_frame.specs.View.Devices.{count_after};
ghost use Rattle.ls_replay.specs.View.StepsReading.{first_word, after_word, number_of, line_of, lines_of, lines_after, left_in, step_of, steps_of, IsReadFault};
ghost use Rattle.ls_replay.specs.View.Texts.{most_bytes, GaveText, StopsText, has_read_failed};
ghost use Rattle.ls_replay.specs.StepsFile.{is_blank, is_end, IsStepsFile, BreaksAt, IsFaultOf};

use ls_frame::Feed;
use ls_queue::Step;
use std::alloc::{AllocError, Global};
use thiserror::Error;

/// Why the text of a steps file can't be read as steps.
#[derive(Clone, Copy, Debug, Drop, PartialEq, Eq, Error)]
pub enum StepsFault {
    /// The line with this number, from 1, is the first that has words but is no step.
    #[error("line {0}: not a step")]
    NotAStep(usize),
    /// An allocation failed.
    #[error("no memory")]
    NoMemory,
}

impl From<AllocError> for StepsFault {
    ghost use Rattle.std.specs.Prelude.{◌≡◌};
    ghost use Rattle.ls_replay.specs.declared.steps_file.StepsFault.TheVariants.{NoMemory};

    ghost from_gives = { λ _ fault. fault ≡ NoMemory };

    fn from(_refused: AllocError) -> StepsFault {
        StepsFault::NoMemory
    }
}

/// The most bytes of a steps file.
const MOST_BYTES: usize = 16_777_216;

/// The most bytes that are asked for at once.
const CHUNK: usize = 65_536;

/// Why the text of a steps file can't be read from its reader.
#[derive(Clone, Copy, Debug, Drop, PartialEq, Eq, Error)]
pub enum TextFault {
    /// The text has more than 16,777,216 bytes.
    #[error("too long")]
    TooLong,
    #[error("read failed")]
    ReadFailed,
    /// An allocation failed.
    #[error("no memory")]
    NoMemory,
}

/// A line of a steps file, classified.
#[derive(Clone, Copy, Drop)]
enum Line {
    /// It has no words.
    Blank,
    Step(Step),
    /// It has words but is no step.
    Other,
}

/// Reads all bytes of a reader, up to its end. Fails with `TooLong` if there are more than 16,777,216, and has then
/// read one byte more than that; with `ReadFailed` if a read fails; or with `NoMemory`.
pub fn read_text<R: Feed>(alloc: Global, reader: &mut R) -> Result<Vec<u8>, TextFault>
    ensures text { IfOk result (λ text. GaveText (R.remaining reader.old) (R.remaining reader.new) text.items) }
    ensures short { IfOk result (λ text. length text.items ≤ most_bytes) }
    ensures stops { IfErr result (StopsText (R.remaining reader.old) (R.remaining reader.new)) }
    ensures reads { R.failed_reads reader.new ≡ count_after (has_read_failed result) (R.failed_reads reader.old) }
{
    let mut text = Vec::new(alloc);
    let mut chunk = [0u8; CHUNK];
    while text.len() <= MOST_BYTES {
        let room = CHUNK.min(MOST_BYTES + 1 - text.len());
        match reader.feed(&mut chunk[..room]) {
            Ok(0) => return Ok(text),
            Ok(taken) => {
                if text.extend_from_slice(&chunk[..taken]).is_err() {
                    return Err(TextFault::NoMemory);
                }
            }
            Err(_) => return Err(TextFault::ReadFailed),
        }
    }
    Err(TextFault::TooLong)
}

/// Returns the steps of a steps file, in order. Fails with `NotAStep` and the number, from 1, of the first line that
/// has words but is no step, or with `NoMemory`.
///
/// A line is a step, or has no words. Lines end with LF, which the last one may lack.
pub fn read_steps(alloc: Global, text: &[u8]) -> Result<Vec<Step>, StepsFault>
    ensures ok { IfOk result (λ steps. IsStepsFile text.now steps.items) }
    ensures fault { IfErr result (λ fault. IsFaultOf text.now fault) }
    ensures whole { (steps : List Step) → IsStepsFile text.now steps
        → MatchResult result (λ read. read.items ≡ steps) (λ fault. fault ≡ StepsFault.NoMemory) }
    ensures breaks { (n : ℕ) → BreaksAt text.now n
        → MatchResult result (λ read. ⊥) (λ fault. (fault ≡ StepsFault.NotAStep n) ⊎ (fault ≡ StepsFault.NoMemory)) }
{
    read_lines(alloc, text)
}

/// Reads the lines in order, and returns their steps.
fn read_lines(alloc: Global, text: &[u8]) -> Result<Vec<Step>, StepsFault>
    ensures { MatchResult result (λ steps. steps_of text.now ≡ Ok steps.items) (λ fault. IsReadFault text.now fault) }
{
    let mut steps = Vec::new(alloc);
    let mut number = 0;
    let mut rest = Some(text);
    while let Some(here) = rest {
        let (line, after) = next_line(here);
        number += 1;
        match line_of(line) {
            Line::Blank => {}
            Line::Step(step) => steps.push(step).map_err(|_| StepsFault::NoMemory)?,
            Line::Other => return Err(StepsFault::NotAStep(number)),
        }
        rest = after;
    }
    Ok(steps)
}

/// Returns the first line of a text, and the text after its LF, if it has one.
fn next_line(text: &[u8]) -> (&[u8], Option<&[u8]>)
    ensures lines { lines_of text.now ≡ result.0.now ∷ lines_after result.1 }
    ensures shorter { left_in result.1 ≤ length text.now }
{
    let end = line_at_front(text);
    if end < text.len() {
        (&text[..end], Some(&text[end + 1..]))
    } else {
        (text, None)
    }
}

/// Returns the number of bytes before the first LF, or of all bytes if there is none.
fn line_at_front(text: &[u8]) -> usize
    ensures value { result ≡ prefix_len (λ c. not (is_end c)) text.now }
    ensures within { result ≤ length text.now }
{
    text.iter().take_while(|byte| **byte != b'\n').count()
}

/// Classifies a line, which is given without its LF.
fn line_of(line: &[u8]) -> Line
    ensures { result ≡ line_of line.now }
{
    let (first, rest) = next_word(line);
    let (second, rest) = next_word(rest);
    let (third, rest) = next_word(rest);
    let (fourth, _) = next_word(rest);
    if first.is_empty() {
        Line::Blank
    } else if fourth.is_empty() {
        step_of(first, second, third)
    } else {
        Line::Other
    }
}

/// Returns the step that these words say, or `Other` if they say none. Words that the line doesn't have are empty.
fn step_of(first: &[u8], second: &[u8], third: &[u8]) -> Line
    ensures { result ≡ step_of first.now second.now third.now }
{
    if first == b"put".as_slice() {
        match (number_of(second, 255), number_of(third, u64::MAX)) {
            (Some(source), Some(item)) => Line::Step(Step::Put(source as u8, item)),
            _ => Line::Other,
        }
    } else if first == b"close".as_slice() && third.is_empty() {
        match number_of(second, 255) {
            Some(source) => Line::Step(Step::Close(source as u8)),
            None => Line::Other,
        }
    } else if first == b"take".as_slice() && second.is_empty() {
        Line::Step(Step::Take)
    } else {
        Line::Other
    }
}

/// Returns the first word of a line, which is empty if the line has none, and what follows it.
fn next_word(line: &[u8]) -> (&[u8], &[u8])
    ensures word { result.0.now ≡ first_word line.now }
    ensures rest { result.1.now ≡ after_word line.now }
{
    let line = &line[blanks_at_front(line)..];
    let end = word_at_front(line);
    (&line[..end], &line[end..])
}

/// Returns the number of blanks at the front.
fn blanks_at_front(line: &[u8]) -> usize
    ensures value { result ≡ prefix_len is_blank line.now }
    ensures within { result ≤ length line.now }
{
    line.iter().take_while(|byte| **byte == b' ').count()
}

/// Returns the number of bytes before the first blank, or of all bytes if there is none.
fn word_at_front(line: &[u8]) -> usize
    ensures value { result ≡ prefix_len (λ c. not (is_blank c)) line.now }
    ensures within { result ≤ length line.now }
{
    line.iter().take_while(|byte| **byte != b' ').count()
}

/// Returns the number that a word writes in decimal digits, if it does and if that is at most `most`.
fn number_of(word: &[u8], most: u64) -> Option<u64>
    ensures { result ≡ number_of most word.now }
{
    if word.is_empty() {
        return None;
    }
    let mut value: u64 = 0;
    for byte in word {
        if !byte.is_ascii_digit() {
            return None;
        }
        let next = u128::from(value) * 10 + u128::from(*byte - b'0');
        if next > u128::from(most) {
            return None;
        }
        value = next as u64;
    }
    Some(value)
}

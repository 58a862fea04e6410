//! The index of a recording: a line for each codestream.
ghost use Rattle.std.specs.Prelude.{◌≡◌, ◌+◌, ◌^◌, ◌<◌, ◌≤◌, ◌++◌, List, length, IfOk, IfErr, OnOk, MatchResult, string_bytes};
ghost use Rattle.std.specs.Io.KnownBytes.{Appends};
ghost use Rattle.ls_frame.specs.Picture.{Picture};
ghost use Rattle.ls_frame.specs.View.Devices.{count_after};
ghost use Rattle.ls_stream.specs.Grammar.{Spells};
ghost use Rattle.ls_film.specs.Film.{most_frames, IsFilm};
ghost use Rattle.ls_film.specs.Listing.{kind_text, column};
ghost use Rattle.ls_film.specs.View.Steps.{failed_by};
ghost use Rattle.ls_archive.specs.Index.{line, sum_text, sum_column};
ghost use Rattle.ls_archive.specs.View.Indexing.{Completes, Stops, StopsLine, IsIndexOf, StopsOver, IsIndexOfFrames, IsOutOfMemory, blames_reader, blames_writer};

use crate::entry::Indexed;
use crate::faults::IndexFault;
use hex::encode;
use itoa::Buffer;
use ls_film::MOST_FRAMES;
use ls_frame::{Counted, Feed, Kind, Outlet, write_bytes};
use ls_stream::laws::outlines_follow_the_grammar;
use sha2::{Digest, Sha256};
use std::alloc::{AllocError, Global};

/// Writes the line of each codestream of a recording, and returns their number.
///
/// Reads each codestream's markers and headers without decoding its data. Each line is written before the next
/// codestream is read. With `sums` it ends with the SHA-256 of the codestream's bytes. If the bytes of reader and
/// writer are known (as in memory), the clauses say which were read and written. After `Stream`, `Io` and `NoMemory`
/// the reader's place is unspecified.
pub fn write_index<R: Feed, W: Outlet>(
    alloc: Global,
    reader: &mut R,
    writer: &mut W,
    sums: bool,
) -> Result<u64, IndexFault>
    ensures completes { IfOk result (Completes sums
        (R.remaining reader.old) (R.remaining reader.new) (W.contents writer.old) (W.contents writer.new)) }
    ensures stops { IfErr result (Stops sums
        (R.remaining reader.old) (R.remaining reader.new) (W.contents writer.old) (W.contents writer.new)) }
    ensures reads { R.failed_reads reader.new ≡ count_after (failed_by blames_reader result) (R.failed_reads reader.old) }
    ensures writes { W.failed_writes writer.new ≡ count_after (failed_by blames_writer result) (W.failed_writes writer.old) }
{
    let mut offset = 0;
    let mut written = 0;
    for number in 0..MOST_FRAMES {
        let Some(indexed) = Indexed::next(alloc, reader, number)? else {
            return Ok(number);
        };
        let line = line(alloc, sums, number, offset, &indexed)?;
        written = write_line(writer, line.as_bytes(), written)?;
        offset += indexed.bytes().len() as u64;
    }
    match Indexed::next(alloc, reader, MOST_FRAMES)? {
        None => Ok(MOST_FRAMES),
        Some(_) => Err(IndexFault::TooMany),
    }
}

/// The index of a recording in memory, as far as it was written, and how the writing ended.
///
/// The program makes indexes by `write_index`. This is the same over bytes in memory, all of which are known. If the
/// recording is codestreams of at most `ls_film::MOST_FRAMES` frames, each has its line, which says the frame's form,
/// or the fault is `NoMemory` or `Output`.
pub fn index_bytes(
    alloc: Global,
    recording: &[u8],
    sums: bool,
) -> (Vec<u8>, Result<u64, IndexFault>)
    ensures completes { IfOk result.1 (IsIndexOf sums recording.now result.0.items) }
    ensures stops { IfErr result.1 (StopsOver sums recording.now result.0.items) }
    ensures of_frames { (frames : List Picture) → length frames ≤ most_frames → IsFilm Spells recording.now frames
        → MatchResult result.1 (IsIndexOfFrames sums recording.now frames result.0.items) IsOutOfMemory }
{
    outlines_follow_the_grammar();
    let mut reader = recording;
    let mut writer = Counted::new(Vec::new(alloc));
    let ended = write_index(alloc, &mut reader, &mut writer, sums);
    (writer.into_inner(), ended)
}

/// The line of the codestream of this number, from 0, which begins at this offset.
pub(crate) fn line(
    alloc: Global,
    sums: bool,
    number: u64,
    offset: u64,
    indexed: &Indexed,
) -> Result<String, AllocError>
    ensures text { IfOk result (λ text. string_bytes text ≡ line sums number offset indexed.now) }
    ensures short { IfOk result (λ text. length (string_bytes text) ≤ 1024) }
{
    let bytes = indexed.bytes();
    let mut text = String::from_str(alloc, Buffer::new().format(number))?;
    push_column(&mut text, offset)?;
    push_column(&mut text, bytes.len() as u64)?;
    text.push_str(" ")?;
    text.push_str(kind_text(indexed.kind()))?;
    for column in &indexed.columns() {
        push_column(&mut text, u64::from(*column))?;
    }
    push_sum(alloc, &mut text, sums, bytes)?;
    text.push_str("\n")?;
    Ok(text)
}

/// Appends a blank and a number to a text.
fn push_column(text: &mut String, number: u64) -> Result<(), AllocError>
    ensures pushed { OnOk result (string_bytes text.new ≡ string_bytes text.old ++ column number) }
    ensures short { OnOk result (length (string_bytes text.new) ≤ length (string_bytes text.old) + 41) }
{
    let mut buffer = Buffer::new();
    text.push_str(" ")?;
    text.push_str(buffer.format(number))
}

/// Appends a blank and the SHA-256 of `bytes` to a text, or nothing without `sums`.
fn push_sum(alloc: Global, text: &mut String, sums: bool, bytes: &[u8]) -> Result<(), AllocError>
    ensures pushed { OnOk result (string_bytes text.new ≡ string_bytes text.old ++ sum_column sums bytes.now) }
    ensures short { OnOk result (length (string_bytes text.new) ≤ length (string_bytes text.old) + 65) }
{
    if !sums {
        return Ok(());
    }
    let sum = sum_text(alloc, bytes)?;
    text.push_str(" ")?;
    text.push_str(sum.as_str())
}

/// The SHA-256 of bytes in hexadecimal.
fn sum_text(alloc: Global, bytes: &[u8]) -> Result<String, AllocError>
    ensures text { IfOk result (λ text. string_bytes text ≡ sum_text bytes.now) }
    ensures short { IfOk result (λ text. length (string_bytes text) ≡ 64) }
{
    let sum: [u8; 32] = Sha256::digest(bytes);
    encode(alloc, sum.as_slice())
}

fn kind_text(kind: Kind) -> &'static str
    ensures { result.now ≡ kind_text kind }
{
    match kind {
        Kind::Gray => "gray",
        Kind::Color => "color",
    }
}

/// Writes a line after the `written` bytes of the lines before it, and returns their new total. Fails with `Output` if
/// a write fails.
pub(crate) fn write_line<W: Outlet>(
    writer: &mut W,
    line: &[u8],
    written: u64,
) -> Result<u64, IndexFault>
    requires { written + length line.now < 2 ^ 64 }
    ensures all { OnOk result (Appends (W.contents writer.old) (W.contents writer.new) line.now) }
    ensures count { IfOk result (λ count. count ≡ written + length line.now) }
    ensures stops { IfErr result (StopsLine (W.contents writer.old) (W.contents writer.new) written line.now) }
    ensures failures { W.failed_writes writer.new ≡ count_after (failed_by blames_writer result) (W.failed_writes writer.old) }
{
    match write_bytes(writer, line) {
        Ok(()) => Ok(written + line.len() as u64),
        Err(fault) => Err(IndexFault::Output(written + fault.written as u64)),
    }
}

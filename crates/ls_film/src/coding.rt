//! The codestreams of a film's frames, one after the other.
ghost use Rattle.std.specs.Prelude.{◌≡◌, ⊤, IfOk, IfErr, false, refl};
ghost use Rattle.ls_frame.specs.Faults.{blames_device};
ghost use Rattle.ls_frame.specs.Netpbm.{IsImageOf};
ghost use Rattle.ls_frame.specs.View.Devices.{count_after};
ghost use Rattle.ls_film.specs.Coding.{default_file};
ghost use Rattle.ls_film.specs.View.Engine.{Completes};
ghost use Rattle.ls_film.specs.View.Memory.{IsTextOf, StopsOver};
ghost use Rattle.ls_film.specs.View.Coding.{IsAttempt};
ghost use Rattle.ls_film.specs.View.Stopping.{IsUnread, Stops, blames_reader, blames_writer};
ghost use Rattle.ls_film.specs.View.Steps.{failed_by};

use crate::engine::{Images, Made, Text, write_text};
use crate::faults::FilmFault;
use crate::film::{text_of_bytes, write_film};
use ls_frame::{Feed, Frame, NetpbmFault, Outlet, Presets, next_frame};
use ls_stream::{encode_frame, encode_side_by_side};
use std::alloc::{AllocError, Global};
use std::marker::Model;
use std::thread::Threads;

/// Writes the codestream of each frame of a film, with the default parameters of its maxval, and returns the number of
/// frames.
///
/// Each codestream is written before the next frame is read. If the bytes of reader and writer are known (as in
/// memory), the clauses say which were read and written. After `FilmFault::Input` the reader's place is unspecified.
pub fn code_film<R: Feed, W: Outlet>(
    alloc: Global,
    reader: &mut R,
    writer: &mut W,
) -> Result<u64, FilmFault>
    ensures completes { IfOk result (Completes IsImageOf default_file
        (R.remaining reader.old) (R.remaining reader.new) (W.contents writer.old) (W.contents writer.new)) }
    ensures stops { IfErr result (Stops default_file
        (R.remaining reader.old) (R.remaining reader.new) (W.contents writer.old) (W.contents writer.new)) }
    ensures reads { R.failed_reads reader.new ≡ count_after (failed_by blames_reader result) (R.failed_reads reader.old) }
    ensures writes { W.failed_writes writer.new ≡ count_after (failed_by blames_writer result) (W.failed_writes writer.old) }
{
    write_film::<CodestreamText, R, W>(alloc, reader, writer)
}

/// As `code_film`, with the scans of a colour frame coded side by side (`encode_side_by_side`).
pub fn code_film_by<Rt: Threads, R: Feed, W: Outlet>(
    rt: &Rt,
    alloc: Global,
    reader: &mut R,
    writer: &mut W,
) -> Result<u64, FilmFault>
    ensures completes { IfOk result (Completes IsImageOf default_file
        (R.remaining reader.old) (R.remaining reader.new) (W.contents writer.old) (W.contents writer.new)) }
    ensures stops { IfErr result (Stops default_file
        (R.remaining reader.old) (R.remaining reader.new) (W.contents writer.old) (W.contents writer.new)) }
    ensures reads { R.failed_reads reader.new ≡ count_after (failed_by blames_reader result) (R.failed_reads reader.old) }
    ensures writes { W.failed_writes writer.new ≡ count_after (failed_by blames_writer result) (W.failed_writes writer.old) }
{
    let mut source = CodedImages { rt };
    match write_text::<Attempt, CodestreamText, CodedImages<'_, Rt>, R, W>(
        alloc,
        &mut source,
        reader,
        writer,
    ) {
        Ok(frames) => Ok(frames),
        Err(stopped) => Err(FilmFault::of(stopped)),
    }
}

/// The codestreams of a film in memory, as far as they were written, and how the coding ended.
///
/// The program codes by `code_film`. This is the same over bytes in memory, all of which are known.
pub fn code_bytes(alloc: Global, film: &[u8]) -> (Vec<u8>, Result<u64, FilmFault>)
    ensures completes { IfOk result.1 (IsTextOf default_file film.now result.0.items) }
    ensures stops { IfErr result.1 (StopsOver default_file film.now result.0.items) }
{
    text_of_bytes::<CodestreamText>(alloc, film)
}

/// A codestream for each frame.
struct CodestreamText;

impl Text<Frame> for CodestreamText {
    ghost text = { default_file };

    fn chunk(alloc: Global, _number: u64, frame: Frame) -> Result<Vec<u8>, AllocError> {
        encode_frame(alloc, &frame)
    }

    ghost empty = { refl };
}

/// A frame's codestream.
#[derive(Drop)]
struct Codestream {
    bytes: Vec<u8>,
}

impl Model for Codestream {
    ghost use Rattle.std.specs.Prelude.{◌<◌, ◌^◌, ℕ, List, length};

    ghost Value = { List ℕ };

    ghost view = { λ codestream. codestream.bytes.items };

    ghost invariant = { λ codestream. length codestream.bytes.items < 2 ^ 32 };
}

/// The codestream of a frame that was read; or none, since an allocation failed for it.
type Attempt = Result<Codestream, AllocError>;

impl Made for Attempt {
    ghost made = { IsAttempt };

    fn make(alloc: Global, read: Frame) -> Result<Attempt, AllocError> {
        let bytes = encode_frame(alloc, &read)?;
        Ok(Ok(Codestream { bytes }))
    }
}

/// Reads Netpbm images one by one, and codes each.
#[derive(Drop)]
struct CodedImages<'rt, Rt> {
    rt: &'rt Rt,
}

impl<'rt, Rt: Threads> Images<Attempt> for CodedImages<'rt, Rt> {
    type Fault = NetpbmFault;

    ghost image = { IsImageOf };

    ghost unread = { IsUnread };

    ghost of_device = { blames_device };

    ghost stands = { λ source place read. place ≡ read };

    ghost owes = { λ source. false };

    ghost may_run = { ⊤ };

    fn next<R: Feed>(
        &mut self,
        alloc: Global,
        reader: &mut R,
    ) -> Result<Option<Attempt>, NetpbmFault> {
        match next_frame(alloc, reader) {
            Ok(Some(frame)) => Ok(Some(attempt(self.rt, alloc, &frame))),
            Ok(None) => Ok(None),
            Err(fault) => Err(fault),
        }
    }
}

/// Codes a frame, with the default parameters of its maxval.
fn attempt<Rt: Threads>(rt: &Rt, alloc: Global, frame: &Frame) -> Attempt
    ensures { IsAttempt frame.now result }
{
    let presets = Presets::default_of(frame.maxval());
    let bytes = encode_side_by_side(rt, alloc, frame, &presets)?;
    Ok(Codestream { bytes })
}

impl Text<Attempt> for CodestreamText {
    ghost text = { default_file };

    fn chunk(_alloc: Global, _number: u64, attempt: Attempt) -> Result<Vec<u8>, AllocError> {
        Ok(attempt?.bytes)
    }

    ghost empty = { refl };
}

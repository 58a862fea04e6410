//! A line for each frame of a film.
ghost use Rattle.std.specs.Prelude.{◌≡◌, ◌≤◌, IfOk, IfErr, length, refl, string_bytes};
ghost use Rattle.ls_frame.specs.Netpbm.{IsImageOf};
ghost use Rattle.ls_frame.specs.View.Devices.{count_after};
ghost use Rattle.ls_film.specs.Listing.{kind_text, columns, line, lines};
ghost use Rattle.ls_film.specs.View.Engine.{Completes};
ghost use Rattle.ls_film.specs.View.Memory.{IsTextOf, StopsOver};
ghost use Rattle.ls_film.specs.View.Stopping.{Stops, blames_reader, blames_writer};
ghost use Rattle.ls_film.specs.View.Steps.{failed_by};

use crate::engine::Text;
use crate::faults::FilmFault;
use crate::film::{text_of_bytes, write_film};
use itoa::Buffer;
use ls_frame::{Feed, Frame, Kind, Outlet, Presets};
use std::alloc::{AllocError, Global};

/// Writes the line of each frame of a film, and returns the number of frames.
///
/// If the bytes of reader and writer are known (as in memory), the clauses say which were read and written. After
/// `FilmFault::Input` the reader's place is unspecified.
pub fn list_film<R: Feed, W: Outlet>(
    alloc: Global,
    reader: &mut R,
    writer: &mut W,
) -> Result<u64, FilmFault>
    ensures completes { IfOk result (Completes IsImageOf lines
        (R.remaining reader.old) (R.remaining reader.new) (W.contents writer.old) (W.contents writer.new)) }
    ensures stops { IfErr result (Stops lines
        (R.remaining reader.old) (R.remaining reader.new) (W.contents writer.old) (W.contents writer.new)) }
    ensures reads { R.failed_reads reader.new ≡ count_after (failed_by blames_reader result) (R.failed_reads reader.old) }
    ensures writes { W.failed_writes writer.new ≡ count_after (failed_by blames_writer result) (W.failed_writes writer.old) }
{
    write_film::<LineText, R, W>(alloc, reader, writer)
}

/// The lines of a film in memory, as far as they were written, and how the listing ended.
///
/// The program lists by `list_film`. This is the same over bytes in memory, all of which are known.
pub fn list_bytes(alloc: Global, film: &[u8]) -> (Vec<u8>, Result<u64, FilmFault>)
    ensures completes { IfOk result.1 (IsTextOf lines film.now result.0.items) }
    ensures stops { IfErr result.1 (StopsOver lines film.now result.0.items) }
{
    text_of_bytes::<LineText>(alloc, film)
}

/// A line for each frame.
struct LineText;

impl Text<Frame> for LineText {
    ghost text = { lines };

    fn chunk(alloc: Global, number: u64, frame: Frame) -> Result<Vec<u8>, AllocError> {
        Ok(line(alloc, number, &frame)?.into_bytes())
    }

    ghost empty = { refl };
}

fn kind_text(kind: Kind) -> &'static str
    ensures { result.now ≡ kind_text kind }
{
    match kind {
        Kind::Gray => "gray",
        Kind::Color => "color",
    }
}

/// The numbers of a frame's line after its kind.
fn columns(frame: &Frame) -> [u32; 9]
    ensures { result ≡ columns frame.now }
{
    let presets = Presets::default_of(frame.maxval());
    [
        u32::from(frame.width()),
        u32::from(frame.height()),
        u32::from(frame.maxval()),
        presets.bpp(),
        u32::from(presets.t1()),
        u32::from(presets.t2()),
        u32::from(presets.t3()),
        u32::from(presets.reset()),
        presets.limit(),
    ]
}

/// The line of the frame of this number, from 0.
fn line(alloc: Global, number: u64, frame: &Frame) -> Result<String, AllocError>
    ensures text { IfOk result (λ text. string_bytes text ≡ line number frame.now) }
    ensures short { IfOk result (λ text. length (string_bytes text) ≤ 512) }
{
    let mut buffer = Buffer::new();
    let mut text = String::from_str(alloc, buffer.format(number))?;
    text.push_str(" ")?;
    text.push_str(kind_text(frame.kind()))?;
    for column in &columns(frame) {
        text.push_str(" ")?;
        text.push_str(buffer.format(*column))?;
    }
    text.push_str("\n")?;
    Ok(text)
}

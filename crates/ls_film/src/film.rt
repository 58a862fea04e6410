//! Runs the engine over films of Netpbm images.
ghost use Rattle.std.specs.Prelude.{◌≡◌, ⊤, IfOk, IfErr, false};
ghost use Rattle.ls_frame.specs.Faults.{blames_device};
ghost use Rattle.ls_frame.specs.Netpbm.{IsImageOf};
ghost use Rattle.ls_frame.specs.View.Devices.{count_after};
ghost use Rattle.ls_film.specs.View.Engine.{Completes};
ghost use Rattle.ls_film.specs.View.Memory.{IsTextOf, StopsOver};
ghost use Rattle.ls_film.specs.View.Stopping.{IsUnread, Stops, blames_reader, blames_writer};
ghost use Rattle.ls_film.specs.View.Steps.{failed_by};

use crate::engine::{Images, Text, write_text};
use crate::faults::FilmFault;
use ls_frame::{Counted, Feed, Frame, NetpbmFault, Outlet, next_frame};
use std::alloc::Global;

/// Reads Netpbm images one by one.
#[derive(Drop)]
struct NetpbmImages;

impl Images<Frame> for NetpbmImages {
    type Fault = NetpbmFault;

    ghost image = { IsImageOf };

    ghost unread = { IsUnread };

    ghost of_device = { blames_device };

    ghost stands = { λ source place read. place ≡ read };

    ghost owes = { λ source. false };

    ghost may_run = { ⊤ };

    fn next<R: Feed>(
        &mut self,
        alloc: Global,
        reader: &mut R,
    ) -> Result<Option<Frame>, NetpbmFault> {
        match next_frame(alloc, reader) {
            Ok(Some(frame)) => {
                prove!(frame.maxval() > 0);
                Ok(Some(frame))
            }
            Ok(None) => Ok(None),
            Err(fault) => Err(fault),
        }
    }
}

/// Writes the text of a film of Netpbm images, frame by frame, and returns the number of frames.
///
/// If the bytes of reader and writer are known (as in memory), the clauses say which were read and written. After
/// `FilmFault::Input` the reader's place is unspecified.
pub fn write_film<T: Text<Frame>, R: Feed, W: Outlet>(
    alloc: Global,
    reader: &mut R,
    writer: &mut W,
) -> Result<u64, FilmFault>
    ensures completes { IfOk result (Completes IsImageOf T.text
        (R.remaining reader.old) (R.remaining reader.new) (W.contents writer.old) (W.contents writer.new)) }
    ensures stops { IfErr result (Stops T.text
        (R.remaining reader.old) (R.remaining reader.new) (W.contents writer.old) (W.contents writer.new)) }
    ensures reads { R.failed_reads reader.new ≡ count_after (failed_by blames_reader result) (R.failed_reads reader.old) }
    ensures writes { W.failed_writes writer.new ≡ count_after (failed_by blames_writer result) (W.failed_writes writer.old) }
{
    match write_text::<Frame, T, NetpbmImages, R, W>(alloc, &mut NetpbmImages, reader, writer) {
        Ok(frames) => Ok(frames),
        Err(stopped) => Err(FilmFault::of(stopped)),
    }
}

/// The text of a film in memory, as far as it was written, and how the writing ended.
pub fn text_of_bytes<T: Text<Frame>>(
    alloc: Global,
    film: &[u8],
) -> (Vec<u8>, Result<u64, FilmFault>)
    ensures completes { IfOk result.1 (IsTextOf T.text film.now result.0.items) }
    ensures stops { IfErr result.1 (StopsOver T.text film.now result.0.items) }
{
    let mut reader = film;
    let mut writer = Counted::new(Vec::new(alloc));
    let ended = write_film::<T, &[u8], Counted<Vec<u8>>>(alloc, &mut reader, &mut writer);
    (writer.into_inner(), ended)
}

//! The engine that reads frames and writes a text of them, a chunk for each, and its steps. The source of the frames,
//! what is made of each, and what is written of that, are parameters.
ghost use Rattle.std.specs.Prelude.{◌≡◌, ◌≢◌, ◌≤◌, ◌||◌, false, IsTrue, ℕ, ◌+◌, ◌<◌, ◌^◌, Bool, IfOk, IfErr, OnOk, IfNone, List, [], length, Option};
ghost use Rattle.std.specs.Io.KnownBytes.{Appends};
ghost use Rattle.ls_frame.specs.Picture.{Picture};
ghost use Rattle.ls_frame.specs.View.Devices.{count_after};
ghost use Rattle.ls_film.specs.Film.{most_frames};
ghost use Rattle.ls_film.specs.View.Engine.{Completes};
ghost use Rattle.ls_film.specs.View.Sources.{GivesImage, IsItself, StandsAfter};
ghost use Rattle.ls_film.specs.View.Steps.{HasStopped, StopsChunk, blames_reader, blames_writer, failed_by};
ghost use Rattle.ls_film.specs.View.Texts.{GrowsBy};

use crate::faults::MOST_FRAMES;
use ls_frame::{Feed, Frame, Outlet, write_bytes};
use std::alloc::{AllocError, Global};

/// A value that is made of a frame.
pub trait Made: Sized {
    /// Whether a value is what is made of a frame.
    ghost made: { Picture → Self → Type 0 };

    /// Makes it. Its only error is `AllocError`.
    fn make(alloc: Global, frame: Frame) -> Result<Self, AllocError>
        ensures { IfOk result (made frame) };
}

/// The frame itself.
impl Made for Frame {
    ghost made = { IsItself };

    fn make(_alloc: Global, frame: Frame) -> Result<Frame, AllocError> {
        Ok(frame)
    }
}

/// A source of frames: images of them in the input, one after the other, and a value that is made of each.
///
/// It may read ahead of what it gives: it stands at a place of the input, and its reader there or further on.
pub trait Images<T: Made> {
    /// Why an image can't be read.
    type Fault;

    /// What an image is of a frame.
    ghost image: { List ℕ → Picture → Type 0 };

    /// What a fault says of the known bytes from the place of the image at fault on, and of those that the reader has left.
    ghost unread: { Self.Fault → Option (List ℕ) → Option (List ℕ) → Type 0 };

    /// Whether a fault is of the reader's device.
    ghost of_device: { Self.Fault → Bool };

    /// Where it stands: the known bytes from its place on, and those that its reader has left.
    ghost stands: { Self → Option (List ℕ) → Option (List ℕ) → Type 0 };

    /// Whether a read has failed ahead of the images that it gave.
    ghost owes: { Self → Bool };

    /// What `next` requires: of a source with threads, that they may share what it was lent.
    ghost may_run: { Type 0 };

    /// Gives what is made of the next image's frame; `None` exactly at the end. After a fault it isn't called again.
    fn next<R: Feed>(&mut self, alloc: Global, reader: &mut R) -> Result<Option<T>, Self::Fault>
        requires { may_run }
        ensures gives { (place : Option (List ℕ)) → stands self.old place (R.remaining reader.old)
            → GivesImage image T.made unread stands place (R.remaining reader.new) self.new result }
        ensures failures { (failed : ℕ) → R.failed_reads reader.old ≡ count_after (owes self.old) failed
            → R.failed_reads reader.new ≡ count_after (failed_by of_device result || owes self.new) failed }
        ensures end { IfOk result (λ next. IfNone next (owes self.new ≡ false)) };
}

/// What is written of frames: a chunk for each, of what is made of it.
pub trait Text<T: Made> {
    /// The text of these frames.
    ghost text: { List Picture → List ℕ };

    /// The chunk of the frame of this number, from 0: what the text grows by with this frame. Shorter than 2^32 bytes.
    ///
    /// Its only error is `AllocError`.
    fn chunk(alloc: Global, number: u64, item: T) -> Result<Vec<u8>, AllocError>
        ensures grows { (f : Picture) → T.made f item → IfOk result (λ chunk. GrowsBy text number f chunk.items) }
        ensures short { IfOk result (λ chunk. length chunk.items < 2 ^ 32) };

    /// No frames have no text.
    ghost empty: { text [] ≡ [] };
}

/// Why the engine stopped.
///
/// The text of exactly the frames before the one at fault was written, except after `Output`. No more than
/// `MOST_FRAMES` frames were.
#[derive(Drop)]
pub enum Stopped<E> {
    /// The image of this number, from 0, can't be read.
    Input(u64, E),
    /// A write failed after exactly this number of bytes of the text.
    Output(u64),
    /// An allocation failed for the chunk of a frame that was read.
    NoMemory,
    /// A frame numbered 4,294,967,295.
    TooMany,
}

impl<E> From<AllocError> for Stopped<E> {
    ghost use Rattle.std.specs.Prelude.{◌≡◌};
    ghost use Rattle.ls_film.specs.declared.engine.Stopped.TheVariants.{NoMemory};

    ghost from_gives = { λ _ stopped. stopped ≡ NoMemory };

    fn from(_refused: AllocError) -> Stopped<E> {
        Stopped::NoMemory
    }
}

/// How far a run of the engine came.
#[derive(Clone, Copy)]
pub struct Run {
    /// The number of frames whose text was written.
    pub frames: u64,
    /// Whether the source was seen to be at its end.
    pub ended: bool,
}

/// Writes the text of the frames of a source, frame by frame, and returns the number of frames.
///
/// Each chunk is written before the next image is asked for. If the bytes of reader and writer are known (as in
/// memory), the clauses say which were read and written.
pub fn write_text<T: Made + Drop, X: Text<T>, I: Images<T>, R: Feed, W: Outlet>(
    alloc: Global,
    source: &mut I,
    reader: &mut R,
    writer: &mut W,
) -> Result<u64, Stopped<I::Fault>>
    requires { I.may_run }
    ensures completes { (place : Option (List ℕ)) → I.stands source.old place (R.remaining reader.old)
        → IfOk result (Completes I.image X.text place (R.remaining reader.new) (W.contents writer.old) (W.contents writer.new)) }
    ensures stops { (place : Option (List ℕ)) → I.stands source.old place (R.remaining reader.old)
        → IfErr result (λ stopped. (place' : Option (List ℕ)) × I.stands source.new place' (R.remaining reader.new)
        × HasStopped I.image I.unread X.text place place' (R.remaining reader.new) (W.contents writer.old) (W.contents writer.new) stopped) }
    ensures reads { (failed : ℕ) → R.failed_reads reader.old ≡ count_after (I.owes source.old) failed
        → R.failed_reads reader.new ≡ count_after (failed_by (blames_reader I.of_device) result || I.owes source.new) failed }
    ensures ended { OnOk result (I.owes source.new ≡ false) }
    ensures writes { W.failed_writes writer.new ≡ count_after (failed_by blames_writer result) (W.failed_writes writer.old) }
{
    let run = write_at_most::<T, X, I, R, W>(alloc, source, reader, writer, MOST_FRAMES)?;
    if run.ended {
        return Ok(run.frames);
    }
    match source.next(alloc, reader) {
        Ok(None) => Ok(MOST_FRAMES),
        Ok(Some(_)) => Err(Stopped::TooMany),
        Err(fault) => Err(Stopped::Input(MOST_FRAMES, fault)),
    }
}

/// The same of the next `most` frames, or of all where there are fewer. No image after them is asked for.
///
/// It requires at most `MOST_FRAMES`, and never stops for too many.
pub fn write_at_most<T: Made + Drop, X: Text<T>, I: Images<T>, R: Feed, W: Outlet>(
    alloc: Global,
    source: &mut I,
    reader: &mut R,
    writer: &mut W,
    most: u64,
) -> Result<Run, Stopped<I::Fault>>
    requires may_run { I.may_run }
    requires most { most ≤ most_frames }
    ensures run { (place : Option (List ℕ)) → I.stands source.old place (R.remaining reader.old)
        → IfOk result (λ run. run.ended ≡ false → (bytes : ℕ) × StandsAfter I.image X.text I.stands source.new place (R.remaining reader.new)
        (W.contents writer.old) (W.contents writer.new) run.frames bytes) }
    ensures ended { (place : Option (List ℕ)) → I.stands source.old place (R.remaining reader.old)
        → IfOk result (λ run. IsTrue run.ended → Completes I.image X.text place (R.remaining reader.new) (W.contents writer.old) (W.contents writer.new) run.frames) }
    ensures most { IfOk result (λ run. (run.frames ≤ most) × (run.ended ≡ false → run.frames ≡ most)) }
    ensures lacks { IfOk result (λ run. IsTrue run.ended → (run.frames < most) × (I.owes source.new ≡ false)) }
    ensures stops { (place : Option (List ℕ)) → I.stands source.old place (R.remaining reader.old)
        → IfErr result (λ stopped. (place' : Option (List ℕ)) × I.stands source.new place' (R.remaining reader.new)
        × HasStopped I.image I.unread X.text place place' (R.remaining reader.new) (W.contents writer.old) (W.contents writer.new) stopped) }
    ensures few { IfErr result (λ stopped. stopped ≢ Stopped.TooMany) }
    ensures reads { (failed : ℕ) → R.failed_reads reader.old ≡ count_after (I.owes source.old) failed
        → R.failed_reads reader.new ≡ count_after (failed_by (blames_reader I.of_device) result || I.owes source.new) failed }
    ensures writes { W.failed_writes writer.new ≡ count_after (failed_by blames_writer result) (W.failed_writes writer.old) }
{
    let mut written = 0;
    for number in 0..most {
        let item = match source.next(alloc, reader) {
            Ok(Some(item)) => item,
            Ok(None) => {
                return Ok(Run {
                    frames: number,
                    ended: true,
                });
            }
            Err(fault) => return Err(Stopped::Input(number, fault)),
        };
        let chunk = X::chunk(alloc, number, item)?;
        written = write_chunk(writer, &chunk, written)?;
    }
    Ok(Run {
        frames: most,
        ended: false,
    })
}

/// Writes a chunk of the text after the `written` bytes of it, and returns how many there are then.
fn write_chunk<E, W: Outlet>(writer: &mut W, chunk: &[u8], written: u64) -> Result<u64, Stopped<E>>
    requires { written + length chunk.now < 2 ^ 64 }
    ensures all { OnOk result (Appends (W.contents writer.old) (W.contents writer.new) chunk.now) }
    ensures count { IfOk result (λ count. count ≡ written + length chunk.now) }
    ensures stops { IfErr result (StopsChunk (W.contents writer.old) (W.contents writer.new) written chunk.now) }
    ensures failures { W.failed_writes writer.new ≡ count_after (failed_by blames_writer result) (W.failed_writes writer.old) }
{
    match write_bytes(writer, chunk) {
        Ok(()) => Ok(written + chunk.len() as u64),
        Err(fault) => Err(Stopped::Output(written + fault.written as u64)),
    }
}

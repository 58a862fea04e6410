//! Reading and writing Netpbm images (pgm and ppm pages, the binary forms P5 and P6).
mod header;
mod raster;
mod written;

ghost use Rattle.std.specs.Prelude.{◌≡◌, ◌≤◌, ◌⊎◌, IsTrue, IfOk, IfErr, IfSome, IfNone, [], length, take};
ghost use Rattle.ls_frame.specs.View.Devices.{count_after};
ghost use Rattle.ls_frame.specs.Faults.{IsBroken, blames_bytes, failed_device};
ghost use Rattle.ls_frame.specs.View.Known.{Tells, Gave, WasAtEnd, known};
ghost use Rattle.ls_frame.specs.Netpbm.{BeginsWithHeading, IsImageOf, IsWholeHeading};
ghost use Rattle.ls_frame.specs.View.Reading.{GivesImage};

use crate::device::Feed;
use crate::frame::Frame;
use header::{HEADER_BYTES, read_header};
use raster::read_raster;
use std::alloc::{AllocError, Global};
use thiserror::Error;
pub use written::write_frame;

/// Why the next image can't be read: the first fault in the order of the bytes.
#[derive(Clone, Copy, Debug, Drop, PartialEq, Eq, Error)]
pub enum NetpbmFault {
    /// The first byte isn't `P`, or the second neither `5` nor `6`.
    #[error("bad magic")]
    BadMagic,
    /// A byte isn't allowed at its position in the header.
    #[error("bad header")]
    BadHeader,
    /// The header isn't complete after 65,536 bytes.
    #[error("header too long")]
    HeaderTooLong,
    /// Width or height isn't 1 to 65535, or there are over 2^28 samples.
    #[error("size out of range")]
    SizeOutOfRange,
    /// Maxval isn't 1 to 65535.
    #[error("maxval out of range")]
    MaxvalOutOfRange,
    /// A sample is over maxval.
    #[error("sample too large")]
    SampleTooLarge,
    /// The input ends inside the image.
    #[error("truncated")]
    Truncated,
    /// A read failed.
    #[error("read failed")]
    Io,
    /// An allocation for the raster failed. Exactly the header has been read.
    #[error("no memory")]
    NoMemory,
}

impl From<AllocError> for NetpbmFault {
    ghost use Rattle.std.specs.Prelude.{◌≡◌};
    ghost use Rattle.ls_frame.specs.declared.netpbm.NetpbmFault.TheVariants.{NoMemory};

    ghost from_gives = { λ _ fault. fault ≡ NoMemory };

    fn from(_refused: AllocError) -> NetpbmFault {
        NetpbmFault::NoMemory
    }
}

/// Reads the next image, as `image_at` defines it.
#[tactic(auto, unfolding(crate::specs::View::Reading::image_at))]
fn read_image<R: Feed>(alloc: Global, reader: &mut R) -> Result<Option<Frame>, NetpbmFault>
    ensures bytes { GivesImage (R.remaining reader.old) (R.remaining reader.new) result }
    ensures memory { IfErr result (λ fault. fault ≡ NetpbmFault.NoMemory →
        Gave (R.remaining reader.old) (R.remaining reader.new) IsWholeHeading) }
    ensures failures { R.failed_reads reader.new ≡ count_after (failed_device result) (R.failed_reads reader.old) }
{
    let mut first = [0u8; 1];
    match reader.feed(&mut first) {
        Err(_) => return Err(NetpbmFault::Io),
        Ok(0) => return Ok(None),
        Ok(_) => {}
    }
    let mut allowed = HEADER_BYTES - 1;
    let form = read_header(reader, &mut allowed, first[0])?;
    let samples = read_raster(alloc, reader, form)?;
    Ok(Some(Frame::from_parts(form, samples)))
}

/// Reads one image and not a byte after it. Returns `None` exactly at the end of input.
///
/// If the bytes are known (as in memory), the clauses say which were read. After `NoMemory` exactly a complete, legal
/// header has been read; after any other fault the reader's position is unspecified.
pub fn next_frame<R: Feed>(alloc: Global, reader: &mut R) -> Result<Option<Frame>, NetpbmFault>
    // The bytes that were read are an image of the frame.
    ensures frame { IfOk result (λ next. IfSome next
        (λ f. Gave (R.remaining reader.old) (R.remaining reader.new) (λ image. IsImageOf image f))) }
    ensures end { IfOk result (λ next. IfNone next (WasAtEnd (R.remaining reader.old) (R.remaining reader.new))) }
    // The bytes that were left have this fault, and don't begin with an image.
    ensures broken { IfErr result (λ fault. IsTrue (blames_bytes fault) →
        Tells (R.remaining reader.old) → IsBroken (known (R.remaining reader.old)) fault) }
    // Memory is allocated after the header is read and before the raster is.
    ensures memory { IfErr result (λ fault. fault ≡ NetpbmFault.NoMemory →
        Gave (R.remaining reader.old) (R.remaining reader.new) IsWholeHeading) }
    ensures failures { R.failed_reads reader.new ≡ count_after (failed_device result) (R.failed_reads reader.old) }
{
    read_image(alloc, reader)
}

/// Reads the image at the front of `bytes`, and returns its frame and its length in bytes, or `None` exactly if
/// `bytes` is empty. Returns `NoMemory` only if `bytes` begins with a complete, legal header.
///
/// The program uses `next_frame`. This is the same for bytes in memory, which are all known.
pub fn first_frame(alloc: Global, bytes: &[u8]) -> Result<Option<(Frame, usize)>, NetpbmFault>
    ensures frame { IfOk result (λ next. IfSome next (λ found. IsImageOf (take found.1 bytes.now) found.0)) }
    ensures within { IfOk result (λ next. IfSome next (λ found. found.1 ≤ length bytes.now)) }
    ensures end { IfOk result (λ next. IfNone next (bytes.now ≡ [])) }
    ensures broken { IfErr result (λ fault. (fault ≡ NetpbmFault.NoMemory) ⊎ IsBroken bytes.now fault) }
    ensures memory { IfErr result (λ fault. fault ≡ NetpbmFault.NoMemory → BeginsWithHeading bytes.now) }
{
    let mut rest = bytes;
    match next_frame(alloc, &mut rest)? {
        None => Ok(None),
        Some(frame) => Ok(Some((frame, bytes.len() - rest.len()))),
    }
}

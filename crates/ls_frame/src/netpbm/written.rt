//! Writing Netpbm images: the canonical text of a frame, in chunks.
ghost use Rattle.std.specs.Prelude.{◌≡◌, ◌+◌, ◌-◌, ◌*◌, ◌<◌, ◌≤◌, ◌^◌, ◌++◌, true, false, OnOk, IfOk, IfErr, is_err, length, take};
ghost use Rattle.std.specs.List.{AllByRecursion};
ghost use Rattle.std.specs.Io.KnownBytes.{Appends};
ghost use Rattle.ls_frame.specs.View.Devices.{count_after};
ghost use Rattle.ls_frame.specs.Netpbm.{magic};
ghost use Rattle.ls_frame.specs.Canonical.{canonical_heading, raster_bytes, canonical};
ghost use Rattle.ls_frame.specs.View.Reading.{byte_count};

use super::raster::is_wide;
use crate::device::Outlet;
use crate::frame::{Frame, Kind};
use crate::output::{WriteFault, lay, write_bytes};
use itoa::Buffer;

/// The maximum number of bytes written at once: an even number, and enough for a header.
const CHUNK: usize = 8192;

/// Writes the canonical text of a frame: magic, LF, width, blank, height, LF, maxval, LF, raster.
///
/// It allocates nothing. On a fault exactly the first `written` bytes of the text have been written, and not all.
pub fn write_frame<W: Outlet>(writer: &mut W, frame: &Frame) -> Result<(), WriteFault>
    ensures ok { OnOk result (Appends (W.contents writer.old) (W.contents writer.new) (canonical frame.now)) }
    ensures fault { IfErr result
        (λ fault. Appends (W.contents writer.old) (W.contents writer.new) (take fault.written (canonical frame.now))) }
    ensures part { IfErr result (λ fault. fault.written < length (canonical frame.now)) }
    ensures failures { W.failed_writes writer.new ≡ count_after (is_err result) (W.failed_writes writer.old) }
{
    let mut chunk = [0u8; CHUNK];
    let end = put_heading(&mut chunk, frame);
    let written = write_chunk(writer, &chunk[..end], 0)?;
    let wide = is_wide(frame.maxval());
    write_samples(writer, &mut chunk, wide, frame.samples(), written)?;
    Ok(())
}

/// Writes the next chunk of a text, of which `before` bytes have been written. Returns the number of bytes of the text
/// written after that; a fault holds it too.
fn write_chunk<W: Outlet>(writer: &mut W, chunk: &[u8], before: usize) -> Result<usize, WriteFault>
    requires { before + length chunk.now < 2 ^ 64 }
    ensures ok { OnOk result (Appends (W.contents writer.old) (W.contents writer.new) chunk.now) }
    ensures count { IfOk result (λ written. written ≡ before + length chunk.now) }
    ensures fault { IfErr result
        (λ fault. Appends (W.contents writer.old) (W.contents writer.new) (take (fault.written - before) chunk.now)) }
    ensures after { IfErr result (λ fault. before ≤ fault.written) }
    ensures part { IfErr result (λ fault. fault.written < before + length chunk.now) }
    ensures failures { W.failed_writes writer.new ≡ count_after (is_err result) (W.failed_writes writer.old) }
{
    match write_bytes(writer, chunk) {
        Ok(()) => Ok(before + chunk.len()),
        Err(fault) => Err(WriteFault {
            written: before + fault.written,
        }),
    }
}

/// Writes samples, of two bytes each if `wide`, else of one, in which case each must be below 256. `chunk` is the
/// buffer. `before` bytes have been written already, and a fault counts them too.
fn write_samples<W: Outlet>(
    writer: &mut W,
    chunk: &mut [u8; CHUNK],
    wide: bool,
    samples: &[u16],
    before: usize,
) -> Result<(), WriteFault>
    requires few { before + byte_count wide (length samples.now) < 2 ^ 64 }
    requires each { wide ≡ false → AllByRecursion (λ sample. sample < 256) samples.now }
    ensures ok { OnOk result (Appends (W.contents writer.old) (W.contents writer.new) (raster_bytes wide samples.now)) }
    ensures fault { IfErr result
        (λ fault. Appends (W.contents writer.old) (W.contents writer.new)
        (take (fault.written - before) (raster_bytes wide samples.now))) }
    ensures after { IfErr result (λ fault. before ≤ fault.written) }
    ensures part { IfErr result (λ fault. fault.written < before + length (raster_bytes wide samples.now)) }
    ensures failures { W.failed_writes writer.new ≡ count_after (is_err result) (W.failed_writes writer.old) }
{
    let most = if wide { CHUNK / 2 } else { CHUNK };
    let mut written = before;
    let mut done = 0;
    'chunks: while done < samples.len() {
        let end = done + most.min(samples.len() - done);
        let filled = put_samples(chunk, wide, &samples[done..end]);
        written = write_chunk(writer, &chunk[..filled], written)?;
        done = end;
    }
    Ok(())
}

/// Puts the header of a frame at the front of `chunk`, and returns its length in bytes, at most 21.
#[tactic(auto, unfolding(crate::specs::Canonical::canonical_heading))]
fn put_heading(chunk: &mut [u8; CHUNK], frame: &Frame) -> usize
    ensures laid { take result chunk.new ≡ canonical_heading frame.now }
    ensures within { result ≤ 21 }
{
    let mut number = Buffer::new();
    let mut end = lay(chunk, 0, magic(frame.kind()));
    end = lay(chunk, end, b"\n");
    end = lay(chunk, end, number.format(frame.width()).as_bytes());
    end = lay(chunk, end, b" ");
    end = lay(chunk, end, number.format(frame.height()).as_bytes());
    end = lay(chunk, end, b"\n");
    end = lay(chunk, end, number.format(frame.maxval()).as_bytes());
    lay(chunk, end, b"\n")
}

fn magic(kind: Kind) -> &'static [u8]
    ensures { result.now ≡ magic kind }
{
    match kind {
        Kind::Gray => b"P5",
        Kind::Color => b"P6",
    }
}

/// Puts the bytes of samples at the front of `chunk`, which must have space for them, and returns their number.
/// Samples have two bytes each if `wide`, else one, in which case each must be below 256.
fn put_samples(chunk: &mut [u8], wide: bool, samples: &[u16]) -> usize
    requires room { byte_count wide (length samples.now) ≤ length chunk.old }
    requires each { wide ≡ false → AllByRecursion (λ sample. sample < 256) samples.now }
    ensures laid { take result chunk.new ≡ raster_bytes wide samples.now }
    ensures end { result ≡ byte_count wide (length samples.now) }
{
    if wide {
        put_wide(chunk, samples);
        2 * samples.len()
    } else {
        put_narrow(chunk, samples);
        samples.len()
    }
}

/// Puts samples as one byte each at the front of `chunk`, which must have space for them. Each must be below 256.
fn put_narrow(chunk: &mut [u8], samples: &[u16])
    requires room { length samples.now ≤ length chunk.old }
    requires each { AllByRecursion (λ sample. sample < 256) samples.now }
    ensures { take (length samples.now) chunk.new ≡ raster_bytes false samples.now }
{
    for i in 0..samples.len() {
        chunk[i] = samples[i] as u8;
    }
}

/// Puts samples as two bytes each, the most significant first, at the front of `chunk`, which must have space for them.
fn put_wide(chunk: &mut [u8], samples: &[u16])
    requires { 2 * length samples.now ≤ length chunk.old }
    ensures { take (2 * length samples.now) chunk.new ≡ raster_bytes true samples.now }
{
    for i in 0..samples.len() {
        let sample = samples[i];
        chunk[2 * i] = (sample / 256) as u8;
        chunk[2 * i + 1] = (sample % 256) as u8;
    }
}

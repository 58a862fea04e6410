//! Reading the raster of an image, in chunks.
ghost use Rattle.std.specs.Prelude.{◌≡◌, ◌+◌, ◌*◌, ◌/◌, ◌<◌, ◌≤◌, ◌++◌, [], true, false, OnOk, IfOk, IfErr, IsSome, IsTrue, MatchResult, ◌^◌, length, take, vec_len, vec_capacity};
ghost use Rattle.ls_frame.specs.View.Devices.{count_after};
ghost use Rattle.ls_frame.specs.Picture.{sample_count};
ghost use Rattle.ls_frame.specs.Netpbm.{is_wide};
ghost use Rattle.ls_frame.specs.Faults.{blames_bytes, failed_device, failed_for_memory, sample_size};
ghost use Rattle.ls_frame.specs.View.Known.{known};
ghost use Rattle.ls_frame.specs.View.Reading.{samples_of, begun_of, byte_count, are_within, samples_at, GivesTake};

use super::NetpbmFault;
use crate::device::Feed;
use crate::frame::Form;
use byteorder::{BigEndian, ByteOrder};
use std::alloc::Global;

/// The maximum number of bytes of a raster that are read at once: an even number.
const CHUNK: usize = 65_536;

/// Whether no sample is over `maxval`. It compares all of them, since a loop that can end early isn't vectorized.
fn are_within(samples: &[u16], maxval: u16) -> bool
    ensures { result ≡ are_within maxval samples.now }
{
    let mut within = true;
    for sample in samples {
        within &= *sample <= maxval;
    }
    within
}

/// Appends samples of one byte each. Requires that `samples` has capacity for them.
fn append_narrow(samples: &mut Vec<u16>, bytes: &[u8])
    requires { vec_len samples.old + length bytes.now ≤ vec_capacity samples.old }
    ensures items { samples.new.items ≡ samples.old.items ++ samples_of false bytes.now }
    ensures room { vec_capacity samples.old ≤ vec_capacity samples.new }
{
    for byte in bytes {
        samples.push_reserved(u16::from(*byte));
    }
}

/// Appends samples of two bytes each, the most significant first; an odd last byte is left out. Requires that
/// `samples` has capacity for them.
fn append_wide(samples: &mut Vec<u16>, bytes: &[u8])
    requires { vec_len samples.old + length bytes.now / 2 ≤ vec_capacity samples.old }
    ensures items { samples.new.items ≡ samples.old.items ++ samples_of true bytes.now }
    ensures room { vec_capacity samples.old ≤ vec_capacity samples.new }
{
    for i in 0..bytes.len() / 2 {
        samples.push_reserved(BigEndian::read_u16(&bytes[2 * i..]));
    }
}

/// Appends the complete samples in `bytes`, of two bytes each if `wide`, else of one. Requires that `samples` has
/// capacity for them. Fails with `SampleTooLarge` if one of them is over `maxval`; they are all appended then, too.
fn take_samples(
    samples: &mut Vec<u16>,
    wide: bool,
    bytes: &[u8],
    maxval: u16,
) -> Result<(), NetpbmFault>
    requires { vec_len samples.old + length (samples_of wide bytes.now) ≤ vec_capacity samples.old }
    ensures items { OnOk result (samples.new.items ≡ samples.old.items ++ samples_of wide bytes.now) }
    ensures room { OnOk result (vec_capacity samples.old ≤ vec_capacity samples.new) }
    ensures within { OnOk result (are_within maxval (samples_of wide bytes.now) ≡ true) }
    ensures over { IfErr result (λ fault. (fault ≡ NetpbmFault.SampleTooLarge)
        × (are_within maxval (samples_of wide bytes.now) ≡ false)) }
    ensures device { failed_device result ≡ false }
    ensures memory { failed_for_memory result ≡ false }
{
    let start = samples.len();
    if wide {
        append_wide(samples, bytes);
    } else {
        append_narrow(samples, bytes);
    }
    if !are_within(&samples[start..], maxval) {
        return Err(NetpbmFault::SampleTooLarge);
    }
    Ok(())
}

/// Reads bytes into `chunk` after its first `held` bytes, up to index `end` at most, and returns the index after the
/// last byte read. Requires that `held` is below `end` and `end` within `chunk`. Fails with `Truncated` at the end of
/// input, and with `Io` if the read fails.
fn feed_after<R: Feed>(
    reader: &mut R,
    chunk: &mut [u8],
    held: usize,
    end: usize,
) -> Result<usize, NetpbmFault>
    requires order { held < end }
    requires within { end ≤ length chunk.old }
    ensures bytes { IsSome (R.remaining reader.old) → MatchResult result
        (λ filled. IsSome (R.remaining reader.new)
        × (take held chunk.old ++ known (R.remaining reader.old) ≡ take filled chunk.new ++ known (R.remaining reader.new)))
        (λ fault. IsTrue (blames_bytes fault) → (fault ≡ NetpbmFault.Truncated) × (known (R.remaining reader.old) ≡ [])) }
    ensures order { IfOk result (λ filled. held < filled) }
    ensures within { IfOk result (λ filled. filled ≤ end) }
    ensures memory { failed_for_memory result ≡ false }
    ensures failures { R.failed_reads reader.new ≡ count_after (failed_device result) (R.failed_reads reader.old) }
{
    match reader.feed(&mut chunk[held..end]) {
        Err(_) => Err(NetpbmFault::Io),
        Ok(0) => Err(NetpbmFault::Truncated),
        Ok(given) => Ok(held + given),
    }
}

/// If samples have two bytes each (`wide`) and the first `filled` bytes of `chunk` end in half of one, copies that byte
/// to the front of `chunk` and returns 1, else returns 0. `filled` must be 1 to the length of `chunk`.
fn keep_begun(chunk: &mut [u8], wide: bool, filled: usize) -> usize
    requires some { 0 < filled }
    requires within { filled ≤ length chunk.old }
    ensures kept { take result chunk.new ≡ begun_of wide (take filled chunk.old) }
    ensures few { result ≤ 1 }
    ensures narrow { wide ≡ false → result ≡ 0 }
{
    if !wide {
        return 0;
    }
    if filled % 2 == 0 {
        return 0;
    }
    chunk[0] = chunk[filled - 1];
    1
}

/// The number of bytes of this many samples, at most 2^28.
fn byte_count(wide: bool, samples: usize) -> usize
    requires { samples ≤ 2 ^ 28 }
    ensures { result ≡ byte_count wide samples }
{
    if wide { 2 * samples } else { samples }
}

/// Reads `count` samples, at most 2^28, into `samples`, which must be empty and have capacity for them. `chunk` is the
/// buffer that bytes are read into; if there are samples, it must have space for the bytes of at least one.
///
/// Each chunk's samples are checked before more bytes are read. On a fault the samples read by then have been
/// appended, those of a chunk with one over `maxval` too.
fn read_samples<R: Feed>(
    reader: &mut R,
    chunk: &mut [u8],
    samples: &mut Vec<u16>,
    wide: bool,
    maxval: u16,
    count: usize,
) -> Result<(), NetpbmFault>
    requires empty { samples.old.items ≡ [] }
    requires room { count ≤ vec_capacity samples.old }
    requires few { count ≤ 2 ^ 28 }
    requires chunk { 0 < count → sample_size wide ≤ length chunk.old }
    ensures bytes { GivesTake (λ _. samples.new.items) (R.remaining reader.old) (R.remaining reader.new) result
        (samples_at wide maxval count (known (R.remaining reader.old))) }
    ensures count { OnOk result (length samples.new.items ≡ count) }
    ensures within { OnOk result (are_within maxval samples.new.items ≡ true) }
    ensures memory { failed_for_memory result ≡ false }
    ensures failures { R.failed_reads reader.new ≡ count_after (failed_device result) (R.failed_reads reader.old) }
{
    let mut held = 0;
    'chunks: while samples.len() < count {
        let end = byte_count(wide, count - samples.len()).min(chunk.len());
        let filled = feed_after(reader, chunk, held, end)?;
        take_samples(samples, wide, &chunk[..filled], maxval)?;
        held = keep_begun(chunk, wide, filled);
    }
    Ok(())
}

/// Reads the raster of an image of this form, which has at most 2^28 samples. Memory is allocated before the first
/// byte is read: after `NoMemory` no byte of the raster has been read.
pub(super) fn read_raster<R: Feed>(
    alloc: Global,
    reader: &mut R,
    form: Form,
) -> Result<Vec<u16>, NetpbmFault>
    requires { sample_count form.kind form.width form.height ≤ 2 ^ 28 }
    ensures bytes { GivesTake (λ samples. samples.items) (R.remaining reader.old) (R.remaining reader.new) result
        (samples_at (is_wide form.maxval) form.maxval (sample_count form.kind form.width form.height)
        (known (R.remaining reader.old))) }
    ensures count { IfOk result (λ samples. length samples.items ≡ sample_count form.kind form.width form.height) }
    ensures within { IfOk result (λ samples. are_within form.maxval samples.items ≡ true) }
    ensures memory { IfErr result (λ fault. fault ≡ NetpbmFault.NoMemory → reader.new ≡ reader.old) }
    ensures failures { R.failed_reads reader.new ≡ count_after (failed_device result) (R.failed_reads reader.old) }
{
    let count = form.sample_count() as usize;
    let wide = is_wide(form.maxval);
    let mut samples = Vec::with_capacity(alloc, count)?;
    let mut chunk = vec![in alloc; 0u8; byte_count(wide, count).min(CHUNK)]?;
    read_samples(reader, &mut chunk, &mut samples, wide, form.maxval, count)?;
    Ok(samples)
}

/// Whether samples up to `maxval` have two bytes each, else one.
pub(super) fn is_wide(maxval: u16) -> bool
    ensures { result ≡ is_wide maxval }
{
    maxval > 255
}

use super::*;
use crate::frames::testing::long_samples;
use std::alloc::AllocError;

const NARROW: &[u8] = b"P5 300 300 255\n";

const WIDE: &[u8] = b"P5 300 300 65535\n";

/// The bytes of an image of 300 by 300 samples, each 7 more than the one before, modulo 65536 if `is_wide`, else
/// modulo 256.
fn long_image(alloc: Global, is_wide: bool) -> Result<Vec<u8>, AllocError> {
    let mut bytes = Vec::with_capacity(alloc, 200_000)?;
    bytes.extend_from_slice(if is_wide { WIDE } else { NARROW })?;
    let mut sample = 0u16;
    for _ in 0..90_000 {
        let both = sample.to_be_bytes();
        bytes.extend_from_slice(if is_wide { &both } else { &both[1..] })?;
        sample = sample.wrapping_add(7);
    }
    Ok(bytes)
}

/// Checks that the image was read, or that reading failed for lack of memory, where that is accepted.
fn check_long_image(rt: &impl Abort, memory: Memory, image: &Image, want: &Parts<'_>) {
    if !lacks_memory(memory, image) {
        let is_read = seen(image) == Ok(Some(*want));
        check_so(rt, "a long image", usize::from(want.3), is_read);
    }
}

/// Checks reading the image, in memory and in chunks.
fn check_long_reads(rt: &impl Abort, alloc: Global, memory: Memory, bytes: &[u8], is_wide: bool) {
    let maxval = if is_wide { 65535 } else { 255 };
    let samples = long_samples::<90_000>(maxval);
    let want = (Kind::Gray, 300, 300, maxval, samples.as_slice());
    let (image, _) = read_whole(alloc, bytes);
    check_long_image(rt, memory, &image, &want);
    let reading = read_chunks(alloc, Chunks::new(bytes, 65_535, &[]));
    check_long_image(rt, memory, &reading.image, &want);
}

fn check_long_images(rt: &impl Abort, alloc: Global, memory: Memory) {
    for is_wide in [false, true] {
        match long_image(alloc, is_wide) {
            Ok(bytes) => check_long_reads(rt, alloc, memory, &bytes, is_wide),
            Err(_) => check_so(rt, "memory", 0, matches!(memory, Memory::Refusable)),
        }
    }
}

#[test]
fn long_rasters_are_read_through_with_ample_memory(rt: HostRuntime) {
    check_long_images(&rt, rt.alloc(), Memory::Ample);
}

#[test]
fn long_rasters_are_read_through_or_memory_is_refused(rt: HostRuntime) {
    check_long_images(&rt, rt.alloc(), Memory::Refusable);
}

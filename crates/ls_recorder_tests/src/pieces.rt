use crate::pixels::pixel_order;
use crate::testing::check;
use ls_pieces::Coded;
use ls_queue::Job;
use std::alloc::Global;
use std::process::Abort;

/// The sample of a pixel, up to 255, its RESET, and its codestream.
type Pixel = (u16, u16, &'static [u8]);

const PIXELS: &[Pixel] = &[
    (
        0,
        64,
        b"\xff\xd8\
\xff\xf7\x00\x0b\x08\x00\x01\x00\x01\x01\x01\x11\x00\
\xff\xda\x00\x08\x01\x01\x00\x00\x00\x00\x80\xff\xd9",
    ),
    (
        255,
        64,
        b"\xff\xd8\
\xff\xf7\x00\x0b\x08\x00\x01\x00\x01\x01\x01\x11\x00\
\xff\xda\x00\x08\x01\x01\x00\x00\x00\x00\x40\xff\xd9",
    ),
    (
        0,
        32,
        b"\xff\xd8\
\xff\xf7\x00\x0b\x08\x00\x01\x00\x01\x01\x01\x11\x00\
\xff\xf8\x00\x0d\x01\x00\xff\x00\x03\x00\x07\x00\x15\x00\x20\
\xff\xda\x00\x08\x01\x01\x00\x00\x00\x00\x80\xff\xd9",
    ),
];

/// Whether this is the coded frame of a pixel, as job 5 of source 3.
fn is_piece_of(pixel: &Pixel, piece: &Coded) -> bool {
    let (sample, reset, codestream) = *pixel;
    piece.source() == 3
        && piece.number() == 5
        && piece.frame().samples() == [sample].as_slice()
        && piece.presets().reset() == reset
        && piece.bytes() == codestream
}

/// Whether the coded frame of a pixel, as job 5 of source 3, is right; or, if memory isn't ample, the failure names
/// that job.
fn is_coded(alloc: Global, pixel: &Pixel, ample: bool) -> Option<bool> {
    let (sample, reset, _) = *pixel;
    let job = Job {
        source: 3,
        number: 5,
        item: pixel_order(alloc, sample, reset)?,
    };
    let right = match Coded::make(alloc, job) {
        Ok(piece) => is_piece_of(pixel, &piece),
        Err(uncoded) => !ample && uncoded.source == 3 && uncoded.number == 5,
    };
    Some(right)
}

fn check_pixels(rt: &impl Abort, alloc: Global, ample: bool) {
    for pixel in PIXELS {
        check(rt, "a pixel", is_coded(alloc, pixel, ample), ample);
    }
}

#[test]
fn a_job_gives_its_codestream_with_ample_memory(rt: HostRuntime) {
    check_pixels(&rt, rt.alloc(), true);
}

#[test]
fn a_job_gives_its_codestream_or_memory_is_refused(rt: HostRuntime) {
    check_pixels(&rt, rt.alloc(), false);
}

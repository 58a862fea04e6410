//! Checks and codestreams for the tests.
use ls_salvage::{Gap, SalvageFault, Salvaged};
use ls_stream::StreamFault;
use ls_testing::{Mishap, Sink};
use std::alloc::{AllocError, Global};
use std::fmt::{Debug, Display};
use std::io::Write;
use std::process::Abort;

/// How a salvage ended, what it wrote, and the gaps that it reported.
pub type Outcome<'a> = (Result<Salvaged, SalvageFault>, &'a [u8], &'a [Gap]);

/// Checks that a value is the expected one.
pub fn check<T: PartialEq + Debug>(rt: &impl Abort, case: &str, got: &T, want: &T) {
    assert_eq!(rt; got, want, "{case}");
}

/// Checks that a fault has this text.
pub fn check_text<F: Display + Drop>(rt: &impl Abort, fault: F, text: &str) {
    let mut sink = Sink::new(4096, Mishap::Nothing);
    let written = write!(sink, "{fault}").is_ok();
    let got = (written, sink.written());
    check(rt, text, &got, &(true, text.as_bytes()));
}

/// Checks that these bytes are the expected ones.
pub fn check_bytes(rt: &impl Abort, case: &str, got: &[u8], want: &[u8]) {
    check(rt, case, &got, &want);
}

/// Joins these parts.
pub fn joined(rt: &impl Abort, alloc: Global, parts: &[&[u8]]) -> Vec<u8> {
    try_joined(alloc, parts).expect(rt, "memory")
}

fn try_joined(alloc: Global, parts: &[&[u8]]) -> Result<Vec<u8>, AllocError> {
    let mut bytes = Vec::new(alloc);
    for part in parts {
        bytes.extend_from_slice(part)?;
    }
    Ok(bytes)
}

/// A gap: the number of frames before it, its offset and size in bytes, and its fault.
pub fn gap(frame: u64, place: u64, count: u64, fault: StreamFault) -> Gap {
    Gap {
        frame,
        place,
        count,
        fault,
    }
}

/// The result of a salvage that wrote this number of frames and reported this number of gaps.
pub fn ended(frames: u64, gaps: u64) -> Result<Salvaged, SalvageFault> {
    Ok(Salvaged { frames, gaps })
}

/// A black sample of maxval 255, as a codestream of 28 bytes, and as an image.
pub const BLACK: &[u8] = ls_testing::films::FIRST_CODESTREAM;

pub const BLACK_IMAGE: &[u8] = ls_testing::films::BLACK;

/// A white sample of maxval 255, likewise.
pub const WHITE: &[u8] = b"\xff\xd8\
\xff\xf7\x00\x0b\x08\x00\x01\x00\x01\x01\x01\x11\x00\
\xff\xda\x00\x08\x01\x01\x00\x00\x00\x00\x40\xff\xd9";

pub const WHITE_IMAGE: &[u8] = b"P5\n1 1\n255\n\xff";

/// A black pixel in colour, a gray sample of 1 with maxval 1, and one of 65535 with maxval 65535: codestreams of 56, 43
/// and 29 bytes.
pub const MIXED: &[u8] = b"\xff\xd8\
\xff\xf7\x00\x11\x08\x00\x01\x00\x01\x03\x01\x11\x00\x02\x11\x00\x03\x11\x00\
\xff\xda\x00\x08\x01\x01\x00\x00\x00\x00\x80\
\xff\xda\x00\x08\x01\x02\x00\x00\x00\x00\x80\
\xff\xda\x00\x08\x01\x03\x00\x00\x00\x00\x80\xff\xd9\
\xff\xd8\
\xff\xf7\x00\x0b\x02\x00\x01\x00\x01\x01\x01\x11\x00\
\xff\xf8\x00\x0d\x01\x00\x01\x00\x01\x00\x01\x00\x01\x00\x40\
\xff\xda\x00\x08\x01\x01\x00\x00\x00\x00\x40\xff\xd9\
\xff\xd8\
\xff\xf7\x00\x0b\x10\x00\x01\x00\x01\x01\x01\x11\x00\
\xff\xda\x00\x08\x01\x01\x00\x00\x00\x00\x40\x00\xff\xd9";

/// A black gray pixel, as another program may write it: a comment before the frame header, and explicit parameters, of
/// which RESET isn't the default.
pub const ANOTHER_FORM: &[u8] = b"\xff\xd8\
\xff\xfe\x00\x03J\
\xff\xf7\x00\x0b\x08\x00\x01\x00\x01\x01\x01\x11\x00\
\xff\xf8\x00\x0d\x01\x00\xff\x00\x03\x00\x07\x00\x15\x00\x20\
\xff\xda\x00\x08\x01\x01\x00\x00\x00\x00\x80\xff\xd9";

/// A codestream whose markers and headers are complete, but whose data can't be decoded.
pub const BROKEN_DATA: &[u8] = b"\xff\xd8\
\xff\xf7\x00\x0b\x08\x00\x01\x00\x01\x01\x01\x11\x00\
\xff\xda\x00\x08\x01\x01\x00\x00\x00\x00\x00\xff\xd9";

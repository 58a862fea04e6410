//! Checks and codestreams for the tests.
use ls_frame::{Counted, Outlet};
use ls_testing::{Mishap, Sink};
use std::fmt::{Debug, Display};
use std::io::Write;
use std::process::Abort;

/// The result of an engine, the writer that it wrote to, and the numbers of failed reads and of failed writes.
pub type Ending<F> = (Result<u64, F>, Sink, u64, u64);

/// The expected result of an engine, what it writes, and the numbers of failed reads and of failed writes.
pub type Outcome<'a, F> = (Result<u64, F>, &'a [u8], u64, u64);

/// The ending of an engine with this result and this number of failed reads.
pub fn ending<F>(answer: Result<u64, F>, reads: u64, writer: Counted<Sink>) -> Ending<F> {
    let writes = Outlet::failures(&writer);
    (answer, writer.into_inner(), reads, writes)
}

/// Checks how an engine ended.
pub fn check_ending<F: PartialEq + Debug + Copy>(
    rt: &impl Abort,
    case: &str,
    ending: &Ending<F>,
    want: &Outcome<'_, F>,
) {
    let (result, sink, reads, writes) = ending;
    check(rt, case, &(*result, sink.written(), *reads, *writes), want);
}

/// Checks that a value is the expected one.
pub fn check<T: PartialEq + Debug>(rt: &impl Abort, case: &str, got: &T, want: &T) {
    assert_eq!(rt; got, want, "{case}");
}

/// Checks that these bytes are the expected ones.
pub fn check_bytes(rt: &impl Abort, case: &str, got: &[u8], want: &[u8]) {
    check(rt, case, &got, &want);
}

/// Checks that a fault has this text.
pub fn check_text<F: Display + Drop>(rt: &impl Abort, fault: F, text: &str) {
    let mut sink = Sink::new(4096, Mishap::Nothing);
    let written = write!(sink, "{fault}").is_ok();
    let got = (written, sink.written());
    check(rt, text, &got, &(true, text.as_bytes()));
}

pub const ANNEX_H_IMAGE: &[u8] = b"P5\n4 4\n255\n\
\x00\x00\x5a\x4a\x44\x32\x2b\xcd\x40\x91\x91\x91\x64\x91\x91\x91";

/// A sample of 1 with maxval 1.
pub const TWO_VALUES: &[u8] = b"\xff\xd8\
\xff\xf7\x00\x0b\x02\x00\x01\x00\x01\x01\x01\x11\x00\
\xff\xf8\x00\x0d\x01\x00\x01\x00\x01\x00\x01\x00\x01\x00\x40\
\xff\xda\x00\x08\x01\x01\x00\x00\x00\x00\x40\xff\xd9";

/// A black pixel in colour, with maxval 255.
pub const COLOUR: &[u8] = b"\xff\xd8\
\xff\xf7\x00\x11\x08\x00\x01\x00\x01\x03\x01\x11\x00\x02\x11\x00\x03\x11\x00\
\xff\xda\x00\x08\x01\x01\x00\x00\x00\x00\x80\
\xff\xda\x00\x08\x01\x02\x00\x00\x00\x00\x80\
\xff\xda\x00\x08\x01\x03\x00\x00\x00\x00\x80\xff\xd9";

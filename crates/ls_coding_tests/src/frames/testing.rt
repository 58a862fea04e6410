//! Frames, readers, writers and checks for the tests. The readers and the writers don't allocate.
ghost use Rattle.std.specs.Prelude.{◌≤◌};
ghost use Rattle.ls_coding_tests.specs.declared.frames.testing.TheConstants.{ROOM};

use ls_frame::{Failed, Feed, FeedFault, Form, Frame, Kind, PresetFault, Presets, Samples};
use std::alloc::{AllocError, Global};
use std::fmt::Debug;
use std::io;
use std::io::{Read, Write};
use std::process::Abort;

/// The failure of the readers and writers here.
pub const BROKEN: Failed = Failed {
    kind: io::ErrorKind::BrokenPipe,
    number: None,
};

/// Checks that a value is the expected one.
pub fn check<T: PartialEq + Debug>(rt: &impl Abort, case: &str, at: usize, got: &T, want: &T) {
    assert_eq!(rt; got, want, "{case}, at {at}");
}

/// Checks that items are the expected ones.
pub fn check_items<T: PartialEq + Debug>(
    rt: &impl Abort,
    case: &str,
    at: usize,
    got: &[T],
    want: &[T],
) {
    check(rt, case, at, &got, &want);
}

/// Checks that a condition holds.
pub fn check_so(rt: &impl Abort, case: &str, at: usize, holds: bool) {
    assert!(rt; holds, "{case}, at {at}");
}

/// Checks that samples are the expected ones, of the expected number of bits.
pub fn check_samples(rt: &impl Abort, case: &str, at: usize, got: Samples<'_>, want: Samples<'_>) {
    match (got, want) {
        (Samples::Bytes(got), Samples::Bytes(want)) => check_items(rt, case, at, got, want),
        (Samples::Words(got), Samples::Words(want)) => check_items(rt, case, at, got, want),
        _ => panic!(rt; "{case}, at {at}: samples of another size"),
    }
}

/// Kind, width, height, maxval, samples.
pub type Parts<'a> = (Kind, u16, u16, u16, &'a [u16]);

/// The parts of a frame.
pub fn parts_of(frame: &Frame) -> Parts<'_> {
    (
        frame.kind(),
        frame.width(),
        frame.height(),
        frame.maxval(),
        frame.samples(),
    )
}

/// Returns the form of a frame's parts.
pub fn form_of(parts: &Parts<'_>) -> Form {
    let (kind, width, height, maxval, _) = *parts;
    Form {
        kind,
        width,
        height,
        maxval,
    }
}

/// Makes a frame of these parts.
pub fn frame_of(rt: &impl Abort, alloc: Global, parts: &Parts<'_>) -> Result<Frame, AllocError> {
    let (kind, width, height, maxval, samples) = *parts;
    let made = Frame::new(kind, width, height, maxval, samples.to_vec(alloc)?);
    Ok(made.expect(rt, "parts that make no frame"))
}

/// Samples, each 7 more than the one before, modulo `maxval + 1`, which must be a power of two.
pub fn long_samples<const N: usize>(maxval: u16) -> [u16; N] {
    let mut samples = [0u16; N];
    let mut sample = 0u16;
    for place in &mut samples {
        *place = sample & maxval;
        sample = sample.wrapping_add(7);
    }
    samples
}

/// MAXVAL, T1, T2, T3, RESET.
pub type Parameters = (u16, u16, u16, u16, u16);

/// The values of these presets, or the fault.
pub fn parameters_of(got: Result<Presets, PresetFault>) -> Result<Parameters, PresetFault> {
    let presets = got?;
    Ok((
        presets.maxval(),
        presets.t1(),
        presets.t2(),
        presets.t3(),
        presets.reset(),
    ))
}

/// A call of `feed_until`: its mark, the maximum number of bytes, its result, all bytes taken so far, and the number of
/// failed reads so far.
pub type Take<'a> = (u8, usize, Result<Option<u8>, FeedFault>, &'a [u8], u64);

/// Checks calls of `feed_until`, up to the first that fails for lack of memory. Returns whether none did.
pub fn check_takes<R: Feed>(
    rt: &impl Abort,
    alloc: Global,
    reader: &mut R,
    takes: &[Take<'_>],
) -> bool {
    let mut bytes = Vec::new(alloc);
    are_taken(rt, reader, &mut bytes, takes)
}

fn are_taken<R: Feed>(
    rt: &impl Abort,
    reader: &mut R,
    bytes: &mut Vec<u8>,
    takes: &[Take<'_>],
) -> bool {
    for (at, take) in takes.iter().enumerate() {
        if !is_taken(rt, reader, bytes, at, take) {
            return false;
        }
    }
    true
}

/// Checks a call of `feed_until`, which appends to `bytes`. If it fails for lack of memory, checks that it appends
/// nothing, and returns false.
fn is_taken<R: Feed>(
    rt: &impl Abort,
    reader: &mut R,
    bytes: &mut Vec<u8>,
    at: usize,
    take: &Take<'_>,
) -> bool {
    let (mark, most, want, taken, failures) = *take;
    let before = bytes.len();
    let got = reader.feed_until(mark, most.max(1), bytes);
    let is_refused = got == Err(FeedFault::NoMemory);
    if is_refused {
        check(rt, "bytes without memory", at, &bytes.len(), &before);
    } else {
        let got = (got, bytes.as_slice(), reader.failures());
        let want = (want, taken, failures);
        check(rt, "the last byte, all bytes, failures", at, &got, &want);
    }
    !is_refused
}

/// A reader over memory that returns at most `most` bytes per call. The calls whose numbers are in `failing`, counted
/// from 0, fail and return nothing.
#[derive(Drop)]
pub struct Chunks<'a> {
    rest: &'a [u8],
    most: usize,
    failing: &'a [usize],
    /// The number of calls so far.
    pub calls: usize,
    /// The number of bytes returned so far.
    pub given: usize,
    /// The position, counted from 1, of the farthest byte that a call has asked for.
    pub furthest: usize,
    /// The number of bytes returned before the first call that asked for more than one.
    pub singly: Option<usize>,
}

impl<'a> Chunks<'a> {
    pub fn new(bytes: &'a [u8], most: usize, failing: &'a [usize]) -> Chunks<'a> {
        Chunks {
            rest: bytes,
            most,
            failing,
            calls: 0,
            given: 0,
            furthest: 0,
            singly: None,
        }
    }
}

impl<'a> Read for Chunks<'a> {
    fn read(&mut self, buf: &mut [u8]) -> io::Result<usize> {
        let call = self.calls;
        self.calls = call.saturating_add(1);
        self.furthest = self.furthest.max(self.given.saturating_add(buf.len()));
        if buf.len() > 1 && self.singly.is_none() {
            self.singly = Some(self.given);
        }
        if self.failing.contains(&call) {
            return Err(io::Error::from(io::ErrorKind::BrokenPipe));
        }
        let count = buf.len().min(self.most).min(self.rest.len());
        let (given, rest) = self.rest.split_at(count);
        buf[..count].copy_from_slice(given);
        self.rest = rest;
        self.given = self.given.saturating_add(count);
        Ok(count)
    }
}

/// How the failing calls of a `Sink` go wrong.
#[derive(Clone, Copy)]
pub enum Mishap {
    Fails,
    TakesNothing,
}

/// The maximum number of bytes in a `Sink`.
const ROOM: usize = 16;

/// A writer into an array that accepts at most `most` bytes per call. The calls whose numbers are in `failing`, counted
/// from 0, go wrong and accept nothing.
#[derive(Drop)]
pub struct Sink<'a> {
    room: [u8; ROOM],
    filled: usize,
    most: usize,
    failing: &'a [usize],
    mishap: Mishap,
    /// The number of calls of `write` so far.
    pub calls: usize,
    /// The number of calls of `flush` so far. Those whose numbers are in `failing` fail.
    pub flushes: usize,
    ghost fits: { filled ≤ ROOM },
}

impl<'a> Sink<'a> {
    pub fn new(most: usize, failing: &'a [usize], mishap: Mishap) -> Sink<'a> {
        Sink {
            room: [0; ROOM],
            filled: 0,
            most,
            failing,
            mishap,
            calls: 0,
            flushes: 0,
        }
    }

    /// The bytes written so far.
    pub fn written(&self) -> &[u8] {
        &self.room[..self.filled]
    }
}

impl<'a> Write for Sink<'a> {
    fn write(&mut self, buf: &[u8]) -> io::Result<usize> {
        let call = self.calls;
        self.calls = call.saturating_add(1);
        if self.failing.contains(&call) {
            return match self.mishap {
                Mishap::Fails => Err(io::Error::from(io::ErrorKind::BrokenPipe)),
                Mishap::TakesNothing => Ok(0),
            };
        }
        let start = self.filled;
        let taken = buf.len().min(self.most).min(ROOM - start);
        self.room[start..start + taken].copy_from_slice(&buf[..taken]);
        self.filled = start + taken;
        Ok(taken)
    }

    fn flush(&mut self) -> io::Result<()> {
        let call = self.flushes;
        self.flushes = call.saturating_add(1);
        if self.failing.contains(&call) {
            return Err(io::Error::from(io::ErrorKind::BrokenPipe));
        }
        Ok(())
    }
}

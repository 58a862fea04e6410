//! Readers and writers whose calls can fail. They don't allocate.
ghost use Rattle.std.specs.Prelude.{◌≤◌};
ghost use Rattle.ls_testing.specs.declared.devices.TheConstants.{ROOM};

use std::io;
use std::io::{Read, Write};

/// Whether allocations may fail in a test. If so (`Refusable`), a failure for lack of memory is accepted as a result,
/// too.
#[derive(Clone, Copy, Debug, PartialEq, Eq)]
pub enum Memory {
    Ample,
    Refusable,
}

/// A reader over memory that returns at most `most` bytes per call. Its call number `failing`, counted from 0, fails
/// and returns nothing.
#[derive(Drop)]
pub struct Pieces<'a> {
    rest: &'a [u8],
    most: usize,
    failing: Option<usize>,
    calls: usize,
}

impl<'a> Pieces<'a> {
    pub fn new(bytes: &'a [u8], most: usize, failing: Option<usize>) -> Pieces<'a> {
        Pieces {
            rest: bytes,
            most,
            failing,
            calls: 0,
        }
    }
}

impl<'a> Read for Pieces<'a> {
    fn read(&mut self, buf: &mut [u8]) -> io::Result<usize> {
        let call = self.calls;
        self.calls = call.saturating_add(1);
        if self.failing == Some(call) {
            return Err(io::Error::from(io::ErrorKind::BrokenPipe));
        }
        let room = buf.len().min(self.most);
        self.rest.read(&mut buf[..room])
    }
}

/// What goes wrong in a `Sink`.
#[derive(Clone, Copy, Debug, PartialEq, Eq)]
pub enum Mishap {
    Nothing,
    /// The call of `write` with this number, counted from 0, fails.
    Fails(usize),
    /// The call of `write` with this number, counted from 0, succeeds and accepts nothing.
    TakesNothing(usize),
}

/// The maximum number of bytes in a `Sink`.
const ROOM: usize = 4096;

/// A writer into an array that accepts at most `most` bytes per call, and none once it is full.
#[derive(Drop)]
pub struct Sink {
    room: [u8; ROOM],
    filled: usize,
    most: usize,
    mishap: Mishap,
    calls: usize,
    ghost fits: { filled ≤ ROOM },
}

impl Sink {
    pub fn new(most: usize, mishap: Mishap) -> Sink {
        Sink {
            room: [0; ROOM],
            filled: 0,
            most,
            mishap,
            calls: 0,
        }
    }

    /// The bytes written so far.
    pub fn written(&self) -> &[u8] {
        &self.room[..self.filled]
    }
}

impl Write for Sink {
    fn write(&mut self, buf: &[u8]) -> io::Result<usize> {
        let call = self.calls;
        self.calls = call.saturating_add(1);
        if self.mishap == Mishap::Fails(call) {
            return Err(io::Error::from(io::ErrorKind::BrokenPipe));
        }
        if self.mishap == Mishap::TakesNothing(call) {
            return Ok(0);
        }
        let start = self.filled;
        let taken = buf.len().min(self.most).min(ROOM - start);
        self.room[start..start + taken].copy_from_slice(&buf[..taken]);
        self.filled = start + taken;
        Ok(taken)
    }

    fn flush(&mut self) -> io::Result<()> {
        Ok(())
    }
}

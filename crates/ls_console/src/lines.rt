//! A writer with a buffer for lines.
ghost use Rattle.std.specs.Prelude.{◌≡◌, ◌≤◌, ◌+◌, ◌-◌, [], length, take, drop, vec_len, vec_capacity, OnOk};
ghost use Rattle.std.specs.Io.KnownBytes.{Appends, Keeps};
ghost use Rattle.ls_console.specs.View.Lines.{lines_writer, held, lines_bytes};

use std::alloc::{AllocError, Global};
use std::io;
use std::io::Write;

/// The number of bytes that a buffer for lines holds.
const CAPACITY: usize = 8192;

/// Makes a buffer for lines.
pub fn line_buffer(alloc: Global) -> Result<Vec<u8>, AllocError> {
    Vec::with_capacity(alloc, CAPACITY)
}

/// A writer with a buffer, as `BufWriter` is, but over a buffer that is made first: so making it can't fail, and the
/// writer isn't lost if memory runs out. What it holds isn't written when it is dropped.
#[derive(Drop)]
pub struct Lines<W> {
    writer: W,
    /// What was written to `Lines` and not yet to the writer.
    buffer: Vec<u8>,
}

impl<W: Write> Lines<W> {
    /// Writes to `writer` through a buffer, which is emptied first.
    pub fn new(writer: W, mut buffer: Vec<u8>) -> Lines<W>
        ensures writer { lines_writer result ≡ writer }
        ensures empty { held result ≡ [] }
    {
        buffer.clear();
        Lines { writer, buffer }
    }

    /// Returns the writer, and drops what the buffer holds.
    pub fn into_writer(self) -> W
        ensures { result ≡ lines_writer self }
    {
        self.writer
    }

    /// The number of bytes that the buffer has room for.
    fn left(&self) -> usize
        ensures { result ≡ vec_capacity self.now.buffer - vec_len self.now.buffer }
    {
        self.buffer.capacity() - self.buffer.len()
    }

    /// Appends bytes to the buffer, which must have room for them.
    fn hold(&mut self, bytes: &[u8])
        requires room { vec_len self.old.buffer + length bytes.now ≤ vec_capacity self.old.buffer }
        ensures { Appends (lines_bytes W.contents self.old) (lines_bytes W.contents self.new) bytes.now }
    {
        let Ok(()) = self.buffer.extend_from_slice(bytes) else {
            unreachable!()
        };
    }

    /// Writes what the buffer holds. After a failure the buffer holds what wasn't written.
    fn pass_on(&mut self) -> io::Result<()>
        ensures empty { OnOk result (held self.new ≡ []) }
        ensures bytes { Keeps (lines_bytes W.contents self.old) (lines_bytes W.contents self.new) }
    {
        let (written, result) = write_out(self.buffer.as_slice(), &mut self.writer);
        remove_front(&mut self.buffer, written);
        result
    }
}

impl<W: Write> Write for Lines<W> {
    ghost use Rattle.std.specs.Prelude.{◌≡◌, [], OnOk};
    ghost use Rattle.std.specs.Io.KnownBytes.{Keeps};
    ghost use Rattle.ls_console.specs.View.Lines.{held, lines_bytes};

    ghost contents = { lines_bytes W.contents };

    fn write(&mut self, buf: &[u8]) -> io::Result<usize> {
        if buf.len() <= self.left() {
            self.hold(buf);
            return Ok(buf.len());
        }
        self.pass_on()?;
        if buf.len() <= self.left() {
            self.hold(buf);
            return Ok(buf.len());
        }
        self.writer.write(buf)
    }

    fn flush(&mut self) -> io::Result<()>
        ensures bytes { Keeps (lines_bytes W.contents self.old) (lines_bytes W.contents self.new) }
        ensures empty { OnOk result (held self.new ≡ []) }
    {
        self.pass_on()?;
        self.writer.flush()
    }
}

/// Writes bytes until all are written or a write fails, and returns the number of those written.
fn write_out<W: Write>(bytes: &[u8], writer: &mut W) -> (usize, io::Result<()>)
    ensures bound { result.0 ≤ length bytes.now }
    ensures all { OnOk result.1 (result.0 ≡ length bytes.now) }
    ensures bytes { Appends (W.contents writer.old) (W.contents writer.new) (take result.0 bytes.now) }
{
    let mut written = 0;
    while written < bytes.len() {
        match writer.write(&bytes[written..]) {
            Ok(0) => return (written, Err(io::Error::from(io::ErrorKind::WriteZero))),
            Ok(taken) => written += taken,
            Err(fault) => return (written, Err(fault)),
        }
    }
    (written, Ok(()))
}

/// Removes the first `count` bytes of a buffer.
fn remove_front(buffer: &mut Vec<u8>, count: usize)
    requires { count ≤ vec_len buffer.old }
    ensures { buffer.new.items ≡ drop count buffer.old.items }
{
    let len = buffer.len();
    buffer.as_mut_slice().copy_within(count..len, 0);
    buffer.truncate(len - count);
}

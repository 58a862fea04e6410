//! Writes that are tried again if a signal interrupts them.
ghost use Rattle.std.specs.Io.{WritesAtMost};
ghost use Rattle.std.specs.Io.KnownBytes.{WriteAppends};

use std::io;
use std::io::Write;

/// A writer whose writes are tried again if a signal interrupts them.
#[derive(Drop)]
pub struct Patient<W> {
    inner: W,
}

impl<W> Patient<W> {
    pub fn new(inner: W) -> Patient<W> {
        Patient { inner }
    }
}

impl<W: Write> Write for Patient<W> {
    ghost contents = { λ patient. W.contents patient.inner };

    fn write(&mut self, buf: &[u8]) -> io::Result<usize> {
        write_again(&mut self.inner, buf)
    }

    fn flush(&mut self) -> io::Result<()> {
        self.inner.flush()
    }
}

/// Writes as `write` does, and again if a signal interrupts that.
pub fn write_again<W: Write>(writer: &mut W, buf: &[u8]) -> io::Result<usize>
    ensures bound { WritesAtMost result buf.now }
    ensures bytes { WriteAppends (W.contents writer.old) (W.contents writer.new) result buf.now }
{
    for _try in 0..u64::MAX {
        match writer.write(buf) {
            Err(fault) if fault.kind() == io::ErrorKind::Interrupted => {}
            answer => return answer,
        }
    }
    Err(io::Error::from(io::ErrorKind::Interrupted))
}

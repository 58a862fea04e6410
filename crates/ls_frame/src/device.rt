//! Readers and writers whose failed calls are counted.
ghost use Rattle.std.specs.Prelude.{◌≡◌, ℕ, ◌<◌, List, Option, OnOk, OnErr, IfOk, IfErr, IfSome, IfNone, is_err, length};
ghost use Rattle.std.specs.Io.{ReadsAtMost, WritesAtMost};
ghost use Rattle.std.specs.Io.KnownBytes.{Keeps, ReadConsumes, WriteAppends};
ghost use Rattle.ls_frame.specs.View.Devices.{count_after, failed_read, last_after};
ghost use Rattle.ls_frame.specs.View.Known.{TakesUntil, TakesPast, WasAtEnd, HadBytes};

use std::io;
use std::io::{Read, Write};

/// A read or a write that failed, or a write of a non-empty slice that took nothing.
#[derive(Clone, Copy, Debug, PartialEq, Eq)]
pub struct Failed {
    /// The kind of failure; `WriteZero` for a write that took nothing.
    pub kind: io::ErrorKind,
    /// The system's error number, if the failure has one.
    pub number: Option<i32>,
}

impl From<io::Error> for Failed {
    ghost use Rattle.std.specs.Prelude.{◌≡◌};
    ghost use Rattle.std.specs.IoError.{error_kind, raw_os_error};

    ghost from_gives = { λ error failed. (failed.kind ≡ error_kind error) × (failed.number ≡ raw_os_error error) };

    fn from(error: io::Error) -> Failed {
        Failed {
            kind: error.kind(),
            number: error.raw_os_error(),
        }
    }
}

/// Why `feed_until` or `feed_past` returned no bytes.
#[derive(Clone, Copy, Debug, PartialEq, Eq)]
pub enum FeedFault {
    /// A read failed.
    Io,
    /// An allocation failed.
    NoMemory,
}

/// A reader that counts its failed reads.
pub trait Feed: Read {
    /// The number of failed reads, by `feed`, `feed_until` or `feed_past`.
    ghost failed_reads: { Self → ℕ };

    /// Reads into `buf`, as `read` does, and counts a failure. `Ok(0)` is the end of input, unless `buf` is empty.
    fn feed(&mut self, buf: &mut [u8]) -> Result<usize, Failed>
        ensures bound { ReadsAtMost result buf.new }
        ensures bytes { ReadConsumes (Self.remaining self.old) (Self.remaining self.new) result buf.new }
        ensures failures { failed_reads self.new ≡ count_after (is_err result) (failed_reads self.old) };

    /// Reads some bytes and appends them to `bytes`: at most `most`, which must be 1 or more, and none after the first
    /// `mark`. Returns the last of them, or `None` at the end of input.
    ///
    /// On a fault nothing is appended. After `Io` the reader's bytes, if known, are unchanged. `NoMemory` is returned
    /// only if the reader had a byte; after it the reader's position is unspecified.
    fn feed_until(
        &mut self,
        mark: u8,
        most: usize,
        bytes: &mut Vec<u8>,
    ) -> Result<Option<u8>, FeedFault>
        requires some { 0 < most }
        ensures taken { IfOk result (λ next. IfSome next
            (TakesUntil mark most (Self.remaining self.old) (Self.remaining self.new) bytes.old.items bytes.new.items)) }
        ensures end { IfOk result (λ next. IfNone next
            ((bytes.new.items ≡ bytes.old.items) × WasAtEnd (Self.remaining self.old) (Self.remaining self.new))) }
        ensures nothing { OnErr result (bytes.new.items ≡ bytes.old.items) }
        ensures fault { IfErr result (λ fault. fault ≡ FeedFault.Io → Keeps (Self.remaining self.old) (Self.remaining self.new)) }
        ensures memory { IfErr result (λ fault. fault ≡ FeedFault.NoMemory → HadBytes (Self.remaining self.old)) }
        ensures failures { failed_reads self.new ≡ count_after (failed_read result) (failed_reads self.old) }
    {
        self.feed_past(mark, 0, most, bytes)
    }

    /// As `feed_until`, but it may read on after a `mark` that is followed by a byte below `limit`.
    fn feed_past(
        &mut self,
        mark: u8,
        limit: u8,
        most: usize,
        bytes: &mut Vec<u8>,
    ) -> Result<Option<u8>, FeedFault>
        requires some { 0 < most }
        ensures taken { IfOk result (λ next. IfSome next
            (TakesPast mark limit most (Self.remaining self.old) (Self.remaining self.new) bytes.old.items bytes.new.items)) }
        ensures end { IfOk result (λ next. IfNone next
            ((bytes.new.items ≡ bytes.old.items) × WasAtEnd (Self.remaining self.old) (Self.remaining self.new))) }
        ensures nothing { OnErr result (bytes.new.items ≡ bytes.old.items) }
        ensures fault { IfErr result (λ fault. fault ≡ FeedFault.Io → Keeps (Self.remaining self.old) (Self.remaining self.new)) }
        ensures memory { IfErr result (λ fault. fault ≡ FeedFault.NoMemory → HadBytes (Self.remaining self.old)) }
        ensures failures { failed_reads self.new ≡ count_after (failed_read result) (failed_reads self.old) }
    {
        let mut byte = [0u8; 1];
        match self.feed(&mut byte) {
            Err(_) => Err(FeedFault::Io),
            Ok(0) => Ok(None),
            Ok(_) => match bytes.push(byte[0]) {
                Ok(()) => Ok(Some(byte[0])),
                Err(_) => Err(FeedFault::NoMemory),
            },
        }
    }

    /// The number of failed reads, by `feed`, `feed_until` or `feed_past`, or `u64::MAX` if there were more.
    fn failures(&self) -> u64
        ensures { result ≡ failed_reads self.now };
}

/// A writer that counts its failed calls.
pub trait Outlet: Write {
    /// The number of failed calls of `give`.
    ghost failed_writes: { Self → ℕ };

    /// Writes the front of `buf`, as `write` does, and returns the number of bytes written: at least one, unless `buf`
    /// is empty. A failed call is counted.
    fn give(&mut self, buf: &[u8]) -> Result<usize, Failed>
        ensures bound { WritesAtMost result buf.now }
        ensures takes { 0 < length buf.now → IfOk result (λ taken. 0 < taken) }
        ensures bytes { WriteAppends (Self.contents self.old) (Self.contents self.new) result buf.now }
        ensures failures { failed_writes self.new ≡ count_after (is_err result) (failed_writes self.old) };

    /// The number of failed calls of `give`, or `u64::MAX` if there were more.
    fn failures(&self) -> u64
        ensures { result ≡ failed_writes self.now };
}

/// Bytes in memory, whose reads never fail.
impl Feed for &[u8] {
    ghost failed_reads = { λ _. 0 };

    fn feed(&mut self, buf: &mut [u8]) -> Result<usize, Failed> {
        match self.read(buf) {
            Ok(given) => Ok(given),
            Err(_) => unreachable!(),
        }
    }

    fn failures(&self) -> u64 {
        0
    }
}

/// A borrowed reader.
impl<R: Feed> Feed for &mut R {
    ghost failed_reads = { λ r. R.failed_reads r.now };

    fn feed(&mut self, buf: &mut [u8]) -> Result<usize, Failed> {
        Feed::feed(&mut **self, buf)
    }

    fn feed_past(
        &mut self,
        mark: u8,
        limit: u8,
        most: usize,
        bytes: &mut Vec<u8>,
    ) -> Result<Option<u8>, FeedFault> {
        Feed::feed_past(&mut **self, mark, limit, most, bytes)
    }

    fn failures(&self) -> u64 {
        Feed::failures(&**self)
    }
}

/// A borrowed writer.
impl<W: Outlet> Outlet for &mut W {
    ghost failed_writes = { λ w. W.failed_writes w.now };

    fn give(&mut self, buf: &[u8]) -> Result<usize, Failed> {
        Outlet::give(&mut **self, buf)
    }

    fn failures(&self) -> u64 {
        Outlet::failures(&**self)
    }
}

/// A reader or a writer with the number of its failed calls of `feed` or `give`, and the last failure.
///
/// Its plain `read`, `write` and `flush` are those of the wrapped value, and change neither.
#[derive(Drop)]
pub struct Counted<X> {
    inner: X,
    failed: u64,
    last: Option<Failed>,
}

impl<X> Counted<X> {
    ghost use Rattle.std.specs.Prelude.{None, Some};
    ghost use Rattle.ls_frame.specs.View.Devices.{wrapped, failed_calls, last_failed, risen};

    /// Wraps a reader or a writer, with a count of 0 and no last failure.
    pub fn new(inner: X) -> Counted<X>
        ensures inner { wrapped result ≡ inner }
        ensures none { failed_calls result ≡ 0 }
        ensures last { last_failed result ≡ None }
    {
        Counted {
            inner,
            failed: 0,
            last: None,
        }
    }

    /// The failure that the last failed call of `feed` or `give` returned, if any has failed.
    pub fn last_failure(&self) -> Option<Failed>
        ensures { result ≡ last_failed self.now }
    {
        self.last
    }

    /// Borrows the wrapped reader or writer.
    pub fn get_ref(&self) -> &X
        ensures { result.now ≡ wrapped self.now }
    {
        &self.inner
    }

    /// Returns the wrapped reader or writer.
    pub fn into_inner(self) -> X
        ensures { result ≡ wrapped self }
    {
        self.inner
    }

    /// Counts a failed call, keeps its failure as the last one and returns it.
    fn count(&mut self, failure: Failed) -> Failed
        ensures same { result ≡ failure }
        ensures inner { wrapped self.new ≡ wrapped self.old }
        ensures failures { failed_calls self.new ≡ risen (failed_calls self.old) }
        ensures last { last_failed self.new ≡ Some failure }
    {
        self.failed = self.failed.saturating_add(1);
        self.last = Some(failure);
        failure
    }
}

/// The failure of a write of a non-empty slice that took nothing.
const TOOK_NOTHING: Failed = Failed {
    kind: io::ErrorKind::WriteZero,
    number: None,
};

impl<R: Read> Read for Counted<R> {
    ghost use Rattle.ls_frame.specs.View.Devices.{failed_calls, wrapped};

    ghost remaining = { λ c. R.remaining (wrapped c) };

    fn read(&mut self, buf: &mut [u8]) -> io::Result<usize>
        ensures bound { ReadsAtMost result buf.new }
        ensures bytes { ReadConsumes (R.remaining (wrapped self.old)) (R.remaining (wrapped self.new)) result buf.new }
        ensures failures { failed_calls self.new ≡ failed_calls self.old }
    {
        self.inner.read(buf)
    }
}

impl<R: Read> Feed for Counted<R> {
    ghost use Rattle.ls_frame.specs.View.Devices.{failed_calls, wrapped, last_failed};

    ghost failed_reads = { failed_calls };

    fn feed(&mut self, buf: &mut [u8]) -> Result<usize, Failed>
        ensures bound { ReadsAtMost result buf.new }
        ensures bytes { ReadConsumes (R.remaining (wrapped self.old)) (R.remaining (wrapped self.new)) result buf.new }
        ensures failures { failed_calls self.new ≡ count_after (is_err result) (failed_calls self.old) }
        ensures last { last_failed self.new ≡ last_after result (last_failed self.old) }
    {
        match self.inner.read(buf) {
            Ok(given) => Ok(given),
            Err(error) => Err(self.count(Failed::from(error))),
        }
    }

    fn failures(&self) -> u64 {
        self.failed
    }
}

impl<W: Write> Write for Counted<W> {
    ghost use Rattle.ls_frame.specs.View.Devices.{failed_calls, wrapped};

    ghost contents = { λ c. W.contents (wrapped c) };

    fn write(&mut self, buf: &[u8]) -> io::Result<usize>
        ensures bound { WritesAtMost result buf.now }
        ensures bytes { WriteAppends (W.contents (wrapped self.old)) (W.contents (wrapped self.new)) result buf.now }
        ensures failures { failed_calls self.new ≡ failed_calls self.old }
    {
        self.inner.write(buf)
    }

    fn flush(&mut self) -> io::Result<()>
        ensures bytes { Keeps (W.contents (wrapped self.old)) (W.contents (wrapped self.new)) }
        ensures failures { failed_calls self.new ≡ failed_calls self.old }
    {
        self.inner.flush()
    }
}

impl<W: Write> Outlet for Counted<W> {
    ghost use Rattle.ls_frame.specs.View.Devices.{failed_calls, wrapped, last_failed};

    ghost failed_writes = { failed_calls };

    fn give(&mut self, buf: &[u8]) -> Result<usize, Failed>
        ensures bound { WritesAtMost result buf.now }
        ensures takes { 0 < length buf.now → IfOk result (λ taken. 0 < taken) }
        ensures bytes { WriteAppends (W.contents (wrapped self.old)) (W.contents (wrapped self.new)) result buf.now }
        ensures failures { failed_calls self.new ≡ count_after (is_err result) (failed_calls self.old) }
        ensures last { last_failed self.new ≡ last_after result (last_failed self.old) }
    {
        match self.inner.write(buf) {
            Ok(taken) if taken > 0 || buf.is_empty() => Ok(taken),
            Ok(_) => Err(self.count(TOOK_NOTHING)),
            Err(error) => Err(self.count(Failed::from(error))),
        }
    }

    fn failures(&self) -> u64 {
        self.failed
    }
}

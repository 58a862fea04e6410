//! A reader that reads from an inner reader in chunks.
ghost use Rattle.std.specs.Prelude.{◌≡◌, ◌<◌, ◌≤◌, [], ◌∷◌, ◌++◌, IfOk, OnOk, OnErr, Some, IfSome, IfNone, is_err, length, take};
ghost use Rattle.std.specs.Io.KnownBytes.{Keeps, IsAtEnd, prepend_known};
ghost use Rattle.ls_frame.specs.View.Devices.{count_after};
ghost use Rattle.ls_frame.specs.View.Known.{ArePassed, TakesPast};

use crate::device::{Failed, Feed, FeedFault};
use memchr::memchr;
use std::alloc::{AllocError, Global};
use std::io;
use std::io::Read;

/// The size of a chunk, in bytes.
const CHUNK: usize = 65_536;

/// A reader that reads from an inner reader in chunks of 64 KiB, for callers that read byte by byte. Its errors are
/// those of the inner reader.
///
/// It reads a chunk only once the chunk before is used up, and then passes a call on to the inner reader if the
/// caller's buffer has 64 KiB or more. So the bytes before a failure are returned before the failure is, and the bytes
/// left are those left in the chunk, followed by those left in the inner reader.
#[derive(Drop)]
pub struct Buffered<R> {
    inner: R,
    /// The bytes from `start` to `end` were read from `inner` or put back, and aren't returned yet.
    chunk: Vec<u8>,
    start: usize,
    end: usize,
    ghost ordered: { start ≤ end },
    ghost inside: { end ≤ length chunk.items },
    ghost some: { 0 < length chunk.items },
}

impl<R: Read> Buffered<R> {
    ghost use Rattle.ls_frame.specs.View.Chunks.{in_chunk, inner_reader, left_in};

    /// Makes a buffered reader with an empty chunk, and reads nothing from `inner` yet. On an error `inner` is dropped.
    /// Later calls don't allocate, except `put_back`, and `feed_until` and `feed_past` for the bytes that they append.
    pub fn new(alloc: Global, inner: R) -> Result<Buffered<R>, AllocError>
    where
        R: Drop,
        ensures { IfOk result (λ made. left_in R.remaining made ≡ R.remaining inner) }
    {
        let chunk = vec![in alloc; 0u8; CHUNK]?;
        Ok(Buffered {
            inner,
            chunk,
            start: 0,
            end: 0,
        })
    }

    /// Puts bytes before those that are left, as if they hadn't been read. Later chunks are then as large as `bytes`
    /// and the rest of the chunk together, if that is over 64 KiB. On an error nothing changes.
    pub fn put_back(&mut self, alloc: Global, bytes: &[u8]) -> Result<(), AllocError>
        ensures back { OnOk result (left_in R.remaining self.new ≡ prepend_known bytes.now (left_in R.remaining self.old)) }
        ensures kept { OnErr result (left_in R.remaining self.new ≡ left_in R.remaining self.old) }
        ensures inner { inner_reader self.new ≡ inner_reader self.old }
    {
        let left = &self.chunk[self.start..self.end];
        let mut chunk = Vec::new(alloc);
        chunk.extend_from_slice(bytes)?;
        chunk.extend_from_slice(left)?;
        let end = chunk.len();
        chunk.resize(CHUNK.max(end), 0)?;
        self.chunk = chunk;
        self.start = 0;
        self.end = end;
        Ok(())
    }

    /// Reads a chunk, if the chunk before is used up.
    fn fill(&mut self) -> io::Result<()>
        ensures known { Keeps (left_in R.remaining self.old) (left_in R.remaining self.new) }
        ensures end { OnOk result (in_chunk self.new ≡ [] → IsAtEnd (R.remaining (inner_reader self.new))) }
    {
        if self.start == self.end {
            self.start = 0;
            self.end = 0;
            self.end = self.inner.read(&mut self.chunk)?;
        }
        Ok(())
    }
}

impl<R: Feed> Buffered<R> {
    ghost use Rattle.ls_frame.specs.View.Chunks.{in_chunk, inner_reader, left_in};

    /// As `fill`, but the inner reader counts a failure.
    fn fill_counted(&mut self) -> Result<(), Failed>
        ensures known { Keeps (left_in R.remaining self.old) (left_in R.remaining self.new) }
        ensures end { OnOk result (in_chunk self.new ≡ [] → IsAtEnd (R.remaining (inner_reader self.new))) }
        ensures failures { R.failed_reads (inner_reader self.new) ≡ count_after (is_err result) (R.failed_reads (inner_reader self.old)) }
    {
        if self.start == self.end {
            self.start = 0;
            self.end = 0;
            self.end = self.inner.feed(&mut self.chunk)?;
        }
        Ok(())
    }
}

impl<R> Buffered<R> {
    ghost use Rattle.ls_frame.specs.View.Chunks.{in_chunk, inner_reader};

    /// Borrows the inner reader.
    pub fn get_ref(&self) -> &R
        ensures { result.now ≡ inner_reader self.now }
    {
        &self.inner
    }

    /// Moves bytes from the chunk to `buf`, as many as are left and as fit, and returns their number.
    fn hand_out(&mut self, buf: &mut [u8]) -> usize
        ensures bound { result ≤ length buf.new }
        ensures size { length buf.new ≡ length buf.old }
        ensures bytes { in_chunk self.old ≡ take result buf.new ++ in_chunk self.new }
        ensures none { result ≡ 0 → 0 < length buf.new → in_chunk self.old ≡ [] }
        ensures inner { inner_reader self.new ≡ inner_reader self.old }
    {
        let count = buf.len().min(self.end - self.start);
        let end = self.start + count;
        buf[..count].copy_from_slice(&self.chunk[self.start..end]);
        self.start = end;
        count
    }

    /// Moves bytes from the chunk to the end of `bytes`: at most `most`, which must be 1 or more, up to and including
    /// the first `mark` that isn't followed by a byte below `limit`. Returns the last of them, or `None` if the chunk
    /// is used up. On an error nothing is appended.
    fn append_past(
        &mut self,
        mark: u8,
        limit: u8,
        most: usize,
        bytes: &mut Vec<u8>,
    ) -> Result<Option<u8>, AllocError>
        requires some { 0 < most }
        ensures taken { IfOk result (λ next. IfSome next
            (TakesPast mark limit most (Some (in_chunk self.old)) (Some (in_chunk self.new)) bytes.old.items bytes.new.items)) }
        ensures end { IfOk result (λ next. IfNone next ((bytes.new.items ≡ bytes.old.items) × (in_chunk self.old ≡ []) × (in_chunk self.new ≡ []))) }
        ensures nothing { OnErr result (bytes.new.items ≡ bytes.old.items) }
        ensures memory { OnErr result (0 < length (in_chunk self.old)) }
        ensures inner { inner_reader self.new ≡ inner_reader self.old }
    {
        if self.start == self.end {
            return Ok(None);
        }
        if most == 1 {
            let byte = self.chunk[self.start];
            bytes.push(byte)?;
            self.start += 1;
            return Ok(Some(byte));
        }
        let chunk = &self.chunk[self.start..self.end];
        let count = count_past(mark, limit, &chunk[..most.min(chunk.len())]);
        bytes.extend_from_slice(&chunk[..count])?;
        let last = chunk[count - 1];
        self.start += count;
        Ok(Some(last))
    }
}

/// The number of bytes up to and including the first `mark` that isn't followed by a byte below `limit`, or of all
/// bytes if there is none. Requires at least one byte.
fn count_past(mark: u8, limit: u8, bytes: &[u8]) -> usize
    requires any { 0 < length bytes.now }
    ensures some { 0 < result }
    ensures within { result ≤ length bytes.now }
    ensures passed { ArePassed mark limit (take result bytes.now) }
{
    let mut count = 0;
    while let Some(place) = memchr(mark, &bytes[count..]) {
        count += place + 1;
        if count == bytes.len() {
            return count;
        }
        if bytes[count] >= limit {
            return count;
        }
    }
    bytes.len()
}

impl<R: Read> Read for Buffered<R> {
    ghost use Rattle.ls_frame.specs.View.Chunks.{left_in};

    ghost remaining = { left_in R.remaining };

    fn read(&mut self, buf: &mut [u8]) -> io::Result<usize> {
        if self.start == self.end && buf.len() >= CHUNK {
            return self.inner.read(buf);
        }
        self.fill()?;
        Ok(self.hand_out(buf))
    }
}

impl<R: Feed> Feed for Buffered<R> {
    ghost use Rattle.ls_frame.specs.View.Chunks.{inner_reader};

    ghost failed_reads = { λ b. R.failed_reads (inner_reader b) };

    fn feed(&mut self, buf: &mut [u8]) -> Result<usize, Failed> {
        if self.start == self.end && buf.len() >= CHUNK {
            return self.inner.feed(buf);
        }
        self.fill_counted()?;
        Ok(self.hand_out(buf))
    }

    fn feed_past(
        &mut self,
        mark: u8,
        limit: u8,
        most: usize,
        bytes: &mut Vec<u8>,
    ) -> Result<Option<u8>, FeedFault> {
        if self.fill_counted().is_err() {
            return Err(FeedFault::Io);
        }
        match self.append_past(mark, limit, most, bytes) {
            Ok(next) => Ok(next),
            Err(AllocError) => Err(FeedFault::NoMemory),
        }
    }

    fn failures(&self) -> u64 {
        Feed::failures(&self.inner)
    }
}

use crate::frames::testing::{
    BROKEN, Chunks, Mishap, Sink, Take, check, check_items, check_so, check_takes,
};
use ls_frame::{Counted, Failed, Feed, FeedFault, Outlet};
use std::alloc::Global;
use std::io;
use std::io::{Read, Write};
use std::process::Abort;

/// The failure of a write that took nothing.
const NOTHING: Failed = Failed {
    kind: io::ErrorKind::WriteZero,
    number: None,
};

#[test]
fn a_failure_keeps_its_kind_and_the_number_of_the_system(rt: HostRuntime) {
    let full = Failed {
        kind: io::ErrorKind::StorageFull,
        number: Some(28),
    };
    let failed = Failed::from(io::Error::from_raw_os_error(28));
    check(&rt, "ENOSPC", 0, &failed, &full);
}

/// The result of a `feed`, the first bytes of the buffer after it, the number of failed feeds so far, and the last
/// failure.
type Fed = (Result<usize, Failed>, [u8; 2], u64, Option<Failed>);

const FEEDS: &[Fed] = &[
    (Ok(2), [b'a', b'b'], 0, None),
    (Err(BROKEN), [b'a', b'b'], 1, Some(BROKEN)),
    (Err(BROKEN), [b'a', b'b'], 2, Some(BROKEN)),
    (Ok(1), [b'c', b'b'], 2, Some(BROKEN)),
    (Err(BROKEN), [b'c', b'b'], 3, Some(BROKEN)),
    (Ok(0), [b'c', b'b'], 3, Some(BROKEN)),
    (Ok(0), [b'c', b'b'], 3, Some(BROKEN)),
];

/// Calls `feed` with this buffer.
fn fed(reader: &mut Counted<Chunks<'_>>, buf: &mut [u8; 3]) -> Fed {
    let answer = reader.feed(buf);
    (
        answer,
        [buf[0], buf[1]],
        Feed::failures(reader),
        reader.last_failure(),
    )
}

#[test]
fn failed_feeds_are_counted_one_by_one_and_the_last_is_kept(rt: HostRuntime) {
    let mut reader = Counted::new(Chunks::new(b"abc", 2, &[1, 2, 4]));
    let mut buf = [0u8; 3];
    for (i, want) in FEEDS.iter().enumerate() {
        check(&rt, "a feed", i, &fed(&mut reader, &mut buf), want);
    }
    check(&rt, "bytes given", 0, &reader.get_ref().given, &3);
    check(&rt, "bytes given", 1, &reader.into_inner().given, &3);
}

/// By default `feed_until` takes one byte per call. The second read of these three bytes fails.
const TAKES: &[Take<'static>] = &[
    (b'x', 9, Ok(Some(b'a')), b"a", 0),
    (b'b', 9, Err(FeedFault::Io), b"a", 1),
    (b'b', 9, Ok(Some(b'b')), b"ab", 1),
    (b'x', 1, Ok(Some(b'c')), b"abc", 1),
    (b'x', 9, Ok(None), b"abc", 1),
    (b'x', 1, Ok(None), b"abc", 1),
];

/// Checks `TAKES`, up to the first call that fails for lack of memory. Returns whether none did.
fn are_taken(rt: &impl Abort, alloc: Global) -> bool {
    let mut reader = Counted::new(Chunks::new(b"abc", 2, &[1]));
    check_takes(rt, alloc, &mut reader, TAKES)
}

#[test]
fn bytes_are_taken_one_by_one_or_memory_is_refused(rt: HostRuntime) {
    are_taken(&rt, rt.alloc());
}

#[test]
fn bytes_are_taken_one_by_one_with_ample_memory(rt: HostRuntime) {
    check_so(&rt, "memory", 0, are_taken(&rt, rt.alloc()));
}

/// The result of a `give`, the number of failed gives so far, and the last failure.
type Given = (Result<usize, Failed>, u64, Option<Failed>);

/// Calls `give` with these bytes.
fn given(writer: &mut Counted<Sink<'_>>, bytes: &[u8]) -> Given {
    let answer = writer.give(bytes);
    (answer, Outlet::failures(writer), writer.last_failure())
}

/// Gives to a writer that accepts two bytes per call, and whose calls 1, 2 and 4 go wrong: the bytes, the number that
/// is accepted unless the call goes wrong, and the number of failed gives so far.
const GIVES: &[(&[u8], Option<usize>, u64)] = &[
    (b"abc", Some(2), 0),
    (b"c", None, 1),
    (b"cde", None, 2),
    (b"c", Some(1), 2),
    (b"d", None, 3),
    (b"", Some(0), 3),
    (b"de", Some(2), 3),
];

/// Checks `GIVES`; the calls that go wrong fail with `failed`.
fn check_each_give(rt: &impl Abort, writer: &mut Counted<Sink<'_>>, failed: Failed) {
    for (i, (bytes, taken, failures)) in GIVES.iter().enumerate() {
        let last = if *failures == 0 { None } else { Some(failed) };
        let want = (taken.ok_or(failed), *failures, last);
        check(rt, "a give", i, &given(writer, bytes), &want);
    }
}

fn check_gives(rt: &impl Abort, mishap: Mishap, failed: Failed) {
    let mut writer = Counted::new(Sink::new(2, &[1, 2, 4], mishap));
    check_each_give(rt, &mut writer, failed);
    let sink = writer.into_inner();
    check_items(rt, "all bytes", 0, sink.written(), b"abcde");
    check(rt, "calls", 0, &sink.calls, &7);
}

#[test]
fn failed_gives_are_counted_one_by_one_and_the_last_is_kept(rt: HostRuntime) {
    check_gives(&rt, Mishap::Fails, BROKEN);
    check_gives(&rt, Mishap::TakesNothing, NOTHING);
}

/// The result of a plain read or write.
type Plain = Result<usize, io::ErrorKind>;

fn plain(answer: io::Result<usize>) -> Plain {
    match answer {
        Ok(count) => Ok(count),
        Err(error) => Err(error.kind()),
    }
}

/// Calls `read` with this buffer, and returns the buffer's content after it too.
fn read(reader: &mut Counted<Chunks<'_>>, buf: &mut [u8; 2]) -> (Plain, [u8; 2]) {
    (plain(reader.read(buf)), *buf)
}

/// The results of a feed and of three plain reads, and the number of failed feeds.
type FedAndRead = (Result<usize, Failed>, [(Plain, [u8; 2]); 3], u64);

fn fed_and_read(reader: &mut Counted<Chunks<'_>>) -> FedAndRead {
    let mut buf = [0u8; 2];
    (
        reader.feed(&mut buf),
        [
            read(reader, &mut buf),
            read(reader, &mut buf),
            read(reader, &mut buf),
        ],
        Feed::failures(reader),
    )
}

#[test]
fn plain_reads_are_handed_on_and_not_counted(rt: HostRuntime) {
    let mut reader = Counted::new(Chunks::new(b"abc", 2, &[0, 2]));
    let reads = [
        (Ok(2), [b'a', b'b']),
        (Err(io::ErrorKind::BrokenPipe), [b'a', b'b']),
        (Ok(1), [b'c', b'b']),
    ];
    let got = fed_and_read(&mut reader);
    check(&rt, "a feed and reads", 0, &got, &(Err(BROKEN), reads, 1));
}

/// Calls `write` with these bytes.
fn write(writer: &mut Counted<Sink<'_>>, bytes: &[u8]) -> Plain {
    plain(writer.write(bytes))
}

/// Whether a flush succeeds.
fn flush(writer: &mut Counted<Sink<'_>>) -> bool {
    writer.flush().is_ok()
}

/// The results of a give, of three plain writes and of three flushes, and the number of failed gives.
type GivenAndWritten = (Result<usize, Failed>, [Plain; 3], [bool; 3], u64);

fn given_and_written(writer: &mut Counted<Sink<'_>>) -> GivenAndWritten {
    (
        writer.give(b"abc"),
        [
            write(writer, b"abc"),
            write(writer, b"c"),
            write(writer, b"c"),
        ],
        [flush(writer), flush(writer), flush(writer)],
        Outlet::failures(writer),
    )
}

/// Checks a writer whose calls 0 and 2 go wrong, of `give` and `write` counted together, and of `flush`.
fn check_plain_writes(rt: &impl Abort, mishap: Mishap, failed: Failed, wrong: Plain) {
    let mut writer = Counted::new(Sink::new(2, &[0, 2], mishap));
    let got = given_and_written(&mut writer);
    let writes = [Ok(2), wrong, Ok(1)];
    let want = (Err(failed), writes, [false, true, false], 1);
    check(rt, "a give, writes and flushes", 0, &got, &want);
    let sink = writer.into_inner();
    check_items(rt, "all bytes", 0, sink.written(), b"abc");
    check(rt, "flushes", 0, &sink.flushes, &3);
}

#[test]
fn plain_writes_and_flushes_are_handed_on_and_not_counted(rt: HostRuntime) {
    let broken = Err(io::ErrorKind::BrokenPipe);
    check_plain_writes(&rt, Mishap::Fails, BROKEN, broken);
    check_plain_writes(&rt, Mishap::TakesNothing, NOTHING, Ok(0));
}

/// The result of a feed of bytes in memory, the buffer after it, the number of bytes left, and that of failed feeds.
type FedOfMemory = (Result<usize, Failed>, [u8; 2], usize, u64);

const FEEDS_OF_MEMORY: &[FedOfMemory] = &[
    (Ok(2), [b'a', b'b'], 1, 0),
    (Ok(1), [b'c', b'b'], 0, 0),
    (Ok(0), [b'c', b'b'], 0, 0),
];

fn fed_of_memory(rest: &mut &[u8], buf: &mut [u8; 2]) -> FedOfMemory {
    let answer = rest.feed(buf);
    (answer, *buf, rest.len(), rest.failures())
}

#[test]
fn bytes_in_memory_never_fail(rt: HostRuntime) {
    let mut rest = b"abc".as_slice();
    let mut buf = [0u8; 2];
    for (i, want) in FEEDS_OF_MEMORY.iter().enumerate() {
        check(&rt, "a feed", i, &fed_of_memory(&mut rest, &mut buf), want);
    }
}

use crate::frames::testing::{BROKEN, Chunks, Take, check, check_items, check_so, check_takes};
use ls_frame::{Buffered, Counted, Failed, Feed, FeedFault};
use std::alloc::Global;
use std::io::Read;
use std::process::Abort;

/// The size of a chunk of a `Buffered`, in bytes.
const CHUNK: usize = 65_536;

/// Makes a buffered reader over this one.
fn buffered<R: Read + Drop>(rt: &impl Abort, alloc: Global, inner: R) -> Buffered<R> {
    Buffered::new(alloc, inner).expect(rt, "memory for a chunk")
}

/// The result of a call of `feed`, its bytes, and the number of failed calls so far.
type Fed<'a> = (Result<usize, Failed>, &'a [u8], u64);

/// The length of the buffer for a call of `feed`, and the result of the call.
type Step = (usize, Fed<'static>);

/// The reader has five bytes and returns up to three per read. Reading the second chunk fails twice, and then succeeds.
const STEPS: &[Step] = &[
    (1, (Ok(1), b"a", 0)),
    (0, (Ok(0), b"", 0)),
    (2, (Ok(2), b"bc", 0)),
    (2, (Err(BROKEN), b"", 1)),
    (2, (Err(BROKEN), b"", 2)),
    (1, (Ok(1), b"d", 2)),
    (4, (Ok(1), b"e", 2)),
    (4, (Ok(0), b"", 2)),
    (1, (Ok(0), b"", 2)),
];

/// Calls `feed` with a buffer of `room` bytes, at most 4.
fn fed<'a>(reader: &mut impl Feed, buf: &'a mut [u8; 4], room: usize) -> Fed<'a> {
    let got = reader.feed(&mut buf[..room.min(4)]);
    (got, &buf[..got.unwrap_or(0).min(4)], reader.failures())
}

/// Checks the results of calls of `feed`.
fn check_feeds(rt: &impl Abort, reader: &mut impl Feed, steps: &[Step]) {
    let mut buf = [0u8; 4];
    for (at, (room, want)) in steps.iter().enumerate() {
        check(rt, "a feed", at, &fed(reader, &mut buf, *room), want);
    }
}

#[test]
fn bytes_go_out_before_a_failure_shows_with_ample_memory(rt: HostRuntime) {
    let chunks = Chunks::new(b"abcde", 3, &[1, 2]);
    let mut reader = Counted::new(buffered(&rt, rt.alloc(), chunks));
    check_feeds(&rt, &mut reader, STEPS);
}

#[test]
fn failures_below_are_counted_with_ample_memory(rt: HostRuntime) {
    let counted = Counted::new(Chunks::new(b"abcde", 3, &[1, 2]));
    let mut reader = buffered(&rt, rt.alloc(), counted);
    check_feeds(&rt, &mut reader, STEPS);
    let last = reader.get_ref().last_failure();
    check(&rt, "the last failure", 0, &last, &Some(BROKEN));
}

/// The reader has five bytes and returns up to three per read. Reading the second chunk fails twice, and then succeeds.
/// A mark is inside a chunk, in none, or at the end of one.
const TAKES: &[Take<'static>] = &[
    (b'x', 1, Ok(Some(b'a')), b"a", 0),
    (b'b', 9, Ok(Some(b'b')), b"ab", 0),
    (b'd', 9, Ok(Some(b'c')), b"abc", 0),
    (b'd', 9, Err(FeedFault::Io), b"abc", 1),
    (b'd', 9, Err(FeedFault::Io), b"abc", 2),
    (b'e', 9, Ok(Some(b'e')), b"abcde", 2),
    (b'e', 9, Ok(None), b"abcde", 2),
    (b'x', 1, Ok(None), b"abcde", 2),
];

/// The reader has six bytes and returns up to three per read. A mark is at the front of a chunk, or in none of the
/// parts of one that calls take.
const MARKED: &[Take<'static>] = &[
    (b'd', 2, Ok(Some(b'b')), b"ab", 0),
    (b'd', 9, Ok(Some(b'c')), b"abc", 0),
    (b'd', 9, Ok(Some(b'd')), b"abcd", 0),
    (b'd', 2, Ok(Some(b'f')), b"abcdef", 0),
    (b'd', 2, Ok(None), b"abcdef", 0),
    (b'd', 2, Ok(None), b"abcdef", 0),
];

/// Checks calls of a buffered reader, by reference if `is_lent`, up to the first that fails for lack of memory.
/// Returns whether none did.
fn are_taken(
    rt: &impl Abort,
    alloc: Global,
    chunks: Chunks<'_>,
    is_lent: bool,
    takes: &[Take<'_>],
) -> bool {
    let Ok(mut reader) = Buffered::new(alloc, Counted::new(chunks)) else {
        return false;
    };
    if is_lent {
        check_takes(rt, alloc, &mut &mut reader, takes)
    } else {
        check_takes(rt, alloc, &mut reader, takes)
    }
}

#[test]
fn bytes_are_taken_up_to_a_mark_or_memory_is_refused(rt: HostRuntime) {
    let chunks = Chunks::new(b"abcde", 3, &[1, 2]);
    are_taken(&rt, rt.alloc(), chunks, false, TAKES);
}

#[test]
fn bytes_are_taken_up_to_a_mark_with_ample_memory(rt: HostRuntime) {
    let chunks = Chunks::new(b"abcde", 3, &[1, 2]);
    let all = are_taken(&rt, rt.alloc(), chunks, false, TAKES);
    check_so(&rt, "memory", 0, all);
}

#[test]
fn a_lent_reader_takes_as_much_with_ample_memory(rt: HostRuntime) {
    let chunks = Chunks::new(b"abcdef", 3, &[]);
    let all = are_taken(&rt, rt.alloc(), chunks, true, MARKED);
    check_so(&rt, "memory", 1, all);
}

/// The bytes of three chunks, each its index modulo 251.
fn numbered() -> [u8; 3 * CHUNK] {
    let mut bytes = [0u8; 3 * CHUNK];
    for (place, byte) in bytes.iter_mut().enumerate() {
        *byte = (place % 251) as u8;
    }
    bytes
}

/// Reads into a buffer of `room` bytes, or of all of `buf` if that is less. Returns the bytes read, unless the read
/// fails.
fn read_of<'a>(reader: &mut impl Read, buf: &'a mut [u8], room: usize) -> Option<&'a [u8]> {
    let room = room.min(buf.len());
    let count = reader.read(&mut buf[..room]).ok()?;
    buf.get(..count)
}

/// Checks that a read into a buffer of `room` bytes returns the first of `bytes`, and returns those after them.
fn check_read<'a>(
    rt: &impl Abort,
    reader: &mut impl Read,
    bytes: &'a [u8],
    room: usize,
) -> &'a [u8] {
    let mut buf = [0u8; 1000];
    let got = read_of(reader, &mut buf, room);
    let count = got.unwrap_or(&[]).len();
    let (want, rest) = bytes.split_at(count.min(bytes.len()));
    check(rt, "a read", room, &got, &Some(want));
    rest
}

/// Checks that a reader returns all of `bytes`, by calls with a buffer of `room` bytes.
fn check_all(rt: &impl Abort, reader: &mut impl Read, bytes: &[u8], room: usize) {
    let mut rest = bytes;
    for _ in 0..bytes.len() {
        rest = check_read(rt, reader, rest, room);
    }
    check(rt, "bytes left", room, &rest.len(), &0);
}

#[test]
fn chunks_join_with_ample_memory(rt: HostRuntime) {
    let numbered = numbered();
    for count in [0, 1, CHUNK - 1, CHUNK, CHUNK + 1, 2 * CHUNK + 7] {
        let bytes = &numbered[..count];
        for room in [7, 1000] {
            let mut reader = buffered(&rt, rt.alloc(), bytes);
            check_all(&rt, &mut reader, bytes, room);
        }
    }
}

/// Takes all bytes of a reader by `feed_past` with this mark and this limit, and returns the number of calls.
fn count_takes<R: Feed>(reader: &mut R, mark: u8, limit: u8, bytes: &mut Vec<u8>) -> usize {
    for call in 0..CHUNK {
        match reader.feed_past(mark, limit, usize::MAX, bytes) {
            Ok(Some(_)) => {}
            _ => return call,
        }
    }
    CHUNK
}

/// The limit, the number of bytes, and the number of calls that take them. The mark ends each run of 251 bytes and is
/// followed by a 0; the end of a chunk splits a run in two.
const MARKS: &[(u8, usize, usize)] = &[
    (0, 0, 0),
    (0, 251, 1),
    (0, 252, 2),
    (0, CHUNK, 262),
    (0, CHUNK + 251, 264),
    (1, 0, 0),
    (1, 251, 1),
    (1, 252, 1),
    (1, CHUNK, 1),
    (1, CHUNK + 251, 2),
];

/// Checks the number of calls that take the first of these bytes, as many as the case says.
fn check_marks(rt: &impl Abort, alloc: Global, bytes: &[u8], case: &(u8, usize, usize)) {
    let (limit, count, calls) = *case;
    let want = bytes.get(..count).unwrap_or(&[]);
    let mut reader = buffered(rt, alloc, Counted::new(want));
    let mut taken = Vec::new(alloc);
    let got = count_takes(&mut reader, 250, limit, &mut taken);
    check(rt, "calls", count, &got, &calls);
    check_items(rt, "bytes", count, &taken, want);
}

#[test]
fn chunks_join_by_marks_with_ample_memory(rt: HostRuntime) {
    let numbered = numbered();
    for case in MARKS {
        check_marks(&rt, rt.alloc(), &numbered, case);
    }
}

/// The length of the buffer for a read, its bytes, the number of bytes taken from the chunks so far, and the position
/// of the farthest byte asked for.
type Asked<'a> = (usize, Option<&'a [u8]>, usize, usize);

fn asked<'a>(reader: &mut Buffered<Chunks<'_>>, buf: &'a mut [u8], room: usize) -> Asked<'a> {
    let bytes = read_of(reader, buf, room);
    let chunks = reader.get_ref();
    (room, bytes, chunks.given, chunks.furthest)
}

/// Checks that a buffered reader over these chunks reads nothing when it is made, and then these reads.
fn check_asked(rt: &impl Abort, alloc: Global, chunks: Chunks<'_>, reads: &[Asked<'_>]) {
    let mut reader = buffered(rt, alloc, chunks);
    let mut buf = [0u8; CHUNK];
    let first = (reader.get_ref().given, reader.get_ref().furthest);
    check(rt, "before any read", 0, &first, &(0, 0));
    for (at, want) in reads.iter().enumerate() {
        check(
            rt,
            "a read",
            at,
            &asked(&mut reader, &mut buf, want.0),
            want,
        );
    }
}

const BYTE_BY_BYTE: &[Asked<'static>] = &[
    (1, Some(b"a"), 4, CHUNK),
    (1, Some(b"b"), 4, CHUNK),
    (1, Some(b"c"), 4, CHUNK),
    (1, Some(b"d"), 4, CHUNK),
    (1, Some(b"e"), 5, CHUNK + 4),
];

/// The reader asks for a full chunk at once, and only when its bytes are wanted.
#[test]
fn chunks_are_asked_for_when_they_are_wanted_with_ample_memory(rt: HostRuntime) {
    let chunks = Chunks::new(b"abcde", 4, &[]);
    check_asked(&rt, rt.alloc(), chunks, BYTE_BY_BYTE);
}

/// After each read but the first, the bytes taken from the chunks are those returned.
const BY_CHUNKS: &[Asked<'static>] = &[
    (1, Some(b"a"), 3, CHUNK),
    (CHUNK, Some(b"bc"), 3, CHUNK),
    (CHUNK, Some(b"def"), 6, CHUNK + 3),
    (CHUNK, Some(b"g"), 7, CHUNK + 6),
    (CHUNK, Some(b""), 7, CHUNK + 7),
];

/// A read into a buffer of a chunk's size is passed on once the chunk before is used up.
#[test]
fn room_for_a_chunk_is_handed_on_with_ample_memory(rt: HostRuntime) {
    let chunks = Chunks::new(b"abcdefg", 3, &[]);
    check_asked(&rt, rt.alloc(), chunks, BY_CHUNKS);
}

/// The number of the six bytes `abcdef` that are read, the bytes put back then, and those left after that.
const PUT_BACK: &[(usize, &[u8], &[u8])] = &[
    (0, b"", b"abcdef"),
    (0, b"xy", b"xyabcdef"),
    (2, b"ab", b"abcdef"),
    (2, b"vwxyz", b"vwxyzcdef"),
    (6, b"f", b"f"),
    (6, b"", b""),
];

/// Checks the bytes left after bytes were read and others put back.
fn check_put_back(rt: &impl Abort, alloc: Global, case: &(usize, &[u8], &[u8])) {
    let mut reader = buffered(rt, alloc, Chunks::new(b"abcdef", 4, &[]));
    check_left(rt, alloc, &mut reader, case);
}

fn check_left(
    rt: &impl Abort,
    alloc: Global,
    reader: &mut Buffered<Chunks<'_>>,
    case: &(usize, &[u8], &[u8]),
) {
    let (taken, back, want) = *case;
    let mut rest = b"abcdef".as_slice();
    for _ in 0..taken {
        rest = check_read(rt, reader, rest, 1);
    }
    check_so(rt, "memory", taken, reader.put_back(alloc, back).is_ok());
    check_all(rt, reader, want, 4);
}

#[test]
fn bytes_are_put_back_with_ample_memory(rt: HostRuntime) {
    for case in PUT_BACK {
        check_put_back(&rt, rt.alloc(), case);
    }
}

use crate::testing::codestreams::{BLACK, CODESTREAMS, WHITE};
use crate::testing::{check, check_bytes};
use ls_frame::{Buffered, Counted, Feed};
use ls_stream::laws::what_is_taken_is_decoded_alike;
use ls_stream::{Decoded, NextFault, StreamFault, What, next_stream};
use ls_testing::Pieces;
use std::alloc::{AllocError, Global};
use std::process::Abort;
use std::test::Fail;

/// The result of taking a codestream from a reader: bytes, nothing at the end, or a fault.
type Next = Result<Option<Vec<u8>>, NextFault>;

/// The expected result.
type Wanted<'a> = Result<Option<&'a [u8]>, NextFault>;

/// Checks what was taken.
fn check_taken(rt: &impl Abort, name: &str, at: usize, next: &Next, want: Wanted<'_>) {
    let got = match next {
        Ok(Some(bytes)) => Ok(Some(bytes.as_slice())),
        Ok(None) => Ok(None),
        Err(fault) => Err(*fault),
    };
    check(rt, name, at, &got, &want);
}

/// Checks that decoding ended with this fault, or with none.
fn check_fault(
    rt: &impl Abort,
    at: usize,
    decoded: &Result<Decoded, StreamFault>,
    want: Option<StreamFault>,
) {
    let got = match decoded {
        Ok(_) => None,
        Err(fault) => Some(*fault),
    };
    check(rt, "the fault of a codestream", at, &got, &want);
}

/// Takes a codestream from bytes in memory. Returns the result and the number of bytes that are left.
fn take_of(alloc: Global, bytes: &[u8]) -> (Next, usize) {
    let mut rest = bytes;
    let next = next_stream(alloc, &mut rest);
    (next, rest.len())
}

/// Checks that the first `count` of these bytes are taken and the others left, and that decoding the ones taken gives
/// what decoding all does.
fn check_first(
    rt: &impl Abort,
    alloc: Global,
    at: usize,
    bytes: &[u8],
    count: usize,
    want: Option<StreamFault>,
) {
    let (next, left) = take_of(alloc, bytes);
    let first = bytes.get(..count).unwrap_or(bytes);
    check_taken(rt, "the next codestream", at, &next, Ok(Some(first)));
    let want_left = bytes.len().saturating_sub(count);
    check(rt, "bytes left", at, &left, &want_left);
    check_decoded(rt, alloc, at, bytes, want);
}

/// Checks that what is taken of bytes, and all of them, are decoded with this fault or none.
fn check_decoded(
    rt: &impl Abort,
    alloc: Global,
    at: usize,
    bytes: &[u8],
    want: Option<StreamFault>,
) {
    match what_is_taken_is_decoded_alike(alloc, bytes) {
        Ok(Some(both)) => {
            check_fault(rt, at, &both.taken, want);
            check_fault(rt, at, &both.all, want);
        }
        Ok(None) | Err(_) => panic!(rt; "codestream {at} isn't decoded"),
    }
}

/// Counts the bytes that a reader has left.
fn count_left<R: Feed>(reader: &mut R) -> usize {
    let mut left: usize = 0;
    for _ in 0..u32::MAX {
        match reader.feed(&mut [0u8; 16]) {
            Ok(0) | Err(_) => return left,
            Ok(given) => left = left.saturating_add(given),
        }
    }
    left
}

/// The results of taking codestreams from a reader one after the other, the number of bytes that are left then, and the
/// number of its reads that failed by then.
type Takes<'a> = (&'a [Wanted<'a>], usize, u64);

/// Checks what is taken from a reader.
fn check_takes<R: Feed>(
    rt: &impl Abort,
    alloc: Global,
    at: usize,
    reader: &mut R,
    takes: &Takes<'_>,
) {
    let (wanted, left, failures) = *takes;
    for want in wanted {
        let next = next_stream(alloc, reader);
        check_taken(rt, "off a reader", at, &next, *want);
    }
    let got = (count_left(reader), Feed::failures(reader));
    check(rt, "bytes left, failures", at, &got, &(left, failures));
}

/// Checks what is taken from chunks.
fn check_unbuffered(
    rt: &impl Abort,
    alloc: Global,
    at: usize,
    chunks: Pieces<'_>,
    takes: &Takes<'_>,
) {
    check_takes(rt, alloc, at, &mut Counted::new(chunks), takes);
}

/// Checks what is taken from a buffered reader of chunks.
fn check_buffered(
    rt: &impl Abort,
    alloc: Global,
    at: usize,
    chunks: Pieces<'_>,
    takes: &Takes<'_>,
) -> Result<(), AllocError> {
    let mut reader = Buffered::new(alloc, Counted::new(chunks))?;
    check_takes(rt, alloc, at, &mut reader, takes);
    Ok(())
}

/// Checks that `count` of these bytes are taken from a buffered reader that gets at most `most` at once, and that the
/// others are left.
fn check_chunks(
    rt: &impl Abort,
    alloc: Global,
    at: usize,
    bytes: &[u8],
    count: usize,
    most: usize,
) -> Result<(), AllocError> {
    let first = bytes.get(..count).unwrap_or(bytes);
    let wanted = [Ok(Some(first))];
    let takes = (wanted.as_slice(), bytes.len().saturating_sub(count), 0);
    check_buffered(rt, alloc, at, Pieces::new(bytes, most, None), &takes)
}

/// Bytes, the number of them in the next codestream, and the fault of decoding them.
type Malformed<'a> = (&'a [u8], usize, StreamFault);

const MALFORMED: &[Malformed<'static>] = &[
    // No SOI.
    (&[0x00, 0x00], 1, StreamFault::NotSoi),
    (&[0xff, 0x00, 0x41], 2, StreamFault::NotSoi),
    (&[0xff], 1, StreamFault::Truncated),
    (&[0xff, 0xd8], 2, StreamFault::Truncated),
    // No marker.
    (&[0xff, 0xd8, 0x41, 0x42], 3, StreamFault::BadSegment),
    (&[0xff, 0xd8, 0xff, 0x00, 0x41], 4, StreamFault::BadSegment),
    (
        &[0xff, 0xd8, 0xff, 0xff, 0x00, 0x41],
        5,
        StreamFault::BadSegment,
    ),
    (&[0xff, 0xd8, 0xff], 3, StreamFault::Truncated),
    (&[0xff, 0xd8, 0xff, 0xff], 4, StreamFault::Truncated),
    // EOI with no frame.
    (&[0xff, 0xd8, 0xff, 0xd9], 4, StreamFault::BadSegment),
    (
        &[0xff, 0xd8, 0xff, 0xff, 0xd9, 0xff],
        5,
        StreamFault::BadSegment,
    ),
    // Markers that aren't supported.
    (
        &[0xff, 0xd8, 0xff, 0xc0, 0x00],
        4,
        StreamFault::Unsupported(What::Marker(0xc0)),
    ),
    (
        &[0xff, 0xd8, 0xff, 0xd8, 0xff],
        4,
        StreamFault::Unsupported(What::Marker(0xd8)),
    ),
    // Lengths.
    (
        &[0xff, 0xd8, 0xff, 0xfe, 0x00, 0x01, 0x41],
        6,
        StreamFault::BadSegment,
    ),
    (
        &[0xff, 0xd8, 0xff, 0xfe, 0x00, 0x02, 0x41, 0x42],
        7,
        StreamFault::BadSegment,
    ),
    (
        &[0xff, 0xd8, 0xff, 0xfe, 0x00, 0x03, 0x41, 0x42, 0x43],
        8,
        StreamFault::BadSegment,
    ),
    (
        &[0xff, 0xd8, 0xff, 0xe0, 0x01, 0x02, 0x41, 0x42],
        8,
        StreamFault::Truncated,
    ),
    (&[0xff, 0xd8, 0xff, 0xe0, 0x01], 5, StreamFault::Truncated),
    // A scan with no frame header: its data goes on past FF 7F, to EOI or to a marker that isn't supported.
    (
        &[
            0xff, 0xd8, 0xff, 0xda, 0x00, 0x03, 0x41, 0x80, 0xff, 0x7f, 0x01, 0xff, 0xd9, 0xff,
        ],
        13,
        StreamFault::BadSegment,
    ),
    (
        &[
            0xff, 0xd8, 0xff, 0xda, 0x00, 0x02, 0xff, 0xff, 0xff, 0xdd, 0x00,
        ],
        10,
        StreamFault::BadSegment,
    ),
    (
        &[0xff, 0xd8, 0xff, 0xda, 0x00, 0x02, 0xff, 0x80, 0x00],
        8,
        StreamFault::BadSegment,
    ),
    (
        &[0xff, 0xd8, 0xff, 0xda, 0x00, 0x02, 0x80, 0xff],
        8,
        StreamFault::BadSegment,
    ),
];

#[test]
fn bytes_are_taken_up_to_what_breaks_them_with_ample_memory(rt: HostRuntime) {
    for (at, (bytes, count, fault)) in MALFORMED.iter().enumerate() {
        check_first(&rt, rt.alloc(), at, bytes, *count, Some(*fault));
    }
}

fn check_malformed(
    rt: &impl Abort,
    alloc: Global,
    at: usize,
    malformed: &Malformed<'_>,
) -> Result<(), AllocError> {
    let (bytes, count, _) = *malformed;
    check_chunks(rt, alloc, at, bytes, count, 1)?;
    check_chunks(rt, alloc, at, bytes, count, 5)
}

/// Wherever the chunks are cut.
#[test]
fn malformed_bytes_are_taken_off_chunks_with_ample_memory(
    rt: HostRuntime,
) -> Result<(), AllocError> {
    for (at, malformed) in MALFORMED.iter().enumerate() {
        check_malformed(&rt, rt.alloc(), at, malformed)?;
    }
    Ok(())
}

/// Checks that the first of two equal codestreams is taken from chunks.
fn check_doubled(
    rt: &impl Abort,
    alloc: Global,
    at: usize,
    codestream: &[u8],
) -> Result<(), AllocError> {
    let mut bytes = codestream.to_vec(alloc)?;
    bytes.extend_from_slice(codestream)?;
    check_chunks(rt, alloc, at, &bytes, codestream.len(), 7)?;
    check_chunks(rt, alloc, at, &bytes, codestream.len(), 1000)
}

#[test]
fn codestreams_are_taken_off_chunks_with_ample_memory(rt: HostRuntime) -> Result<(), AllocError> {
    for (at, (_, codestream, _)) in CODESTREAMS.iter().enumerate() {
        check_doubled(&rt, rt.alloc(), at, codestream)?;
    }
    Ok(())
}

/// Checks that a codestream is taken completely, also with one more byte after it, and up to the end of input if EOI is
/// missing.
fn check_whole(
    rt: &impl Abort,
    alloc: Global,
    at: usize,
    codestream: &[u8],
) -> Result<(), AllocError> {
    check_first(rt, alloc, at, codestream, codestream.len(), None);
    let end = codestream.len().saturating_sub(2);
    let cut = codestream.get(..end).unwrap_or(codestream);
    let truncated = Some(StreamFault::Truncated);
    check_first(rt, alloc, at, cut, cut.len(), truncated);
    let mut longer = codestream.to_vec(alloc)?;
    longer.push(0x41)?;
    check_first(rt, alloc, at, &longer, codestream.len(), None);
    Ok(())
}

#[test]
fn codestreams_are_taken_whole_with_ample_memory(rt: HostRuntime) -> Result<(), AllocError> {
    for (at, (_, codestream, _)) in CODESTREAMS.iter().enumerate() {
        check_whole(&rt, rt.alloc(), at, codestream)?;
    }
    Ok(())
}

#[test]
fn a_fill_byte_before_eoi_is_taken_with_ample_memory(rt: HostRuntime) -> Result<(), Fail> {
    let mut bytes = BLACK.get(..27).unwrap_or(BLACK).to_vec(rt.alloc())?;
    bytes.extend_from_slice(&[0xff, 0xd9, 0xff])?;
    check_first(&rt, rt.alloc(), 0, &bytes, 29, None);
    Ok(())
}

/// The results for two codestreams one after the other: each, and then the end.
const BOTH: Takes<'static> = (&[Ok(Some(BLACK)), Ok(Some(WHITE)), Ok(None)], 0, 0);

/// Takes two codestreams from chunks of at most `most` bytes, and from a buffered reader of these.
fn check_joined(
    rt: &impl Abort,
    alloc: Global,
    joined: &[u8],
    most: usize,
) -> Result<(), AllocError> {
    check_unbuffered(rt, alloc, most, Pieces::new(joined, most, None), &BOTH);
    check_buffered(rt, alloc, most, Pieces::new(joined, most, None), &BOTH)
}

#[test]
fn joined_codestreams_are_taken_one_by_one_with_ample_memory(
    rt: HostRuntime,
) -> Result<(), AllocError> {
    let mut joined = BLACK.to_vec(rt.alloc())?;
    joined.extend_from_slice(WHITE)?;
    for most in [1, 2, 56, 100] {
        check_joined(&rt, rt.alloc(), &joined, most)?;
    }
    Ok(())
}

/// Checks that the read of this number fails, for a reader and for a buffered one, and that the bytes from its place on
/// are left.
fn check_failing(rt: &impl Abort, alloc: Global, failing: usize) -> Result<(), AllocError> {
    let takes = (FAILED, BLACK.len().saturating_sub(failing), 1);
    let chunks = Pieces::new(BLACK, 1, Some(failing));
    check_unbuffered(rt, alloc, failing, chunks, &takes);
    let chunks = Pieces::new(BLACK, 1, Some(failing));
    check_buffered(rt, alloc, failing, chunks, &takes)
}

const FAILED: &[Wanted<'static>] = &[Err(NextFault::Io)];

#[test]
fn a_failed_read_is_named_and_counted_once_with_ample_memory(
    rt: HostRuntime,
) -> Result<(), AllocError> {
    for failing in 0..BLACK.len() {
        check_failing(&rt, rt.alloc(), failing)?;
    }
    Ok(())
}

/// Checks that the result is NoMemory, or what it is with ample memory.
fn check_or_refused(rt: &impl Abort, alloc: Global, at: usize, codestream: &[u8]) {
    let (next, _) = take_of(alloc, codestream);
    let want = match next {
        Err(NextFault::NoMemory) => Err(NextFault::NoMemory),
        _ => Ok(Some(codestream)),
    };
    check_taken(rt, "memory", at, &next, want);
}

#[test]
fn codestreams_are_taken_or_memory_is_refused(rt: HostRuntime) {
    for (at, (_, codestream, _)) in CODESTREAMS.iter().enumerate() {
        check_or_refused(&rt, rt.alloc(), at, codestream);
    }
}

/// Nothing is taken at the end, and nothing is allocated.
#[test]
fn the_end_is_named(rt: HostRuntime) {
    let (next, _) = take_of(rt.alloc(), &[]);
    check_taken(&rt, "the end", 0, &next, Ok(None));
    let chunks = Pieces::new(&[], 1, Some(0));
    check_unbuffered(&rt, rt.alloc(), 0, chunks, &(FAILED, 0, 1));
}

/// Faults and their messages.
const TEXTS: &[(NextFault, &str)] = &[
    (NextFault::TooLarge, "too large"),
    (NextFault::Io, "read failed"),
    (NextFault::NoMemory, "no memory"),
];

/// Checks the fault's message.
fn check_text(rt: &impl Abort, alloc: Global, fault: NextFault, want: &str) -> Result<(), Fail> {
    let got = format!(in alloc; "{fault}")?;
    check_bytes(rt, want, got.as_bytes(), want.as_bytes());
    Ok(())
}

#[test]
fn faults_have_texts_with_ample_memory(rt: HostRuntime) -> Result<(), Fail> {
    for (fault, text) in TEXTS {
        check_text(&rt, rt.alloc(), *fault, text)?;
    }
    Ok(())
}

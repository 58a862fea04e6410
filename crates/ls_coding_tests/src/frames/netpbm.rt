mod failures;
mod long;

use crate::frames::testing::{Chunks, Parts, check, check_items, check_so, parts_of};
use ls_frame::{Counted, Feed, Frame, Kind, NetpbmFault, first_frame, next_frame};
use std::alloc::{AllocError, Global};
use std::process::Abort;

/// Whether allocations may fail. If so (`Refusable`), `NoMemory` is accepted as a result, too.
#[derive(Clone, Copy)]
enum Memory {
    Ample,
    Refusable,
}

/// An image that was read, the end of the input, or a fault.
type Image = Result<Option<Frame>, NetpbmFault>;

/// Reads the first image of bytes in memory, and returns the bytes left too.
fn read_whole(alloc: Global, bytes: &[u8]) -> (Image, &[u8]) {
    let mut rest = bytes;
    let image = next_frame(alloc, &mut rest);
    (image, rest)
}

/// The result of reading an image from chunks, the number of failed reads, and the chunks afterwards.
#[derive(Drop)]
struct Reading<'a> {
    image: Image,
    failures: u64,
    chunks: Chunks<'a>,
}

fn read_chunks(alloc: Global, chunks: Chunks<'_>) -> Reading<'_> {
    let mut reader = Counted::new(chunks);
    let image = next_frame(alloc, &mut reader);
    Reading {
        image,
        failures: Feed::failures(&reader),
        chunks: reader.into_inner(),
    }
}

/// The parts of the image that was read, if any.
fn seen(image: &Image) -> Result<Option<Parts<'_>>, NetpbmFault> {
    match image {
        Ok(None) => Ok(None),
        Ok(Some(frame)) => Ok(Some(parts_of(frame))),
        Err(fault) => Err(*fault),
    }
}

/// Whether reading failed for lack of memory, where that is accepted.
fn lacks_memory(memory: Memory, image: &Image) -> bool {
    matches!(
        (memory, image),
        (Memory::Refusable, Err(NetpbmFault::NoMemory))
    )
}

/// Checks that the expected image or fault was read. Returns whether reading failed for lack of memory instead.
fn is_refused(
    rt: &impl Abort,
    memory: Memory,
    image: &Image,
    want: Result<Parts<'_>, NetpbmFault>,
    case: &str,
    at: usize,
) -> bool {
    if lacks_memory(memory, image) {
        return true;
    }
    check(rt, case, at, &seen(image), &want.map(Some));
    false
}

/// The name of a case, its bytes, and the expected result of reading them.
type Case<'a> = (&'a str, &'a [u8], Result<Parts<'a>, NetpbmFault>);

/// Checks the result of reading a case's bytes in memory, and the bytes left after an image.
fn check_whole(rt: &impl Abort, alloc: Global, memory: Memory, case: &Case<'_>, left: &[u8]) {
    let (name, bytes, want) = *case;
    let (image, rest) = read_whole(alloc, bytes);
    if !is_refused(rt, memory, &image, want, name, bytes.len()) && want.is_ok() {
        check_items(rt, name, bytes.len(), rest, left);
    }
}

/// Checks the result of reading a case's bytes in chunks, and that a failed read is counted and no byte after an image
/// asked for.
fn check_chunks(
    rt: &impl Abort,
    alloc: Global,
    memory: Memory,
    case: &Case<'_>,
    chunks: Chunks<'_>,
) {
    let (name, bytes, want) = *case;
    let reading = read_chunks(alloc, chunks);
    let calls = reading.chunks.calls;
    let is_read = !is_refused(rt, memory, &reading.image, want, name, calls);
    let failures = u64::from(matches!(reading.image, Err(NetpbmFault::Io)));
    check(rt, name, calls, &reading.failures, &failures);
    if is_read && want.is_ok() {
        check(rt, name, calls, &reading.chunks.furthest, &bytes.len());
    }
}

const BAD_HEADERS: &[Case<'static>] = &[
    ("another letter", b"X", Err(NetpbmFault::BadMagic)),
    ("another digit", b"P4 1 1\n", Err(NetpbmFault::BadMagic)),
    ("a lone letter", b"P", Err(NetpbmFault::Truncated)),
    ("no gap", b"P51 1 255\n", Err(NetpbmFault::BadHeader)),
    (
        "a comment at the magic",
        b"P5#c\n1 1 255\n",
        Err(NetpbmFault::BadHeader),
    ),
    (
        "a comment at the width",
        b"P5 1#c\n1 255\n",
        Err(NetpbmFault::BadHeader),
    ),
    (
        "a comment at maxval",
        b"P5 1 1 255#",
        Err(NetpbmFault::BadHeader),
    ),
    (
        "a width of 0",
        b"P5 0 1 255\n",
        Err(NetpbmFault::SizeOutOfRange),
    ),
    (
        "a height of 0",
        b"P5 1 0 255\n",
        Err(NetpbmFault::SizeOutOfRange),
    ),
    (
        "a width of 65536",
        b"P5 65536 1 255\n",
        Err(NetpbmFault::SizeOutOfRange),
    ),
    (
        "a height of 65536",
        b"P5 1 65536 255\n",
        Err(NetpbmFault::SizeOutOfRange),
    ),
    (
        "a width of forty digits",
        b"P5 1000000000000000000000000000000000000001 1 255\n",
        Err(NetpbmFault::SizeOutOfRange),
    ),
    (
        "3 * 2^28 samples",
        b"P6 16384 16384 255\n",
        Err(NetpbmFault::SizeOutOfRange),
    ),
    (
        "a maxval of 0",
        b"P5 1 1 0\n",
        Err(NetpbmFault::MaxvalOutOfRange),
    ),
    (
        "a maxval of 65536",
        b"P5 1 1 65536\n",
        Err(NetpbmFault::MaxvalOutOfRange),
    ),
];

#[test]
fn bad_headers_are_named_without_memory(rt: HostRuntime) {
    for case in BAD_HEADERS {
        check_whole(&rt, rt.alloc(), Memory::Ample, case, b"");
        let chunks = Chunks::new(case.1, 1, &[]);
        check_chunks(&rt, rt.alloc(), Memory::Ample, case, chunks);
    }
}

#[test]
fn no_bytes_are_no_image(rt: HostRuntime) {
    let (image, _) = read_whole(rt.alloc(), b"");
    let reading = read_chunks(rt.alloc(), Chunks::new(b"", 1, &[]));
    let ends = [seen(&image), seen(&reading.image)];
    check(&rt, "the end, twice", 0, &ends, &[Ok(None), Ok(None)]);
    let asked = (reading.failures, reading.chunks.furthest);
    check(&rt, "failures, and the farthest byte", 0, &asked, &(0, 1));
}

const IMAGES: &[Case<'static>] = &[
    (
        "a comment in the gap",
        b"P5 #c\n1 1\n255\n\x00",
        Ok((Kind::Gray, 1, 1, 255, &[0])),
    ),
    (
        "a comment that ends in CR",
        b"P5\n#a\r1 1 255\n\x07",
        Ok((Kind::Gray, 1, 1, 255, &[7])),
    ),
    (
        "a comment after a comment",
        b"P5\n#a\n#b\n1 1 255\n\x07",
        Ok((Kind::Gray, 1, 1, 255, &[7])),
    ),
    (
        "each white space character",
        b"P5\t\r\n 1\t1\r255 \x07",
        Ok((Kind::Gray, 1, 1, 255, &[7])),
    ),
    (
        "zeros in front",
        b"P5 0001 01 00255\n\x07",
        Ok((Kind::Gray, 1, 1, 255, &[7])),
    ),
    (
        "forty zeros in front",
        b"P5 00000000000000000000000000000000000000001 1 255\n\x07",
        Ok((Kind::Gray, 1, 1, 255, &[7])),
    ),
    (
        "a sample like a comment",
        b"P5 1 1 255\n#",
        Ok((Kind::Gray, 1, 1, 255, &[35])),
    ),
    (
        "colour",
        b"P6 1 1 255\n\x00\x00\x00",
        Ok((Kind::Color, 1, 1, 255, &[0, 0, 0])),
    ),
    (
        "colour of two bytes a sample",
        b"P6 1 1 256\n\x00\x01\x00\x02\x01\x00",
        Ok((Kind::Color, 1, 1, 256, &[1, 2, 256])),
    ),
    (
        "four rows",
        b"P5\n4 4\n255\n\x00\x00\x5a\x4a\x44\x32\x2b\xcd\x40\x91\x91\x91\x64\x91\x91\x91",
        Ok((
            Kind::Gray,
            4,
            4,
            255,
            &[
                0, 0, 90, 74, 68, 50, 43, 205, 64, 145, 145, 145, 100, 145, 145, 145,
            ],
        )),
    ),
    (
        "a maxval of 1",
        b"P5 1 1 1\n\x01",
        Ok((Kind::Gray, 1, 1, 1, &[1])),
    ),
    (
        "a maxval of 65535",
        b"P5 1 1 65535\n\xff\xff",
        Ok((Kind::Gray, 1, 1, 65535, &[65535])),
    ),
    (
        "two samples",
        b"P5 2 1 255\n\x00\x01",
        Ok((Kind::Gray, 2, 1, 255, &[0, 1])),
    ),
    (
        "two samples of two bytes",
        b"P5 2 1 256\n\x01\x00\x00\xff",
        Ok((Kind::Gray, 2, 1, 256, &[256, 255])),
    ),
    (
        "a sample over maxval",
        b"P5 1 1 7\n\x08",
        Err(NetpbmFault::SampleTooLarge),
    ),
    (
        "a sample of two bytes over maxval",
        b"P5 1 1 256\n\x01\x01",
        Err(NetpbmFault::SampleTooLarge),
    ),
    (
        "a sample over maxval, and then the end",
        b"P5 2 1 7\n\x08",
        Err(NetpbmFault::SampleTooLarge),
    ),
    (
        "a sample too few",
        b"P5 2 1 255\n\x00",
        Err(NetpbmFault::Truncated),
    ),
    (
        "a byte too few",
        b"P5 2 1 300\n\x01\x2c\x01",
        Err(NetpbmFault::Truncated),
    ),
    ("no raster", b"P5 2 1 255\n", Err(NetpbmFault::Truncated)),
];

/// Checks that each image is read as it is, in memory and in chunks.
fn check_images(rt: &impl Abort, alloc: Global, memory: Memory) {
    for case in IMAGES {
        check_whole(rt, alloc, memory, case, b"");
        for most in [1, 2, 3, 7] {
            check_chunks(rt, alloc, memory, case, Chunks::new(case.1, most, &[]));
        }
    }
}

#[test]
fn images_are_read_as_they_are_with_ample_memory(rt: HostRuntime) {
    check_images(&rt, rt.alloc(), Memory::Ample);
}

#[test]
fn images_are_read_as_they_are_or_memory_is_refused(rt: HostRuntime) {
    check_images(&rt, rt.alloc(), Memory::Refusable);
}

#[test]
fn each_beginning_of_an_image_is_truncated(rt: HostRuntime) {
    let image = b"P5 2 1 255\n\x00\x01";
    for end in 1..image.len() {
        let case = ("a beginning", &image[..end], Err(NetpbmFault::Truncated));
        check_whole(&rt, rt.alloc(), after_header(end, 11), &case, b"");
    }
}

/// Whether an allocation may fail after `bytes` bytes: memory is allocated after the header, of `header` bytes.
fn after_header(bytes: usize, header: usize) -> Memory {
    if bytes < header {
        Memory::Ample
    } else {
        Memory::Refusable
    }
}

/// The name of a case, the number of blanks after the magic, the bytes after them, and the expected result.
type LongHeader<'a> = (&'a str, usize, &'a [u8], Result<Parts<'a>, NetpbmFault>);

const LONG_HEADERS: &[LongHeader<'static>] = &[
    (
        "65535 bytes and then the end",
        65533,
        b"",
        Err(NetpbmFault::Truncated),
    ),
    (
        "65536 bytes and then the end",
        65534,
        b"",
        Err(NetpbmFault::HeaderTooLong),
    ),
    (
        "a header of 65536 bytes",
        65526,
        b"1 1 255\n\x07",
        Ok((Kind::Gray, 1, 1, 255, &[7])),
    ),
    (
        "a header of 65537 bytes",
        65527,
        b"1 1 255\n\x07",
        Err(NetpbmFault::HeaderTooLong),
    ),
];

fn check_long_header(rt: &impl Abort, alloc: Global, header: &LongHeader<'_>) {
    let (case, blanks, tail, want) = *header;
    let mut bytes = [b' '; 65_538];
    bytes[..2].copy_from_slice(b"P5");
    let start = blanks.saturating_add(2);
    let end = start.saturating_add(tail.len());
    let Some(place) = bytes.get_mut(start..end) else {
        panic!(rt; "no room for {case}");
    };
    place.copy_from_slice(tail);
    // Nothing is allocated for a malformed header.
    let memory = match want {
        Ok(_) => Memory::Refusable,
        Err(_) => Memory::Ample,
    };
    let bytes = &bytes[..end];
    let chunks = Chunks::new(bytes, end, &[]);
    check_chunks(rt, alloc, memory, &(case, bytes, want), chunks);
}

#[test]
fn a_header_has_65536_bytes_at_most(rt: HostRuntime) {
    for header in LONG_HEADERS {
        check_long_header(&rt, rt.alloc(), header);
    }
}

/// The first of two images; below, the second, and the bytes of both.
const FIRST: Parts<'static> = (Kind::Gray, 3, 1, 255, &[7, 8, 9]);

const SECOND: Parts<'static> = (Kind::Color, 1, 1, 255, &[1, 2, 3]);

const BOTH: &[u8] = b"P5 3 1 255\n\x07\x08\x09P6 1 1 255\n\x01\x02\x03";

/// The bytes of the second image alone.
const LAST: &[u8] = b"P6 1 1 255\n\x01\x02\x03";

#[test]
fn not_a_byte_after_an_image_is_taken(rt: HostRuntime) {
    let first = ("the first image", BOTH, Ok(FIRST));
    check_whole(&rt, rt.alloc(), Memory::Refusable, &first, LAST);
    let second = ("the second image", LAST, Ok(SECOND));
    check_whole(&rt, rt.alloc(), Memory::Refusable, &second, b"");
}

/// Checks reading the first of both images from chunks of at most `most` bytes.
fn check_first_of_chunks(rt: &impl Abort, alloc: Global, most: usize) {
    let reading = read_chunks(alloc, Chunks::new(BOTH, most, &[]));
    let chunks = &reading.chunks;
    let got = (chunks.given, chunks.furthest, chunks.singly);
    let image = &reading.image;
    let want = if is_refused(rt, Memory::Refusable, image, Ok(FIRST), "the chunks", most) {
        // The raster's memory is allocated before its first byte is asked for.
        (11, 11, None)
    } else {
        (14, 14, Some(11))
    };
    check(
        rt,
        "bytes given, the farthest, and those one by one",
        most,
        &got,
        &want,
    );
}

#[test]
fn not_a_byte_after_an_image_is_asked_for(rt: HostRuntime) {
    for most in [1, 2, 7, 100] {
        check_first_of_chunks(&rt, rt.alloc(), most);
    }
}

const TEXTS: &[(NetpbmFault, &str)] = &[
    (NetpbmFault::BadMagic, "bad magic"),
    (NetpbmFault::BadHeader, "bad header"),
    (NetpbmFault::HeaderTooLong, "header too long"),
    (NetpbmFault::SizeOutOfRange, "size out of range"),
    (NetpbmFault::MaxvalOutOfRange, "maxval out of range"),
    (NetpbmFault::SampleTooLarge, "sample too large"),
    (NetpbmFault::Truncated, "truncated"),
    (NetpbmFault::Io, "read failed"),
    (NetpbmFault::NoMemory, "no memory"),
];

/// Checks the text of a fault, unless an allocation fails.
fn check_text(rt: &impl Abort, alloc: Global, (fault, want): &(NetpbmFault, &str)) {
    if let Ok(text) = fault.to_string(alloc) {
        check_items(rt, want, 0, text.as_bytes(), want.as_bytes());
    }
}

#[test]
fn faults_say_what_is_wrong(rt: HostRuntime) {
    for text in TEXTS {
        check_text(&rt, rt.alloc(), text);
    }
    let refused = NetpbmFault::from(AllocError);
    check(&rt, "no memory", 0, &refused, &NetpbmFault::NoMemory);
}

/// The result of `first_frame`: the first sample of the image, and its length in bytes.
type Front = Result<Option<(u16, usize)>, NetpbmFault>;

const FRONTS: &[(&str, &[u8], Front)] = &[
    ("nothing", b"", Ok(None)),
    (
        "an image and another",
        b"P5\n1 1\n255\n\x07P5\n1 1\n255\n\x08",
        Ok(Some((7, 12))),
    ),
    (
        "an image and no other",
        b"P5\n1 1\n255\n\x07P4",
        Ok(Some((7, 12))),
    ),
    (
        "half an image",
        b"P5\n1 1\n255\n",
        Err(NetpbmFault::Truncated),
    ),
];

fn front_of(alloc: Global, bytes: &[u8]) -> Front {
    match first_frame(alloc, bytes) {
        Ok(None) => Ok(None),
        Ok(Some((frame, length))) => {
            let first = frame.samples().first().copied().unwrap_or(0);
            Ok(Some((first, length)))
        }
        Err(fault) => Err(fault),
    }
}

#[test]
fn the_image_in_front_is_found_with_its_length_with_ample_memory(rt: HostRuntime) {
    for (case, bytes, want) in FRONTS {
        check(&rt, case, 0, &front_of(rt.alloc(), bytes), want);
    }
}

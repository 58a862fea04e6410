ghost use Rattle.std.specs.Prelude.{◌<◌};

use crate::bits::testing::{Code, Filling, Put, WORDS, Word, check_bytes, put, put_word};
use ls_bits::BitSink;
use std::alloc::{AllocError, Global};
use std::process::Abort;

/// Puts, one after the other, and the bytes that they give.
const BYTES: &[(&[Put], &[u8])] = &[
    (&[], &[]),
    (&[(0, 0)], &[]),
    (&[(255, 8), (1, 1)], &[0xff, 0x40]),
    (&[(255, 8), (0, 0), (1, 1), (0, 0)], &[0xff, 0x40]),
    (&[(255, 8)], &[0xff, 0x00]),
    (&[(1, 1)], &[0x80]),
    (&[(0xffff_ffff, 32)], &[0xff, 0x7f, 0xff, 0x7f, 0xc0]),
];

/// Room for the bits of each list and each word.
const ROOM: usize = 192;

/// The bytes that a sink gives for puts.
fn bytes_of(rt: &impl Abort, alloc: Global, puts: &[Put]) -> Result<Vec<u8>, AllocError> {
    let mut sink = BitSink::new(alloc);
    for bits in puts {
        put(rt, &mut sink, *bits)?;
    }
    sink.finish()
}

/// The bytes that a sink with room gives for puts.
fn filled_of(rt: &impl Abort, alloc: Global, puts: &[Put]) -> Result<Vec<u8>, AllocError> {
    let mut filling = Filling::new(alloc, ROOM)?;
    for (value, count) in puts {
        filling.put(rt, *value, *count);
    }
    Ok(filling.finish())
}

/// Checks that both sinks give these bytes for the puts; checks nothing if an allocation fails.
fn check_puts(rt: &impl Abort, alloc: Global, puts: &[Put], want: &[u8]) -> Result<(), AllocError> {
    check_bytes(rt, &bytes_of(rt, alloc, puts)?, want);
    check_bytes(rt, &filled_of(rt, alloc, puts)?, want);
    Ok(())
}

#[test]
fn bits_are_stuffed(rt: HostRuntime) {
    for (puts, want) in BYTES {
        let _ = check_puts(&rt, rt.alloc(), puts, want);
    }
}

/// A number of bits 0 that forty bits 1 follow, and the bytes that they give.
const ONES: &[(u32, &[u8])] = &[
    (0, &[0xff, 0x7f, 0xff, 0x7f, 0xff, 0x60]),
    (1, &[0x7f, 0xff, 0x7f, 0xff, 0x7f, 0xe0]),
    (2, &[0x3f, 0xff, 0x7f, 0xff, 0x7f, 0xf0]),
    (3, &[0x1f, 0xff, 0x7f, 0xff, 0x7f, 0xf8]),
    (4, &[0x0f, 0xff, 0x7f, 0xff, 0x7f, 0xfc]),
    (5, &[0x07, 0xff, 0x7f, 0xff, 0x7f, 0xfe]),
    (6, &[0x03, 0xff, 0x7f, 0xff, 0x7f, 0xff, 0x00]),
    (7, &[0x01, 0xff, 0x7f, 0xff, 0x7f, 0xff, 0x40]),
];

/// Bytes after `zeros` bytes 00.
fn after_zeros(alloc: Global, zeros: u32, bytes: &[u8]) -> Result<Vec<u8>, AllocError> {
    let mut all = Vec::new(alloc);
    for _ in 0..zeros {
        all.push(0x00)?;
    }
    all.extend_from_slice(bytes)?;
    Ok(all)
}

/// Checks that ones are stuffed also after `bytes` bytes 00.
fn check_ones(rt: &impl Abort, alloc: Global, bytes: u32) -> Result<(), AllocError>
    requires { bytes < 8 }
{
    for (zeros, ones) in ONES {
        let want = after_zeros(alloc, bytes, ones)?;
        let puts = [
            (0, 4 * bytes),
            (0, *zeros),
            (0, 4 * bytes),
            (u32::MAX, 32),
            (255, 8),
        ];
        check_puts(rt, alloc, &puts, &want)?;
    }
    Ok(())
}

#[test]
fn ones_are_stuffed_wherever_they_begin_in_64_bits(rt: HostRuntime) {
    for bytes in 0..8 {
        let _ = check_ones(&rt, rt.alloc(), bytes);
    }
}

/// The bytes that a sink gives for a word.
fn word_of(rt: &impl Abort, alloc: Global, code: Code, v: u32) -> Result<Vec<u8>, AllocError> {
    let mut sink = BitSink::new(alloc);
    put_word(rt, &mut sink, code, v)?;
    sink.finish()
}

/// The bytes that a sink with room gives for a word.
fn filled_word(rt: &impl Abort, alloc: Global, code: Code, v: u32) -> Result<Vec<u8>, AllocError> {
    let mut filling = Filling::new(alloc, ROOM)?;
    filling.put_word(rt, code, v);
    Ok(filling.finish())
}

/// Checks that both sinks give the expected bytes for a word; checks nothing if an allocation fails.
fn check_word(rt: &impl Abort, alloc: Global, word: &Word) -> Result<(), AllocError> {
    let (k, glimit, qbpp, v, want) = *word;
    let code = Code::new(rt, k, glimit, qbpp);
    check_bytes(rt, &word_of(rt, alloc, code, v)?, want);
    check_bytes(rt, &filled_word(rt, alloc, code, v)?, want);
    Ok(())
}

#[test]
fn values_are_put_in_golomb_words(rt: HostRuntime) {
    for word in WORDS {
        let _ = check_word(&rt, rt.alloc(), word);
    }
}

/// Ones and other bits. With the words below they are 173 bits, so each round begins at another place in a byte.
const MIXED: [Put; 6] = [
    (0xff, 8),
    (0x7fff_ffff, 32),
    (0, 0),
    (5, 3),
    (0xffff, 16),
    (1, 7),
];

/// Words that follow those, two short ones and two escape words: k, glimit, qbpp and the value.
const MIXED_WORDS: [(u32, u32, u32, u32); 4] = [
    (2, 31, 8, 17),
    (0, 32, 8, 256),
    (3, 12, 5, 7),
    (0, 64, 16, 65535),
];

/// The bytes of all these, eight times over: 1,384 bits, cut and stuffed by T.87 C.1.
const MIXTURE: [u8; 178] = [
    0xff, 0x3f, 0xff, 0x7f, 0xff, 0x77, 0xff, 0x7e, 0x04, 0x28, 0x00, 0x00, 0x0f, 0xff, 0x40, 0x00,
    0x00, 0x00, 0x00, 0x00, 0x7f, 0xff, 0x5f, 0xef, 0xff, 0x7f, 0xff, 0x7d, 0xff, 0x7f, 0x81, 0x0a,
    0x00, 0x00, 0x03, 0xff, 0x70, 0x00, 0x00, 0x00, 0x00, 0x00, 0x1f, 0xff, 0x77, 0xfb, 0xff, 0x7f,
    0xff, 0x7f, 0x7f, 0xff, 0x60, 0x42, 0x80, 0x00, 0x00, 0xff, 0x7c, 0x00, 0x00, 0x00, 0x00, 0x00,
    0x07, 0xff, 0x7d, 0xfe, 0xff, 0x7f, 0xff, 0x7f, 0xdf, 0xff, 0x78, 0x10, 0xa0, 0x00, 0x00, 0x3f,
    0xfe, 0x00, 0x00, 0x00, 0x00, 0x00, 0x03, 0xff, 0x7e, 0xff, 0x3f, 0xff, 0x7f, 0xff, 0x77, 0xff,
    0x7e, 0x04, 0x28, 0x00, 0x00, 0x0f, 0xff, 0x40, 0x00, 0x00, 0x00, 0x00, 0x00, 0x7f, 0xff, 0x5f,
    0xef, 0xff, 0x7f, 0xff, 0x7d, 0xff, 0x7f, 0x81, 0x0a, 0x00, 0x00, 0x03, 0xff, 0x70, 0x00, 0x00,
    0x00, 0x00, 0x00, 0x1f, 0xff, 0x77, 0xfb, 0xff, 0x7f, 0xff, 0x7f, 0x7f, 0xff, 0x60, 0x42, 0x80,
    0x00, 0x00, 0xff, 0x7c, 0x00, 0x00, 0x00, 0x00, 0x00, 0x07, 0xff, 0x7d, 0xfe, 0xff, 0x7f, 0xff,
    0x7f, 0xdf, 0xff, 0x78, 0x10, 0xa0, 0x00, 0x00, 0x3f, 0xfe, 0x00, 0x00, 0x00, 0x00, 0x00, 0x03,
    0xff, 0x7e,
];

/// The bytes of the mixture. A call is made once more if an allocation fails.
fn mixture(rt: &impl Abort, alloc: Global) -> Result<Vec<u8>, AllocError> {
    let mut sink = BitSink::new(alloc);
    for _ in 0..8 {
        for bits in MIXED {
            put(rt, &mut sink, bits)?;
        }
        for (k, glimit, qbpp, v) in MIXED_WORDS {
            put_word(rt, &mut sink, Code::new(rt, k, glimit, qbpp), v)?;
        }
    }
    sink.finish()
}

/// The mixture, into a vector with room. A word counts as glimit bits there.
fn mixture_with_room(rt: &impl Abort, alloc: Global) -> Result<Vec<u8>, AllocError> {
    let mut filling = Filling::new(alloc, 2000)?;
    for _ in 0..8 {
        for (value, count) in MIXED {
            filling.put(rt, value, count);
        }
        for (k, glimit, qbpp, v) in MIXED_WORDS {
            filling.put_word(rt, Code::new(rt, k, glimit, qbpp), v);
        }
    }
    Ok(filling.finish())
}

#[test]
fn a_put_is_called_again_if_an_allocation_fails(rt: HostRuntime) {
    if let Ok(bytes) = mixture(&rt, rt.alloc()) {
        check_bytes(&rt, &bytes, &MIXTURE);
    }
}

#[test]
fn a_sink_with_room_makes_the_same_bytes(rt: HostRuntime) {
    if let Ok(bytes) = mixture_with_room(&rt, rt.alloc()) {
        check_bytes(&rt, &bytes, &MIXTURE);
    }
}

#[test]
fn no_call_fails_with_ample_memory(rt: HostRuntime) {
    let mut sink = BitSink::new(rt.alloc());
    assert!(rt; sink.put(255, 8).is_ok());
    let code = Code::new(&rt, 2, 31, 8);
    assert!(rt; 17 <= 1 << code.qbpp);
    assert!(rt; sink.put_golomb(code.k, code.glimit, code.qbpp, 17).is_ok());
    let bytes = sink.finish().unwrap_or(Vec::new(rt.alloc()));
    check_bytes(&rt, &bytes, &[0xff, 0x05]);
    let many = mixture(&rt, rt.alloc()).unwrap_or(Vec::new(rt.alloc()));
    check_bytes(&rt, &many, &MIXTURE);
}

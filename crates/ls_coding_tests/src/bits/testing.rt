//! What the tests share: words and their bytes, and calls that meet what the sinks and the source require.
ghost use Rattle.std.specs.Prelude.{◌≤◌, ℕ, length, slice_index};
ghost use Rattle.ls_bits.specs.Golomb.{IsGolomb};
ghost use Rattle.ls_bits.specs.View.Room.{Fits};

use ls_bits::laws::words_keep_their_limit;
use ls_bits::{BitSink, BitSource, CodeFault, RoomSink, data_of};
use std::alloc::{AllocError, Global};
use std::fmt::Debug;
use std::process::Abort;

/// A number, and the number of bits that it is put in.
pub type Put = (u32, u32);

/// k, glimit, qbpp, a value, and the bytes of its word alone.
pub type Word = (u32, u32, u32, u32, &'static [u8]);

/// Words by T.87 A.5.3, stuffed by C.1: ones of 8 bits, and then those of the narrowest and widest codes.
pub const WORDS: &[Word] = &[
    (2, 31, 8, 17, &[0x0a]),
    (0, 32, 8, 22, &[0x00, 0x00, 0x02]),
    (0, 32, 8, 23, &[0x00, 0x00, 0x01, 0x16]),
    (0, 32, 8, 256, &[0x00, 0x00, 0x01, 0xff, 0x00]),
    (8, 32, 8, 255, &[0xff, 0x40]),
    (8, 32, 8, 256, &[0x40, 0x00]),
    (3, 12, 5, 7, &[0xf0]),
    (0, 2, 0, 0, &[0x80]),
    (0, 2, 0, 1, &[0x40]),
    (1, 2, 0, 0, &[0x80]),
    (1, 2, 0, 1, &[0xc0]),
    (0, 64, 0, 1, &[0x40]),
    (2, 3, 1, 2, &[0xc0]),
    (0, 3, 1, 1, &[0x40]),
    (0, 3, 1, 2, &[0x60]),
    (5, 6, 4, 15, &[0xbc]),
    (5, 6, 4, 16, &[0xc0]),
    (0, 18, 16, 1, &[0x40, 0x00, 0x00]),
    (0, 18, 16, 65536, &[0x7f, 0xff, 0x60]),
    (16, 18, 16, 65535, &[0xff, 0x7f, 0xc0]),
    (16, 18, 16, 65536, &[0x7f, 0xff, 0x60]),
    (17, 18, 16, 65536, &[0xc0, 0x00, 0x00]),
    (17, 64, 16, 65535, &[0xbf, 0xff, 0x60]),
    (0, 64, 16, 46, &[0x00, 0x00, 0x00, 0x00, 0x00, 0x02]),
    (
        0,
        64,
        16,
        47,
        &[0x00, 0x00, 0x00, 0x00, 0x00, 0x01, 0x00, 0x2e],
    ),
    (
        0,
        64,
        16,
        65536,
        &[0x00, 0x00, 0x00, 0x00, 0x00, 0x01, 0xff, 0x7f, 0x80],
    ),
];

/// Checks that a value made from bytes is the expected one.
pub fn check<T: PartialEq + Debug>(rt: &impl Abort, bytes: &[u8], got: &T, want: &T) {
    assert_eq!(rt; got, want, "of {bytes:?}");
}

/// Checks that the bytes are the expected ones.
pub fn check_bytes(rt: &impl Abort, got: &[u8], want: &[u8]) {
    check(rt, want, &got, &want);
}

/// Checks a source's answer.
pub fn check_answer(
    rt: &impl Abort,
    got: Result<u32, CodeFault>,
    want: Result<u32, CodeFault>,
    bytes: &[u8],
) {
    check(rt, bytes, &got, &want);
}

/// Checks the number of bits left.
pub fn check_left(rt: &impl Abort, source: &BitSource<'_>, want: u64) {
    check(rt, &[], &source.left(), &want);
}

/// Checks what `few_at` finds at the front of bytes after their first bits were un-stuffed, and the number of bits left
/// after the word, or from the front on if none is found.
pub fn check_few(rt: &impl Abort, k: u32, most: u32, bytes: &[u8], value: Option<u32>, left: u64) {
    assert!(rt; k <= 17);
    assert!(rt; most <= 24);
    let mut source = source_of(bytes);
    let none = source.bits(0);
    let found = match source.few_at(source.place(), k, most) {
        Some((found, after)) => {
            source.go_to(after);
            Some(found)
        }
        None => None,
    };
    let got = (none, found, source.left());
    check(rt, bytes, &got, &(Ok(0), value, left));
}

/// Checks what `run_at` finds at the front of bytes after their first bits were un-stuffed, the ones and the number;
/// and the number of bits left after the run, or from the front on if none is found.
pub fn check_run(
    rt: &impl Abort,
    widths: &[u32],
    bytes: &[u8],
    run: Option<(u32, u32)>,
    left: u64,
) {
    assert!(rt; widths.len() <= 32);
    check_widths(rt, widths);
    let mut source = source_of(bytes);
    let none = source.bits(0);
    let found = match source.run_at(source.place(), widths) {
        Some(run) => {
            source.go_to(run.after);
            Some((run.ones, run.rest))
        }
        None => None,
    };
    let got = (none, found, source.left());
    check(rt, bytes, &got, &(Ok(0), run, left));
}

fn check_widths(rt: &impl Abort, widths: &[u32])
    ensures { (k : ℕ) → slice_index widths.now k ≤ 15 }
{
    for width in widths {
        assert!(rt; *width <= 15);
    }
}

/// A code of words: k, glimit, qbpp.
#[derive(Clone, Copy, Drop)]
pub struct Code {
    pub k: u32,
    pub glimit: u32,
    pub qbpp: u32,
    ghost is_code: { IsGolomb k glimit qbpp },
}

impl Code {
    pub fn new(rt: &impl Abort, k: u32, glimit: u32, qbpp: u32) -> Code {
        assert!(rt; qbpp <= 16);
        assert!(rt; k <= qbpp + 1);
        assert!(rt; glimit >= qbpp + 2);
        assert!(rt; glimit <= 64);
        Code { k, glimit, qbpp }
    }

    /// Takes the next word, and returns its value.
    pub fn take(self, source: &mut BitSource<'_>) -> Result<u32, CodeFault> {
        source.take_golomb(self.k, self.glimit, self.qbpp)
    }

    /// The value of the word at the front of bytes.
    pub fn take_first(self, bytes: &[u8]) -> Result<u32, CodeFault> {
        self.take(&mut source_of(bytes))
    }
}

/// A source of the data at the front of bytes.
pub fn source_of<'a>(bytes: &'a [u8]) -> BitSource<'a> {
    BitSource::new(&bytes[..data_of(bytes).len])
}

/// Puts bits. If an allocation fails, the same call is made once more.
pub fn put(rt: &impl Abort, sink: &mut BitSink, (value, count): Put) -> Result<(), AllocError> {
    assert!(rt; count <= 32);
    assert!(rt; u64::from(value) < 1 << count);
    if sink.put(value, count).is_ok() {
        return Ok(());
    }
    sink.put(value, count)
}

/// Puts the word of `v`. If an allocation fails, the same call is made once more.
pub fn put_word(rt: &impl Abort, sink: &mut BitSink, code: Code, v: u32) -> Result<(), AllocError> {
    assert!(rt; v <= 1 << code.qbpp);
    if sink.put_golomb(code.k, code.glimit, code.qbpp, v).is_ok() {
        return Ok(());
    }
    sink.put_golomb(code.k, code.glimit, code.qbpp, v)
}

/// A sink into a vector with room for `total` bits, of which at most `used` are put.
#[derive(Drop)]
pub struct Filling {
    sink: RoomSink,
    used: usize,
    total: usize,
    ghost bits: { length sink.bits ≤ used },
    ghost within: { used ≤ total },
    ghost room: { Fits total sink.capacity_left },
}

impl Filling {
    /// A sink with no bits yet, and room for `total`.
    pub fn new(alloc: Global, total: usize) -> Result<Filling, AllocError> {
        let sink = RoomSink::new(Vec::with_capacity(alloc, total / 7 + 1)?);
        Ok(Filling {
            sink,
            used: 0,
            total,
        })
    }

    pub fn put(&mut self, rt: &impl Abort, value: u32, count: u32) {
        assert!(rt; count <= 32);
        assert!(rt; u64::from(value) < 1 << count);
        assert!(rt; count as usize <= self.total - self.used);
        self.sink.put(value, count);
        self.used += count as usize;
    }

    /// Puts a word, and counts it as glimit bits, the most that it can have.
    pub fn put_word(&mut self, rt: &impl Abort, code: Code, v: u32) {
        assert!(rt; v <= 1 << code.qbpp);
        assert!(rt; code.glimit as usize <= self.total - self.used);
        words_keep_their_limit();
        self.sink.put_golomb(code.k, code.glimit, code.qbpp, v);
        self.used += code.glimit as usize;
    }

    pub fn finish(self) -> Vec<u8> {
        self.sink.finish()
    }
}

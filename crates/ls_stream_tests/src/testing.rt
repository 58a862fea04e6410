//! What the tests share: frames, pictures of pseudo-random samples, and checks.
pub mod codestreams;

use ls_frame::{Frame, Kind, Tuning};
use ls_stream::encode_with;
use std::alloc::{AllocError, Global};
use std::fmt::Debug;
use std::process::Abort;
use std::test::Fail;

/// Checks that a value is the expected one.
pub fn check<T: PartialEq + Debug>(rt: &impl Abort, name: &str, at: usize, got: &T, want: &T) {
    assert_eq!(rt; got, want, "{name}, at {at}");
}

/// Checks bytes.
pub fn check_bytes(rt: &impl Abort, name: &str, got: &[u8], want: &[u8]) {
    check(rt, name, 0, &got, &want);
}

/// Checks a number.
pub fn check_number(rt: &impl Abort, name: &str, got: u64, want: u64) {
    check(rt, name, 0, &got, &want);
}

/// Kind, width, height, maxval, samples.
pub type Parts<'a> = (Kind, u16, u16, u16, &'a [u16]);

/// The parts of a frame.
pub fn parts_of(frame: &Frame) -> Parts<'_> {
    (
        frame.kind(),
        frame.width(),
        frame.height(),
        frame.maxval(),
        frame.samples(),
    )
}

/// A frame of these parts.
pub fn frame_of(
    rt: &impl Abort,
    alloc: Global,
    kind: Kind,
    width: u16,
    height: u16,
    maxval: u16,
    samples: &[u16],
) -> Result<Frame, AllocError> {
    match Frame::new(kind, width, height, maxval, samples.to_vec(alloc)?) {
        Ok(frame) => Ok(frame),
        Err((fault, _)) => panic!(rt; "these parts make no frame: {fault:?}"),
    }
}

/// A frame of these parts.
pub fn frame_of_parts(
    rt: &impl Abort,
    alloc: Global,
    parts: &Parts<'_>,
) -> Result<Frame, AllocError> {
    let (kind, width, height, maxval, samples) = *parts;
    frame_of(rt, alloc, kind, width, height, maxval, samples)
}

/// The samples of rows of equal length, `count` rows in all, column by column: so planes become pixels, if there are so
/// many planes, and pixels become planes, if there are so many pixels.
pub fn turned(alloc: Global, samples: &[u16], count: usize) -> Result<Vec<u16>, AllocError> {
    let count = count.max(1);
    let each = samples.len() / count;
    let mut turned = Vec::new(alloc);
    for place in 0..samples.len() {
        let row = usize::saturating_mul(place % count, each);
        let from = usize::saturating_add(row, place / count);
        turned.push(*samples.get(from).unwrap_or(&0))?;
    }
    Ok(turned)
}

/// The codestream of a frame, coded by these T1, T2, T3 and RESET, each 0 for its default.
pub fn encode_tuned(alloc: Global, frame: &Frame, chosen: [u16; 4]) -> Result<Vec<u8>, Fail> {
    let [t1, t2, t3, reset] = chosen;
    let presets = Tuning { t1, t2, t3, reset }.presets(frame.maxval())?;
    Ok(encode_with(alloc, frame, &presets)?)
}

/// A line of the greatest length, of zeros and this last sample.
pub fn longest_line(alloc: Global, last: u16) -> Result<Vec<u16>, AllocError> {
    let mut samples = vec![in alloc; 0u16; 65535]?;
    samples[65534] = last;
    Ok(samples)
}

/// Pseudo-random numbers, the same in each run (splitmix64).
#[derive(Drop)]
pub struct Chance {
    pub state: u64,
}

impl Chance {
    fn next(&mut self) -> u64 {
        self.state = self.state.wrapping_add(0x9e37_79b9_7f4a_7c15);
        let mut mixed = self.state;
        mixed = (mixed ^ (mixed >> 30)).wrapping_mul(0xbf58_476d_1ce4_e5b9);
        mixed = (mixed ^ (mixed >> 27)).wrapping_mul(0x94d0_49bb_1331_11eb);
        mixed ^ (mixed >> 31)
    }

    /// A number up to `most`.
    fn up_to(&mut self, most: u16) -> u16 {
        (self.next() % (u64::from(most) + 1)) as u16
    }
}

/// The content of a picture.
#[derive(Clone, Copy, Debug)]
pub enum Picture {
    /// Any samples.
    Noise,
    /// Runs of a value, most of them several samples long.
    Runs,
    /// Values that rise slowly.
    Ramp,
    /// Only the least and the greatest value.
    Extremes,
}

pub const PICTURES: &[Picture] = &[
    Picture::Noise,
    Picture::Runs,
    Picture::Ramp,
    Picture::Extremes,
];

/// This number of samples of a picture, each at most `maxval`.
pub fn samples_of(
    alloc: Global,
    chance: &mut Chance,
    picture: Picture,
    maxval: u16,
    count: usize,
) -> Result<Vec<u16>, AllocError> {
    let mut samples = Vec::with_capacity(alloc, count)?;
    let mut value = 0;
    for place in 0..count {
        value = match picture {
            Picture::Noise => chance.up_to(maxval),
            Picture::Runs if chance.up_to(15) > 0 => value,
            Picture::Runs => chance.up_to(maxval),
            Picture::Ramp => ((place as u64 + chance.next() % 3) % (u64::from(maxval) + 1)) as u16,
            Picture::Extremes if chance.up_to(1) == 0 => 0,
            Picture::Extremes => maxval,
        };
        samples.push(value)?;
    }
    Ok(samples)
}

/// Kind, width, height, maxval.
pub type Shape = (Kind, u16, u16, u16);

/// A frame of this shape with this content.
pub fn drawn_frame(
    rt: &impl Abort,
    alloc: Global,
    chance: &mut Chance,
    shape: Shape,
    picture: Picture,
) -> Result<Frame, AllocError> {
    let (kind, width, height, maxval) = shape;
    let count = usize::from(width) * usize::from(height) * usize::from(kind.components());
    let samples = samples_of(alloc, chance, picture, maxval, count)?;
    frame_of(rt, alloc, kind, width, height, maxval, &samples)
}

/// The number of bytes, and their FNV-1a (64 bits).
#[derive(Clone, Copy, Debug, PartialEq, Eq)]
pub struct Sum {
    pub bytes: u64,
    pub fnv: u64,
}

impl Sum {
    /// The sum of no bytes.
    pub fn new() -> Sum {
        Sum {
            bytes: 0,
            fnv: 0xcbf2_9ce4_8422_2325,
        }
    }

    /// Adds these bytes.
    pub fn add(&mut self, more: &[u8]) {
        self.bytes = self.bytes.wrapping_add(more.len() as u64);
        for byte in more {
            self.fnv = (self.fnv ^ u64::from(*byte)).wrapping_mul(0x100_0000_01b3);
        }
    }
}

/// Checks a sum.
pub fn check_sum(rt: &impl Abort, name: &str, got: Sum, want: (u64, u64)) {
    check(rt, name, 0, &(got.bytes, got.fnv), &want);
}

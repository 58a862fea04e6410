//! A picture of 8-bit samples like a camera's, and those of its samples that are coded in regular mode. It is the same
//! in each run, and is made with integers alone.
ghost use Rattle.std.specs.Prelude.{◌≡◌, ◌<◌, ◌≤◌, false};
ghost use Rattle.ls_coding.specs.Contexts.{is_run};
ghost use Rattle.ls_coding.specs.Samples.{AreSamples};

use ls_coding::{Mode, Neighbours, mode_of};
use std::alloc::{AllocError, Global};

/// The default number of samples in a line, and of lines.
pub const USUAL_SIDE: u32 = 1024;

/// The bits of a number that are counted for noise: 8, 16, 32 or 64 of them.
const COUNTED: [u64; 4] = [0xff, 0xffff, 0xffff_ffff, u64::MAX];

/// A sample of regular mode and its neighbours, which aren't all equal.
#[derive(Clone, Copy)]
pub struct Sample {
    pub neighbours: Neighbours,
    pub sample: u16,
    ghost around: { AreSamples 255 neighbours },
    ghost in_range: { sample ≤ 255 },
    ghost regular: { is_run neighbours ≡ false },
}

/// Returns the samples of a picture of `side` lines that are coded in regular mode, line by line (T.87 A.3).
pub fn regular_samples(alloc: Global, side: u32) -> Result<Vec<Sample>, AllocError> {
    let mut samples = Vec::new(alloc);
    for y in 0..side {
        for x in 0..side {
            let neighbours = neighbours_at(side, x, y);
            let sample = sample_at(x, y);
            if mode_of(&neighbours) == Mode::Regular {
                samples.push(Sample { neighbours, sample })?;
            }
        }
    }
    Ok(samples)
}

/// Returns the neighbours of a sample, also at the picture's edges (A.2.1).
fn neighbours_at(side: u32, x: u32, y: u32) -> Neighbours
    requires across { x < side }
    requires down { y < side }
    ensures { AreSamples 255 result }
{
    if y == 0 {
        let a = if x == 0 { 0 } else { sample_at(x - 1, y) };
        return Neighbours {
            a,
            b: 0,
            c: 0,
            d: 0,
        };
    }
    let b = sample_at(x, y - 1);
    let d = if x + 1 < side {
        sample_at(x + 1, y - 1)
    } else {
        b
    };
    if x > 0 {
        return Neighbours {
            a: sample_at(x - 1, y),
            b,
            c: sample_at(x - 1, y - 1),
            d,
        };
    }
    let c = if y > 1 { sample_at(0, y - 2) } else { 0 };
    Neighbours { a: b, b, c, d }
}

/// Returns the sample at a place: the sum of two smooth fields, of tilted patches with sharp edges, and of noise, which
/// has four strengths.
fn sample_at(x: u32, y: u32) -> u16
    ensures { result ≤ 255 }
{
    let (x, y) = (u64::from(x), u64::from(y));
    let broad = smooth(0, 7, x, y).wrapping_mul(5) / 8;
    let fine = smooth(1, 4, x, y) / 8;
    let along = x.wrapping_mul(3).wrapping_add(y) >> 8;
    let across = y.wrapping_mul(3).wrapping_sub(x) >> 8;
    let patch = draw(2, along, across) % 48;
    let counted = COUNTED[(draw(3, x >> 7, y >> 7) % 4) as usize];
    let noise = u64::from((draw(4, x, y) & counted).count_ones());
    let middle = u64::from(counted.count_ones() / 2);
    let bright = broad
        .wrapping_add(fine)
        .wrapping_add(patch)
        .wrapping_add(noise);
    bright.saturating_sub(middle).min(255) as u16
}

/// Returns the value of a field of 0 to 255, which is drawn at the corners of squares with sides of 2^order samples,
/// and interpolated between them.
fn smooth(stream: u64, order: u32, x: u64, y: u64) -> u64
    requires { order < 32 }
{
    let side = 1u64 << order;
    let (left, top) = (x >> order, y >> order);
    let (right, bottom) = (left.wrapping_add(1), top.wrapping_add(1));
    let (over, under) = (x % side, y % side);
    let upper = between(
        side,
        over,
        corner(stream, left, top),
        corner(stream, right, top),
    );
    let lower = between(
        side,
        over,
        corner(stream, left, bottom),
        corner(stream, right, bottom),
    );
    between(side, under, upper, lower) >> (2 * order)
}

/// Interpolates between two numbers, at `part` of `whole` of the way; the result is multiplied by `whole`.
fn between(whole: u64, part: u64, from: u64, to: u64) -> u64 {
    let rest = whole.wrapping_sub(part);
    from.wrapping_mul(rest).wrapping_add(to.wrapping_mul(part))
}

/// Returns the number at a corner, 0 to 255.
fn corner(stream: u64, x: u64, y: u64) -> u64 {
    draw(stream, x, y) % 256
}

/// Returns a pseudo-random number for a place in a stream: the one with the index that these make, from 0, of
/// splitmix64 started at 0.
fn draw(stream: u64, x: u64, y: u64) -> u64 {
    let place = (stream << 56) ^ (y << 28) ^ x;
    let state = place.wrapping_add(1).wrapping_mul(0x9e37_79b9_7f4a_7c15);
    let first = (state ^ (state >> 30)).wrapping_mul(0xbf58_476d_1ce4_e5b9);
    let second = (first ^ (first >> 27)).wrapping_mul(0x94d0_49bb_1331_11eb);
    second ^ (second >> 31)
}

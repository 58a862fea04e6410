//! Runs of equal samples (T.87 A.7.1).
ghost use Rattle.std.specs.Prelude.{◌≡◌, ℕ, ◌+◌, ◌-◌, ◌^◌, ◌<◌, ◌≤◌, length, slice_index};
ghost use Rattle.ls_coding.specs.Runs.{order, samples_of_ones, walked};

/// The bits of a run (A.7.1.2): `ones` bits 1, each for 2^J samples at the RUNindex that it is coded at, and then its
/// tail.
#[derive(Clone, Copy, Debug, PartialEq, Eq)]
pub struct RunWord {
    /// The number of bits 1 that come first.
    pub ones: u32,
    /// What comes after them.
    pub tail: Tail,
}

/// How a run ends after its bits 1 (A.7.1.2).
#[derive(Clone, Copy, Debug, PartialEq, Eq)]
pub enum Tail {
    /// At the line's end, with no samples left: no further bit.
    LineFull,
    /// At the line's end, with samples left, fewer than 2^J: one further bit 1.
    LinePart,
    /// Before a sample that interrupts it: a bit 0, and the number of samples left, `rest`, in `width` bits, the most
    /// significant first; `width` is J, at most 15, and `rest` is below 2^J.
    Interrupted { width: u32, rest: u32 },
}

/// J at a RUNindex.
pub fn order(index: u32) -> u32
    requires { index ≤ 31 }
    ensures value { result ≡ order index }
    ensures small { result ≤ 15 }
{
    RUN_ORDERS[index as usize]
}

/// J at a RUNindex and at each one after it.
pub fn orders_from(index: u32) -> &'static [u32]
    requires { index ≤ 31 }
    ensures value { (k : ℕ) → slice_index result.now k ≡ order (index + k) }
    ensures small { (k : ℕ) → slice_index result.now k ≤ 15 }
    ensures count { length result.now ≡ 32 - index }
{
    &RUN_ORDERS[index as usize..]
}

/// The number of samples that a bit 1 stands for at a RUNindex.
pub fn samples_of_one(index: u32) -> u32
    requires { index ≤ 31 }
    ensures { result ≡ 2 ^ order index }
{
    1 << order(index)
}

/// The number of samples that `ones` bits 1 stand for, from a RUNindex on. Requires that they raise it to at most 31.
pub fn samples_of_ones(index: u32, ones: u32) -> u32
    requires { index + ones ≤ 31 }
    ensures value { result ≡ samples_of_ones ones index }
    ensures small { result < 2 ^ 20 }
{
    SAMPLES_BEFORE[(index + ones) as usize] - SAMPLES_BEFORE[index as usize]
}

/// The bits 1 of a run: their number, RUNindex after them, and the number of samples left.
#[derive(Clone, Copy)]
pub struct Walked {
    pub ones: u32,
    pub index: u32,
    pub left: u32,
}

/// The bits 1 of a run of `count` samples that begins at a RUNindex.
pub fn walk(index: u32, count: u32) -> Walked
    requires { index ≤ 31 }
    ensures ones { result.ones ≡ (walked index count).ones }
    ensures index { result.index ≡ (walked index count).index }
    ensures left { result.left ≡ (walked index count).left }
    ensures within { result.index ≤ 31 }
{
    let mut ones = 0;
    let mut at = index;
    let mut left = count;
    'bits: loop {
        let samples = samples_of_one(at);
        if left < samples {
            break;
        }
        left -= samples;
        ones += 1;
        at = (at + 1).min(31);
    }
    Walked {
        ones,
        index: at,
        left,
    }
}

/// J (A.2.1): at each RUNindex a bit 1 stands for 2^J samples.
static RUN_ORDERS: [u32; 32] = [
    0, 0, 0, 0, 1, 1, 1, 1, 2, 2, 2, 2, 3, 3, 3, 3, 4, 4, 5, 5, 6, 6, 7, 7, 8, 9, 10, 11, 12, 13,
    14, 15,
];

/// The number of samples that bits 1 stand for while they raise RUNindex from 0 to each value.
const SAMPLES_BEFORE: [u32; 32] = [
    0, 1, 2, 3, 4, 6, 8, 10, 12, 16, 20, 24, 28, 36, 44, 52, 60, 76, 92, 124, 156, 220, 284, 412,
    540, 796, 1308, 2332, 4380, 8476, 16668, 33052,
];

//! Codes samples of regular mode by the counters of their contexts, and accepts them back.
ghost use Rattle.std.specs.Prelude.{◌≡◌, ◌<◌, ◌≤◌, false};
ghost use Rattle.ls_coding.specs.Contexts.{is_run};
ghost use Rattle.ls_coding.specs.Samples.{AreSamples};

use crate::picture::{Sample, regular_samples};
use crate::tell;
use anyhow::{Result, bail};
use ls_bits::CodeFault;
use ls_coding::{Neighbours, State, Word};
use ls_frame::Presets;
use std::alloc::Global;
use std::rt::Clock;
use std::time::{Duration, Instant};

/// The number of bits of an error (qbpp).
const QBPP: u32 = 8;

/// The greatest value: an error of 8 bits, mapped.
const MOST_VALUE: u32 = 256;

/// The counters of all contexts, for samples of 8 bits.
#[derive(Drop)]
struct Coder {
    state: State,
    ghost samples: { state.parameters.maxval ≡ 255 },
    ghost uninterrupted: { state.interrupted ≡ false },
}

impl Coder {
    /// Returns the counters at the start of a scan. It isn't inlined, so that the compiler doesn't know the parameters
    /// where they are used.
    #[inline(never)]
    fn new() -> Coder {
        Coder {
            state: State::new(&Presets::default_of(255)),
        }
    }

    /// Codes a sample, and returns its word.
    fn code(&mut self, at: &Sample) -> Word {
        self.state.code_regular(&at.neighbours, at.sample)
    }

    /// Returns the sample with these neighbours that has this value.
    fn accept(&mut self, neighbours: &Neighbours, value: u32) -> Result<u16, CodeFault>
        requires samples { AreSamples 255 neighbours.now }
        requires regular { is_run neighbours.now ≡ false }
        requires value { value ≤ 256 }
    {
        let plan = self.state.plan_regular(neighbours);
        self.state.accept_regular(plan, value)
    }
}

/// A sample, and the value that stands for its error.
#[derive(Clone, Copy)]
struct Coded {
    at: Sample,
    value: u32,
    ghost in_range: { value ≤ 256 },
}

/// The result of coding a picture: its samples with their values, the greatest Golomb parameter, and the number of bits
/// of all words (T.87 A.5.3).
#[derive(Drop)]
struct Coding {
    samples: Vec<Coded>,
    greatest_k: u32,
    bits: u64,
}

/// The times that coding and accepting took.
#[derive(Drop)]
struct Took {
    coding: Duration,
    accepting: Duration,
}

/// Codes a picture of `side` lines `times` times, and accepts it back; prints the result and the times.
pub fn measure<R: Clock + Print + Eprint + AllocGlobal>(
    rt: &R,
    times: u32,
    side: u32,
) -> Result<()> {
    let samples = regular_samples(rt.alloc(), side)?;
    let coded = coding_of(rt.alloc(), &samples)?;
    let mut took = Took {
        coding: Duration::ZERO,
        accepting: Duration::ZERO,
    };
    let sum = code_and_accept(rt, times, &samples, &coded.samples, &mut took)?;
    print_sums(rt, side, &coded, sum)?;
    let events = u64::from(times).wrapping_mul(samples.len() as u64);
    tell(rt, "code", &took.coding, events, "an event")?;
    tell(rt, "accept", &took.accepting, events, "an event")?;
    Ok(())
}

/// Codes and accepts all samples `times` times, and returns the checksum of all words, which is the same each time.
fn code_and_accept<R: Clock>(
    rt: &R,
    times: u32,
    samples: &[Sample],
    coded: &[Coded],
    took: &mut Took,
) -> Result<u64> {
    let mut sum = 0;
    for _ in 0..times {
        let start = Instant::now(rt)?;
        sum = code_all(samples);
        took.coding = took.coding.saturating_add(start.elapsed(rt)?);
        let start = Instant::now(rt)?;
        let same = all_come_back(coded)?;
        took.accepting = took.accepting.saturating_add(start.elapsed(rt)?);
        if !same {
            bail!("the samples don't come back");
        }
    }
    Ok(sum)
}

fn print_sums<R: Print>(rt: &R, side: u32, coding: &Coding, sum: u64) -> Result<()> {
    let all = u64::from(side).wrapping_mul(u64::from(side));
    let count = coding.samples.len();
    let greatest = coding.greatest_k;
    let bits = coding.bits;
    println!(rt;
        "samples {all}\nevents {count}\ngreatest k {greatest}\nbits {bits}\nsum {sum:016x}"
    )?;
    Ok(())
}

/// Codes all samples, and returns a checksum of their words.
fn code_all(samples: &[Sample]) -> u64 {
    let mut coder = Coder::new();
    let mut sum = 0u64;
    for at in samples {
        let word = coder.code(at);
        let folded = (u64::from(word.k) << 32)
            | u64::from(word.glimit << 16)
            | u64::from(word.value);
        sum = sum.rotate_left(7) ^ folded;
    }
    sum
}

/// Whether each value is accepted as its sample, in order.
fn all_come_back(samples: &[Coded]) -> Result<bool, CodeFault> {
    let mut coder = Coder::new();
    for coded in samples {
        if coder.accept(&coded.at.neighbours, coded.value)? != coded.at.sample {
            return Ok(false);
        }
    }
    Ok(true)
}

/// Codes all samples, and returns them with their values.
fn coding_of(alloc: Global, samples: &[Sample]) -> Result<Coding> {
    let mut coder = Coder::new();
    let mut coding = Coding {
        samples: Vec::with_capacity(alloc, samples.len())?,
        greatest_k: 0,
        bits: 0,
    };
    for at in samples {
        let word = coder.code(at);
        if word.value > MOST_VALUE {
            bail!("no error has the value {}", word.value);
        }
        coding.samples.push(Coded {
            at: *at,
            value: word.value,
        })?;
        coding.greatest_k = coding.greatest_k.max(word.k);
        coding.bits = coding.bits.saturating_add(length_of(&word));
    }
    Ok(coding)
}

/// Returns the number of bits of a word (A.5.3).
fn length_of(word: &Word) -> u64 {
    let zeros = word.value.wrapping_shr(word.k);
    u64::from(if zeros < word.glimit.saturating_sub(QBPP + 1) {
        zeros.saturating_add(word.k).saturating_add(1)
    } else {
        word.glimit
    })
}

//! Decodes the codestreams of a file, which follow one another, from memory.
use crate::tell;
use anyhow::{Context, Result, bail};
use ls_frame::Frame;
use ls_stream::{Decoded, StreamFault, decode_frame};
use std::alloc::Global;
use std::fs;
use std::rt::{Clock, Files};
use std::time::{Duration, Instant};

/// The most codestreams of a file.
const MOST_FRAMES: u64 = 4_294_967_295;

/// The result of decoding a file: the numbers of its frames and samples and a checksum of the samples, each counted
/// once, and the time taken.
#[derive(Drop)]
struct Decoding {
    frames: u64,
    samples: u64,
    fnv: u64,
    took: Duration,
}

/// Decodes each codestream of a file `times` times, and prints the result and the time.
pub fn measure<R: Files + Clock + Print + Eprint + AllocGlobal>(
    rt: &R,
    times: u32,
    name: &str,
) -> Result<()> {
    let bytes = fs::read(rt, name).context(format_args!("{name} can't be read"))?;
    let decoding = decode_all(rt, times, &bytes).context(format_args!("{name}"))?;
    let Decoding { frames, fnv, .. } = decoding;
    println!(rt; "{name} {frames} {fnv:016x}")?;
    let samples = u64::from(times).saturating_mul(decoding.samples);
    tell(rt, name, &decoding.took, samples, "a sample")?;
    Ok(())
}

/// Decodes each codestream `times` times, and once before the clock starts.
fn decode_all<R: Clock + AllocGlobal>(rt: &R, times: u32, bytes: &[u8]) -> Result<Decoding> {
    let mut decoding = Decoding {
        frames: 0,
        samples: 0,
        fnv: 0xcbf2_9ce4_8422_2325,
        took: Duration::ZERO,
    };
    let mut rest = bytes;
    for _ in 0..MOST_FRAMES {
        if rest.is_empty() {
            return Ok(decoding);
        }
        let Decoded { frame, used } = decode_frame(rt.alloc(), rest)?;
        let took = time_decoding(rt, times, rest)?;
        decoding = decoding.after(&frame, took);
        rest = &rest[used..];
    }
    bail!("too many frames");
}

/// Returns the time that it takes to decode the first codestream `times` times.
fn time_decoding<R: Clock + AllocGlobal>(rt: &R, times: u32, bytes: &[u8]) -> Result<Duration> {
    let start = Instant::now(rt)?;
    decode_times(rt.alloc(), times, bytes)?;
    Ok(start.elapsed(rt)?)
}

/// Decodes the first codestream `times` times.
fn decode_times(alloc: Global, times: u32, bytes: &[u8]) -> Result<(), StreamFault> {
    for _ in 0..times {
        decode_frame(alloc, bytes)?;
    }
    Ok(())
}

impl Decoding {
    /// Returns the result with one more frame, which took this time.
    fn after(self, frame: &Frame, took: Duration) -> Decoding {
        Decoding {
            frames: self.frames.saturating_add(1),
            samples: self.samples.saturating_add(frame.samples().len() as u64),
            fnv: with_samples(self.fnv, frame.samples()),
            took: self.took.saturating_add(took),
        }
    }
}

/// Continues an FNV-1a checksum with samples, of two bytes each, the upper one first.
fn with_samples(fnv: u64, samples: &[u16]) -> u64 {
    samples.iter().fold(fnv, |fnv: u64, sample| {
        let upper = (fnv ^ u64::from(*sample >> 8)).wrapping_mul(0x100_0000_01b3);
        (upper ^ u64::from(*sample & 0xff)).wrapping_mul(0x100_0000_01b3)
    })
}

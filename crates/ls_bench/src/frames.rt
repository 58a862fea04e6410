//! Encodes the frames of a film as codestreams, into memory that is allocated beforehand.
ghost use Rattle.std.specs.Prelude.{◌≡◌, ◌≤◌, All};
ghost use Rattle.ls_frame.specs.Parameters.{default_parameters};
ghost use Rattle.ls_stream.specs.Layout.{bound};

use crate::tell;
use anyhow::{Context, Result, bail};
use ls_frame::{Buffered, Counted, Feed, Frame, Presets, next_frame};
use ls_stream::{Lines, code_bound, encode_within};
use std::alloc::{AllocError, Global};
use std::fs::File;
use std::rt::{Clock, Files};
use std::time::{Duration, Instant};

/// The most frames of a film.
const MOST_FRAMES: u64 = 4_294_967_295;

/// The result of encoding a film: the number of bytes of its codestreams, each counted once, and the time taken.
#[derive(Drop)]
struct Encoding {
    bytes: u64,
    took: Duration,
}

/// Encodes each frame of a film `times` times, and prints the result and the time.
pub fn measure<R: Files + Clock + Print + Eprint + AllocGlobal>(
    rt: &R,
    times: u32,
    name: &str,
) -> Result<()> {
    let frames = read_film(rt, name)?;
    let encoding = encode_all(rt, times, &frames)?;
    let bytes = encoding.bytes;
    println!(rt; "{name} {bytes}")?;
    let samples = u64::from(times).saturating_mul(samples_of(&frames));
    tell(rt, name, &encoding.took, samples, "a sample")?;
    Ok(())
}

/// Reads the frames of a file.
fn read_film<R: Files + AllocGlobal>(rt: &R, name: &str) -> Result<Vec<Frame>> {
    let opened = File::open(rt, name).context(format_args!("{name} can't be opened"))?;
    let mut reader = Buffered::new(rt.alloc(), Counted::new(opened))?;
    frames_of(rt.alloc(), &mut reader).context(format_args!("{name} is no film"))
}

/// Reads all frames of a film, from the first to the last.
fn frames_of<R: Feed>(alloc: Global, reader: &mut R) -> Result<Vec<Frame>> {
    let mut frames = Vec::new(alloc);
    for _ in 0..MOST_FRAMES {
        let Some(frame) = next_frame(alloc, reader)? else {
            return Ok(frames);
        };
        frames.push(frame)?;
    }
    bail!("too many frames");
}

/// Encodes each frame `times` times. All memory is allocated before the clock starts.
fn encode_all<R: Clock + AllocGlobal>(rt: &R, times: u32, frames: &[Frame]) -> Result<Encoding> {
    let mut lines = Lines::new(rt.alloc(), widest(frames))?;
    let mut bytes = written_room(rt.alloc(), frames)?;
    let mut encoding = Encoding {
        bytes: 0,
        took: Duration::ZERO,
    };
    for frame in frames {
        let start = Instant::now(rt)?;
        bytes = encode_times(times, frame, &mut lines, bytes)?;
        encoding.took = encoding.took.saturating_add(start.elapsed(rt)?);
        encoding.bytes = encoding.bytes.saturating_add(bytes.len() as u64);
    }
    Ok(encoding)
}

/// Returns the number of samples of the frames. In colour a pixel has three.
fn samples_of(frames: &[Frame]) -> u64 {
    frames.iter().fold(0, |samples: u64, frame| {
        samples.saturating_add(frame.samples().len() as u64)
    })
}

/// Returns the greatest width of the frames.
fn widest(frames: &[Frame]) -> u16
    ensures { All (λ f. f.width ≤ result) frames.now }
{
    let mut widest = 0;
    for frame in frames {
        widest = frame.width().max(widest);
    }
    widest
}

/// Returns an empty vector with capacity for the codestream of any of the frames. All of its memory has been written
/// to.
fn written_room(alloc: Global, frames: &[Frame]) -> Result<Vec<u8>, AllocError> {
    let most = frames.iter().map(room_for).max().unwrap_or(0);
    let mut bytes = vec![in alloc; 1u8; most]?;
    bytes.clear();
    Ok(bytes)
}

/// Encodes a frame `times` times, each time in place of the bytes before.
fn encode_times(
    times: u32,
    frame: &Frame,
    lines: &mut Lines,
    mut bytes: Vec<u8>,
) -> Result<Vec<u8>, AllocError>
    requires width { frame.now.width ≤ lines.old }
    ensures lines { lines.new ≡ lines.old }
{
    for _ in 0..times {
        bytes = encode(frame, lines, bytes)?;
    }
    Ok(bytes)
}

/// Encodes a frame into the memory of these bytes, which it replaces. Allocates only if they have no capacity for the
/// codestream.
fn encode(frame: &Frame, lines: &mut Lines, mut bytes: Vec<u8>) -> Result<Vec<u8>, AllocError>
    requires width { frame.now.width ≤ lines.old }
    ensures lines { lines.new ≡ lines.old }
{
    bytes.clear();
    bytes.reserve(room_for(frame))?;
    let presets = Presets::default_of(frame.maxval());
    Ok(encode_within(frame, &presets, lines, bytes))
}

/// Returns the most bytes that a frame's codestream with the default parameters may have.
fn room_for(frame: &Frame) -> usize
    ensures { result ≡ bound frame.now (default_parameters frame.now.maxval) }
{
    code_bound(frame, &Presets::default_of(frame.maxval())) as usize
}

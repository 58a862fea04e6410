//! Puts code words into stuffed bytes by both sinks, and takes them back by the source.
ghost use Rattle.ls_bits.specs.Data.{IsData};

use crate::events::{Event, table};
use crate::tell;
use anyhow::{Result, bail};
use ls_bits::laws::words_keep_their_limit;
use ls_bits::{BitSink, BitSource, CodeFault, RoomSink, data_of};
use std::alloc::{AllocError, Global};
use std::rt::Clock;
use std::time::{Duration, Instant};

/// The most bits of a word, LIMIT of T.87 for samples of 8 bits.
const LIMIT: u32 = 32;

/// The number of bits of an error (qbpp).
const QBPP: u32 = 8;

/// The time that each part took, over all repetitions.
#[derive(Drop)]
struct Took {
    growing: Duration,
    room: Duration,
    take: Duration,
}

/// Puts a table of `count` events `times` times, and takes it back; prints the result and the times.
pub fn measure<R: Clock + Print + Eprint + AllocGlobal>(
    rt: &R,
    times: u32,
    count: u32,
) -> Result<()> {
    let events = table(rt.alloc(), count as usize)?;
    let mut took = Took {
        growing: Duration::ZERO,
        room: Duration::ZERO,
        take: Duration::ZERO,
    };
    let bytes = put_and_take(rt, times, &events, &mut took)?;
    print_sums(rt, &events, &bytes)?;
    let words = u64::from(times) * u64::from(count);
    tell(rt, "put, growing", &took.growing, words, "a word")?;
    tell(rt, "put, room there", &took.room, words, "a word")?;
    tell(rt, "take", &took.take, words, "a word")?;
    Ok(())
}

/// Returns the bytes of all code words. Each part makes or reads them `times` times.
fn put_and_take<R: Clock + AllocGlobal>(
    rt: &R,
    times: u32,
    events: &[Event],
    took: &mut Took,
) -> Result<Vec<u8>> {
    let mut bytes = Vec::new(rt.alloc());
    let mut room = Vec::new(rt.alloc());
    for _ in 0..times {
        let start = Instant::now(rt)?;
        bytes = put_growing(rt.alloc(), events)?;
        took.growing = took.growing.saturating_add(start.elapsed(rt)?);
        let start = Instant::now(rt)?;
        room = put_into_room(events, room)?;
        took.room = took.room.saturating_add(start.elapsed(rt)?);
        take_back(rt, events, &bytes, took)?;
    }
    if bytes != room {
        bail!("the bytes differ");
    }
    Ok(bytes)
}

/// Takes all values back from the bytes. The end of the data is found before the clock starts.
fn take_back<R: Clock>(rt: &R, events: &[Event], bytes: &[u8], took: &mut Took) -> Result<()> {
    let data = &bytes[..data_of(bytes).len];
    let start = Instant::now(rt)?;
    let same = comes_back(events, data)?;
    took.take = took.take.saturating_add(start.elapsed(rt)?);
    if !same {
        bail!("the values don't come back");
    }
    Ok(())
}

fn print_sums<R: Print>(rt: &R, events: &[Event], bytes: &[u8]) -> Result<()> {
    let count = events.len();
    let greatest = events.iter().map(|event| event.k).max().unwrap_or(0);
    let size = bytes.len();
    let sum = fnv1a(bytes);
    println!(rt; "words {count}\ngreatest k {greatest}\nbytes {size}\nFNV-1a {sum:016x}")?;
    Ok(())
}

/// Returns the bytes of all code words, put into memory that grows.
fn put_growing(alloc: Global, events: &[Event]) -> Result<Vec<u8>, AllocError> {
    let mut sink = BitSink::new(alloc);
    for event in events {
        sink.put_golomb(u32::from(event.k), LIMIT, QBPP, u32::from(event.value))?;
    }
    sink.finish()
}

/// Returns the bytes of all code words, put into a vector that has capacity for them from the start.
fn put_into_room(events: &[Event], mut bytes: Vec<u8>) -> Result<Vec<u8>, AllocError> {
    let Some(bits) = events.len().checked_mul(LIMIT as usize) else {
        return Err(AllocError);
    };
    bytes.clear();
    bytes.reserve(bits / 7 + 1)?;
    words_keep_their_limit();
    let mut sink = RoomSink::new(bytes);
    for event in events {
        sink.put_golomb(u32::from(event.k), LIMIT, QBPP, u32::from(event.value));
    }
    Ok(sink.finish())
}

/// Whether the bytes have each event's value, in order.
fn comes_back(events: &[Event], bytes: &[u8]) -> Result<bool, CodeFault>
    requires { IsData bytes.now }
{
    let mut source = BitSource::new(bytes);
    for event in events {
        if source.take_golomb(u32::from(event.k), LIMIT, QBPP)? != u32::from(event.value) {
            return Ok(false);
        }
    }
    Ok(true)
}

/// Returns a checksum of bytes, FNV-1a.
fn fnv1a(bytes: &[u8]) -> u64 {
    bytes.iter().fold(0xcbf2_9ce4_8422_2325, |hash: u64, byte| {
        (hash ^ u64::from(*byte)).wrapping_mul(0x100_0000_01b3)
    })
}

//! `ls_bench` measures speed. Its first argument says of what:
//!
//! - `ls_bench words [TIMES [WORDS]]`: code words, put into stuffed bytes and taken back (`words`).
//! - `ls_bench events [TIMES [SIDE]]`: the samples of regular mode of a picture of SIDE lines, coded and accepted back
//!   (`regular`).
//! - `ls_bench frames TIMES FILM..`: the frames of films in Netpbm's binary forms, each encoded as a whole (`frames`).
//! - `ls_bench decode TIMES FILE..`: the codestreams of files, which follow one another, each decoded as a whole
//!   (`codestreams`).
//! - `ls_bench queue [JOBS]`: jobs passed through a queue by four threads to four others (`queue`).
//!
//! What it prints to standard output is the same in each run; times go to standard error. `bench/` runs it beside C++
//! programs that do the same.
#![tactic(auto)]

mod codestreams;
mod events;
mod frames;
mod picture;
mod queue;
mod regular;
mod words;

use anyhow::{Context, Result, bail};
use ls_frame::keep_blocks;
use std::rt::{Clock, Env, Files};
use std::sync::Wait;
use std::thread::Threads;
use std::time::Duration;
use std::{env, io};

fn main(rt: HostRuntime) -> Result<()> {
    keep_blocks(rt.alloc());
    run(&rt)
}

/// Measures what the words after the program's name ask for.
fn run<R: Threads + Wait + Sync + Env + Files + Clock + Print + Eprint + AllocGlobal>(
    rt: &R,
) -> Result<()> {
    let words: Vec<String> = env::args(rt)?.skip(1).collect(rt.alloc())?;
    match words.first().map(String::as_str) {
        Some("words") => words::measure(
            rt,
            number(&words, 1, 1)?,
            number(&words, 2, events::USUAL_COUNT)?,
        ),
        Some("events") => regular::measure(
            rt,
            number(&words, 1, 1)?,
            number(&words, 2, picture::USUAL_SIDE)?,
        ),
        Some("frames") => measure_films(rt, &words),
        Some("decode") => measure_files(rt, &words),
        Some("queue") => queue::measure(rt, number(&words, 1, queue::USUAL_JOBS)?),
        Some(other) => bail!("{other} can't be measured"),
        None => bail!("what is to be measured?"),
    }
}

/// Encodes each film named by the words from the third on.
fn measure_films<R: Files + Clock + Print + Eprint + AllocGlobal>(
    rt: &R,
    words: &[String],
) -> Result<()> {
    let times = number(words, 1, 1)?;
    for name in words.iter().skip(2) {
        frames::measure(rt, times, name)?;
    }
    Ok(())
}

/// Decodes each file named by the words from the third on.
fn measure_files<R: Files + Clock + Print + Eprint + AllocGlobal>(
    rt: &R,
    words: &[String],
) -> Result<()> {
    let times = number(words, 1, 1)?;
    for name in words.iter().skip(2) {
        codestreams::measure(rt, times, name)?;
    }
    Ok(())
}

/// Returns the number that the word at this place says, or the usual one if there is no such word.
fn number(words: &[String], place: usize, usual: u32) -> Result<u32> {
    match words.get(place) {
        Some(word) => Ok(
            word.parse::<u32>()
                .context(format_args!("{word} is no count"))?,
        ),
        None => Ok(usual),
    }
}

/// Prints the mean time of one of `count`, to standard error; nothing if `count` is 0.
fn tell<R: Eprint>(rt: &R, what: &str, took: &Duration, count: u64, one: &str) -> io::Result<()> {
    if count == 0 {
        return Ok(());
    }
    let picoseconds = took.as_nanos().saturating_mul(1000) / u128::from(count);
    let whole = picoseconds / 1000;
    let part = picoseconds % 1000;
    eprintln!(rt; "{what}: {whole}.{part:03} ns {one}")
}

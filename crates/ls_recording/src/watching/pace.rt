//! The progress of a film, in words.
use super::seen::{Doing, Seen};
use std::alloc::{AllocError, Global};

/// The nanoseconds for which a film may give no frame before that is said.
const SILENCE: u64 = 2_000_000_000;

/// The progress and the speed of a film, at the last look.
#[derive(Drop)]
pub struct Pace {
    bytes_in: u64,
    bytes_out: u64,
    /// Bytes per second lately.
    speed_in: u64,
    speed_out: u64,
    text: String,
}

impl Pace {
    /// The pace before the first look.
    pub fn new(alloc: Global) -> Pace {
        Pace {
            bytes_in: 0,
            bytes_out: 0,
            speed_in: 0,
            speed_out: 0,
            text: String::new(alloc),
        }
    }

    /// The progress of the film, in words.
    pub fn text(&self) -> &str {
        self.text.as_str()
    }

    /// Updates the pace by what is seen now, `time` nanoseconds after the last look. Returns whether the words
    /// changed.
    pub fn step(
        &mut self,
        alloc: Global,
        seen: &Seen,
        now: u64,
        time: u64,
    ) -> Result<bool, AllocError> {
        let read = seen.bytes_in.saturating_sub(self.bytes_in);
        let written = seen.bytes_out.saturating_sub(self.bytes_out);
        self.speed_in = speed_after(self.speed_in, read, time);
        self.speed_out = speed_after(self.speed_out, written, time);
        self.bytes_in = seen.bytes_in;
        self.bytes_out = seen.bytes_out;
        let text = text_of(alloc, seen, now, self.speed_in, self.speed_out)?;
        let is_other = self.text.as_str() != text.as_str();
        self.text = text;
        Ok(is_other)
    }
}

/// The speed after `bytes` in `time` nanoseconds: it moves a quarter of the way to theirs, or all of it if it was 0.
fn speed_after(speed: u64, bytes: u64, time: u64) -> u64 {
    let milliseconds = time / 1_000_000;
    let now = bytes
        .saturating_mul(1000)
        .checked_div(milliseconds)
        .unwrap_or(0);
    if speed == 0 {
        now
    } else {
        speed / 4 * 3 + now / 4
    }
}

/// The progress of a film, by its counts and times now and its speeds.
fn text_of(
    alloc: Global,
    seen: &Seen,
    now: u64,
    speed_in: u64,
    speed_out: u64,
) -> Result<String, AllocError> {
    let frames = seen.written;
    let waiting = seen.read.saturating_sub(frames);
    let silent = now.saturating_sub(seen.since);
    match seen.doing {
        Doing::Ended(Ok(_)) => format!(in alloc; "{frames} frames, ended"),
        Doing::Ended(Err(_)) => format!(in alloc; "{frames} frames, stopped"),
        _ if seen.read == 0 => "waits for its first frame".to_string(alloc),
        Doing::Reads if silent >= SILENCE => {
            let (time, unit) = rough(silent / 1_000_000_000);
            format!(in alloc; "{frames} frames, {waiting} waiting, none new for {time} {unit}")
        }
        doing => {
            let speeds = speeds_text(alloc, speed_in, speed_out)?;
            let full = fullness(doing);
            format!(in alloc; "{frames} frames, {waiting} waiting, {speeds}{full}")
        }
    }
}

/// The seconds, or whole minutes from one minute on, so that a camera that rests isn't reported every second.
fn rough(seconds: u64) -> (u64, &'static str) {
    if seconds < 60 {
        (seconds, "s")
    } else {
        (seconds / 60, "min")
    }
}

/// Names what is full, if the lane waits for that.
fn fullness(doing: Doing) -> &'static str {
    match doing {
        Doing::AwaitsWindow => ", window full",
        Doing::AwaitsQueue => ", queue full",
        Doing::Reads | Doing::Ended(_) => "",
    }
}

/// The speeds in and out, in MB/s with one decimal.
fn speeds_text(alloc: Global, speed_in: u64, speed_out: u64) -> Result<String, AllocError> {
    let (whole_in, tenth_in) = (speed_in / 1_000_000, speed_in / 100_000 % 10);
    let (whole_out, tenth_out) = (speed_out / 1_000_000, speed_out / 100_000 % 10);
    format!(in alloc; "{whole_in}.{tenth_in} MB/s in, {whole_out}.{tenth_out} out")
}

//! The lines of a report.
use super::ended::{Ended, UNSYNCED};
use crate::watching::seen::Seen;
use ls_console::Shown;
use std::alloc::{AllocError, Global};

/// The columns' names, with their units. Each name but the last ends where its numbers end.
const HEAD: &str =
    "    frames         bytes-in        bytes-out    ratio      seconds   frames/s   delay-ms   window-s    queue-s     late film\n";

/// The line with the columns' names.
pub fn head(alloc: Global) -> Result<String, AllocError> {
    HEAD.to_string(alloc)
}

/// Adds the line of a film, by its name.
pub fn add_film(
    alloc: Global,
    table: &mut String,
    file: &str,
    ended: Ended,
    seen: &Seen,
) -> Result<(), AllocError> {
    add_numbers(alloc, table, seen)?;
    add_name(alloc, table, file, ended)
}

/// Adds the line of the workers, which coded for `coding` nanoseconds together, each for at most `lasted`.
pub fn add_workers(
    alloc: Global,
    table: &mut String,
    coding: u64,
    lasted: u64,
    workers: usize,
) -> Result<(), AllocError> {
    let whole = lasted.saturating_mul(workers as u64) / 1000;
    let thousandths = coding.checked_div(whole).unwrap_or(0);
    let (percent, tenth) = (thousandths / 10, thousandths % 10);
    let busy = format!(in alloc; "workers: {workers}, busy {percent}.{tenth} % of the time\n")?;
    table.push_str(&busy)
}

/// Adds the numbers of a film.
fn add_numbers(alloc: Global, table: &mut String, seen: &Seen) -> Result<(), AllocError> {
    let frames = seen.written;
    let (bytes_in, bytes_out) = (seen.bytes_in, seen.bytes_out);
    let time = if seen.read == 0 {
        0
    } else {
        seen.since.saturating_sub(seen.first)
    };
    let ratio = hundredths(alloc, bytes_in, bytes_out)?;
    let sizes = format!(in alloc; "{frames:>10} {bytes_in:>16} {bytes_out:>16} {ratio:>8}")?;
    table.push_str(&sizes)?;
    add_times(alloc, table, seen, time)
}

/// Adds the times of a film, which took `time` nanoseconds.
fn add_times(alloc: Global, table: &mut String, seen: &Seen, time: u64) -> Result<(), AllocError> {
    let seconds = seconds_text(alloc, time)?;
    let speed = hundredths(alloc, seen.written.saturating_mul(1_000_000), time / 1000)?;
    let (milliseconds, tenth) = (seen.delay / 1_000_000, seen.delay / 100_000 % 10);
    let delay = format!(in alloc; "{milliseconds}.{tenth}")?;
    let times = format!(in alloc; " {seconds:>12} {speed:>10} {delay:>10}")?;
    table.push_str(&times)?;
    add_waits(alloc, table, seen)
}

/// Adds the times that a film waited, and the number of its frames that were late.
fn add_waits(alloc: Global, table: &mut String, seen: &Seen) -> Result<(), AllocError> {
    let window = seconds_text(alloc, seen.window_wait)?;
    let queue = seconds_text(alloc, seen.queue_wait)?;
    let late = seen.late;
    let waits = format!(in alloc; " {window:>10} {queue:>10} {late:>8}")?;
    table.push_str(&waits)
}

/// Adds the name of a film, and how it ended, unless that was whole.
fn add_name(alloc: Global, table: &mut String, file: &str, ended: Ended) -> Result<(), AllocError> {
    let file = Shown(file);
    let name = match ended {
        Ended::Whole => format!(in alloc; " {file}\n"),
        Ended::Stopped => format!(in alloc; " {file}: stopped\n"),
        Ended::Failed(fault) => format!(in alloc; " {file}: {fault}\n"),
        Ended::Unsynced => format!(in alloc; " {file}: {UNSYNCED}\n"),
    }?;
    table.push_str(&name)
}

/// A quotient with two decimals, rounded down; `-` if there is none.
fn hundredths(alloc: Global, dividend: u64, divisor: u64) -> Result<String, AllocError> {
    match dividend.saturating_mul(100).checked_div(divisor) {
        None => "-".to_string(alloc),
        Some(quotient) => {
            let (whole, hundredth) = (quotient / 100, quotient % 100);
            format!(in alloc; "{whole}.{hundredth:02}")
        }
    }
}

/// `time` nanoseconds, in seconds with three decimals, rounded down.
fn seconds_text(alloc: Global, time: u64) -> Result<String, AllocError> {
    let (seconds, thousandth) = (time / 1_000_000_000, time / 1_000_000 % 1000);
    format!(in alloc; "{seconds}.{thousandth:03}")
}

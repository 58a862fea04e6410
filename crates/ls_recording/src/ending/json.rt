//! The report as JSON (RFC 8259), for programs.
use super::ended::{Ended, UNSYNCED};
use crate::watching::seen::Seen;
use ls_console::Quoted;
use std::alloc::{AllocError, Global};

/// Begins a report.
pub fn begin(alloc: Global) -> Result<String, AllocError> {
    "{\"films\": [".to_string(alloc)
}

/// Adds a film, by its path and that of its recording.
pub fn add_film(
    alloc: Global,
    report: &mut String,
    (file, recording): (&str, &str),
    ended: Ended,
    seen: &Seen,
) -> Result<(), AllocError> {
    report.push_str(if report.ends_with('[') { "\n" } else { ",\n" })?;
    report.push_str("{\"file\": ")?;
    add_text(alloc, report, file)?;
    report.push_str(", \"recording\": ")?;
    add_text(alloc, report, recording)?;
    add_end(alloc, report, ended)?;
    add_numbers(alloc, report, seen)?;
    report.push_str("}")
}

/// Ends a report with the workers, which coded for `coding` nanoseconds together in a recording that lasted `lasted`.
pub fn end(
    alloc: Global,
    report: &mut String,
    coding: u64,
    lasted: u64,
    workers: usize,
) -> Result<(), AllocError> {
    let (coding, lasted) = (seconds(alloc, coding)?, seconds(alloc, lasted)?);
    let text = format!(in alloc;
        "\n], \"workers\": {workers}, \"coding_seconds\": {coding}, \"seconds\": {lasted}}}\n"
    )?;
    report.push_str(&text)
}

/// Adds how a film ended: whole, by a stop that the program was asked for, or by a fault.
fn add_end(alloc: Global, report: &mut String, ended: Ended) -> Result<(), AllocError> {
    match ended {
        Ended::Whole => report.push_str(", \"ended\": \"whole\", \"fault\": null"),
        Ended::Stopped => report.push_str(", \"ended\": \"stopped\", \"fault\": null"),
        Ended::Failed(fault) => {
            let fault = format!(in alloc; "{fault}")?;
            add_fault(alloc, report, &fault)
        }
        Ended::Unsynced => add_fault(alloc, report, UNSYNCED),
    }
}

/// Adds that a film ended by a fault.
fn add_fault(alloc: Global, report: &mut String, fault: &str) -> Result<(), AllocError> {
    report.push_str(", \"ended\": \"failed\", \"fault\": ")?;
    add_text(alloc, report, fault)
}

/// Adds the numbers of a film.
fn add_numbers(alloc: Global, report: &mut String, seen: &Seen) -> Result<(), AllocError> {
    let time = if seen.read == 0 {
        0
    } else {
        seen.since.saturating_sub(seen.first)
    };
    let (frames, bytes_in, bytes_out) = (seen.written, seen.bytes_in, seen.bytes_out);
    let late = seen.late;
    let counts = format!(in alloc;
        ", \"frames\": {frames}, \"late_frames\": {late}, \"bytes_in\": {bytes_in}, \"bytes_out\": {bytes_out}"
    )?;
    report.push_str(&counts)?;
    for (name, nanoseconds) in [
        ("seconds", time),
        ("longest_delay_seconds", seen.delay),
        ("window_wait_seconds", seen.window_wait),
        ("queue_wait_seconds", seen.queue_wait),
    ] {
        let value = seconds(alloc, nanoseconds)?;
        let member = format!(in alloc; ", \"{name}\": {value}")?;
        report.push_str(&member)?;
    }
    Ok(())
}

/// Nanoseconds as a number of seconds.
fn seconds(alloc: Global, nanoseconds: u64) -> Result<String, AllocError> {
    let (whole, rest) = (nanoseconds / 1_000_000_000, nanoseconds % 1_000_000_000);
    format!(in alloc; "{whole}.{rest:09}")
}

/// Adds a text as a string of JSON.
fn add_text(alloc: Global, report: &mut String, text: &str) -> Result<(), AllocError> {
    let quoted = Quoted(text).to_string(alloc)?;
    report.push_str(&quoted)
}

//! Standard output, and the statuses that the program exits with.
ghost use Rattle.std.specs.Prelude.{◌≡◌, ◌≢◌, ◌⊎◌, ◌==◌, []};
ghost use Rattle.std.specs.Io.KnownBytes.{Appends, Keeps};
ghost use Rattle.ls_frame.specs.View.Devices.{wrapped, failed_calls, count_after};
ghost use Rattle.ls_console.specs.View.Lines.{held, lines_bytes};

use crate::console::Console;
use crate::lines::Lines;
use ls_frame::{Counted, Failed, Outlet, write_bytes};
use std::io::Write;

/// The statuses that the program exits with.
pub const DONE: u8 = 0;

pub const FAILED: u8 = 1;

pub const USAGE: u8 = 2;

/// Writes a text to standard output, or says that it can't. Returns the status.
pub fn write_text<W: Write, E: Outlet>(
    text: &[u8],
    output: &mut Counted<W>,
    console: &mut Console<E>,
) -> u8
    ensures status { (result ≡ DONE) ⊎ (result ≡ FAILED) }
    ensures written { result ≡ DONE → Appends (W.contents (wrapped output.old)) (W.contents (wrapped output.new)) text.now }
    ensures failures { failed_calls output.new ≡ count_after (result == FAILED) (failed_calls output.old) }
{
    match write_bytes(output, text) {
        Ok(()) => DONE,
        Err(_) => say_unwritten(output.last_failure(), console),
    }
}

/// Flushes `output`, unless a write to it has failed, and returns the status to exit with: `FAILED` if the flush
/// fails, or if a write had failed and the status is `DONE`.
pub fn finish<W: Write, E: Outlet>(
    status: u8,
    output: &mut Counted<W>,
    console: &mut Console<E>,
) -> u8
    ensures status { (result ≡ status) ⊎ (result ≡ FAILED) }
    ensures bytes { Keeps (W.contents (wrapped output.old)) (W.contents (wrapped output.new)) }
    ensures failures { result ≡ DONE → failed_calls output.new ≡ 0 }
{
    if Outlet::failures(output) > 0 {
        return after_failure(status, output.last_failure(), console);
    }
    match output.flush() {
        Ok(()) => status,
        Err(fault) => say_unwritten(Some(Failed::from(fault)), console),
    }
}

/// Flushes lines, as [`finish`] does, and drops what couldn't be written. Returns the writer below them, and the status.
pub fn finish_lines<W: Write, E: Outlet>(
    status: u8,
    lines: Counted<Lines<W>>,
    console: &mut Console<E>,
) -> (W, u8)
    ensures status { (result.1 ≡ status) ⊎ (result.1 ≡ FAILED) }
    ensures written { result.1 ≡ DONE → Keeps (lines_bytes W.contents (wrapped lines)) (W.contents result.0) }
    ensures failures { result.1 ≡ DONE → failed_calls lines ≡ 0 }
{
    let (failures, failure) = (Outlet::failures(&lines), lines.last_failure());
    let mut lines = lines.into_inner();
    let status = flush_lines(status, failures, failure, &mut lines, console);
    (lines.into_writer(), status)
}

/// Flushes lines, unless writes to them have failed, and returns the status. `failure` is the last failure.
fn flush_lines<W: Write, E: Outlet>(
    status: u8,
    failures: u64,
    failure: Option<Failed>,
    lines: &mut Lines<W>,
    console: &mut Console<E>,
) -> u8
    ensures status { (result ≡ status) ⊎ (result ≡ FAILED) }
    ensures empty { result ≡ DONE → held lines.new ≡ [] }
    ensures bytes { Keeps (lines_bytes W.contents lines.old) (lines_bytes W.contents lines.new) }
    ensures failures { result ≡ DONE → failures ≡ 0 }
{
    if failures > 0 {
        return after_failure(status, failure, console);
    }
    match lines.flush() {
        Ok(()) => status,
        Err(fault) => say_unwritten(Some(Failed::from(fault)), console),
    }
}

/// The status after a write has failed, which was said unless the status is `DONE`.
fn after_failure<E: Outlet>(status: u8, failure: Option<Failed>, console: &mut Console<E>) -> u8
    ensures status { (result ≡ status) ⊎ (result ≡ FAILED) }
    ensures failed { result ≢ DONE }
{
    if status == DONE {
        return say_unwritten(failure, console);
    }
    status
}

/// Says that standard output failed, and returns the status.
pub fn say_unwritten<E: Outlet>(failure: Option<Failed>, console: &mut Console<E>) -> u8
    ensures { result ≡ FAILED }
{
    console.say("output failed");
    console.blame("standard output", failure);
    FAILED
}

/// Says that memory ran out, and returns the status.
pub fn no_memory<E: Outlet>(console: &mut Console<E>) -> u8
    ensures { result ≡ FAILED }
{
    console.say_no_memory();
    FAILED
}

/// Says a usage fault that `clap` doesn't find, and returns the status. Allocates nothing.
pub fn misused<E: Outlet>(console: &mut Console<E>, line: &[u8]) -> u8
    ensures { result ≡ USAGE }
{
    console.write(line);
    USAGE
}

//! `jlsrec`: a lossless recorder of image sequences.
//!
//! `program` is the whole program over words, files and its two streams. `ls_command` reads the words of the command
//! line, and `ls_reading` does what they ask for; but `ls_recording` does `record`. `ls_console` has the messages on
//! standard error, and the readers of files. `streams` takes the place of standard streams that are closed, and
//! `words` gets the words of the command line.
#![tactic(auto)]

mod program;
mod streams;
mod words;

use ls_console::{COLUMNS, Console};
use ls_files::{Opener, Patient, Stop};
use ls_frame::Counted;
use program::start;
use std::env;
use std::io::IsTerminal;
use std::process::ExitCode;
use std::rt::Env;
use streams::take_closed;

/// The least and the greatest width that a terminal is taken to have.
const LEAST_WIDTH: usize = 20;

const MOST_WIDTH: usize = 1000;

/// The most lines that a terminal is taken to have.
const MOST_HEIGHT: usize = 1000;

/// The environment's variable with the path of the file that has a byte once `record` is to stop. What is linked with
/// the program sets it, before `main`; without it no signal stops a recording but by ending the program.
const STOP: &str = "JLSREC_STOP";

fn main(rt: HostRuntime) -> ExitCode {
    let _taken = take_closed(&rt);
    // Where a signal stops a recording, it interrupts writes as well as reads.
    let mut output = Counted::new(Patient::new(rt.stdout()));
    let is_terminal = rt.stderr().is_terminal();
    let errors = Counted::new(Patient::new(rt.stderr()));
    let mut console = Console::new(rt.alloc(), errors, is_terminal, columns(&rt));
    console.set_height(height(&rt));
    let asked = env::var(&rt, STOP).ok();
    let stop = Stop::open(&rt, asked.as_deref());
    let opener = Opener::new(&rt).stopped_by(&stop);
    ExitCode::from(start(&rt, opener, &mut output, &mut console))
}

/// The number of characters in a progress line: one less than the terminal's width, which is in the environment's
/// COLUMNS.
fn columns<R: Env + AllocGlobal>(rt: &R) -> usize {
    match env::var(rt, "COLUMNS") {
        Ok(text) => match text.parse::<usize>() {
            Ok(width) if LEAST_WIDTH <= width && width <= MOST_WIDTH => width.saturating_sub(1),
            _ => COLUMNS,
        },
        Err(_) => COLUMNS,
    }
}

/// The number of the terminal's lines, which is in the environment's LINES; 0 if it isn't there.
fn height<R: Env + AllocGlobal>(rt: &R) -> usize {
    match env::var(rt, "LINES") {
        Ok(text) => match text.parse::<usize>() {
            Ok(height) if height <= MOST_HEIGHT => height,
            _ => 0,
        },
        Err(_) => 0,
    }
}

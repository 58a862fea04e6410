//! The command `record`: records films side by side and watches them meanwhile, and says how each ended.
//!
//! What it hands on: `record_films`, which returns the status that the program exits with. The recording itself is
//! done by `ls_recorder::record`, and the films and their files are opened by `ls_opening`; this crate writes progress,
//! results and the report.
//!
//! ```
//! use ls_command::{Request, read_words};
//! use ls_console::{Host, Program, USAGE};
//! use ls_files::Makes;
//! use ls_frame::Outlet;
//! use ls_recording::record_films;
//! use std::io::Write;
//! use std::sync::Wait;
//! use std::thread::Threads;
//! use std::time::Clock;
//!
//! /// Records the films that words ask for, and answers the status.
//! pub fn record<R, O, W, E>(program: Program<'_, R, O, W, E>, words: &[String]) -> u8
//! where
//!     R: Host + Clock + Threads + Wait + Sync,
//!     O: Makes<File = R::File> + Copy + Send,
//!     R::File: Send,
//!     O::Finished: Send,
//!     W: Write + Send,
//!     E: Outlet + Send,
//! {
//!     match read_words(program.rt.alloc(), words) {
//!         Ok((Request::Record(asked), _reasons)) => record_films(program, asked),
//!         _ => USAGE,
//!     }
//! }
//! ```
//!
//! In reading order: `recording` (the command), `watching` (counts and times of films while they are recorded, their
//! files settled as each ends, and progress), `ending` (says how each film ended, and writes the report). What holds of
//! the films and their files if the status is 0, `specs/View/Films.antt` says; the texts, the tests of the whole
//! program show.
#![tactic(auto)]

mod ending;
mod recording;
mod watching;

pub use recording::record_films;

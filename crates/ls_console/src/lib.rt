//! The program's messages about its files and devices, and the statuses that it exits with.
//!
//! What it hands on: a `Console` writes messages on standard error, and progress on a terminal. A `Program` is
//! what each command works with: its runtime, which is a `Host`, the opener of its files, standard output and the
//! console. A `Reader` reads a film or a recording, and the `Cause` of a fault decides what more is said of it. `DONE`,
//! `FAILED` and `USAGE` are the statuses; `Shown` makes a file name printable; `Lines` is a writer with a buffer, and
//! `Objects` one that makes lines objects of JSON.
//!
//! ```
//! use ls_console::{Console, DONE, Host, open_film};
//! use ls_files::Opener;
//! use ls_frame::Outlet;
//! use std::time::Clock;
//!
//! /// Opens a film, or says why it can't; answers the status.
//! pub fn try_film<R: Host + Clock, E: Outlet>(rt: &R, file: &str, console: &mut Console<E>) -> u8 {
//!     match open_film(rt.alloc(), Opener::new(rt), file, console) {
//!         Ok(_film) => DONE,
//!         Err(status) => status,
//!     }
//! }
//! ```
//!
//! In reading order: `shown` (file names and other words), `json` (texts and lines as JSON), `console` (standard error),
//! `output` (standard output, and the statuses), `program` (what each command works with), `reader` (reads films and recordings, and finds the cause
//! of a fault), `written` (makes a file, and says how one that was written ended). The contracts say which status
//! each call returns, what is written to standard output with the status `DONE`, and what a reader has left
//! (`specs/View/Readers.antt`). What is said on standard error, the tests of the whole program show.
#![tactic(auto)]

mod console;
mod json;
mod lines;
mod output;
mod program;
mod reader;
mod shown;
mod written;

pub use console::{COLUMNS, Console, cleared};
pub use json::{Column, Objects, Quoted};
pub use lines::{Lines, line_buffer};
pub use output::{
    DONE, FAILED, USAGE, finish, finish_lines, misused, no_memory, say_unwritten, write_text,
};
pub use program::{Host, Program};
pub use reader::{Cause, Reader, buffered, cause_of_input, explain, open_film, open_from};
pub use shown::{Escaped, Shown, ShownBytes, is_shown_plain};
pub use written::{EndedIndex, MadeFile, make_file, say_index_end, say_unmade, say_unsynced};

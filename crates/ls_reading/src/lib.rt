//! The commands that read a film or a recording and record none: `list`, `code`, `play`, `index`, `check`, `verify`
//! and `replay`.
//!
//! What it hands on: a function for each command, or more: `show`, `show_whole` and, for several files, `show_into` are
//! `play`; `list_json` and `index_json` write objects of JSON; `index_beside`, `check_each` and `verify_pairs` are for
//! several files, too. Each opens its files, runs an engine of the crates below over them, says on the console what
//! stopped it, and returns the status that the program exits with.
//!
//! ```
//! use ls_console::{Host, Program};
//! use ls_files::Opens;
//! use ls_frame::Outlet;
//! use ls_reading::list;
//! use std::io::Write;
//!
//! /// Lists a film, and answers the status.
//! pub fn list_film<R, O, W, E>(program: Program<'_, R, O, W, E>) -> u8
//! where
//!     R: Host,
//!     O: Opens + Drop,
//!     W: Write,
//!     E: Outlet,
//! {
//!     list(program, "film.pgm")
//! }
//! ```
//!
//! In reading order: `cause` (the causes of faults), `asked` (what a command that writes lines is asked for), `films`
//! (`list` and `code`), `indexing` (the file of an index that is written together with its recording), `playing`
//! (`play`), `listed` (a part that is found by an index), `recorded` (the recorded numbers of gaps, and lost frames),
//! `report` (the lines of a check), `archive` (`index` and `check`), `comparing` (`verify`), `part` (`check` and
//! `verify` of a part), `strict` (whether codestreams are strict), `each` (`check` and `verify` of several files),
//! `draft` (a file that takes its name once it is whole), `beside` (`index` of several files), `into` (`play` of
//! several files), `replaying` (`replay`). The contracts say which status each returns, and what each has read and
//! written if it is 0 (`specs/View/Commands.antt`, `specs/View/Each.antt`, `specs/View/Replays.antt`); what each engine
//! does over any reader and writer is said at the function that calls it. What is said on standard error, the tests of
//! the whole program show.
#![tactic(auto)]

mod archive;
mod asked;
mod beside;
mod cause;
mod comparing;
mod draft;
mod each;
mod films;
mod indexing;
mod into;
mod listed;
mod part;
mod playing;
mod recorded;
mod replaying;
mod report;
mod strict;

pub use archive::{check_recording, index, index_json};
pub use beside::index_beside;
pub use comparing::verify_files;
pub use each::{check_each, verify_pairs};
pub use films::{code, code_with_index, list, list_json};
pub use into::show_into;
pub use listed::show_listed;
pub use part::{check_part, verify_files_part};
pub use playing::{show, show_whole};
pub use replaying::replay_file;

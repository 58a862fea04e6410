//! The tests of the program's commands over a file system in memory, whose files say their bytes; and what the
//! contracts of `play`, `code` and `verify` say there.
//!
//! They are in a crate of their own because a crate's tests are proved together with the whole crate. Nothing uses it,
//! so nothing is proved again when it changes.
#![tactic(auto)]

#[cfg(test)]
mod commands;
mod memory;
mod playing;
#[cfg(test)]
mod testing;

pub use memory::{Blank, Memory, MemoryFile, Named};
pub use playing::{code_in_memory, play_in_memory, verify_in_memory};

//! Shared by the tests of several crates: films and the texts and codestreams made from them, and readers and writers
//! whose calls can fail.
//!
//! The product doesn't use it, and it promises nothing.
#![tactic(auto)]

mod devices;
pub mod films;

pub use devices::{Memory, Mishap, Pieces, Sink};

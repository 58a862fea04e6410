//! The text formats of `replay`: the steps file that it reads, and the reply lines that it writes.
//!
//! ```
//! use ls_frame::Outlet;
//! use ls_queue::replay;
//! use ls_replay::{print_replies, read_steps};
//! use std::alloc::Global;
//!
//! /// Writes what a queue of two sources, which holds one job at most, replies to the steps of a text.
//! pub fn tell<W: Outlet>(alloc: Global, text: &[u8], writer: &mut W) -> Option<()> {
//!     let steps = read_steps(alloc, text).ok()?;
//!     let replies = replay(alloc, 2, 1, &steps).ok()?;
//!     print_replies(writer, &replies).ok()
//! }
//! ```
//!
//! In reading order: `steps_file` (reading the steps), `replies` (writing the lines).
#![tactic(auto)]

mod replies;
mod steps_file;

pub use replies::print_replies;
pub use steps_file::{StepsFault, TextFault, read_steps, read_text};

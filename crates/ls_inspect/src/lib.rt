//! Codestreams in memory, inspected without a reader: where one ends by its markers alone, and whether the data of its
//! scans are exactly what encoding gives.
//!
//! In reading order: `markers` (what surrounds the data of scans, as far as markers tell), `extent` (the size of the
//! codestream at the front of bytes), `strict` (whether scans have exactly the data that encoding gives).
#![tactic(auto)]

pub mod extent;
mod markers;
pub mod strict;

pub use extent::extent_of;
pub use strict::{Inspected, inspect};

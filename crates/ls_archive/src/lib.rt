//! Archives: indexing a recording that is kept, checking it, and comparing it with its film. A recording is codestreams
//! joined, with nothing between them.
//!
//! The index of a recording has a line for each codestream, found by markers and headers alone (`specs/Index.antt`); if
//! writing it stops, the fault says which lines were written (`specs/View/Indexing.antt`). A film is compared with its
//! recording frame by frame, whatever the form of the headers on both sides; the verdict says whether their frames are
//! equal, or where they first differ (`specs/Verify.antt`, `specs/View/Verifying.antt`). A recording is checked by its
//! index, line by line, and damage is reported (`specs/View/Checking.antt`, `specs/View/Checks.antt`). Several threads
//! can decode the recording for a comparison, or look at its codestreams for a check by an index; the result is the
//! same (`specs/View/Comparing.antt`, `specs/View/Batches.antt`). An index can also be written while its recording is
//! being written (`specs/View/Following.antt`), as that of a film that is coded (`specs/View/Coded.antt`). Codestreams
//! that can be decoded but aren't exactly what encoding gives are found one after the other (`specs/View/Strict.antt`).
//!
//! ```
//! use ls_archive::{IndexFault, write_index};
//! use ls_frame::Counted;
//! use std::alloc::Global;
//!
//! /// The index of a recording, with sums.
//! fn index(alloc: Global, recording: &[u8]) -> Result<Vec<u8>, IndexFault> {
//!     let mut reader = recording;
//!     let mut writer = Counted::new(Vec::new(alloc));
//!     write_index(alloc, &mut reader, &mut writer, true)?;
//!     Ok(writer.into_inner())
//! }
//! ```
//!
//! Over files the reader is a `Buffered::new(alloc, Counted::new(file))?` and the writer a `Counted::new(file)`, of
//! `ls_frame`.
//!
//! In reading order: `faults` (why writing an index, or a comparison, stopped), `index` (the lines), `entry` (a
//! codestream, and what its headers say), `following` (an index that is written with its recording), `coding` (a film
//! that is coded so), `checking` (a recording and its index: lines are taken in its `batches`, and one thread or several
//! look at their codestreams, in its `looking`), `places` (codestreams that stand elsewhere than the index says),
//! `listed` (frames that are shown by their lines), `verifying` (a film and its recording), `strict` (whether codestreams have exactly the data that encoding gives),
//! `laws`.
#![tactic(auto)]

pub mod checking;
pub mod coding;
mod entry;
pub mod faults;
pub mod following;
pub mod index;
pub mod laws;
pub mod listed;
pub mod places;
pub mod strict;
pub mod verifying;

pub use checking::part::{CheckPartFault, check_listed, check_listed_by};
pub use checking::{CheckFault, Checked, Damage, Finding, Findings, check, check_by};
pub use coding::{CodedFilm, code_film_with_index};
pub use faults::{IndexFault, VerifyFault};
pub use following::{Follower, Indexing};
pub use index::{index_bytes, write_index};
pub use listed::{ListedFault, pass_line_end, pass_lines, play_listed};
pub use places::{Wanted, find_places, read_index};
pub use strict::{Strict, read_strict};
pub use verifying::part::{VerifyPartFault, verify_part};
pub use verifying::{Difference, Verdict, verify, verify_by, verify_bytes};

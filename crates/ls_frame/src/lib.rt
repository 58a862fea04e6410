//! Frames: pictures within the recorder's limits, how they are read from Netpbm films and written to them, and the
//! coding parameters of T.87.
//!
//! What it promises: a `Frame` is within its ranges, however it was made; reading follows the grammar of the pgm and
//! ppm pages, fault by fault (`specs/Netpbm.antt`, `specs/Faults.antt`); a frame is written as one canonical text
//! (`specs/Canonical.antt`); `Presets` follow the formulas of T.87 (A.2.1, C.2.4.1), by default, explicit, or chosen in
//! part by a `Tuning`. Bytes are read from a `Feed` and written to an `Outlet`, which count failed calls. `specs/View`
//! relates the code's readers, writers and frames to these definitions.
//!
//! `NoMemory` and `AllocError`, here and in all crates above, stand for a failed allocation. That they come in no other
//! case is tested (`tests/memory`), not said by a clause.
//!
//! ```
//! use ls_frame::{Feed, NetpbmFault, Outlet, next_frame, write_frame};
//! use std::alloc::Global;
//!
//! /// Writes the images of a film again, up to the first write that fails, and answers how many.
//! fn copy_film<R: Feed, W: Outlet>(
//!     alloc: Global,
//!     reader: &mut R,
//!     writer: &mut W,
//! ) -> Result<u64, NetpbmFault> {
//!     for count in 0..u64::MAX {
//!         let Some(frame) = next_frame(alloc, reader)? else {
//!             return Ok(count);
//!         };
//!         if write_frame(writer, &frame).is_err() {
//!             return Ok(count);
//!         }
//!     }
//!     Ok(u64::MAX)
//! }
//! ```
//!
//! Over files the reader is a `Buffered::new(alloc, Counted::new(file))?` and the writer a `Counted::new(file)`. A
//! frame is coded with parameters, `Presets::default_of(frame.maxval())` if none were chosen.
//!
//! In reading order: `device` (readers and writers that count failures), `buffered` (a reader for callers that read
//! byte by byte), `samples`, `frame`, `presets`, `tuning` (presets chosen in part), `output` (writing all bytes of a
//! slice), `netpbm` (reading an image and writing one), `laws` (what follows from the definitions alone); `memory` is
//! for whole programs.
#![tactic(auto)]

pub mod buffered;
pub mod device;
pub mod frame;
pub mod laws;
pub mod memory;
pub mod netpbm;
pub mod output;
pub mod presets;
pub mod samples;
pub mod tuning;

pub use buffered::Buffered;
pub use device::{Counted, Failed, Feed, FeedFault, Outlet};
pub use frame::{Form, Frame, FrameFault, FrameView, Kind, PictureView};
pub use memory::keep_blocks;
pub use netpbm::{NetpbmFault, first_frame, next_frame, write_frame};
pub use output::{WriteFault, lay, write_bytes};
pub use presets::{PresetFault, Presets};
pub use samples::{Sample, Samples};
pub use tuning::Tuning;

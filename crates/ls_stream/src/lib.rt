//! Codestreams of JPEG-LS (T.87 Annex C): markers, segments, and lossless scans (NEAR 0) of one component each.
//!
//! Encoding returns exactly the codestream that `specs/Layout.antt` defines for a frame. Decoding returns exactly the
//! frame of which a front of the bytes is a codestream by the grammar (`specs/Grammar.antt`), or a fault, which is
//! `NoMemory` or means that there is no such front. From a reader, one codestream at a time is taken, by its markers
//! alone (`specs/View/Extents.antt`). The bits of a scan are those of its plane (`specs/Planes.antt`).
//!
//! ```
//! use ls_frame::Frame;
//! use ls_stream::{StreamFault, decode_frame, encode_frame};
//! use std::alloc::Global;
//!
//! /// The frame that comes back from its codestream.
//! fn there_and_back(alloc: Global, frame: &Frame) -> Result<Frame, StreamFault> {
//!     let bytes = encode_frame(alloc, frame)?;
//!     let decoded = decode_frame(alloc, &bytes)?;
//!     Ok(decoded.frame)
//! }
//! ```
//!
//! `encode_with` takes the coding parameters. `next_stream` takes one codestream after another from a reader.
//! `encode_into` and `Opening` work in the caller's memory and allocate nothing. A caller's samples may be in the order
//! of pixels or plane by plane (`Arrangement`).
//!
//! In reading order: `encode` (frames to codestreams), with `arranged` (pictures over a caller's samples), `scan` (the
//! rows of a component), `row` (a row from left to right) and `coder` (one event to bits); `decode`, its mirror image,
//! with `markers` (what surrounds the data of scans), `scan`, `row` and `decoder` (one event from bits); `faults` (why
//! bytes can't be decoded); `next` (one codestream at a time from a reader), with `awaited` (what its next byte is).
//! Both directions share `marker`, `segments`, `shape` (the size of a picture), `lines` (padded lines of samples) and
//! `buffers` (memory for two lines).
//! `laws` has what follows from the definitions, and the round trip.
#![tactic(auto)]

pub mod arranged;
mod buffers;
pub mod decode;
pub mod encode;
pub mod faults;
pub mod laws;
mod lines;
mod marker;
pub mod next;
mod segments;
mod shape;

pub use arranged::{ArrangedView, Arrangement};
pub use buffers::Lines;
pub use decode::{Decoded, Opening, decode_frame};
pub use encode::beside::encode_side_by_side;
pub use encode::{
    code_bound, encode_frame, encode_into, encode_picture, encode_with, encode_within,
    picture_bound,
};
pub use faults::{StreamFault, What};
pub use ls_coding::Regions;
pub use next::{NextFault, next_stream};

//! Films: images of frames, one after the other, and what is written of one: a line for each frame, or a codestream;
//! and of a film of codestreams, a recording, an image for each.
//!
//! A film is images joined with nothing between them (`specs/Film.antt`); what is written of it is the lines, the
//! codestreams or the canonical Netpbm images of its frames (`specs/Listing.antt`, `specs/Coding.antt`,
//! `specs/Showing.antt`); if an engine stops, the fault says which frames it read and which bytes it wrote
//! (`specs/View/Engine.antt`, and for recordings `specs/View/Playing.antt`). What an image is, is a parameter of the
//! relations on films, so the same ones describe a film of codestreams.
//!
//! ```
//! use ls_film::{FilmFault, PlayFault, code_film, play};
//! use ls_frame::Counted;
//! use std::alloc::Global;
//!
//! /// The recording of a film: the codestreams of its frames.
//! fn record(alloc: Global, film: &[u8]) -> Result<Vec<u8>, FilmFault> {
//!     let mut reader = film;
//!     let mut writer = Counted::new(Vec::new(alloc));
//!     code_film(alloc, &mut reader, &mut writer)?;
//!     Ok(writer.into_inner())
//! }
//!
//! /// The film of a recording: the images of its frames.
//! fn show(alloc: Global, recording: &[u8]) -> Result<Vec<u8>, PlayFault> {
//!     match play(alloc, recording, Counted::new(Vec::new(alloc))) {
//!         Ok((_frames, _rest, shown)) => Ok(shown.into_inner()),
//!         Err((fault, _rest, _shown)) => Err(fault),
//!     }
//! }
//! ```
//!
//! Over files the reader is a `Buffered::new(alloc, Counted::new(file))?` and the writer a `Counted::new(file)`, of
//! `ls_frame`.
//!
//! In reading order: `faults` (why a film stopped), `listing` (the line of a frame), `coding` (its codestream), `film`
//! (under both: Netpbm images are read and a chunk written for each frame), `playing` (codestreams are read and images
//! written), `part` (of a part of a recording alone), `codestreams` (the next codestream, and what is made of it),
//! `ahead` (codestreams that threads decode before their turn), `engine` (under all of them: any source of images, and
//! any text of their frames), `laws`.
#![tactic(auto)]

pub mod ahead;
pub mod codestreams;
pub mod coding;
pub mod engine;
pub mod faults;
pub mod film;
pub mod laws;
pub mod listing;
pub mod part;
pub mod playing;

pub use coding::{code_bytes, code_film, code_film_by};
pub use faults::{FilmFault, MOST_FRAMES};
pub use listing::{list_bytes, list_film};
pub use part::{Part, PartFault, play_part};
pub use playing::{
    PlayFault, play, play_by, play_bytes, play_bytes_by, play_recording, play_recording_by,
};

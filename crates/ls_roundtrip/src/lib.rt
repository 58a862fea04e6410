//! The purpose of the recorder, in one function: films that are recorded side by side come back, however the threads
//! that code and those that decode run (`record_and_play`, `specs/View/RoundTrips.antt`).
//!
//! No program calls it. Its contract combines those of `ls_recorder` and `ls_film`, for films in memory, where all
//! bytes are known.
//!
//! ```
//! use ls_frame::Tuning;
//! use ls_recorder::{OpenGate, Sizes};
//! use ls_roundtrip::record_and_play;
//! use std::alloc::Global;
//! use std::sync::Wait;
//! use std::thread::Threads;
//!
//! /// What the recording of a film in memory shows, coded by four workers and decoded by two. `None` if memory or threads
//! /// are refused, or the film is at fault.
//! fn come_back<R: Threads + Wait + Sync>(rt: &R, alloc: Global, film: &[u8]) -> Option<Vec<u8>> {
//!     let defaults = Tuning {
//!         t1: 0,
//!         t2: 0,
//!         t3: 0,
//!         reset: 0,
//!     };
//!     let sizes = Sizes {
//!         workers: 4,
//!         capacity: 8,
//!         window: 4,
//!     };
//!     let mut films = Vec::with_capacity(alloc, 1).ok()?;
//!     films.push_reserved((film, defaults));
//!     let mut played_back = record_and_play(rt, alloc, films, sizes, 2, &OpenGate).ok()?;
//!     let first = played_back.pop()?;
//!     let _frames = first.played.ok()?;
//!     Some(first.shown)
//! }
//! ```
#![tactic(auto)]

pub mod round_trip;

pub use round_trip::{PlayedBack, record_and_play};

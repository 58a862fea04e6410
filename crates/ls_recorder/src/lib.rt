//! Recording films side by side, each as the codestreams of its frames, joined.
//!
//! Each film has a lane of its own (`record`), and workers code the frames of all films. `specs/View/Recordings.antt`
//! says what results for each film and what the account counts; `Lanes.antt` beside it, what a lane does for its film;
//! `Halves.antt`, what each of a lane's two halves does; `Boxes.antt`, which boxes carry results from workers to lanes.
//!
//! ```
//! use ls_frame::{Counted, Tuning};
//! use ls_recorder::{OpenGate, record};
//! use std::alloc::Global;
//! use std::sync::Wait;
//! use std::thread::Threads;
//!
//! /// The recording of a film in memory, coded by four workers. `None` if memory or threads are refused, or the film is
//! /// at fault.
//! fn record_film<R: Threads + Wait + Sync>(rt: &R, alloc: Global, film: &[u8]) -> Option<Vec<u8>> {
//!     let defaults = Tuning {
//!         t1: 0,
//!         t2: 0,
//!         t3: 0,
//!         reset: 0,
//!     };
//!     let writer = Counted::new(Vec::new(alloc));
//!     let mut films = Vec::with_capacity(alloc, 1).ok()?;
//!     films.push_reserved((Counted::new(film), writer, defaults));
//!     let mut recording = record(rt, alloc, films, 4, 8, 4, &OpenGate).ok()?;
//!     let track = recording.tracks.pop()?;
//!     let _frames = track.result.ok()?;
//!     Some(track.writer.into_inner())
//! }
//! ```
//!
//! Playing is in `ls_film`, and orders, coded frames and the collector are in `ls_pieces`; their names are exported
//! here too. `ls_roundtrip` says that recorded films come back.
//!
//! In reading order: `sizes` (how many threads, how many places), `delivery` (how coded frames reach their lane),
//! `lane` (a film's way from its reader to its writer, `docs/LANE.md`), `working` (what a worker does), `gate` (what
//! can be observed meanwhile), `recording` with its threads, `faults` (why a recording isn't begun); `laws`.
#![tactic(auto)]

pub mod delivery;
pub mod faults;
pub mod gate;
pub mod lane;
pub mod laws;
pub mod recording;
mod sizes;
pub mod working;

pub use delivery::{Answer, Inbox, Outbox, boxes};
pub use faults::RecordFault;
pub use gate::{Gate, Moment, Notice, OpenGate};
pub use lane::{LaneEnd, LaneFault};
pub use ls_film::{PlayFault, play, play_bytes};
pub use ls_pieces::{Coded, Collector, CollectorFault, MOST_WINDOW, Misfit, Order, Uncoded};
pub use recording::{Recording, Track, record};
pub use sizes::Sizes;
pub use working::{Worked, work};

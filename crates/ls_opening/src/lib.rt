//! What the command `record` does before the first frame is read: it finds the names of the recordings, opens the
//! films, and locks and makes the files, unless one is a duplicate.
//!
//! ```
//! use ls_command::RecordRequest;
//! use ls_console::{Console, Host};
//! use ls_files::{Locks, Opener};
//! use ls_frame::Outlet;
//! use ls_opening::{names_once, open_films};
//! use std::sync::Wait;
//! use std::time::Clock;
//!
//! /// Opens films and makes their files; the number of films, or the status once it is said why none is recorded.
//! pub fn try_films<R, E>(
//!     rt: &R,
//!     asked: &RecordRequest<'_>,
//!     console: &mut Console<E>,
//! ) -> Result<usize, u8>
//! where
//!     R: Host + Wait + Clock,
//!     R::File: Locks,
//!     E: Outlet,
//! {
//!     let columns = console.columns_of_all(asked.files.len());
//!     let names = match names_once(rt.alloc(), asked, columns) {
//!         Ok(names) => names,
//!         Err(refusal) => return Err(refusal.say(console)),
//!     };
//!     match open_films(rt, Opener::new(rt), asked, &names, &[], &[], console) {
//!         Ok(opened) => Ok(opened.films.len()),
//!         Err(refusal) => Err(refusal.say(console)),
//!     }
//! }
//! ```
//!
//! In reading order: `names` (the names of films and of the files made for them), `found` (where a film and the places
//! of its files are, and which are duplicates), `limited` (has a film be read no further than its first frames, and
//! notes when their bytes came and when a piece is due), `chain` (hands on pieces that were begun), `pieces` (writes a
//! recording, or its pieces), `opening` (opens the films and makes the files), `film` (a film's files, from their
//! opening until its recording has ended), `refusal` (why no film is recorded). No contract says what is said; the
//! tests of the whole program show it.
#![tactic(auto)]

mod chain;
mod film;
mod found;
mod limited;
mod names;
mod opening;
mod pieces;
mod refusal;

pub use chain::Chain;
pub use film::{Film, Synced, failed_of};
pub use limited::{Course, Limited};
pub use names::{Names, names_once};
pub use opening::{Devices, Opened, Writer, open_films};
pub use pieces::{
    BesideParts, BrokenIndex, Cutting, IndexFollower, Parts, PieceWriter, Pieces, Succession,
};
pub use refusal::Refusal;

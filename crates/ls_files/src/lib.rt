//! The files of films and recordings, as the program opens and makes them. A file is known by its device and inode,
//! whatever it is called. It is locked while it is written. An existing file is renamed before another is made in its
//! place, and removed only if it is to be replaced. A named pipe, whose opening waits for the other side, is opened
//! late, in its lane's own thread.
//!
//! What it hands on: an `Opener` opens and makes files in any thread, a `Source` reads one, a `Target` writes one. A
//! `Place` is where a file is to be made, a `Keeper` holds the files of a recording from the lock of earlier ones to
//! the last sync, and `Folders` are locked while files are made in them. `likeness_of` guesses the format of a file.
//!
//! ```
//! let opener = Opener::new(rt);
//! let mut film = Source::of(rt, opener, "film.pgm", false)?;
//! let place = Place::of(rt, "film.pgm.jls");
//! // .. compare it with other places, and then ..
//! let mut keeper = Keeper::claim(alloc, opener, &place, None, None, false)?;
//! let targets = keeper.make(alloc, "film.pgm.jls", None, None)?;
//! if let Some(name) = keeper.renamed() {
//!     // .. what stood there is called so now ..
//! }
//! ```
//!
//! In reading order: `identity` (identifies files), `stop` (how the program is asked to stop), `opener` (opens and
//! makes files, in any thread), `source` (a file that is read, whose first bytes `front` keeps), `patient` (writes that
//! are tried again), `target` (a file that is written), `place` (the place of a file that is to be made, and what is
//! there already), `held` (a file that is made, from the lock of the earlier one to the last sync), `row` (the names of
//! a recording's pieces, and those of earlier recordings), `keeper` (a recording's file and those beside it, or those
//! of a piece of it, together), `folders` (locks the folders in which files are made), `likeness` (guesses formats).
//! The known bytes of a source or a target are those of its file, once that is open (`specs/View/Opened.antt`). No
//! contract says more of files: the tests of the whole program show how these calls work.
#![tactic(auto)]

pub mod folders;
mod front;
mod held;
pub mod identity;
pub mod keeper;
pub mod likeness;
pub mod opener;
mod patient;
pub mod place;
pub mod row;
pub mod source;
pub mod stop;
pub mod target;

pub use folders::Folders;
pub use identity::{Identity, Spot, folder_of, last_part};
pub use keeper::{Beside, INDEX, Keeper, Piece, TIMES, Targets, Unmade};
pub use likeness::likeness_of;
pub use opener::{Locks, Makes, Opener, Opens};
pub use patient::Patient;
pub use place::Place;
pub use row::{Row, piece_number, piece_path};
pub use source::Source;
pub use stop::Stop;
pub use target::Target;

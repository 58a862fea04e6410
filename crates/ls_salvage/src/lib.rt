//! Salvage: reading the frames of a damaged recording, and the gaps between them.
//!
//! A recording's bytes are parts, each a frame's codestream or a gap (`specs/Salvage.antt`), and the bytes determine
//! the parts (`specs/View/Salvaged.antt`). A gap goes up to the next start, that is, the next place where a codestream
//! may begin (`specs/Starts.antt`). A salvage writes the frames and reports the gaps, or says after which parts it
//! stopped (`specs/View/Runs.antt`); it gives up after 2^62 bytes, and where no start is found within that many.
//! Wherever a complete codestream of a frame stands, it is shown, unless one that is shown holds its beginning; and
//! with no damage a salvage shows what `ls_film::play` does (`laws`).
//!
//! ```
//! use ls_salvage::{Gap, SalvageFault, salvage_bytes};
//! use std::alloc::Global;
//!
//! /// The images of what is whole in a recording, and the gaps between them.
//! fn rescue(alloc: Global, recording: &[u8]) -> Result<(Vec<u8>, Vec<Gap>), SalvageFault> {
//!     let (images, gaps, salvaged) = salvage_bytes(alloc, recording);
//!     salvaged?;
//!     Ok((images, gaps))
//! }
//! ```
//!
//! Over files, `salvage` takes a `Buffered::new(alloc, Counted::new(file))?` and a `Counted::new(file)`, of `ls_frame`,
//! a text (`ImageText`, or `NoText` to look only for damage), and a receiver of the gaps (`Gaps`, which a `Vec<Gap>`
//! implements).
//!
//! In reading order: `salvaging` (part by part), `parts` (the next part), `starts` (the search for the next start),
//! `gaps` (to whom they are reported), `texts` (what is written of frames), `faults` (why a salvage stopped), `memory`
//! (over bytes in memory), `laws`.
#![tactic(auto)]

pub mod faults;
pub mod gaps;
pub mod laws;
pub mod memory;
pub mod parts;
pub mod salvaging;
pub mod starts;
pub mod texts;

pub use faults::SalvageFault;
pub use gaps::{Gap, Gaps};
pub use memory::salvage_bytes;
pub use salvaging::{Salvaged, salvage};
pub use texts::{ImageText, NoText};

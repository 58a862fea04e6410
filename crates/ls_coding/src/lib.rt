//! The events of T.87's Annex A, encoded and decoded one at a time: a sample of regular mode, a run, or the sample that
//! interrupts a run.
//!
//! A `State` encodes or decodes the samples of one scan. Its model is the state that the definitions give after a list
//! of events (`specs/Events.antt`, `specs/View/States.antt`): each call is one event, and leaves the state after the
//! list with that event appended. Encoding gives code words and runs; `ls_bits` turns these into bits.
//!
//! ```
//! use ls_coding::{Mode, Neighbours, State, Word, mode_of};
//!
//! /// The code word of a sample of regular mode, whose error the state then counts. `None` if none may come next.
//! fn next_word(state: &mut State, neighbours: &Neighbours, sample: u16) -> Option<Word> {
//!     let Neighbours { a, b, c, d } = *neighbours;
//!     let maxval = state.presets().maxval();
//!     if a > maxval || b > maxval || c > maxval || d > maxval || sample > maxval {
//!         return None;
//!     }
//!     if state.interrupted() || mode_of(neighbours) == Mode::Run {
//!         return None;
//!     }
//!     Some(state.code_regular(neighbours, sample))
//! }
//! ```
//!
//! The word's bits are put by `put_golomb` of `ls_bits`. In run mode a run is coded by `code_run`, and the sample that
//! interrupts it by `code_interruption`.
//!
//! Decoding mirrors this: `plan_regular` gives the code of the next word, and `accept_regular` the sample that has the
//! word's value; a run is decoded by `accept_one`, `break_width` and `accept_break`, or at once by `break_widths` and
//! `accept_run`, and the sample that interrupts it by `plan_interruption` and `accept_interruption`. A decoding call
//! that fails leaves the state unchanged.
//!
//! The samples and neighbours passed to a state are at most MAXVAL. What depends on samples alone may be computed
//! before a sample is coded (`mirror`), for example a line at a time, and passed to `code_regular_at`. A decoder knows
//! only the line above: it may compute that line's part of each context beforehand (`half_context`), and the rest at
//! each sample (`whole_context`, by a table, `Regions`) for `plan_regular_at`; likewise the two differences from which
//! `median_by` computes the median. Only making that table allocates. A decoder that holds the scan's presets and a
//! `RegionsView` by value keeps them in registers (`plan_regular_with`, `accept_sure_with`).
//!
//! In reading order: `neighbours` (the samples around one, and the mode that they call for), `state` (all calls),
//! `word`, `plan`, `run` (what they return), `mirrored` (what may be computed beforehand), `counters` (the counters of
//! all contexts), and below these `context`, `error`, `update` (a sample of regular mode), `regions` (a table for
//! `context`), `sure_zeros` (a table for `accept_sure`), `interruption`; `laws` (what follows from the definitions
//! alone).
#![tactic(auto)]

mod context;
mod counters;
mod error;
mod interruption;
pub mod laws;
pub mod mirrored;
pub mod neighbours;
pub mod plan;
pub mod regions;
mod run;
pub mod state;
pub mod sure_zeros;
mod update;
pub mod word;

pub use context::{half_context, signed_context};
pub use error::median_by;
pub use mirrored::{Mirrored, mirror};
pub use neighbours::{Mode, Neighbours, mode_of};
pub use plan::Plan;
pub use regions::{Regions, RegionsView, whole_context};
pub use run::{RunWord, Tail};
pub use state::State;
pub use sure_zeros::SureZeros;
pub use word::Word;

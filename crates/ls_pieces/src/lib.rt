//! Orders, coded frames, and the collector that puts the coded frames of a source in order.
//!
//! An order is a frame with the parameters to code it with (`specs/Orders.antt`). A coded frame (`Coded`; a `piece` in
//! the code) is the codestream of an order; any thread may make it, and they may be made in any order. A collector puts
//! the coded frames of one source in the order in which their orders were booked (`specs/Collecting.antt`).
//!
//! ```
//! use ls_pieces::{Coded, Collector, Order};
//! use ls_queue::Job;
//! use std::alloc::Global;
//!
//! /// The codestreams of two orders, coded in the wrong order and put in the right one. `None` if an allocation fails.
//! fn in_order(alloc: Global, first: Order, second: Order) -> Option<Vec<u8>> {
//!     let mut collector = Collector::new(alloc, 0, 4).ok()?;
//!     collector.book(first.clone().ok()?).ok()?;
//!     collector.book(second.clone().ok()?).ok()?;
//!     let later = Job {
//!         source: 0,
//!         number: 1,
//!         item: second,
//!     };
//!     let earlier = Job {
//!         source: 0,
//!         number: 0,
//!         item: first,
//!     };
//!     collector.accept(Coded::make(alloc, later).ok()?).ok()?;
//!     collector.accept(Coded::make(alloc, earlier).ok()?).ok()?;
//!     let mut bytes = Vec::new(alloc);
//!     for _ in 0..2 {
//!         bytes.extend_from_slice(collector.next()?.bytes()).ok()?;
//!     }
//!     Some(bytes)
//! }
//! ```
//!
//! In reading order: `orders` (what is to be coded), `pieces` (coded frames), `collector` (coded frames in order).
#![tactic(auto)]

pub mod collector;
pub mod orders;
pub mod pieces;

pub use collector::{Collector, CollectorFault, MOST_WINDOW, Misfit};
pub use orders::Order;
pub use pieces::{Coded, Uncoded};

//! A bounded queue: several sources put items, the items are taken as jobs, and each source may close.
//!
//! What it defines: a queue is its capacity, the number of items each source has put and whether the source is closed,
//! and the jobs held, with its reply to each call and its state afterwards (`specs/Queue.antt`); a history is a list of
//! steps with their replies, which determine what a source sent, what was taken of it, what is held, and which reply is
//! the lawful one (`specs/History.antt`). `laws` connects the two, and states what follows for the items.
//!
//! ```
//! use ls_queue::{Core, QueueFault, Take};
//! use std::alloc::Global;
//!
//! /// The first job of a queue of two sources and capacity 8, which each put an item.
//! fn first_job(alloc: Global) -> Result<Take<u64>, QueueFault> {
//!     let mut queue: Core<u64> = Core::new(alloc, 2, 8)?;
//!     queue.put(0, 10);
//!     queue.put(1, 20);
//!     queue.close(0);
//!     Ok(queue.take())
//! }
//! ```
//!
//! `replay` runs a list of steps in one call and returns a reply for each.
//!
//! The running queue does the same for threads, over one bounded channel. Each source and each worker has a seat.
//! `open` makes the queue, its seats and a closer. Each source calls `put` with its seat for each item, and then `end`;
//! each worker calls `take` until it returns `Done`; once all sources have ended, `finish` ends the queue; and once the
//! workers are done, `settle` returns the account: the number of items that each source put. `use_queue` of
//! `src/crowd.rt` in `ls_queue_tests`, by which the tests use a queue, does all of this with a thread for each seat.
//!
//! The account (`specs/View/Account.antt`) says what is true between any two steps on the channel, for any number of
//! threads, and `laws` what follows from it; `specs/View/Running.antt` says what the calls do to seats and ends.
//! `docs/QUEUE.md` explains it all.
//!
//! In reading order: `faults` (why a queue can't be made), `replies` (jobs and replies), `bounded` (`Core`, the queue
//! without threads), `steps` (`replay`, a queue that runs a list of steps), `views` and `account` (what the channel
//! carries, and the rule of its steps), `waiting` (how long a waiting thread polls before it sleeps), `running` (`open`
//! to `settle`), `laws`.
#![tactic(auto)]

mod account;
mod bounded;
mod faults;
pub mod laws;
mod replies;
mod running;
mod steps;
mod views;
mod waiting;

pub use account::Account;
pub use bounded::Core;
pub use faults::{MOST_CAPACITY, MOST_SOURCES, MOST_WORKERS, QueueFault};
pub use replies::{Close, Job, Put, Take};
pub use running::{
    Closer, Ended, FinishFault, Finished, Queue, SettleCause, SettleFault, SourceSeat, Taken,
    WorkerSeat, open, settle,
};
pub use steps::{Reply, Step, replay};
pub use waiting::{Patience, receive};

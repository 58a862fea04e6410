//! The tests of `ls_queue`, through what it makes public.
//!
//! They are in a crate of their own because a crate's tests are proved together with the whole crate, while these need
//! only the contracts of `ls_queue`.
#![tactic(auto)]

#[cfg(test)]
mod bounded;
#[cfg(test)]
mod crowd;
#[cfg(test)]
mod faults;
#[cfg(test)]
mod page;
#[cfg(test)]
mod running;
#[cfg(test)]
mod steps;
#[cfg(test)]
mod testing;

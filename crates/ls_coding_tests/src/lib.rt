//! The tests of `ls_frame`, `ls_bits` and `ls_coding`, by their public interfaces.
//!
//! They are a crate of their own because a crate's tests are proved together with the whole crate: here they rely on
//! the contracts of the three, whose code is proved only once.
#![tactic(auto)]

#[cfg(test)]
mod bits;
#[cfg(test)]
mod context;
#[cfg(test)]
mod frames;
#[cfg(test)]
mod neighbours;
#[cfg(test)]
mod page;
#[cfg(test)]
mod regions;
#[cfg(test)]
mod state;

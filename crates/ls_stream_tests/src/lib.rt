//! The tests of `ls_stream`, through its public items.
//!
//! They are in a crate of their own because a crate's tests are proved together with the whole crate.
#![tactic(auto)]

#[cfg(test)]
mod decode;
#[cfg(test)]
mod encode;
#[cfg(test)]
mod faults;
#[cfg(test)]
mod headers;
#[cfg(test)]
mod next;
#[cfg(test)]
mod page;
#[cfg(test)]
mod testing;

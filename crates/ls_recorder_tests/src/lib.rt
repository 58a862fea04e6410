//! The tests of `ls_pieces`, `ls_recorder` and `ls_roundtrip`, through their public items.
//!
//! They are in a crate of their own because a crate's tests are proved together with the whole crate, and `ls_recorder`
//! takes the longest.
#![tactic(auto)]

#[cfg(test)]
mod collector;
#[cfg(test)]
mod delivery;
#[cfg(test)]
mod faults;
#[cfg(test)]
mod lane;
#[cfg(test)]
mod orders;
#[cfg(test)]
mod page;
#[cfg(test)]
mod pieces;
#[cfg(test)]
mod pieces_page;
#[cfg(test)]
mod pixels;
#[cfg(test)]
mod recording;
#[cfg(test)]
mod round_trip_page;
#[cfg(test)]
mod round_trips;
#[cfg(test)]
mod testing;
#[cfg(test)]
mod working;

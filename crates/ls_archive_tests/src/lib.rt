//! The tests of `ls_archive` and of `ls_salvage`, through what they make public.
//!
//! They stand in a crate of their own because a crate's tests are proved together with the whole crate.
#![tactic(auto)]

#[cfg(test)]
mod checking;
#[cfg(test)]
mod damage;
#[cfg(test)]
mod devices;
#[cfg(test)]
mod faults;
#[cfg(test)]
mod following;
#[cfg(test)]
mod index;
#[cfg(test)]
mod page;
#[cfg(test)]
mod places;
#[cfg(test)]
mod salvage_page;
#[cfg(test)]
mod testing;
#[cfg(test)]
mod verifying;

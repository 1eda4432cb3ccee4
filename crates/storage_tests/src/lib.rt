//! Tests of the storage: racks over real files and over a folder in memory, stops of a rack in memory, and logs on racks.
//!
//! They stand apart from the crates that they test, since a crate with tests is proved twice.
#![tactic(auto)]

#[cfg(test)]
mod calls;
#[cfg(test)]
mod logs;
#[cfg(test)]
mod rounds;
#[cfg(test)]
mod stops;
#[cfg(test)]
mod stories;

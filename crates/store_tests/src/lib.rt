//! Tests of stores: files that are damaged, stops within a roll back, the bytes of a file, and that a box is dropped once.
//!
//! They stand apart from the crates that they test, since a crate with tests is proved twice.
#![tactic(auto)]

#[cfg(test)]
mod boxes;
#[cfg(test)]
mod damages;
#[cfg(test)]
mod effects;
#[cfg(test)]
mod files;

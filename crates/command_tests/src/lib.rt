//! Tests of the program: faults of the streams and of the rack under `check`, `init` and `show`, stops of a run, two workers that
//! meet, two programs on one folder, and the program over a folder in memory. What commands answer row by row stands in
//! `tests/rows`.
//!
//! `calls` has the calls of the program over objects in memory, and `scenarios` a scenario of nine operations, which other tests
//! use too. Tests stand apart from the crates that they test, since a crate with tests is proved twice.
#![tactic(auto)]

pub mod calls;
#[cfg(test)]
mod check;
#[cfg(test)]
mod expected;
#[cfg(test)]
mod help;
#[cfg(test)]
mod init;
#[cfg(test)]
mod program;
pub mod scenarios;
#[cfg(test)]
mod show;
#[cfg(test)]
mod verify;
#[cfg(test)]
mod workers;

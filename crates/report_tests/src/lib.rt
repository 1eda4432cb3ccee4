//! Tests of reports: printed traces, what is printed of a history and of blocks; the lines of sessions and of their answers.
//! Verdicts on reports are rows (`tests/rows/verify`).
//!
//! They stand apart from the crates that they test, since a crate with tests is proved twice.
#![tactic(auto)]

#[cfg(test)]
mod goods;
#[cfg(test)]
mod printing;
#[cfg(test)]
mod sessions;
#[cfg(test)]
mod shop;
#[cfg(test)]
mod traces;

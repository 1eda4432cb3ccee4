//! Tests of the rules of the scheduler, one by one: how a process goes on, what is held against others, what a piece waits for,
//! and who goes back together.
//!
//! They stand apart from the crates that they test, since a crate with tests is proved twice.
#![tactic(auto)]

#[cfg(test)]
mod admitting;
#[cfg(test)]
mod dragging;
#[cfg(test)]
mod going_on;
#[cfg(test)]
mod holding;
#[cfg(test)]
mod plans;

//! Generated scenarios, for trials: the same text for the same two numbers.
//!
//! `specs/Draws` has the numbers that are drawn for each process, and `specs/Generated` the text. `generate` prints it. The
//! operations and the conflicts are the same in each scenario; each process has two steps and then a choice, and sometimes a step
//! that is refused once.
#![tactic(auto)]

mod generator;
mod printing;

pub use printing::generate;

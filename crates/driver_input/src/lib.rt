//! What a driver says first: the scenario in front of its lines.
//!
//! `take_scenario` takes it of a source, with its mark, and leaves the lines to whoever takes them. `specs/Preamble` says what is
//! taken, and what is told where no scenario came; `specs/Parts` what becomes of the lines of a scenario, one after another.
#![tactic(auto)]

mod parts;
mod preamble;

pub use preamble::{Preamble, take_scenario};

//! The command `serve`: the lines of a driver, each answered before the next is taken, over files that are opened for a scenario.
//!
//! `specs/Dialogue` says what lines do one after another, each as `driver_answers` answers it, and how a dialogue ends;
//! `specs/Serve` what the command has to say and what the files are then. `converse` holds a dialogue over an engine, a source and
//! a sink, and `serve` one over files.
#![tactic(auto)]

mod command;
mod dialogue;
mod exchange;
mod faults;
mod taking;

pub use command::{Ending, Served, serve};
pub use dialogue::converse;

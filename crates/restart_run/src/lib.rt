//! The command `restart`: the history of nine files is completed, and the completed history is printed.
//!
//! `specs/Restart` says what there is to say and what the files are then, and when the report is there; `specs/Boxes` what the
//! boxes that are handed back have in them. Who completes the history is `process_restart`, and `scenario_run` prints reports.
#![tactic(auto)]

mod command;

pub use command::restart;

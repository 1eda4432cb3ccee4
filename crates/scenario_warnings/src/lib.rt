//! What is allowed in a scenario and most likely a mistake.
//!
//! `warnings` lists it for a catalog and the plans of processes: an operation that no process uses, two operations that conflict in
//! value though the catalog names no conflict of them, a process whose name an earlier one has, a step that holds a seat with 0, and
//! one that takes less than nothing (`specs/Warnings`). `shown` has a line for each of the first `MOST_SHOWN`, and says how many more
//! there are (`specs/Lines`). Whether a command refuses a scenario for them is no work of this crate.
#![tactic(auto)]

mod finding;
mod lines;
mod warning;
mod words;

pub use finding::warnings;
pub use lines::{MOST_SHOWN, shown};
pub use warning::Warning;

//! Logs of foreign schedules: what another scheduler did, as lines of text.
//!
//! `specs/Logs` says what the lines behind a scenario tell of its processes, one after another, and which line is the first that is
//! none. `divide` and `read_log` answer that. `history_of` makes a history of what was told, and `out_of_order` tells the first of
//! its events that isn't in own order (`specs/Copies`). Whether what was told was safe is no work of this crate.
#![tactic(auto)]

mod finding;
mod histories;
mod log;
mod reading;

pub use histories::{history_of, out_of_order, plans_of};
pub use log::Log;
pub use reading::{divide, read_log};

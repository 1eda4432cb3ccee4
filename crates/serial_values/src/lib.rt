//! What a list of steps leaves of the values of empty books, and the lines that tell it.
//!
//! `values_text` says each value that isn't 0, or names two operations whose order may matter to the values though the catalog names no
//! conflict of them (`specs/Told`). By the law of `serial_lists_leave_what_logs_leave` a serial list to which the schedule of a
//! completed history is brought leaves what that leaves, where the catalog names each conflict in value (`specs/Laws`): it asks for
//! own order alone, so it is so of the log of any scheduler.
#![tactic(auto)]

mod keys;
mod laws;
mod telling;
mod values;

pub use laws::serial_lists_leave_what_logs_leave;
pub use telling::values_text;

//! Who has to go back together, and whether an undo may come, by the tables of what the open processes hold.
//!
//! `closure` writes the least cascade of `machine_model` (`Cascade.IsCascade`) into a set of processes, and `undo_ready` answers by
//! rule A5 of `schedule_model` (`Blocking.against_undo`). Both are over the holdings for which the tables stand, and take no
//! memory: the room of a set is taken before. `undo_ready` is for callers of this crate alone: `process_core` asks `admission`.
#![tactic(auto)]

mod drag;
mod marks;
mod members;
mod spread;
mod undo;

pub use members::Members;
pub use spread::closure;
pub use undo::undo_ready;

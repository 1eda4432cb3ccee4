//! Whether the next piece of a process may be handed out.
//!
//! `admit` is the least of what stands against the piece by the rules A0 to A5 (`specs/Admission`), over the holdings for which
//! the tables of `hold_tables` stand. The layer above asks for each process that may be next. `victim` is for callers of this crate
//! alone: `process_core` finds its victim itself, as it asks from the greatest process down. No call takes memory.
#![tactic(auto)]

mod admission;
mod circle;
mod held;
mod least;
mod net;
mod owed;
mod processes;
mod victims;

pub use admission::{admit, is_reserved};
pub use held::{is_barred, is_held_up};
pub use hold_tables::{Admitted, Blocked, Rule};
pub use machine_model::Todo;
pub use net::place_of_step;
pub use victims::victim;

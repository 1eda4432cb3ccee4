//! By which rule an event may not come after a history.
//!
//! `refusing_rule` names the first of the rules A0 to A5 by which something stands against the first event of a history that may
//! not come (`specs/Refusing`), where the history is in own order. What stands against an event is defined in `schedule_model`,
//! and `history_judging` finds that event.
#![tactic(auto)]

mod conflicting;
mod held;
mod refusing;

pub use machine_model::Rule;
pub use refusing::refusing_rule;

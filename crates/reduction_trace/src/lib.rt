//! The reduction of legal histories, computed.
//!
//! `trace` answers how the schedule of a completed history is brought to a serial one: the printed trace that
//! `schedule_model/specs/PrintedTrace` determines, by the cancel phase (`cancelling`) and the serial phase (`ordering`). Both
//! work on the list of the entries that are left, from which each entry is taken once, so that a move is told by places alone
//! and nothing is exchanged. That the steps lead to a serial list is the law `ReductionLaw`. `docs/SCHEDULES.md` explains it.
#![tactic(auto)]

mod cancelling;
mod ordering;
mod places;
mod reduction;
mod schedule;

pub use reduction::{Entries, Reduction, TraceSteps, trace, trace_of};
pub use schedule_rules::{Event, Events, History, Plans, TraceStep};

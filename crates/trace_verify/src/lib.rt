//! Reports judged: whether the printed steps of a report bring its schedule to the printed serial list.
//!
//! `specs/Forms` says which forms the lines of a report have, with keys (`Form::Keyed`) or without, `specs/Reports` what a report
//! is, and `specs/Verdicts` the verdict on a text; the steps and what is serial are those of `schedule_model`. `verify` answers the
//! verdict. It takes nothing on trust from whoever wrote the report: the schedule, the conflicts, the steps and the serial list are
//! all read from it, and whether that schedule is what happened is no work of this crate.
#![tactic(auto)]

mod applying;
mod comparing;
mod cutting;
mod form;
mod forms;
mod laws;
mod names;
mod numbering;
mod reading;
mod report;
mod section;
mod verdict;

pub use cutting::cut;
pub use form::Form;
pub use forms::number_of;
pub use laws::{acceptance_is_exact, numbers_are_names, verdicts_mean};
pub use verdict::{Verified, verify};

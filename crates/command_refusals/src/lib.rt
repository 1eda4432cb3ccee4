//! The lines that the program prints of itself: verdicts on processes, and refusals, each with the status that it leads to.
//!
//! `specs/Statuses` has the statuses and their numbers, `specs/Refusals` the line and the status of each refusal, and
//! `specs/Verdicts` the verdict lines. The lines of reports are `process_report`'s. `specs/Order` says what a list of tests refuses
//! first; which tests a command has, and in which order, is said in the command's own crate.
#![tactic(auto)]

mod faults;
mod refusal;
mod shown;
mod status;
mod verdict;

pub use faults::{FileFault, Quantity, ReportFault, ScenarioFault};
pub use refusal::Refusal;
pub use shown::ShownWord;
pub use status::Status;
pub use verdict::{first_verdict, verdicts};

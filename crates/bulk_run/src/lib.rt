//! The command `bulk`: a generated scenario is run on files that are made for it, and what came of it is counted.
//!
//! `specs/Summary` says what is counted of a history and of its printed trace, and the line of it. `specs/Bulk` says what there is
//! to say and what the files are then, and `specs/Completeness` when the line is there. The text is `scenario_gen`'s, the files are
//! made as `init_run` makes them, and the processes start and run as in `scenario_run`.
#![tactic(auto)]

mod running;
mod saying;
mod summing;

pub use running::bulk;
pub use summing::Summary;

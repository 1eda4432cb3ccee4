//! What commands read, and what they have to say.
//!
//! `text_of` reads the whole input within its limit and `processes_of` the processes of its text (`specs/Inputs`); `document_of`
//! and `scenario_of` give the catalog and the plans of a scenario, and `good_plans` those of a text of processes, or the first
//! refusal (`specs/Scenarios`). `tell` writes a text, and `refusal_line` is that of a refusal (`specs/Outputs`). `specs/Early` says
//! which refusals come before a command calls the rack, and `specs/FilesLeft` in which words commands speak of their files. The
//! texts of refusals are `command_refusals`'.
#![tactic(auto)]

mod input;
mod said;
mod scenario;
mod telling;

pub use input::{processes_of, text_of, text_refusal};
pub use said::{CommandEnd, Said};
pub use scenario::{Bound, NoPlans, document_of, good_plans, scenario_of};
pub use telling::{refusal_line, tell};

//! Histories judged: whether each event may come after those before it.
//!
//! `Legality` judges a history event by event, by tables of what stands, what is owed and what each process may still need; it
//! is within the limits or not at any time. `legal` goes over a whole history and tells the first event that may not come. Both
//! answer as `is_legal`, `may_come` and the limits of `schedule_model` say. A call that takes memory answers so where there is
//! none, and nothing else.
#![tactic(auto)]

mod access;
mod against;
mod circle;
mod judging;
mod keeping;
mod laws;
mod legal_history;
mod legality;
mod order;

pub use laws::more_plans_judge_alike;
pub use legal_history::{LegalError, legal};
pub use legality::{EventError, Legality};
pub use schedule_model::{Event, Events, History, Plans};

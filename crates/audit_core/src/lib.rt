//! The audit of a foreign schedule: was what some other scheduler did safe at every moment?
//!
//! `audit` takes a history in own order and looks at each of its beginnings, completed as if all had stopped there: could it be
//! brought to one process after another by exchanges and cancels? It answers the serial order of the whole where each could; else
//! the least beginning that couldn't, and what stands in the way (`specs/Audits`, over the definitions and laws of
//! `dependence_model`). Steps are taken away with their undos (`taking`) until no more can be, what is left is asked for undos
//! (`judging`) and for cycles (`cycles`, over rows of bits), and put in order (`ordering`). It reads no text and prints none.
#![tactic(auto)]

mod arrowing;
mod auditing;
mod cycles;
mod dependence;
mod judging;
mod ordering;
mod placing;
mod taking;

pub use auditing::{MOST_EVENTS, audit};
pub use dependence_model::Placed;
pub use judging::Audited;

//! The lines of a session, one by one: each is one call of the scheduler, and its answer is printed.
//!
//! `specs/Playing` says what each line makes of the machine and what is printed of it, and `specs/Answering` what its answer does
//! to an engine. `play_line` answers a line over an engine and the pieces at hand (`AtHand`), or tells why the session ends with it
//! (`Cut`); `play_plan` starts a process of a plan that is no scenario's. What lines say and how answers read is
//! `session_text`'s; lines one after another, and the command, are `session_run`'s.
#![tactic(auto)]

mod asking;
mod at_hand;
mod beginnings;
mod cut;
mod finishing;
mod flushing;
mod lines;
mod pieces;
mod printing;
mod queueing;
mod starting;

pub use at_hand::AtHand;
pub use cut::Cut;
pub use lines::play_line;
pub use starting::play_plan;

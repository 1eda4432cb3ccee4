//! Gates: two that do the work of pieces, or refuse it, as they were told beforehand; and one thread that runs processes with a
//! gate.
//!
//! `PlainGate` refuses a piece as often as its step says, and tells that (`specs/Gates`). `ScriptGate` refuses the calls that it
//! was given, whatever the piece is, and tells nothing of pieces. `run_alone` runs the processes of an engine until all have ended
//! or one is stuck (`specs/Running`).
#![tactic(auto)]

mod alone;
mod plain;
mod script;

pub use alone::{RunOutcome, run_alone};
pub use plain::PlainGate;
pub use process_engine::{Answer, Gate};
pub use script::ScriptGate;

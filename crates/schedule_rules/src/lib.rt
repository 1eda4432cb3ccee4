//! Histories computed: what `schedule_model` defines is answered here.
//!
//! Who is active in a history and which entries of it stand (`active`, `net`), what completes it (`completed`), what a reduction
//! step leaves of a list (`apply`) and where a list isn't serial (`not_serial`). Beside these stand the parts of which they are
//! made, for `history_judging`: what conflicts, what a process has done, may undo and owes. Each call equals its definition in
//! `schedule_model`. A call that takes memory answers so where there is none, and nothing else.
#![tactic(auto)]

mod applying;
mod completion;
mod events;
mod laws;
mod planned;
mod serial;

pub use applying::{apply, conflict};
pub use completion::{backward, completed, has_same_step, of_process, owed, started, steps_of};
pub use events::{active, is_same_step, net, take_effect};
pub use laws::beginnings_are_good;
pub use planned::{entry_of, planned_key, planned_op, step_key};
pub use schedule_model::{Event, Events, History, Plans, TraceStep};
pub use serial::not_serial;

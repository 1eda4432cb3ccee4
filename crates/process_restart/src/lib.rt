//! Restart: the history of nine files is completed, piece after piece, in exactly the order of its completion.
//!
//! `complete` goes on with an engine that was opened: all active processes begin to complete, and then the piece of whoever comes
//! next is handed out, worked on by a gate and ended, until nobody is active or the process whose turn it is has used up its tries
//! (`specs/Completing`, and `specs/Turns` of one turn). `restart` does this on files: it opens them, and hands an engine back, or
//! the parts and why (`specs/Restarting`). A crash meanwhile leaves files that are sound for a history on the way to the same
//! completed one, so a restart may be stopped and done again.
#![tactic(auto)]

mod completing;
mod restarting;

pub use completing::{Completion, complete};
pub use engine_steps::OpenError as RestartError;
pub use restarting::{Restarted, restart};

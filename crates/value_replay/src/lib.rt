//! The printed order of a history, executed one process after another.
//!
//! `replay` clears the boxes of the subsystems and executes the printed serial list on them, step by step, through `Resource`; it
//! answers each step with the value that stood at its key before (`specs/Replays`). By the value law of `value_rules` the boxes then
//! have the values that the history leaves. A catalog that names not each conflict in value is refused, since there the order may
//! matter; so is want of memory, and then the boxes are empty.
#![tactic(auto)]

mod execution;
mod line;

pub use execution::replay;
pub use line::{Line, Lines, ReplayRefused, Replayed};

//! The command `replay`: what the books show, had the processes been run one at a time.
//!
//! `replay` reads the history of file 0 and executes its printed serial list on empty boxes (`value_replay`). It says each step
//! with the value that it found, and then each value that isn't 0, which are those of the history itself. `specs/Printed` has what
//! is printed, and `specs/Replay` what is due on the files, in the order of its tests. `sound_catalog` refuses a catalog
//! under which the order may matter (`specs/Soundness`).
#![tactic(auto)]

mod command;
mod idleness;
mod printing;
mod soundness;

pub use command::replay;
pub use printing::put_box;
pub use soundness::sound_catalog;

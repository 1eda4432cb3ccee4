//! Names, steps and trees of processes, and what they mean.
//!
//! A process is a tree of steps. `specs/Blocks` says which steps and whole paths a block has, and everything else is said
//! over these two lists (`specs/Shape`): play (`Play`), guaranteed termination (`Termination`) and recovery (`Recovery`).
//! The layers above cite these definitions, and use trees, names, plans and conflict tables as they are made here.
//! Reading and printing texts is no work of this crate.
#![tactic(auto)]

mod block;
mod building;
mod conflicts;
mod entry;
mod good;
mod kinds;
mod laws;
mod limits;
mod measure;
mod name;
mod paths;
mod plan;
mod play;
mod step;
mod tree;
mod turns;
mod walk;
mod ways;

pub use block::{Block, Tail};
pub use conflicts::{Conflicts, Mode};
pub use entry::Entry;
pub use kinds::{commits, commits_behind, fixed_len, key_of, kind_of, op_of};
pub use laws::{
    alternatives_are_intervals, alternatives_are_ways, commit_points_grow, commit_points_stay,
    conflict_is_between_processes, conflict_is_of_steps, conflict_is_symmetric,
    each_step_has_a_path, ends_are_whole, next_steps_have_a_class, one_branch_to_a_step,
    owed_steps_are_not_refused, paths_lie_in_order, paths_part, steps_go_up, whole_paths_end,
};
pub use limits::{
    DEFAULT_TRIES, LEAST_ALTERNATIVES, MOST_ALTERNATIVES, MOST_AMOUNT, MOST_NAME_BYTES,
    MOST_NESTING, MOST_REFUSALS, MOST_STEPS, MOST_TRIES,
};
pub use name::{Name, NameError, is_name};
pub use plan::{Operations, Plan};
pub use play::{Fallback, Outcome, Place, Places, Played};
pub use step::{Step, StepKind, Steps};
pub use tree::{Named, Tree, TreeError};
pub use ways::{branch_to, greater_of, shared};

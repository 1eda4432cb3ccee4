//! The exact check of a process: whether it can get stuck, and whether each alternative of it can be reached.
//!
//! `specs/Verdicts` says what a verdict tells, in the words of guaranteed termination (`process_tree`'s
//! `specs/Termination`), which are those of play. How the check finds it is said by `specs/Flaws`: what can be wrong with a
//! step shows in its place alone. The layer above prints the verdicts, and the branch path of the step that one names.
#![tactic(auto)]

mod checks;
mod flaw;
mod judge;
mod laws;
mod outcomes;
mod verdict;

pub use checks::{check, path};
pub use laws::each_tree_has_a_verdict;
pub use verdict::{Outcomes, Verdict};

//! Writes out what follows a choice.
//!
//! In a plain text a choice is the end of its block. Here `then` may stand behind its `done`, and a block behind that: what follows
//! the choice, whichever alternative was taken. `specs/Reading` says which faults such a text has and what its words are, and
//! `specs/Expansion` what is written in place of it: behind each alternative a copy of what follows, which `specs/Trees` says of trees. `specs/Naming` gives the steps of
//! a copy names of their own, and `specs/Layout` says how it is printed. `expand` answers the plain text, which `process_text` reads,
//! or why there is none. What a text of processes means is no work of this crate.
#![tactic(auto)]

mod expansion;
mod laws;
mod naming;
mod places;
mod reader;
mod tokens;
mod whole;
mod words;
mod writing;

pub use laws::blocks_are_written_out;
pub use tokens::{Role, Token};
pub use whole::expand;

//! The program, but for what only the system's runtime can give: its words, its files and its exit code over a source, a sink
//! and a folder. It brings along what the subsystems need: eight empty boxes, and sixteen plain gates.
//!
//! `program` answers the words of a command; its contract is that of `top` on a rack over a folder that can be used, and else what is
//! told of one that can't. `program_of_system` is what the programs run: it finds the folder and the input that the words name.
//! The programs of `process_main` and of the crates beside it hand it the system's streams and files.
#![tactic(auto)]

mod barred;
mod calls;
mod input;
mod own;
mod system;
mod words;

pub use calls::{Ended, program};
pub use input::CallInput;
pub use own::{OwnBox, new_boxes, new_gates};
pub use system::program_of_system;

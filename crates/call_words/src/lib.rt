//! Parts the words of a call: the folder to work in, the file to read in place of standard input, and the words of the command.
//!
//! `-C` and a folder may stand in front of a command, and behind one that reads standard input the name of a file
//! (`specs/Parts`). What a command is, and which words it takes, `program_words` decides; words that are a command by themselves
//! are parted as they are.
#![tactic(auto)]

mod parting;

pub use parting::{CallParts, call_parts};

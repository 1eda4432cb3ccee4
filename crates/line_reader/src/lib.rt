//! The lines of a source, one at a time, as they come: nothing is read ahead of a line that is there.
//!
//! A `LineReader` keeps the bytes that its source gave and that no line has taken yet; `take_line` takes the next line.
//! `specs/Taking` says what is taken, and what that takes of the source. What a line means is no question of this crate.
#![tactic(auto)]

mod reader;
mod taken;

pub use reader::LineReader;
pub use taken::{TakeError, Taken};

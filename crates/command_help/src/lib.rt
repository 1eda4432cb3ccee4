//! What the program says of itself: a page of help on all commands or on one, and its version. The texts stand in `src/pages.rt`
//! alone; `specs/Pages` says which is whose.
#![tactic(auto)]

mod pages;
mod telling;

pub use telling::{help_text, version_text};

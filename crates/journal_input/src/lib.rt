//! The journal as an input: what commands that open file 0 alone read of it.
//!
//! `opened` answers the catalog and the history of which file 0 is the journal, or why there are none. `specs/Opening` says what that
//! means, and what is told of a journal that was not opened. It writes nothing.
#![tactic(auto)]

mod opening;

pub use opening::opened;

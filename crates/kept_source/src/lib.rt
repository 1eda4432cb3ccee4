//! A source that keeps what it hands on, so that it can be looked at afterwards.
//!
//! `KeptSource` answers as the source in it does, and keeps all bytes where they fit into its room, which is made beforehand, and
//! else none; `specs/Keeping` says so.
#![tactic(auto)]

mod kept;

pub use kept::{KeptSource, MOST_KEPT, Opening, room};

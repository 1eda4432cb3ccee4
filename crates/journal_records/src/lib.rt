//! The records of a journal and their bytes.
//!
//! `specs/Bytes` says which bytes stand for each record, and which record bytes are. The layer above decides what a record
//! means for the history before it.
#![tactic(auto)]

mod bytes;
mod laws;
mod record;

pub use bytes::{MOST_BYTES, read, write};
pub use laws::records_are_read_back;
pub use record::{Body, Record};

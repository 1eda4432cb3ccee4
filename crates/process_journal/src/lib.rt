//! The journal: file 0 is the log of a catalog's setup and of the records of a legal history.
//!
//! `specs/Journals` says which histories a journal may have and what a record makes of one, `specs/Bodies` which bodies are
//! the journal of a catalog and a history, and `specs/Reading` what is read of file 0: the history of which it is the journal,
//! or the first record at fault. `specs/Opened` says what an open journal stands for, and `specs/Laws` that a file is the journal
//! of one catalog and history at most. The layer above decides which event comes next.
#![tactic(auto)]

mod errors;
mod journal;
mod laws;
mod parts;
mod plans;
mod reading;
mod replay;

pub use errors::JournalError;
pub use journal::Journal;
pub use journal_records::{Body, Record};
pub use laws::{journals_are_opened, journals_have_one_history, journals_keep_histories};

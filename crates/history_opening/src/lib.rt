//! Nine files are opened for the history of their journal.
//!
//! `open_files` reads the journal and the stores, compares each book with the effects of the history, and then settles what is in
//! doubt by it: it makes `Files` of `history_files` that stand for the history, or says why not. `specs/Opening` says which files
//! are refused, and `specs/Comparing` where a book and the effects differ first. `specs/Images` says what a crash leaves, and
//! `sound_files_are_opened` that sound files are refused for a fault of the rack or want of memory alone. The layer above opens an
//! engine over the answer.
#![tactic(auto)]

mod comparing;
mod effects;
mod faults;
mod laws;
mod opening;
mod reading;
mod settling;

pub use faults::{BookFault, OpenError, OpenRefused};
pub use laws::sound_files_are_opened;
pub use opening::open_files;

//! Durable stores: the effects on a subsystem in a file, and their values in a box.
//!
//! Effects are prepared, and then committed or rolled back, one or several together; a crash leaves the store before or after each of
//! these. The committed effects are the book, and the box of an open store has the values of its book (`specs/Values`). `specs/Bodies`
//! says which bytes stand for each record, `specs/Order` in which order they come and what is refused of a file first,
//! `specs/Opened` what an open store stands for, and `specs/Laws` which books a store may have; each is read back as that book.
//! The layer above decides what becomes of the effects that are in doubt.
//!
//! A prepare and a commit are taken by parts that sync nothing, so that several stores share their syncs (`specs/Staged`): records are
//! staged, written, their gate opened, and then taken. `make_room` has taken before what memory that needs.
#![tactic(auto)]

mod account;
mod bodies;
mod effect;
mod errors;
mod laws;
mod matching;
mod replaying;
mod store;

pub use account::MOST_EFFECTS;
pub use effect::Effect;
pub use errors::{StoreError, StoreRefused};
pub use laws::{books_are_read_back, calls_make_good_books, effects_fit_their_bytes};
pub use matching::same_call;
pub use store::Store;

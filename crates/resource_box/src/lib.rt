//! Resources: what an operation's call does to the values of a subsystem.
//!
//! A resource means a map of keys to numbers (`specs/Meaning`), which each call changes by one table (`specs/Table`) and by
//! nothing else. `Counters`, `Cells` and `Seats` are the three kinds; a box of any of them is a resource too. The layer above
//! keeps a resource beside a log of calls and makes their values the same.
#![tactic(auto)]

mod boxed;
mod call;
mod cells;
mod counters;
mod laws;
mod resource;
mod seats;
mod table;
mod values;

pub use call::{Call, Kind};
pub use cells::Cells;
pub use commute_table::Verb;
pub use counters::Counters;
pub use laws::maps_are_changed_at_one_key;
pub use resource::Resource;
pub use seats::Seats;

#[cfg(test)]
mod tests;

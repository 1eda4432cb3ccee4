//! When the printed order of processes gives the values that their history gave.
//!
//! `value_sound` of `value_conflict` says whether a catalog names each conflict in value: operations of one subsystem conflict
//! in value unless both look, both add, or both take. Under such a catalog the printed serial list of a history leaves the values
//! that the history leaves, its steps find what they find there, and nothing is barred in it that wasn't (`specs/HistoryValues`).
//! This rests on what exchanges and cancels keep (`specs/Laws`), said of ledgers (`specs/Ledgers`). And the order of the list is
//! one of real time. The functions of `laws` carry these laws.
#![tactic(auto)]

mod laws;

pub use laws::{order_is_of_real_time, reduction_keeps_values, serial_lists_keep_values};
pub use value_conflict::{Commuting, first_commuting_is_exact, value_sound};

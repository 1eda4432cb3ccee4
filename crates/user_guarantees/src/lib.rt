//! What users of the scheduler may rely on, as laws over the machine of `machine_model` and the histories of `schedule_model`.
//!
//! `specs/Independence` says who shares nothing with the others, and that such a process waits for nobody and goes back for
//! nobody; `Tables` that what may happen under a table may happen under each with fewer conflicts; `FirstWay` that a process
//! takes its first way unless something that is kept keeps it from it. Each law is carried by a function of `laws` that does
//! nothing. This crate has no algorithm.
#![tactic(auto)]

mod laws;

pub use laws::{
    fewer_conflicts_allow_more, fewer_conflicts_fail_no_earlier, looser_tables_allow_more,
    preferred_way, tables_by_key_conflict_by_key, undos_have_causes,
    who_has_its_keys_is_left_alone, who_shares_nothing_goes_back_of_itself,
    who_shares_nothing_is_left_alone,
};

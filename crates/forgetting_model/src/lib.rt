//! Forgetting is invisible: what has ended can be dropped from a history at any moment, and nobody can tell.
//!
//! `specs/Remaining` says what remains of a history without the processes that have ended, and which numbers those that go on
//! have from then on. `specs/Laws` says that what remains is legal, that it goes on exactly as the whole does, and that it is
//! completed and put in serial order as the whole is. `specs/Moments` says what is left of a moment of the machine, and that each
//! kept event leads on alike; `Replies` that each call answers what it answered before. Each law is carried by a function of
//! `laws` that does nothing. This crate has no algorithm.
#![tactic(auto)]

mod laws;

pub use laws::{
    completion_is_the_same, each_is_served_alike, each_way_on_is_met, events_lead_alike,
    forgetting_changes_no_answer, forgetting_changes_no_finish, forgetting_changes_no_flush,
    forgetting_changes_no_queue, forgetting_changes_no_request, forgetting_changes_no_state,
    forgetting_changes_no_victim, forgetting_is_invisible, forgetting_twice_is_forgetting_once,
    serial_list_goes_on, serial_order_goes_on, something_is_left, what_remains_goes_on_alike,
    what_remains_is_legal, what_remains_is_of_the_active, what_remains_takes_starts,
};

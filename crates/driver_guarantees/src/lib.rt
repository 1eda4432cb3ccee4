//! What drivers of the scheduler may rely on, as laws over the machine of `machine_model`.
//!
//! `specs/Dialogue` says what a driver is told that finishes each piece before it asks again, and whom requests for any piece
//! serve: that such a dialogue ends, and that nobody is passed over. Each law is carried by a function of `laws` that does
//! nothing. `specs/Effects` says of sessions what the machine of `exactly_once` takes of the program. This crate has no algorithm.
#![tactic(auto)]

mod laws;

pub use laws::{dialogues_end, nobody_is_passed_over, sessions_keep_order};

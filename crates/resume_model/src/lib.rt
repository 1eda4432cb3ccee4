//! Machines that open at a moment: a history together with who has begun to complete and why, and which steps were refused and
//! aren't tried again.
//!
//! `specs/Openings` is what is known at an opening, and `Sound` computes when it may be opened: the history is legal and within
//! its limits, beginnings and refusals belong to it, and those who go back are closed under cascades. `Resumed` has the machines
//! that open so and what a stop leaves of one, `StopLaws` that a stop takes nothing back, and `MomentLaws` what holds at each moment
//! of such a session. The machine of `machine_model` that opens on a history alone is one of these. This crate has no algorithm.
#![tactic(auto)]

mod laws;

pub use laws::{
    calls_keep_sessions, flushes_keep_sessions, moment_laws_hold, rest_is_sound,
    starts_keep_sessions, stops_block_nobody, stops_resume,
};

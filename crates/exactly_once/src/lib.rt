//! A driver that keeps to its rule has the work of each step exactly once in a system of its own, over stops of either side.
//!
//! `specs/Machine` has the driver, the program beside it and the system, which may stop at any moment, as a pure machine:
//! `specs/Names` what the system has of each name, `specs/Settling` what the driver does after each start. `specs/Laws` says what holds
//! whatever happens; each law is carried by a function of `laws` that does nothing. This crate has no algorithm.
#![tactic(auto)]

mod laws;

pub use laws::{each_step_exactly_once, nothing_done_twice, settling_ends};

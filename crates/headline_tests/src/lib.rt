//! A worked example of the headline: files are made, a session is played on them, a stop falls in it, and `restart` is answered on
//! what is left. All that the law asks for holds here, and in the cases every restart ends with status 0, so what it says of one
//! isn't empty. A second example is a chain: a run by three workers that is stopped, `serve` on what that left, which is stopped too,
//! and `restart`.
//!
//! `specs/Example` says what the example is and what it has; `example` is the calls, over objects in memory, with gates that
//! refuse nothing and a rack that is stopped wherever one likes.
#![tactic(auto)]

mod calls;
#[cfg(test)]
mod cases;
mod example;

pub use calls::Told;
pub use example::{Stop, run_served_and_restarted, stopped_and_restarted};

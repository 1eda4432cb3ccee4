//! Tests of the scheduler: plays of up to three processes, whose answers, histories and causes follow from the rules; tries, which
//! each session counts anew; and openings and starts where there is memory enough.
//!
//! They stand apart from the crates that they test, since a crate with tests is proved twice.
#![tactic(auto)]

#[cfg(test)]
mod calls;
#[cfg(test)]
mod choosing;
#[cfg(test)]
mod going_back;
#[cfg(test)]
mod plays;
#[cfg(test)]
mod rooms;
#[cfg(test)]
mod sessions;
#[cfg(test)]
mod starts;
#[cfg(test)]
mod waiting;

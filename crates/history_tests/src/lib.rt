//! Tests of histories and journals: what no clause of `journal_records`, `schedule_rules`, `history_judging` and `process_journal`
//! says.
//!
//! They stand apart from the crates that they test, since a crate with tests is proved twice.
#![tactic(auto)]

#[cfg(test)]
mod damages;
#[cfg(test)]
mod entries;
#[cfg(test)]
mod events;
#[cfg(test)]
mod journals;
#[cfg(test)]
mod legality;
#[cfg(test)]
mod records;
#[cfg(test)]
mod undoable_until_owed;

//! What a refusal means to a person: where in the input it comes from, and what to do.
//!
//! `hint` gives the line that stands on standard error beside a refusal. The line of the refusal itself is `command_refusals`', and
//! programs read that one. `specs/Places` says what a place is, `specs/Pointing` what the hint of each refusal points at, and `specs/Hints`
//! how it reads. The texts stand in `src/remedies.rt` alone.
#![tactic(auto)]

mod about;
mod documents;
mod found;
mod hints;
mod keys;
mod lines;
mod near;
mod parts;
mod places;
mod pointing;
mod remedies;
mod tables;
mod words;

pub use documents::InputForm;
pub use hints::{hint, placeless_hint};
pub use places::places_of_parts_are_places;
pub use remedies::{ending_hint, starved_hint};

//! What a call says to people, beside its answer: on standard error, where no program reads it.
//!
//! Beside a refusal stands its hint, which names the place in the input that was read, where it is known; beside the answer of an
//! `init` that made its files, or that holds something against its scenario, the warnings of it (`specs/Diagnostics`). The texts are those of `refusal_hints` and
//! `scenario_warnings`. What was answered, and at what status, is no work of this crate.
#![tactic(auto)]

mod said;
mod told;

pub use told::tell_beside;

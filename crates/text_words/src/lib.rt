//! The words of process texts.
//!
//! `specs/Words` says which words a text has, `specs/Places` where they stand, and `specs/Numbers` and `specs/Marks` what a word
//! is: a number, the kind of a step, an option of one, or what opens, divides or closes a block. `Words` gives the words of a
//! text one by one, `meaning` and `closing` tell what a word is at a place in a block, and `Names` has the names that are taken.
//! Which words write a process is no work of this crate.
#![tactic(auto)]

mod expected;
mod marks;
mod names;
mod numbers;
mod options;
mod places;
mod words;

pub use expected::Expected;
pub use marks::{At, Mark, Next, Setting, closing, expected_at, meaning};
pub use names::Names;
pub use numbers::{amount, key, number};
pub use options::setting_number;
pub use places::{Position, nth_place};
use words::is_blank;
pub use words::{Words, is_word};

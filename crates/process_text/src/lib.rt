//! Reads and prints process texts.
//!
//! `specs/Grammar` says which words write which processes, `specs/FirstFault` what is told of a text that can't be read, and
//! `specs/Canonical` has the one text that is printed of a process. `read` answers the processes of a text or its first fault, and
//! `print` the canonical text, which is read as the process that was printed. Which words a text has, where they stand and what
//! each of them is stands in `text_words`; what processes mean is no work of this crate.
#![tactic(auto)]

mod blocks;
mod error;
mod fault;
mod laws;
mod new_names;
mod places;
mod printing;
mod processes;
mod reading;
mod steps;

use blocks::read_block;
pub use error::TextError;
use fault::Fault;
pub use fault::What;
pub use laws::{each_text_has_a_reading_or_a_fault, readings_are_alike};
use new_names::{name_of, read_new_name};
pub use printing::print;
pub use reading::{read, read_again};
use steps::add_step;
pub use text_words::{Expected, is_word, number};

//! The report of a history, and the text of a block.
//!
//! `specs/Report` says what is printed of a catalog, a history and the causes of a session: seven sections, each a title and lines,
//! with keys where the catalog is of version 2. `specs/Lines` has the words of each line, and `specs/Names` the names that stand
//! for numbers. `report` answers that text, and `blocked_text` what a piece waits on (`specs/Blocks`). What names a step on a line,
//! and a line of words, is offered to the layers above. What a history means is `schedule_model`'s, and `docs/FORMATS.md` has the
//! format. Reading a report is no work of this crate; `printed_reports_are_accepted` carries that `verify` of `trace_verify`
//! accepts what is printed.
#![tactic(auto)]

mod blocks;
mod causes;
mod conflicts;
mod ends;
mod events;
mod laws;
mod lines;
mod names;
mod printing;
mod steps;

pub use blocks::{blocked_text, place_word};
pub use conflicts::form_of;
pub use ends::put_end;
pub use events::{act_word, put_entries};
pub use laws::printed_reports_are_accepted;
pub use lines::{put_four, put_line, put_words};
pub use names::{op_name, process_name, step_name};
pub use printing::{report, report_of};

//! The language of sessions: the lines that a session reads, and those that it prints.
//!
//! `specs/Sessions` says how a text is divided into a scenario and event lines and what these say, line by line, or which line is
//! the first that has no form; `specs/Forms` has the form of each line. `divide` and `read_lines` answer that. `specs/Answers` has
//! the line of each answer of the machine, and the functions of `answers`, `requests` and `finishing` write these. What a line
//! does, and which answer is due, is no question of this crate.
#![tactic(auto)]

mod answers;
mod finishing;
mod forms;
mod line;
mod reading;
mod requests;

pub use answers::{put_block, put_exhausted, put_number, put_piece};
pub use finishing::{
    put_all_ended, put_group_open, put_no_piece, put_no_refusal, put_nothing_queued, put_refusal,
    put_waiting,
};
pub use forms::line_of;
pub use line::{Line, LinesError};
pub use reading::{Divided, divide, read_lines};
pub use requests::{put_aborted, put_no_process, put_not_started, put_started};

//! The language of drivers: what their lines ask for beyond a session's, and the lines of the answers.
//!
//! `specs/Requests` has the form of each line, and `request_of` reads it. `specs/Answers` has the words of each answer, and how an
//! answer of several lines is told from one line; `specs/Readiness` has what a driver reads first. The functions of `answers`,
//! `calls`, `frames` and `readiness` write these. What a request does is no question of this crate.
#![tactic(auto)]

mod answers;
mod calls;
mod frames;
mod readiness;
mod request;
mod requests;

pub use answers::{put_bad_line, put_completing, put_happening, put_no_step, put_ready};
pub use calls::{add_call, put_called_piece};
pub use frames::framed;
pub use readiness::ready_text;
pub use request::{Happening, Request};
pub use requests::request_of;

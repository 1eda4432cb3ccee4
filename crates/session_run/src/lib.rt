//! The command `session`: event lines, each of which is one call of the scheduler, over files that are opened for a scenario.
//!
//! `specs/Playthrough` says what lines do one after another, each as `session_play` answers it, and `specs/Session` what a session
//! has to say. `play_lines` answers lines over an engine, and `session` those of a source over files.
#![tactic(auto)]

mod command;
mod playthrough;

pub use command::session;
pub use playthrough::play_lines;
pub use session_play::{AtHand, Cut, play_line};

//! The scheduler: which piece of which process may be worked on next, and what the end of a piece leads to.
//!
//! A core is seen as a machine of `machine_model` with the plans of its processes (`specs/Cores`). What it keeps is what the
//! machine says at its moment: a seat for each process, and the tables of what the active ones hold (`core_state`). It opens on any
//! legal history. Each call keeps and answers what the machine does (`specs/Answers`); only `open`, `make_room` and `start` take
//! memory, and `start_in` starts a process in room that was made before (`specs/StartRoom`).
#![tactic(auto)]

mod choosing;
mod completing;
mod cores;
mod effected;
mod handing;
mod limits;
mod pieces;
mod refusing;
mod replies;
mod start_room;
mod starting;

pub use core_state::tables_stand_for_holdings;
pub use cores::Core;
pub use limits::Counts;
pub use machine_model::{Aborted, Began, Cause, Kept, PieceState, Refusal, StartWhy, Work};
pub use pieces::Piece;
pub use replies::{Admit, Next, Waiting};
pub use start_room::StartRoom;
pub use starting::StartRefused;

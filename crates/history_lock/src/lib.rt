//! A lock that serves its callers by tickets, and whose turns are one history.
//!
//! A desk (`Desk`) has a state, a thread has a seat (`Seat`). In its turn (`Turn`) a seat has the state to itself, may change it,
//! and leaves an entry. What the state means to the list of all entries is up to the state (`Held`). A seat tells what it has seen
//! of that list, which places of it are its own, and its share of the whole (`specs/Seats`). Seats are split and joined, and the
//! one that has the whole share again closes the desk and knows all that happened. No clause says that a turn is ever got.
//! `specs/Rule` has what is true at any time.
#![tactic(auto)]

mod changes;
mod desk;
mod held;
mod law;
mod lending;
mod opening;
mod seats;
mod steps;
mod turns;
mod view;

pub use desk::{Desk, DeskRefused, Seat, Turn};
pub use held::Held;
pub use view::View;

//! What a core keeps of its processes, and what each event makes of that.
//!
//! A core is a machine of `machine_model` with the plans of its processes (`specs/Cores`). Of each process that started it keeps a
//! seat, and of what the active ones hold the tables; what both are at a moment of the machine is said in `specs/Seats` and
//! `OpenTables`. Here they are made at an opening on any legal history, and changed by what happens: work comes under way, takes
//! effect or is refused, and processes begin to complete. `process_core` puts these together to the calls of the scheduler. Only
//! the opening takes memory.
#![tactic(auto)]

mod beginnings;
mod effects;
mod laws;
mod members;
mod opening;
mod owed;
mod refusals;
mod room;
mod seats;
mod settled;
mod some_seats;
mod tables;
mod under_way;
mod undoing;

pub use beginnings::{Beginners, begin, begin_each, drag_along};
pub use effects::{effect, event_told};
pub use laws::tables_stand_for_holdings;
pub use members::Cascade;
pub use opening::opened_seats;
pub use refusals::{drags_along, refuse};
pub use room::{kept_for, room_at_opening};
pub use seats::{Seat, Upcoming};
pub use settled::{need, settled_count};
pub use some_seats::{some_can_begin, some_runs};
pub use tables::opened_tables;
pub use under_way::come_under_way;
pub use undoing::last_pending;

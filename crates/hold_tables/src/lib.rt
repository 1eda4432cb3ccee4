//! What the open processes hold against each other, in tables.
//!
//! `Holds` is seen as a record of plain lists (`Tables` of `specs`): the net entries of the open processes in joint order, and
//! of each open process what is under way, what is reserved, how many of its entries are fixed and how many are pending. They
//! stand for holdings of `schedule_model` (`holdings_of`), over which the blocking rules and the conflict graph are defined.
//! Beside them it keeps how many pairs of entries make the arrow from one open process to another, and where walks over
//! arrows lead (`specs/Counts`, `specs/Arrows`, `specs/Walks`); and rows of bits by operation, of what processes have under way,
//! to undo, reserved and in the net (`specs/Operations`, `specs/Slots`).
//! Each call changes what it names and nothing else. `new`, `open` and `spare` alone take memory: a `Spare` is the room for a
//! process that opens later, by `open_with`.
#![tactic(auto)]

mod against;
mod counting;
mod extending;
mod graph;
mod holds;
mod holds_read;
mod holds_slots;
mod looking;
mod operations;
mod reach;
mod row;
mod slots;
mod spare;
mod uncounting;

pub use bit_rows::{BitRow, Bits};
pub use holds::Holds;
pub use machine_model::{Admitted, Blocked, Rule};
pub use spare::{Spare, SpareCapacity};

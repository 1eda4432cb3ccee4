//! One process on its way: what it does next, and what the end of each piece makes of it.
//!
//! An instance is seen as a process of `machine_model` alone (`ProcessState`, with the course that it is of): its net, the
//! bound below which no way on begins, whether it has begun to complete, and how often its next piece was refused. Each call
//! is a transition of that state. All that is looked up is kept for each step when an instance is made, so that a call
//! searches nothing and takes no memory. The layer above asks for the next piece, and tells how it ended.
#![tactic(auto)]

mod instance;
mod laws;
mod rows;
mod standing;

pub use instance::Instance;
pub use laws::{
    begun_is_not_refused, committed_has_way_on, nothing_pending_after_step, owed_is_above,
    pending_can_be_undone, reserved_uses_no_outcome,
};
pub use machine_model::{Recovery, Refusal, Todo};

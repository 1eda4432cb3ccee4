// Histories.
use crate::{Events, MOST_PROCESSES, Preallocated};
use process_tree::Plan;

/// A list of plans, with room for those that the limits admit.
pub type Plans = Preallocated<Plan, MOST_PROCESSES>;

/// What happened, and the plan of each process: that of process i stands at place i - 1.
#[derive(Drop)]
pub struct History {
    pub plans: Plans,
    pub events: Events,
}

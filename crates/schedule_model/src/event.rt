// Events of a history.
use crate::{MOST_EVENTS, Preallocated};
use process_tree::Entry;

/// What may happen in a history. Processes are numbered from 1 in the order of their starts.
#[derive(Clone, Copy, Debug, PartialEq, Eq)]
pub enum Event {
    /// This process started.
    Start(u32),
    /// A step took effect, or its undo did.
    Act(Entry),
    /// This process ended.
    End(u32),
}

/// A list of events, with room for those that the limits admit.
pub type Events = Preallocated<Event, MOST_EVENTS>;

// Entries with their places.
use process_tree::Entry;

/// An entry of a list, with the place that it has there. It keeps it while others are taken away.
#[derive(Clone, Copy, Debug, PartialEq, Eq)]
pub struct Placed {
    /// Counted from 1.
    pub place: u32,
    pub entry: Entry,
}

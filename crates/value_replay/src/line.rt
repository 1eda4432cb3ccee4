// What is told of a replay.
use plain_list::Items;
use process_tree::Entry;

/// A step, and the value that stood at its key before it.
#[derive(Clone, Copy, Debug, PartialEq, Eq)]
pub struct Line {
    pub entry: Entry,
    pub before: i64,
}

/// A list of lines.
pub type Lines = Items<Line>;

/// Why nothing was replayed.
#[derive(Clone, Copy, Debug, PartialEq, Eq)]
pub enum ReplayRefused {
    /// The catalog names no conflict of these operations, which conflict in value.
    Commuting(u16, u16),
    NoMemory,
}

/// The boxes, handed back, and what was told.
#[derive(Drop)]
pub struct Replayed<B: Drop> {
    pub resources: Vec<B>,
    pub outcome: Result<Lines, ReplayRefused>,
}

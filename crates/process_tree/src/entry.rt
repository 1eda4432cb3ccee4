// Entries of a schedule.

/// A step of a process that took effect, or its undo.
#[derive(Clone, Copy, Debug, PartialEq, Eq)]
pub struct Entry {
    /// Counted from 1.
    pub process: u32,
    /// Counted from 0.
    pub step: u16,
    /// The number of the step's operation.
    pub op: u16,
    /// The key of the step in its plan.
    pub key: u32,
    pub undo: bool,
}

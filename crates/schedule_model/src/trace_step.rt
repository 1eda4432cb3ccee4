// Steps of a reduction.

/// A step that brings a schedule nearer to a serial one. Places count from 1.
#[derive(Clone, Copy, Debug, PartialEq, Eq)]
pub enum TraceStep {
    /// The entry at the first place is carried to the second, by exchanges with its neighbours.
    Move(u32, u32),
    /// The entries at this place and the next are removed: a step, and its undo.
    Cancel(u32),
}

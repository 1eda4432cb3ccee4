// Forms of reports.

/// What the lines of a report say.
#[derive(Clone, Copy, Debug, PartialEq, Eq)]
pub enum Form {
    /// Which operations conflict, and nothing of keys.
    Plain,
    /// The key of each entry, and the mode of two operations that conflict.
    Keyed,
}

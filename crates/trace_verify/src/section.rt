// Sections of a report.

/// Where a line stands: behind the title of a section, or before the first title.
#[derive(Clone, Copy, Debug, PartialEq, Eq)]
pub enum Section {
    Opening,
    Conflicts,
    History,
    Completion,
    Ends,
    Causes,
    Trace,
    Serial,
}

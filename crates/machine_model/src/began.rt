// Beginnings of completion.

/// Why a process began to complete.
#[derive(Clone, Copy, Debug, PartialEq, Eq)]
pub enum Cause {
    /// This step was refused, and there was no way on.
    Refused(u16),
    Abort,
    /// It had built on what this process took back.
    Cascade(u32),
    Victim,
    Restart,
}

/// At which kept event a process began to complete, and why.
#[derive(Clone, Copy, Debug, PartialEq, Eq)]
pub struct Began {
    /// Counted from 1.
    pub event: u32,
    pub cause: Cause,
}

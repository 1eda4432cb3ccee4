// What the machine keeps of a session.

/// What a piece does.
#[derive(Clone, Copy, Debug, PartialEq, Eq)]
pub enum Work {
    /// One try of a step.
    Forward,
    /// One try of a step's undo.
    Undo,
    /// The end of the process.
    End,
}

/// A kept event. Pieces are numbered from 1 in the order in which they were handed out.
#[derive(Clone, Copy, Debug, PartialEq, Eq)]
pub enum Kept {
    /// This process started.
    Start(u32),
    /// This piece was handed out. An end has step 0.
    Hand {
        piece: u32,
        process: u32,
        step: u16,
        work: Work,
    },
    /// This piece took effect.
    Effect(u32),
    /// This piece was refused.
    Refuse(u32),
    /// This process was asked to complete.
    Abort(u32),
    /// This process was chosen to complete, as nothing could go on.
    Victim(u32),
    /// All active processes complete.
    Restart,
}

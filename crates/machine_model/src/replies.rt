// What is said of processes and pieces.

/// What a process does next.
#[derive(Clone, Copy, Debug, PartialEq, Eq)]
pub enum Todo {
    /// This step.
    Forward(u16),
    /// The undo of this step.
    Undo(u16),
    End,
    /// This step, or its undo, has been refused as often as it may be tried.
    Exhausted(u16),
}

/// What a refusal leads to.
#[derive(Clone, Copy, Debug, PartialEq, Eq)]
pub enum Refusal {
    /// Another try, after this many refusals.
    Retry(u8),
    /// Another way.
    Alternative,
    /// All that was done is undone.
    RollBack,
    /// No other try: there were as many refusals as tries.
    Exhausted,
}

/// Which way a process is recovered.
#[derive(Clone, Copy, Debug, PartialEq, Eq)]
pub enum Recovery {
    /// It has no commit point: all is undone.
    Backward,
    /// It has one: what it owes is done.
    Forward,
}

/// What comes of a request to complete.
#[derive(Clone, Copy, Debug, PartialEq, Eq)]
pub enum Aborted {
    Ok,
    /// There is no such process.
    Unknown,
    Ended,
    Exhausted,
    /// It has begun to complete before.
    Already,
}

/// What became of a piece.
#[derive(Clone, Copy, Debug, PartialEq, Eq)]
pub enum PieceState {
    /// It is running.
    Out,
    /// Its process began to complete at this kept event, counted from 1, while it was unfinished.
    Dropped(u32),
    /// It took effect or was refused.
    Over,
}

/// Why a process can't start, in the order in which it is tested.
#[derive(Clone, Copy, Debug, PartialEq, Eq)]
pub enum StartWhy {
    /// This many processes are active, or have started: the most that may be.
    TooMany(u32),
    /// There would be this many acts and ends, done and reserved, which is more than may be.
    NoRoom(u32),
    NoMemory,
}

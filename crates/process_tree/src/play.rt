// What play is given and what it answers.
use plain_list::Items;

/// How a try of a step ended.
#[derive(Clone, Copy, Debug, PartialEq, Eq)]
pub enum Outcome {
    Done,
    Refused,
}

/// A place in a process: before a step, or behind the last.
#[derive(Clone, Copy, Debug, PartialEq, Eq)]
pub enum Place {
    Step(u16),
    End,
}

/// Where a process goes on after a refused step.
#[derive(Clone, Copy, Debug, PartialEq, Eq)]
pub enum Fallback {
    /// The first `keep` steps of the branch stay done, and the process goes on with step `to`.
    Alternative { keep: u16, to: u16 },
    /// All is undone.
    All,
    /// There is no way on, and a commit point stands.
    Stuck,
}

/// A list of step numbers.
pub type Places = Items<u16>;

/// How a play ended.
#[derive(Drop)]
pub enum Played {
    /// All steps of this whole path were done.
    Path(Places),
    /// All that was done was undone.
    Nothing,
    /// This step was refused, there was no way on, and a commit point stood.
    Stuck(u16),
    /// The outcomes were used up before an end.
    Unfinished,
}

// What the check answers.
use plain_list::Items;
use process_tree::Outcome;

/// A list of outcomes.
pub type Outcomes = Items<Outcome>;

/// Whether a process can go wrong, and if so where first.
#[derive(Drop)]
pub enum Verdict {
    /// It always comes to an end, and each alternative is of use.
    Good,
    /// After these outcomes, the last of them at this step, it is stuck.
    Stuck { step: u16, outcomes: Outcomes },
    /// Nothing falls back to the alternative that this step begins.
    Unreachable { step: u16 },
    NoMemory,
}

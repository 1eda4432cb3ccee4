//! Histories that are the same but for where their plans lie in memory: what is said of one is said of the other.
//!
//! Two readings of one journal give such histories. `specs/SameHistories` says that to be the same is an equivalence and holds of
//! beginnings, and that the courses, the completion and the effects of the one are those of the other, as are the files that are
//! sound for it. The law is carried by `same_histories_are_alike`.
#![tactic(auto)]

ghost use Rattle.same_histories.specs.SameHistories.{SameHistoriesAreAlike};

/// The same histories are alike.
pub fn same_histories_are_alike()
    ensures { SameHistoriesAreAlike }
{}

// The laws of trees: each function says one, and does nothing.
ghost use Rattle.process_tree.specs.Alternatives.{AlternativesAreWays, AlternativesFallInTurn, LaterWaysAreLaterAlternatives};
ghost use Rattle.process_tree.specs.Laws.{PathsLieInOrder, PathsPart, EachStepHasAPath, OneBranchToAStep, StepsGoUp, WholePathsEnd};
ghost use Rattle.process_tree.specs.Laws.{EndsAreWhole, WaysAreIntervals, AlternativesAreIntervals, ModesAreSymmetric};
ghost use Rattle.process_tree.specs.Laws.{ConflictIsSymmetric, EntriesConflictBothWays, ConflictIsBetweenProcesses};
ghost use Rattle.process_tree.specs.Laws.{UndoConflictsAsItsStep, EntryConflictsAsItsStep, NextStepsHaveAClass};
ghost use Rattle.process_tree.specs.Laws.{OwedStepsAreNotRefused, CommitPointsStay, CommitPointsGrow};

/// The whole paths of a tree go upward, and lie in order.
pub fn paths_lie_in_order()
    ensures { PathsLieInOrder }
{}

/// Two whole paths are equal or part, and from there on the later one has the greater steps.
pub fn paths_part()
    ensures { PathsPart }
{}

/// Each step is on a whole path.
pub fn each_step_has_a_path()
    ensures { EachStepHasAPath }
{}

/// A step determines the branch to it.
pub fn one_branch_to_a_step()
    ensures { OneBranchToAStep }
{}

/// A step is greater than those before it on its branch.
pub fn steps_go_up()
    ensures { StepsGoUp }
{}

/// No whole path is the beginning of another.
pub fn whole_paths_end()
    ensures { WholePathsEnd }
{}

/// Where no step goes on, the path is whole.
pub fn ends_are_whole()
    ensures { EndsAreWhole }
{}

/// The steps of a way are an interval, and so are those of several ways, as an alternative has them.
pub fn alternatives_are_intervals()
    ensures ways { WaysAreIntervals }
    ensures alternatives { AlternativesAreIntervals }
{}

/// The ways of a tree say of its alternatives what its blocks say: each step of an alternative is in a way that begins in it, a
/// refusal that falls to an alternative is of a step of the one just before it, and the later ways are those that begin an
/// alternative other than a first one.
pub fn alternatives_are_ways()
    ensures ways { AlternativesAreWays }
    ensures falls { AlternativesFallInTurn }
    ensures later { LaterWaysAreLaterAlternatives }
{}

/// A pair of operations has one mode, and two accesses or entries conflict in either order or in none.
pub fn conflict_is_symmetric()
    ensures modes { ModesAreSymmetric }
    ensures accesses { ConflictIsSymmetric }
    ensures entries { EntriesConflictBothWays }
{}

/// Entries of one process don't conflict.
pub fn conflict_is_between_processes()
    ensures { ConflictIsBetweenProcesses }
{}

/// An entry conflicts with what its undo conflicts with, and with what its step does while it is reserved, pending or running.
pub fn conflict_is_of_steps()
    ensures undo { UndoConflictsAsItsStep }
    ensures step { EntryConflictsAsItsStep }
{}

/// Each next step of a well-formed process is reserved, committing or undoable.
pub fn next_steps_have_a_class()
    ensures { NextStepsHaveAClass }
{}

/// Nothing that a well-formed process owes can be refused.
pub fn owed_steps_are_not_refused()
    ensures { OwedStepsAreNotRefused }
{}

/// A commit point stays one.
pub fn commit_points_stay()
    ensures { CommitPointsStay }
{}

/// What a further step fixes.
pub fn commit_points_grow()
    ensures { CommitPointsGrow }
{}

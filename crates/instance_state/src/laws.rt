// The laws of one process that are proved: each function says one, and does nothing.
ghost use Rattle.instance_state.specs.Reached.{BegunIsNotRefused, CommittedHasWayOn, NothingPendingAfterStep, OwedIsAbove};
ghost use Rattle.instance_state.specs.Reached.{PendingCanBeUndone, ReservedUsesNoOutcome};

/// What is pending is a tail of what can be undone.
pub fn pending_can_be_undone()
    ensures { PendingCanBeUndone }
{}

/// The first step that a process owes is above each step that it did or was refused.
pub fn owed_is_above()
    ensures { OwedIsAbove }
{}

/// A process that has begun to complete does only steps that can't be refused.
pub fn begun_is_not_refused()
    ensures { BegunIsNotRefused }
{}

/// A reserved step uses no outcome.
pub fn reserved_uses_no_outcome()
    ensures { ReservedUsesNoOutcome }
{}

/// With a commit point, a process that has not begun to complete and has done no whole path has a way on.
pub fn committed_has_way_on()
    ensures { CommittedHasWayOn }
{}

/// After a step took effect, nothing is pending.
pub fn nothing_pending_after_step()
    ensures { NothingPendingAfterStep }
{}

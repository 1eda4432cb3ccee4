// The laws of the machine that are proved: each function says one, and does nothing.
ghost use Rattle.machine_model.specs.Laws.{AdmissionLawsHold, BlockedWhereSomethingStands, BoundOnHands, CallsMakeRuns};
ghost use Rattle.machine_model.specs.Laws.{CascadeIsLeast, EndedAreAtEnds, EndedIsFree, EndsAreFree, FixedIsFree, FixingIsFree};
ghost use Rattle.machine_model.specs.Laws.{LastPendingIsFree, NextKeepsOwnOrder, NoCircle, OpenHoldingsBlockAlike};
ghost use Rattle.machine_model.specs.Laws.{OpenHoldingsDragAlike, OwedStepsAreFree, PendingIsClosed, PendingIsFree, ProgressLaw};
ghost use Rattle.machine_model.specs.Laws.{ReservedIsFree, RestartBeginsAll, RestartFollowsCompletion, RestartIsFree};
ghost use Rattle.machine_model.specs.Laws.{RunningStepsAreFree, RunsAreLegal, RunsKeepOwnOrder, StandingFactsHold, UndoneIsFree};
ghost use Rattle.machine_model.specs.Laws.{UndosWaitByA5};
ghost use Rattle.machine_model.specs.PieceLaws.{DroppedIsExact, OneRuns, OthersStay, OverIsFinished, ProgressGoesByTransitions};
ghost use Rattle.machine_model.specs.PieceLaws.{RefusedBeginsWithoutWayOn, RefusedIsNextOrGone, RunningIsNext};
ghost use Rattle.machine_model.specs.PieceLaws.{StatesGoByTransitions, UndosTakeBackTheLast};
ghost use Rattle.machine_model.specs.HoldLaws.{BeginningsStop, BegunUndoAll, EndsGo, HandsReserve, NetGoesByPieces};
ghost use Rattle.machine_model.specs.HoldLaws.{RunningGoesByPieces, StartsHoldNothing, StepsTakeEffect, UndosTakeEffect};
ghost use Rattle.machine_model.specs.CauseLaws.{BeginningsHaveCauses, BeginningsStay};
ghost use Rattle.machine_model.specs.DropLaws.{HandsAreParted, HandsAreWithinTries, OneIsDropped, RefusalsAreWithinTries};
ghost use Rattle.machine_model.specs.OpenLaws.{EndsDropHoldings, OpenHoldingsAreEnough};
ghost use Rattle.machine_model.specs.CallLaws.{BeginningsOfRunsAreRuns, CallsKeepRuns, DroppedChangeNoAnswer, FlushesKeepWhatRuns};
ghost use Rattle.machine_model.specs.CallLaws.{QueuedAreOutOrDropped};
ghost use Rattle.machine_model.specs.CallLaws.{StuckIsExact, TurnsMakeRuns, VictimsRunDry};

/// The computed cascade of an active process is the least set.
pub fn cascade_is_least()
    ensures { CascadeIsLeast }
{}

/// A piece is blocked exactly where something stands against it.
pub fn blocked_where_something_stands()
    ensures { BlockedWhereSomethingStands }
{}

/// An undo is blocked by A5 alone.
pub fn undos_wait_by_a5()
    ensures { UndosWaitByA5 }
{}

/// At most one piece of a process is out.
pub fn one_runs()
    ensures { OneRuns }
{}

/// A piece is over exactly where it took effect or was refused.
pub fn over_is_finished()
    ensures { OverIsFinished }
{}

/// Each beginning of a run is a run.
pub fn beginnings_of_runs_are_runs()
    ensures { BeginningsOfRunsAreRuns }
{}

/// What a call other than a start keeps makes a longer run.
pub fn calls_keep_runs()
    ensures { CallsKeepRuns }
{}

/// A request for any piece makes all victims that can be made.
pub fn victims_run_dry()
    ensures { VictimsRunDry }
{}

/// A request for any piece answers that one is stuck exactly where nobody can go on or go back, and it is the least exhausted one.
pub fn stuck_is_exact()
    ensures { StuckIsExact }
{}

/// The turns of several threads make a run.
pub fn turns_make_runs()
    ensures { TurnsMakeRuns }
{}

/// The running piece of a process is its next piece.
pub fn running_is_next()
    ensures { RunningIsNext }
{}

/// An event leaves a process as it was, unless it is of its piece or makes it begin to complete.
pub fn others_stay()
    ensures { OthersStay }
{}

/// What the open processes hold is enough to tell what blocks.
pub fn open_holdings_block_alike()
    ensures { OpenHoldingsBlockAlike }
{}

/// The progress of a process goes by the ends of its pieces and by its beginning to complete.
pub fn progress_goes_by_transitions()
    ensures { ProgressGoesByTransitions }
{}

/// A refusal of the one try of a step makes its process begin to complete exactly where no way on is left.
pub fn refused_begins_without_way_on()
    ensures { RefusedBeginsWithoutWayOn }
{}

/// A piece is dropped exactly where its process began to complete while it was out.
pub fn dropped_is_exact()
    ensures { DroppedIsExact }
{}

/// Once all have begun to complete, the next event is the head of the completion.
pub fn restart_follows_completion()
    ensures { RestartFollowsCompletion }
{}

/// What the open processes hold is enough to tell who goes back together.
pub fn open_holdings_drag_alike()
    ensures { OpenHoldingsDragAlike }
{}

/// In a session what the open processes hold is enough to tell what blocks and who goes back together.
pub fn open_holdings_are_enough()
    ensures { OpenHoldingsAreEnough }
{}

/// The end of a process drops what it holds from what the open processes hold, and nothing else.
pub fn ends_drop_holdings()
    ensures { EndsDropHoldings }
{}

/// What a call keeps makes a longer session; a start adds its plan, or keeps nothing.
pub fn calls_make_runs()
    ensures { CallsMakeRuns }
{}

/// The history of each run is in own order.
pub fn runs_keep_own_order()
    ensures { RunsKeepOwnOrder }
{}

/// The next piece of an active process keeps own order.
pub fn next_keeps_own_order()
    ensures { NextKeepsOwnOrder }
{}

/// Each process that has ended is at an end.
pub fn ended_are_at_ends()
    ensures { EndedAreAtEnds }
{}

/// An undo takes back the last step of the net.
pub fn undos_take_back_the_last()
    ensures { UndosTakeBackTheLast }
{}

/// A flush keeps an effect for each piece of the group that runs.
pub fn flushes_keep_what_runs()
    ensures { FlushesKeepWhatRuns }
{}

/// Whatever is queued is out or was dropped.
pub fn queued_are_out_or_dropped()
    ensures { QueuedAreOutOrDropped }
{}

/// A piece of the group that was dropped changes no answer to the queueing of another.
pub fn dropped_change_no_answer()
    ensures { DroppedChangeNoAnswer }
{}

/// At a restart all begin to complete.
pub fn restart_begins_all()
    ensures { RestartBeginsAll }
{}

/// Whatever was refused is the next piece of its process, or never comes again.
pub fn refused_is_next_or_gone()
    ensures { RefusedIsNextOrGone }
{}

/// One counter of refusals is enough: the state of an active process goes by the transitions of one process alone.
pub fn states_go_by_transitions()
    ensures { StatesGoByTransitions }
{}

/// The net goes by the effects of pieces.
pub fn net_goes_by_pieces()
    ensures { NetGoesByPieces }
{}

/// What a process has under way goes by its own pieces and by its beginning to complete.
pub fn running_goes_by_pieces()
    ensures { RunningGoesByPieces }
{}

/// A hand puts a piece under way and reserves what it will make its process owe.
pub fn hands_reserve()
    ensures { HandsReserve }
{}

/// Where a process begins to complete, it stops and has all to undo that can be undone.
pub fn beginnings_stop()
    ensures { BeginningsStop }
{}

/// A process that has begun to complete has all to undo that can be undone.
pub fn begun_undo_all()
    ensures { BegunUndoAll }
{}

/// What the effect of a step does to the hold of its process, by the class of the step.
pub fn steps_take_effect()
    ensures { StepsTakeEffect }
{}

/// What the effect of an undo does to the hold of its process.
pub fn undos_take_effect()
    ensures { UndosTakeEffect }
{}

/// At the effect of its end a process goes, and nobody else.
pub fn ends_go()
    ensures { EndsGo }
{}

/// Steps that run don't conflict.
pub fn running_steps_are_free()
    ensures { RunningStepsAreFree }
{}

/// What is reserved conflicts with nothing that another active process has done, runs or reserves.
pub fn reserved_is_free()
    ensures { ReservedIsFree }
{}

/// A step that its process owes is never blocked.
pub fn owed_steps_are_free()
    ensures { OwedStepsAreFree }
{}

/// While a piece runs that fixes what its process has done, no net entry of another active process is in the way.
pub fn fixing_is_free()
    ensures { FixingIsFree }
{}

/// Before what a process can't undo any more stands no net entry of another active process that conflicts.
pub fn fixed_is_free()
    ensures { FixedIsFree }
{}

/// Behind what an active process has done stands nothing of an ended one that conflicts.
pub fn ended_is_free()
    ensures { EndedIsFree }
{}

/// The end of a process that has nothing left to undo is never blocked.
pub fn ends_are_free()
    ensures { EndsAreFree }
{}

/// The conflict graph has no circle.
pub fn no_circle()
    ensures { NoCircle }
{}

/// What is to be undone conflicts with no step that is under way.
pub fn pending_is_free()
    ensures { PendingIsFree }
{}

/// While the undo of a step runs, what stands behind the step doesn't conflict with it.
pub fn undone_is_free()
    ensures { UndoneIsFree }
{}

/// The history of each run is legal, and within the limits.
pub fn runs_are_legal()
    ensures { RunsAreLegal }
{}

/// Once all have begun to complete, the process whose turn it is in a restart is never blocked.
pub fn restart_is_free()
    ensures { RestartIsFree }
{}

/// Where the machine opened at rest, what stands behind a pending entry and conflicts with it is pending.
pub fn pending_is_closed()
    ensures { PendingIsClosed }
{}

/// The undo of the last pending entry in joint order is never blocked, where the machine opened at rest or all have begun.
pub fn last_pending_is_free()
    ensures { LastPendingIsFree }
{}

/// The standing facts hold at each moment of a run.
pub fn standing_facts_hold()
    ensures { StandingFactsHold }
{}

/// The admission laws hold at each moment of a run.
pub fn admission_laws_hold()
    ensures { AdmissionLawsHold }
{}

/// Where no active process is exhausted, a request for any piece isn't answered that one is stuck.
pub fn progress_law()
    ensures { ProgressLaw }
{}

/// A process begins to complete at a kept event with the cause that the event is.
pub fn beginnings_have_causes()
    ensures { BeginningsHaveCauses }
{}

/// When and why a process began to complete stays.
pub fn beginnings_stay()
    ensures { BeginningsStay }
{}

/// At most one piece of each process is dropped.
pub fn one_is_dropped()
    ensures { OneIsDropped }
{}

/// Each piece that was handed out is out, dropped or finished, and only one of these.
pub fn hands_are_parted()
    ensures { HandsAreParted }
{}

/// No piece is refused more often than it may be tried.
pub fn refusals_are_within_tries()
    ensures { RefusalsAreWithinTries }
{}

/// No step, undo or end is handed out more often than it may be tried, but for pieces that are dropped.
pub fn hands_are_within_tries()
    ensures { HandsAreWithinTries }
{}

/// No run hands out more pieces than the processes of its history can take.
pub fn bound_on_hands()
    ensures { BoundOnHands }
{}

/// A start adds its process behind the active ones, and it holds nothing yet.
pub fn starts_hold_nothing()
    ensures { StartsHoldNothing }
{}

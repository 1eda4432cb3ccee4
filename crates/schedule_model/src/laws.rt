// The laws of histories: each function says one, and does nothing.
ghost use Rattle.schedule_model.specs.Laws.{PrefixLaw, BeginningsArePlanned, FirstIllegalIsExact, BeginningsKeepLimits};
ghost use Rattle.schedule_model.specs.Laws.{CompletionKeepsLimits, CompletedStandsWithin, ActsAreFew, LimitsHold, EndedAreAtEnds};
ghost use Rattle.schedule_model.specs.Laws.{OwnOrderCompletionLaw, CompletionLaw, CompletionIsStable, StandingFactsHold};
ghost use Rattle.schedule_model.specs.Laws.{OpeningsAreAcyclic, LimitsOfBeginnings, EndedDontBlockUndos, AppliedStepsReduce};
ghost use Rattle.schedule_model.specs.Laws.{ReductionLaw, PrefixReducibility, ClassFactsHold, EndedDontBlockSteps};
ghost use Rattle.schedule_model.specs.PlannedExample.{ShopIsPlanned};

/// Each beginning of a legal history is legal, with the plans of those that started in it.
pub fn beginnings_are_legal()
    ensures { PrefixLaw }
{}

/// Each beginning of a history has what every call asks of one.
pub fn beginnings_are_planned()
    ensures { BeginningsArePlanned }
{}

/// Some history has what every call asks: that of the purchase and the sale that was paid in time.
pub fn the_shop_is_planned()
    ensures { ShopIsPlanned }
{}

/// There is no first event that may not come exactly where a history is legal; before it all is legal.
pub fn first_illegal_is_exact()
    ensures { FirstIllegalIsExact }
{}

/// Each beginning of a history within limits is within them, with its own plans alone, too.
pub fn beginnings_keep_limits()
    ensures any { BeginningsKeepLimits }
    ensures planned { LimitsOfBeginnings }
{}

/// The completion of a history within limits is within them, and stands within them at its end.
pub fn completion_keeps_limits()
    ensures judged { CompletionKeepsLimits }
    ensures counted { CompletedStandsWithin }
{}

/// A process has at most twice as many acts as steps.
pub fn acts_are_few()
    ensures { ActsAreFew }
{}

/// Nothing but a start adds to what limits count.
pub fn limits_hold()
    ensures { LimitsHold }
{}

/// Each process that ended has done a whole path, or nothing of it is left.
pub fn ended_are_at_ends()
    ensures { EndedAreAtEnds }
{}

/// A completed history is in own order, nobody is active in it, and each process is at an end.
pub fn own_order_is_completed()
    ensures { OwnOrderCompletionLaw }
{}

/// A completed history is legal, nobody is active in it, and each process is at an end.
pub fn legal_histories_are_completed()
    ensures { CompletionLaw }
{}

/// Cut off while it is completed, a history is completed to the same.
pub fn completion_is_stable()
    ensures { CompletionIsStable }
{}

/// Trace steps that apply are exchanges of neighbours and cancels, one after another.
pub fn applied_steps_reduce()
    ensures { AppliedStepsReduce }
{}

/// The printed trace of a reducible history in which nobody is active leads to a serial list.
pub fn reducible_histories_reduce()
    ensures { ReductionLaw }
{}

/// So does that of the completed history of each beginning of a legal one.
pub fn beginnings_reduce()
    ensures { PrefixReducibility }
{}

/// What a next step does to the recovery of its process, by its class.
pub fn class_facts_hold()
    ensures { ClassFactsHold }
{}

/// What stands against a step or an end is the same without those that have ended.
pub fn ended_dont_block_steps()
    ensures { EndedDontBlockSteps }
{}

/// What is owed is free, what is fixed is, and what has ended is.
pub fn standing_facts_hold()
    ensures { StandingFactsHold }
{}

/// The conflict graph of a legal history has no circle.
pub fn openings_are_acyclic()
    ensures { OpeningsAreAcyclic }
{}

/// In a legal history those that have ended don't stand against an undo.
pub fn ended_dont_block_undos()
    ensures { EndedDontBlockUndos }
{}

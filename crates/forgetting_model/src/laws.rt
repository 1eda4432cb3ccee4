// The laws: each function says one, and does nothing.
ghost use Rattle.forgetting_model.specs.Laws.{CompletionIsTheSame, EachWayOnIsMet, ForgettingIsInvisible, SerialListGoesOn};
ghost use Rattle.forgetting_model.specs.Laws.{ForgettingTwiceIsForgettingOnce, WhatRemainsIsOfTheActive};
ghost use Rattle.forgetting_model.specs.Laws.{SerialOrderGoesOn, WhatRemainsGoesOnAlike, WhatRemainsIsLegal};
ghost use Rattle.forgetting_model.specs.Moments.{EventsLeadAlike, ForgettingChangesNoState, ForgettingChangesNoVictim};
ghost use Rattle.forgetting_model.specs.Moments.{SomethingIsLeft};
ghost use Rattle.forgetting_model.specs.Replies.{EachIsServedAlike, ForgettingChangesNoAnswer, ForgettingChangesNoFinish};
ghost use Rattle.forgetting_model.specs.Replies.{ForgettingChangesNoFlush, ForgettingChangesNoQueue, ForgettingChangesNoRequest};
ghost use Rattle.forgetting_model.specs.Replies.{WhatRemainsTakesStarts};

/// What remains of a legal history is legal.
pub fn what_remains_is_legal()
    ensures { WhatRemainsIsLegal }
{}

/// An event may come after what remains exactly where it may come after the whole.
pub fn forgetting_is_invisible()
    ensures { ForgettingIsInvisible }
{}

/// What remains goes on legally exactly as the whole does.
pub fn what_remains_goes_on_alike()
    ensures { WhatRemainsGoesOnAlike }
{}

/// The numbers that a way on has since lead back to those of before.
pub fn each_way_on_is_met()
    ensures { EachWayOnIsMet }
{}

/// Completion adds the same to the whole and to what remains.
pub fn completion_is_the_same()
    ensures { CompletionIsTheSame }
{}

/// In serial order those that had ended come first, and then what remains.
pub fn serial_order_goes_on()
    ensures { SerialOrderGoesOn }
{}

/// The serial list has the nets of those that had ended, and then the list of what remains.
pub fn serial_list_goes_on()
    ensures { SerialListGoesOn }
{}

/// At each moment of a session each active process stands alike where those that had ended are forgotten.
pub fn forgetting_changes_no_state()
    ensures { ForgettingChangesNoState }
{}

/// So the same ones are active, and the same one is made a victim.
pub fn forgetting_changes_no_victim()
    ensures { ForgettingChangesNoVictim }
{}

/// At each moment of a session those that have ended can be forgotten.
pub fn something_is_left()
    ensures { SomethingIsLeft }
{}

/// From then on each event that may be kept leads to what is left.
pub fn events_lead_alike()
    ensures { EventsLeadAlike }
{}

/// A request for a piece of one process, or that it completes, answers what it answered before.
pub fn forgetting_changes_no_answer()
    ensures { ForgettingChangesNoAnswer }
{}

/// The end of a piece answers what it answered before; its event stands as many places later as events are forgotten.
pub fn forgetting_changes_no_finish()
    ensures { ForgettingChangesNoFinish }
{}

/// A start that the whole takes is taken by what remains.
pub fn what_remains_takes_starts()
    ensures { WhatRemainsTakesStarts }
{}

/// Queueing a piece answers what it answered before.
pub fn forgetting_changes_no_queue()
    ensures { ForgettingChangesNoQueue }
{}

/// So does a flush; each event stands as many places later as events are forgotten.
pub fn forgetting_changes_no_flush()
    ensures { ForgettingChangesNoFlush }
{}

/// What remains of what remains, and what followed, is what remains of the whole.
pub fn forgetting_twice_is_forgetting_once()
    ensures { ForgettingTwiceIsForgettingOnce }
{}

/// The rotation goes on where it was.
pub fn each_is_served_alike()
    ensures { EachIsServedAlike }
{}

/// A request for any piece makes the same victims, and then answers what it answered before.
pub fn forgetting_changes_no_request()
    ensures { ForgettingChangesNoRequest }
{}

/// What remains of a legal history is of the active processes.
pub fn what_remains_is_of_the_active()
    ensures { WhatRemainsIsOfTheActive }
{}

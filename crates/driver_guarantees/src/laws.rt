// The laws: each function says one, and does nothing.
ghost use Rattle.driver_guarantees.specs.Dialogue.{DialoguesEnd, NobodyIsPassedOver};
ghost use Rattle.driver_guarantees.specs.Effects.{SessionsKeepOrder};

/// A driver that finishes each piece before it asks again is told that all is over.
pub fn dialogues_end()
    ensures { DialoguesEnd }
{}

/// What `exactly_once` takes of the program: effects come in own order, and so does the work that is out.
pub fn sessions_keep_order()
    ensures { SessionsKeepOrder }
{}

/// Nobody is passed over by as many requests as there are processes.
pub fn nobody_is_passed_over()
    ensures { NobodyIsPassedOver }
{}

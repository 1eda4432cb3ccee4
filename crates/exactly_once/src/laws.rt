// The laws: each function says one, and does nothing.
ghost use Rattle.exactly_once.specs.Laws.{IsExactlyOnce, NobodyHasToDecide, NothingIsDoneTwice, NothingIsLeftOver, SettlingEnds, WhatIsCommittedStays};

/// Once a driver has settled, its system has the work of each step as the history has it: exactly once. Nothing is left over of a
/// process that has ended.
pub fn each_step_exactly_once()
    ensures once { IsExactlyOnce }
    ensures whole { NothingIsLeftOver }
{}

/// At each moment a name was committed once at most, and what is committed is in the history, also in that of each moment to come.
pub fn nothing_done_twice()
    ensures twice { NothingIsDoneTwice }
    ensures stays { WhatIsCommittedStays }
{}

/// After each start the settling ends, and nobody has to decide anything.
pub fn settling_ends()
    ensures ends { SettlingEnds }
    ensures decided { NobodyHasToDecide }
{}

// The laws of dependence: each function says one, and does nothing.
ghost use Rattle.dependence_model.specs.Laws.{LeftIsUnique, LeftIsComputed, StepsKeepVerdict, SerialIsNeither};
ghost use Rattle.dependence_model.specs.Laws.{SerialOrdersAreReached, OrderIsComputed, SerialListIsReached, TestIsExact};
ghost use Rattle.dependence_model.specs.Laws.{SchedulesAreOnce, LegalIsReducible};

/// What is left doesn't depend on the order of taking away.
pub fn left_is_unique()
    ensures { LeftIsUnique }
{}

/// What is computed is what is left.
pub fn left_is_computed()
    ensures { LeftIsComputed }
{}

/// An exchange or a cancel keeps whether a list is barred, and whether it is cyclic.
pub fn steps_keep_verdict()
    ensures { StepsKeepVerdict }
{}

/// A serial list is neither barred nor cyclic.
pub fn serial_is_neither()
    ensures { SerialIsNeither }
{}

/// What isn't barred is brought into each serial order of what is left.
pub fn serial_orders_are_reached()
    ensures { SerialOrdersAreReached }
{}

/// Where a list isn't cyclic, a serial order of what is left is computed.
pub fn order_is_computed()
    ensures { OrderIsComputed }
{}

/// A list that is neither is brought to the computed serial list.
pub fn serial_list_is_reached()
    ensures { SerialListIsReached }
{}

/// Exchanges and cancels lead to a serial list exactly where a list is neither barred nor cyclic.
pub fn test_is_exact()
    ensures { TestIsExact }
{}

/// The schedule of a completed history has each step once, and each undo behind its step.
pub fn schedules_are_once()
    ensures { SchedulesAreOnce }
{}

/// A legal history can be reduced wherever it is cut off, once it is completed.
pub fn legal_is_reducible()
    ensures { LegalIsReducible }
{}

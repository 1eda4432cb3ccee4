// The laws of values: each function says one, and does nothing.
ghost use Rattle.value_rules.specs.Laws.{ReductionKeepsValues};
ghost use Rattle.value_rules.specs.HistoryValues.{ValueLaw, ValueLawOfCompleted, OrderIsOfRealTime};

/// Exchanges of neighbours and cancels keep the values, and what steps found.
pub fn reduction_keeps_values()
    ensures { ReductionKeepsValues }
{}

/// The printed serial list leaves the values of the history, where nobody is active, and that of any legal history leaves those of
/// the completed one.
pub fn serial_lists_keep_values()
    ensures all_ended { ValueLaw }
    ensures completed { ValueLawOfCompleted }
{}

/// Who ended before another started stands before it in the printed serial list.
pub fn order_is_of_real_time()
    ensures { OrderIsOfRealTime }
{}

// The laws of the refinement: each function says one, and does nothing.
ghost use Rattle.core_state.specs.OpenTables.{TablesStandForHoldings};

/// The tables of a moment stand for what its active processes hold.
pub fn tables_stand_for_holdings()
    ensures { TablesStandForHoldings }
{}

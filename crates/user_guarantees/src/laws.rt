// The laws: each function says one, and does nothing.
ghost use Rattle.user_guarantees.specs.FirstWay.{PreferredWay, UndosHaveCauses};
ghost use Rattle.user_guarantees.specs.Independence.{TablesByKeyConflictByKey, WhoHasItsKeysIsLeftAlone};
ghost use Rattle.user_guarantees.specs.Independence.{WhoSharesNothingGoesBackOfItself, WhoSharesNothingIsLeftAlone};
ghost use Rattle.user_guarantees.specs.Tables.{FewerConflictsAllowMore, FewerConflictsFailNoEarlier, LooserTablesAllowMore};

/// Fewer conflicts allow more.
pub fn fewer_conflicts_allow_more()
    ensures { FewerConflictsAllowMore }
{}

/// Under fewer conflicts the first event that may not come stands no earlier.
pub fn fewer_conflicts_fail_no_earlier()
    ensures { FewerConflictsFailNoEarlier }
{}

/// Loosening a table makes no history illegal.
pub fn looser_tables_allow_more()
    ensures { LooserTablesAllowMore }
{}

/// Who shares nothing waits for nobody, and nobody takes it back.
pub fn who_shares_nothing_is_left_alone()
    ensures { WhoSharesNothingIsLeftAlone }
{}

/// Where conflicts are by key, orders for other goods never wait for each other.
pub fn who_has_its_keys_is_left_alone()
    ensures { WhoHasItsKeysIsLeftAlone }
{}

/// Who shares nothing begins to complete of itself alone.
pub fn who_shares_nothing_goes_back_of_itself()
    ensures { WhoSharesNothingGoesBackOfItself }
{}

/// By a table without the mode always conflicts are by key.
pub fn tables_by_key_conflict_by_key()
    ensures { TablesByKeyConflictByKey }
{}

/// A process that nothing kept from it is on its first way, without an undo.
pub fn preferred_way()
    ensures { PreferredWay }
{}

/// Each undo has a cause that is kept.
pub fn undos_have_causes()
    ensures { UndosHaveCauses }
{}

// The law of pairs that conflict in value: the function says it, and does nothing.
ghost use Rattle.value_conflict.specs.ValueConflict.{FirstCommutingIsExact};

/// A pair that is found is the least one; where none is, the catalog names each conflict in value.
pub fn first_commuting_is_exact()
    ensures { FirstCommutingIsExact }
{}

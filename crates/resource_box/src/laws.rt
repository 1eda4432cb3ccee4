// What is proved of the words for maps.
ghost use Rattle.resource_box.specs.Laws.{ReadsWhatWasSet, KeepsOtherKeys, ReadyChangesNoValue};

/// A map that is changed at one key reads so there, and as before elsewhere.
pub fn maps_are_changed_at_one_key()
    ensures set { ReadsWhatWasSet }
    ensures others { KeepsOtherKeys }
    ensures ready { ReadyChangesNoValue }
{}

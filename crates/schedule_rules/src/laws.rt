// The laws of histories that the layers above rest on.
ghost use Rattle.schedule_model.specs.Laws.{PrefixLaw, BeginningsArePlanned};

use schedule_model::{beginnings_are_legal, beginnings_are_planned};

/// Each beginning of a good history is good: it is legal, and has what every call asks of one.
pub fn beginnings_are_good()
    ensures legal { PrefixLaw }
    ensures planned { BeginningsArePlanned }
{
    beginnings_are_legal();
    beginnings_are_planned();
}

// The table of verbs, at one value.
ghost use Rattle.std.specs.Prelude.{◌≡◌};
ghost use Rattle.resource_box.specs.Table.{takes, bars, applied, reverted};

use crate::{Call, Kind, Verb};

/// Whether a kind takes a verb.
pub fn takes(kind: Kind, verb: Verb) -> bool
    ensures { result ≡ takes kind verb }
{
    match (kind, verb) {
        (Kind::Counters, Verb::Add | Verb::Take | Verb::Look) => true,
        (Kind::Cells, Verb::Put | Verb::Look) => true,
        (Kind::Seats, Verb::Hold | Verb::Free | Verb::Look) => true,
        _ => false,
    }
}

/// Whether a call is barred at a value.
pub fn bars(kind: Kind, call: &Call, value: i64) -> bool
    ensures { result ≡ bars kind call.now value }
{
    if !takes(kind, call.verb) {
        return true;
    }
    match call.verb {
        Verb::Take => value < call.amount,
        Verb::Hold => value != 0,
        Verb::Free => value != call.amount,
        Verb::Add | Verb::Look | Verb::Put => false,
    }
}

/// What a call makes of a value.
pub fn applied(kind: Kind, call: &Call, value: i64) -> i64
    ensures { result ≡ applied kind call.now value }
{
    if !takes(kind, call.verb) {
        return value;
    }
    match call.verb {
        Verb::Add => value.wrapping_add(call.amount),
        Verb::Take => value.wrapping_sub(call.amount),
        Verb::Look => value,
        Verb::Put | Verb::Hold => call.amount,
        Verb::Free => 0,
    }
}

/// What the undo of a call makes of a value, given the one before the call.
pub fn reverted(kind: Kind, call: &Call, value: i64, before: i64) -> i64
    ensures { result ≡ reverted kind call.now value before }
{
    if !takes(kind, call.verb) {
        return value;
    }
    match call.verb {
        Verb::Add => value.wrapping_sub(call.amount),
        Verb::Take => value.wrapping_add(call.amount),
        Verb::Look => value,
        Verb::Put | Verb::Hold | Verb::Free => before,
    }
}

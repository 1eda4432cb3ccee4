// Which effects belong together.
ghost use Rattle.std.specs.Prelude.{◌≡◌, ◌<◌, ◌≤◌, ◌+◌, ◌*◌, length, Some, None};
ghost use Rattle.subsystem_store.specs.Values.{same_call, is_of};
ghost use Rattle.subsystem_store.specs.Order.{is_above, commits, most_effects};
ghost use Rattle.subsystem_store.specs.Matching.{last_place, count_of, left_after, left_of};

use crate::Effect;
use crate::effect::Undoable;
use resource_box::Call;

/// Whether two calls are the same.
pub fn same_call(a: &Call, b: &Call) -> bool
    ensures { result ≡ same_call a.now b.now }
{
    a.verb.code() == b.verb.code() && a.key == b.key && a.amount == b.amount
}

/// Whether an undo is of a forward effect.
pub fn is_of(undo: &Effect, forward: &Effect) -> bool
    ensures { result ≡ is_of undo.now forward.now }
{
    undo.process == forward.process
        && undo.step == forward.step
        && same_call(&undo.call, &forward.call)
}

/// The place of the last forward effect that an undo can be of.
pub fn last_place(undo: &Effect, undoable: &[Undoable]) -> Option<usize>
    ensures { result ≡ last_place undo.now undoable.now }
{
    let mut rest = undoable;
    'places: while let Some((last, front)) = rest.split_last() {
        if is_of(undo, &last.effect) {
            return Some(front.len());
        }
        rest = front;
    }
    None
}

/// Whether a number is above that of the last effect.
pub fn is_above(book: &[Effect], number: u32) -> bool
    ensures { result ≡ is_above book.now number }
{
    match book {
        [.., last] => last.number < number,
        [] => true,
    }
}

/// Whether a number is that of the last of these effects, which are some.
pub fn commits(doubt: &[Effect], number: u32) -> bool
    ensures { result ≡ commits doubt.now number }
{
    match doubt {
        [.., last] => last.number == number,
        [] => false,
    }
}

/// How many of these an undo can be of.
pub fn count_of(undo: &Effect, undoable: &[Undoable]) -> u32
    requires few { length undoable.now ≤ most_effects }
    ensures count { result ≡ count_of undo.now undoable.now }
    ensures few { result ≤ length undoable.now }
{
    let mut count = 0;
    let mut rest = undoable;
    while let [first, after @ ..] = rest {
        if is_of(undo, &first.effect) {
            count += 1;
        }
        rest = after;
    }
    count
}

// How many of so many are left behind an effect that comes, or is undone.
fn left_after(undo: &Effect, left: u32, effect: &Effect) -> u32
    requires few { left < 2 * most_effects }
    ensures left { result ≡ left_after undo.now left effect.now }
    ensures few { result ≤ left + 1 }
{
    if !is_of(undo, effect) {
        return left;
    }
    if effect.undo {
        left.saturating_sub(1)
    } else {
        left + 1
    }
}

/// How many of so many, which an undo can be of, are left behind these effects.
pub fn left_of(undo: &Effect, left: u32, effects: &[Effect]) -> u32
    requires few { left + length effects.now ≤ 2 * most_effects }
    ensures { result ≡ left_of undo.now left effects.now }
{
    let mut left = left;
    let mut rest = effects;
    while let [effect, after @ ..] = rest {
        left = left_after(undo, left, effect);
        rest = after;
    }
    left
}

// Reduction steps applied to a list.
ghost use Rattle.std.specs.Prelude.{◌≡◌, ◌<◌, ◌≤◌, ◌-◌, ◌+◌, suc, ◌∷◌, ◌++◌, length, Option, Some, None, List};
ghost use Rattle.std.specs.Prelude.{vec_capacity};
ghost use Rattle.std.specs.List.{list_all};
ghost use Rattle.process_tree.specs.declared.entry.Entry.{Entry};
ghost use Rattle.process_tree.specs.Conflicts.{operations_in, do_conflict};
ghost use Rattle.schedule_model.specs.Conflict.{conflict};
ghost use Rattle.schedule_model.specs.Reduction.{applied, can_change, is_pair, carried_on, carried_back, cancelled};
ghost use Rattle.schedule_rules.specs.Applying.{AreKnown, Answers};

use process_tree::{Conflicts, Entry};
use schedule_model::TraceStep;

/// The list after a reduction step, where that applies; else it stays as it is.
pub fn apply(list: &mut Vec<Entry>, c: &Conflicts, step: TraceStep) -> Option<()>
    requires known { AreKnown c.now list.old.items }
    ensures answers { Answers (applied (do_conflict c.now) step list.old.items) list.old.items list.new.items result }
    ensures no_memory { vec_capacity list.new ≡ vec_capacity list.old }
{
    match step {
        TraceStep::Move(from, to) => {
            if from < to {
                carry_on(list, c, from as usize, to as usize)
            } else if to < from && from as usize <= list.len() {
                carry_back(list, c, from as usize, to as usize)
            } else {
                None
            }
        }
        TraceStep::Cancel(at) => cancel(list, at as usize),
    }
}

/// Whether two entries conflict: they are of different processes, and what they do conflicts.
pub fn conflict(c: &Conflicts, a: &Entry, b: &Entry) -> bool
    requires a { a.now.op < operations_in c.now }
    requires b { b.now.op < operations_in c.now }
    ensures { result ≡ conflict (do_conflict c.now) a.now b.now }
{
    a.process != b.process && c.holds(a.op, a.key, b.op, b.key)
}

/// Whether two neighbours may change places.
fn can_change(c: &Conflicts, a: &Entry, b: &Entry) -> bool
    requires a { a.now.op < operations_in c.now }
    requires b { b.now.op < operations_in c.now }
    ensures { result ≡ can_change (do_conflict c.now) a.now b.now }
{
    a.process != b.process && !conflict(c, a, b)
}

/// Whether an entry may change places with each of these.
fn can_pass(c: &Conflicts, entry: &Entry, others: &[Entry]) -> bool
    requires entry { entry.now.op < operations_in c.now }
    requires others { AreKnown c.now others.now }
    ensures { result ≡ list_all (can_change (do_conflict c.now) entry.now) others.now }
{
    others.iter().all(|other| can_change(c, entry, other))
}

/// Whether each of these may change places with an entry behind it.
fn can_be_passed(c: &Conflicts, entry: &Entry, others: &[Entry]) -> bool
    requires entry { entry.now.op < operations_in c.now }
    requires others { AreKnown c.now others.now }
    ensures { result ≡ list_all (λ other. can_change (do_conflict c.now) other entry.now) others.now }
{
    others.iter().all(|other| can_change(c, other, entry))
}

/// The first entry of a part comes behind its last.
fn first_to_last(list: &mut [Entry], start: usize, end: usize)
    requires some { start < end }
    requires within { end ≤ length list.old }
    ensures turned { (front : List Entry) (x : Entry) (bs rest : List Entry) → list.old ≡ front ++ x ∷ (bs ++ rest)
        → start ≡ length front → end ≡ start + suc (length bs) → list.new ≡ front ++ (bs ++ x ∷ rest) }
    ensures len { length list.new ≡ length list.old }
{
    list[start..end].rotate_left(1);
}

/// The last entry of a part comes before its first.
fn last_to_first(list: &mut [Entry], start: usize, end: usize)
    requires some { start < end }
    requires within { end ≤ length list.old }
    ensures turned { (front : List Entry) (x : Entry) (bs rest : List Entry) → list.old ≡ front ++ (bs ++ x ∷ rest)
        → start ≡ length front → end ≡ start + suc (length bs) → list.new ≡ front ++ x ∷ (bs ++ rest) }
    ensures len { length list.new ≡ length list.old }
{
    list[start..end].rotate_right(1);
}

/// Carries the entry at a place to a later one.
fn carry_on(list: &mut [Entry], c: &Conflicts, from: usize, to: usize) -> Option<()>
    requires known { AreKnown c.now list.old }
    requires later { from < to }
    ensures answers { Answers (carried_on (do_conflict c.now) (to - from) from list.old) list.old list.new result }
    ensures len { length list.new ≡ length list.old }
{
    if from == 0 || list.len() < to || !can_pass(c, &list[from - 1], &list[from..to]) {
        return None;
    }
    first_to_last(list, from - 1, to);
    Some(())
}

/// Carries the entry at a place to an earlier one.
fn carry_back(list: &mut [Entry], c: &Conflicts, from: usize, to: usize) -> Option<()>
    requires known { AreKnown c.now list.old }
    requires earlier { to < from }
    requires within { from ≤ length list.old }
    ensures answers { Answers (carried_back (do_conflict c.now) (from - to) from list.old) list.old list.new result }
    ensures len { length list.new ≡ length list.old }
{
    if to == 0 || !can_be_passed(c, &list[from - 1], &list[to - 1..from - 1]) {
        return None;
    }
    last_to_first(list, to - 1, from);
    Some(())
}

/// Whether these are a step and its undo.
fn is_pair(a: &Entry, b: &Entry) -> bool
    ensures { result ≡ is_pair a.now b.now }
{
    !a.undo && b.undo && a.process == b.process && a.step == b.step
}

/// Removes the entries at a place and the next, where they are a step and its undo.
fn cancel(list: &mut Vec<Entry>, at: usize) -> Option<()>
    ensures answers { Answers (cancelled at list.old.items) list.old.items list.new.items result }
    ensures capacity { vec_capacity list.new ≡ vec_capacity list.old }
{
    if at == 0 || list.len() <= at || !is_pair(&list[at - 1], &list[at]) {
        return None;
    }
    list.remove(at - 1);
    list.remove(at - 1);
    Some(())
}

// Pairs of entries that go, taken off the counts, and whether an arrow goes with them.
ghost use Rattle.std.specs.Prelude.{◌≡◌, ◌<◌, ◌+◌, ◌||◌, ◌∷◌, ◌++◌, false};
ghost use Rattle.process_tree.specs.Conflicts.{do_conflict};
ghost use Rattle.process_tree.specs.Order.{Each};
ghost use Rattle.hold_tables.specs.Kept.{AreTidy};
ghost use Rattle.hold_tables.specs.Operations.{KeepOps, ops_of};
ghost use Rattle.hold_tables.specs.Counts.{AreCounted, IsUncounted, TellCounts, pair, pairs_by, pairs_of_entry};
ghost use Rattle.hold_tables.specs.Counts.{pairs_of_last, pairs_to, pairs_to_step};
ghost use Rattle.hold_tables.specs.Walks.{AreDistinctRows, IsPlaced, IsPlacedIf, step_of, steps_under_way};

use crate::looking::{last_place, place_of};
use crate::operations::is_clear_of;
use crate::row::Row;
use bit_rows::{Bits, Counts};
use process_tree::{Conflicts, Entry};

/// Whether one or the other.
fn either(a: bool, b: bool) -> bool
    ensures { result ≡ (a || b) }
{
    a || b
}

/// Takes off an entry and one that comes later, where they conflict: whether an arrow is gone.
fn uncount_pair(
    counts: &mut Counts,
    conflicts: &Conflicts,
    rows: &[Row],
    x: Entry,
    y: Entry,
) -> bool
    requires rows { AreDistinctRows rows.now counts.old }
    requires first { IsPlaced conflicts.now rows.now x }
    requires later { IsPlaced conflicts.now rows.now y }
    requires among { AreCounted rows.now (pair (do_conflict conflicts.now) x y) counts.old }
    ensures { IsUncounted rows.now (pair (do_conflict conflicts.now) x y) result counts.old counts.new }
{
    if conflicts.between(x, y) {
        let from = place_of(rows, x.process);
        let to = place_of(rows, y.process);
        counts.less(from, to)
    } else {
        false
    }
}

/// Takes off the pairs of each of these entries and one that comes later.
pub fn uncount_to(
    counts: &mut Counts,
    conflicts: &Conflicts,
    rows: &[Row],
    entries: &[Entry],
    e: Entry,
) -> bool
    requires rows { AreDistinctRows rows.now counts.old }
    requires entries { Each (IsPlaced conflicts.now rows.now) entries.now }
    requires later { IsPlaced conflicts.now rows.now e }
    requires among { AreCounted rows.now (pairs_to (do_conflict conflicts.now) entries.now e) counts.old }
    ensures { IsUncounted rows.now (pairs_to (do_conflict conflicts.now) entries.now e) result counts.old counts.new }
{
    let mut gone = false;
    let mut rest = entries;
    'entries: while let Some((x, after)) = rest.split_first() {
        gone = either(gone, uncount_pair(counts, conflicts, rows, *x, e));
        rest = after;
    }
    gone
}

/// Takes off the pairs of an entry and each of these, which come later.
fn uncount_by(
    counts: &mut Counts,
    conflicts: &Conflicts,
    rows: &[Row],
    x: Entry,
    entries: &[Entry],
) -> bool
    requires rows { AreDistinctRows rows.now counts.old }
    requires first { IsPlaced conflicts.now rows.now x }
    requires entries { Each (IsPlaced conflicts.now rows.now) entries.now }
    requires among { AreCounted rows.now (pairs_by (do_conflict conflicts.now) x entries.now) counts.old }
    ensures { IsUncounted rows.now (pairs_by (do_conflict conflicts.now) x entries.now) result counts.old counts.new }
{
    let mut gone = false;
    let mut rest = entries;
    'entries: while let Some((y, after)) = rest.split_first() {
        gone = either(gone, uncount_pair(counts, conflicts, rows, x, *y));
        rest = after;
    }
    gone
}

/// Takes off an entry and what is under way, if it is a step.
fn uncount_step(
    counts: &mut Counts,
    conflicts: &Conflicts,
    rows: &[Row],
    x: Entry,
    running: Option<Entry>,
) -> bool
    requires rows { AreDistinctRows rows.now counts.old }
    requires first { IsPlaced conflicts.now rows.now x }
    requires later { IsPlacedIf conflicts.now rows.now running }
    requires among { AreCounted rows.now (pairs_by (do_conflict conflicts.now) x (step_of running)) counts.old }
    ensures { IsUncounted rows.now (pairs_by (do_conflict conflicts.now) x (step_of running)) result counts.old counts.new }
{
    match running {
        Some(y) if !y.undo => uncount_pair(counts, conflicts, rows, x, y),
        _ => false,
    }
}

/// The same of each step that is under way in these processes.
fn uncount_steps(counts: &mut Counts, conflicts: &Conflicts, rows: &[Row], x: Entry) -> bool
    requires rows { AreDistinctRows rows.now counts.old }
    requires first { IsPlaced conflicts.now rows.now x }
    requires later { Each (λ r. IsPlacedIf conflicts.now rows.now r.running) rows.now }
    requires among { AreCounted rows.now (pairs_by (do_conflict conflicts.now) x (steps_under_way rows.now)) counts.old }
    ensures { IsUncounted rows.now (pairs_by (do_conflict conflicts.now) x (steps_under_way rows.now))
        result counts.old counts.new }
{
    let mut gone = false;
    let mut rest = rows;
    'rows: while let Some((row, after)) = rest.split_first() {
        gone = either(
            gone,
            uncount_step(counts, conflicts, rows, x, row.running()),
        );
        rest = after;
    }
    gone
}

/// Takes off the pairs of what is under way with the net, if it is a step: whether an arrow is gone.
pub fn uncount_running(
    counts: &mut Counts,
    conflicts: &Conflicts,
    rows: &[Row],
    net: &[Entry],
    running: Option<Entry>,
) -> bool
    requires rows { AreDistinctRows rows.now counts.old }
    requires net { Each (IsPlaced conflicts.now rows.now) net.now }
    requires running { IsPlacedIf conflicts.now rows.now running }
    requires among { AreCounted rows.now (pairs_to_step (do_conflict conflicts.now) net.now running) counts.old }
    ensures { IsUncounted rows.now (pairs_to_step (do_conflict conflicts.now) net.now running) result counts.old counts.new }
{
    match running {
        Some(e) if !e.undo => uncount_to(counts, conflicts, rows, net, e),
        _ => false,
    }
}

/// Takes off the pairs of an entry with those before it, those behind it, and what is under way.
fn uncount_entry(
    counts: &mut Counts,
    conflicts: &Conflicts,
    rows: &[Row],
    front: &[Entry],
    x: Entry,
    back: &[Entry],
) -> bool
    requires rows { AreDistinctRows rows.now counts.old }
    requires entry { IsPlaced conflicts.now rows.now x }
    requires before { Each (IsPlaced conflicts.now rows.now) front.now }
    requires behind { Each (IsPlaced conflicts.now rows.now) back.now }
    requires under { Each (λ r. IsPlacedIf conflicts.now rows.now r.running) rows.now }
    requires among { AreCounted rows.now
        (pairs_of_entry (do_conflict conflicts.now) (steps_under_way rows.now) front.now x back.now) counts.old }
    ensures { IsUncounted rows.now (pairs_of_entry (do_conflict conflicts.now) (steps_under_way rows.now) front.now x back.now)
        result counts.old counts.new }
{
    let before = uncount_to(counts, conflicts, rows, front, x);
    let behind = uncount_by(counts, conflicts, rows, x, back);
    let under = uncount_steps(counts, conflicts, rows, x);
    either(before, either(behind, under))
}

/// The same. The operations of the net are marked, so that an entry which conflicts with none is found at once.
fn uncount_marked(
    counts: &mut Counts,
    conflicts: &Conflicts,
    rows: &[Row],
    in_net: &Bits,
    front: &[Entry],
    x: Entry,
    back: &[Entry],
) -> bool
    requires rows { AreDistinctRows rows.now counts.old }
    requires entry { IsPlaced conflicts.now rows.now x }
    requires before { Each (IsPlaced conflicts.now rows.now) front.now }
    requires behind { Each (IsPlaced conflicts.now rows.now) back.now }
    requires under { Each (λ r. IsPlacedIf conflicts.now rows.now r.running) rows.now }
    requires marks { KeepOps conflicts.now (ops_of (front.now ++ x ∷ back.now)) in_net.now }
    requires among { AreCounted rows.now
        (pairs_of_entry (do_conflict conflicts.now) (steps_under_way rows.now) front.now x back.now) counts.old }
    ensures { IsUncounted rows.now (pairs_of_entry (do_conflict conflicts.now) (steps_under_way rows.now) front.now x back.now)
        result counts.old counts.new }
{
    if is_clear_of(conflicts, in_net, x.op) {
        uncount_steps(counts, conflicts, rows, x)
    } else {
        uncount_entry(counts, conflicts, rows, front, x, back)
    }
}

/// Takes off the pairs that go with the last entry of the process: whether an arrow is gone.
pub fn uncount_last(
    counts: &mut Counts,
    conflicts: &Conflicts,
    rows: &[Row],
    net: &[Entry],
    in_net: &Bits,
    process: u32,
) -> bool
    requires marks { KeepOps conflicts.now (ops_of net.now) in_net.now }
    requires tidy { AreTidy (record { conflicts = conflicts.now; net = net.now; processes = rows.now }) }
    requires counts { TellCounts (record { conflicts = conflicts.now; net = net.now; processes = rows.now }) counts.old }
    ensures { IsUncounted rows.now (pairs_of_last (do_conflict conflicts.now) (steps_under_way rows.now) process net.now)
        result counts.old counts.new }
{
    let Some(place) = last_place(net, process) else {
        return false;
    };
    let (front, rest) = net.split_at(place);
    match rest.split_first() {
        Some((x, back)) => uncount_marked(counts, conflicts, rows, in_net, front, *x, back),
        None => false,
    }
}

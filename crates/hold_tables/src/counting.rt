// The pairs of entries that make arrows, counted by the places of their processes.
ghost use Rattle.std.specs.Prelude.{◌<◌};
ghost use Rattle.process_tree.specs.Conflicts.{do_conflict};
ghost use Rattle.process_tree.specs.Order.{Each};
ghost use Rattle.hold_tables.specs.Counts.{HasRoomFor, IsCounted, pair, pairs_by};
ghost use Rattle.hold_tables.specs.Walks.{AreDistinctRows, IsPlaced, IsPlacedIf, step_of, steps_under_way};

use crate::looking::place_of;
use crate::row::Row;
use bit_rows::Counts;
use process_tree::{Conflicts, Entry};

/// Counts an entry and one that comes later, where they conflict.
fn count_pair(counts: &mut Counts, conflicts: &Conflicts, rows: &[Row], x: Entry, y: Entry)
    requires rows { AreDistinctRows rows.now counts.old }
    requires first { IsPlaced conflicts.now rows.now x }
    requires later { IsPlaced conflicts.now rows.now y }
    requires room { HasRoomFor rows.now (pair (do_conflict conflicts.now) x y) counts.old }
    ensures { IsCounted rows.now (pair (do_conflict conflicts.now) x y) counts.old counts.new }
{
    if conflicts.between(x, y) {
        let from = place_of(rows, x.process);
        let to = place_of(rows, y.process);
        counts.more(from, to);
    }
}

/// Counts an entry and what is under way, if it is a step.
fn count_step(
    counts: &mut Counts,
    conflicts: &Conflicts,
    rows: &[Row],
    x: Entry,
    running: Option<Entry>,
)
    requires rows { AreDistinctRows rows.now counts.old }
    requires first { IsPlaced conflicts.now rows.now x }
    requires later { IsPlacedIf conflicts.now rows.now running }
    requires room { HasRoomFor rows.now (pairs_by (do_conflict conflicts.now) x (step_of running)) counts.old }
    ensures { IsCounted rows.now (pairs_by (do_conflict conflicts.now) x (step_of running)) counts.old counts.new }
{
    match running {
        Some(y) if !y.undo => count_pair(counts, conflicts, rows, x, y),
        _ => {}
    }
}

/// The same of each step that is under way in these processes.
pub fn count_steps(counts: &mut Counts, conflicts: &Conflicts, rows: &[Row], x: Entry)
    requires rows { AreDistinctRows rows.now counts.old }
    requires first { IsPlaced conflicts.now rows.now x }
    requires later { Each (λ r. IsPlacedIf conflicts.now rows.now r.running) rows.now }
    requires room { HasRoomFor rows.now (pairs_by (do_conflict conflicts.now) x (steps_under_way rows.now)) counts.old }
    ensures { IsCounted rows.now (pairs_by (do_conflict conflicts.now) x (steps_under_way rows.now)) counts.old counts.new }
{
    let mut rest = rows;
    'rows: while let Some((row, after)) = rest.split_first() {
        count_step(counts, conflicts, rows, x, row.running());
        rest = after;
    }
}

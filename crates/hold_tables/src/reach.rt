// Where walks of the conflict graph lead, by the places of the processes.
ghost use Rattle.std.specs.Prelude.{◌≡◌, ◌<◌, ◌≤◌, ◌∷◌, [], length, false, not, filter};
ghost use Rattle.std.specs.Option.{option_to_list};
ghost use Rattle.process_tree.specs.Conflicts.{do_conflict};
ghost use Rattle.process_tree.specs.Order.{Each};
ghost use Rattle.hold_tables.specs.Operations.{KeepOps, ops_of};
ghost use Rattle.hold_tables.specs.Kept.{IsKnown, IsKnownRunning};
ghost use Rattle.hold_tables.specs.Walks.{AreDistinctRows, IsExtended, IsPlaced, IsPlacedIf, arrows_by, conflicts_with};
ghost use Rattle.hold_tables.specs.Walks.{IsAtEnd, step_has_arrows, steps_under_way};

use crate::looking::place_of;
use crate::operations::is_clear_of;
use crate::row::Row;
use bit_rows::Bits;
use process_tree::{Conflicts, Entry};

/// Adds the arrow that an entry makes to the process of another that comes later, where they conflict.
pub fn follow(walks: &mut Bits, conflicts: &Conflicts, rows: &[Row], x: Entry, y: Entry)
    requires rows { AreDistinctRows rows.now walks.old }
    requires first { IsPlaced conflicts.now rows.now x }
    requires later { IsPlaced conflicts.now rows.now y }
    ensures { IsExtended rows.now (arrows_by (do_conflict conflicts.now) x (y ∷ [])) walks.old walks.new }
{
    if conflicts.between(x, y) {
        let from = place_of(rows, x.process);
        let to = place_of(rows, y.process);
        if !walks.has(from, to) {
            walks.join(from, to);
        }
    }
}

/// The same of a step that is under way.
fn follow_step(
    walks: &mut Bits,
    conflicts: &Conflicts,
    rows: &[Row],
    x: Entry,
    running: Option<Entry>,
)
    requires rows { AreDistinctRows rows.now walks.old }
    requires first { IsPlaced conflicts.now rows.now x }
    requires later { IsPlacedIf conflicts.now rows.now running }
    ensures { IsExtended rows.now
        (arrows_by (do_conflict conflicts.now) x (filter (λ e. not e.undo) (option_to_list running))) walks.old walks.new }
{
    match running {
        Some(y) if !y.undo => follow(walks, conflicts, rows, x, y),
        _ => {}
    }
}

/// The same of each step that is under way in these processes.
pub fn follow_steps(walks: &mut Bits, conflicts: &Conflicts, rows: &[Row], x: Entry)
    requires rows { AreDistinctRows rows.now walks.old }
    requires first { IsPlaced conflicts.now rows.now x }
    requires later { Each (λ r. IsPlacedIf conflicts.now rows.now r.running) rows.now }
    ensures { IsExtended rows.now (arrows_by (do_conflict conflicts.now) x (steps_under_way rows.now)) walks.old walks.new }
{
    let mut rest = rows;
    'rows: while let Some((row, after)) = rest.split_first() {
        follow_step(walks, conflicts, rows, x, row.running());
        rest = after;
    }
}

/// Whether the entry conflicts with one of these.
pub fn conflicts_with(conflicts: &Conflicts, entries: &[Entry], e: Entry) -> bool
    requires known { IsKnown conflicts.now e }
    requires each { Each (IsKnown conflicts.now) entries.now }
    ensures { result ≡ conflicts_with (do_conflict conflicts.now) entries.now e }
{
    entries.iter().any(|other| conflicts.between(e, *other))
}

/// Whether the entry conflicts with a net entry. Their operations are marked, so that what conflicts with none is found at once.
fn conflicts_in_net(conflicts: &Conflicts, net: &[Entry], in_net: &Bits, e: Entry) -> bool
    requires known { IsKnown conflicts.now e }
    requires net { Each (IsKnown conflicts.now) net.now }
    requires marks { KeepOps conflicts.now (ops_of net.now) in_net.now }
    ensures { result ≡ conflicts_with (do_conflict conflicts.now) net.now e }
{
    !is_clear_of(conflicts, in_net, e.op) && conflicts_with(conflicts, net, e)
}

/// Whether what is under way is a step that conflicts with a net entry: while it is under way it makes an arrow.
pub fn step_has_arrows(
    conflicts: &Conflicts,
    net: &[Entry],
    in_net: &Bits,
    running: Option<Entry>,
) -> bool
    requires known { IsKnownRunning conflicts.now running }
    requires net { Each (IsKnown conflicts.now) net.now }
    requires marks { KeepOps conflicts.now (ops_of net.now) in_net.now }
    ensures { result ≡ step_has_arrows (do_conflict conflicts.now) net.now running }
{
    match running {
        Some(e) if !e.undo => conflicts_in_net(conflicts, net, in_net, e),
        _ => false,
    }
}

/// Whether a walk may lead from the place, and one to it.
pub fn leads_through(walks: &Bits, place: usize) -> bool
    requires within { place < length walks.now }
    requires few { length walks.now ≤ 256 }
    ensures { result ≡ false → IsAtEnd walks.now place }
{
    !walks.is_row_empty(place) && !walks.is_column_empty(place)
}

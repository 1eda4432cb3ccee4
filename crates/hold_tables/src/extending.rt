// Pairs that come with an entry, and the arrows that they make, which extend where walks lead.
ghost use Rattle.std.specs.Prelude.{◌≡◌, ◌∷◌, []};
ghost use Rattle.process_tree.specs.Conflicts.{do_conflict};
ghost use Rattle.process_tree.specs.Order.{Each};
ghost use Rattle.hold_tables.specs.Counts.{HasRoomFor, IsCounted, pair, pairs_to};
ghost use Rattle.hold_tables.specs.Places.{place_of};
ghost use Rattle.hold_tables.specs.Walks.{AreDistinctRows, IsExtended, IsPlaced, arrows_by, arrows_to};

use crate::graph::Graph;
use crate::looking::place_of;
use crate::row::Row;
use process_tree::{Conflicts, Entry};

/// Counts an entry and one that comes later, whose process stands at a place, and adds the arrow between them, where they conflict.
fn join_pair(graph: &mut Graph, conflicts: &Conflicts, rows: &[Row], x: Entry, e: Entry, to: usize)
    requires counts { AreDistinctRows rows.now graph.old.counts }
    requires walks { AreDistinctRows rows.now graph.old.walks }
    requires first { IsPlaced conflicts.now rows.now x }
    requires later { IsPlaced conflicts.now rows.now e }
    requires to { to ≡ place_of e.process rows.now }
    requires room { HasRoomFor rows.now (pair (do_conflict conflicts.now) x e) graph.old.counts }
    ensures counted { IsCounted rows.now (pair (do_conflict conflicts.now) x e) graph.old.counts graph.new.counts }
    ensures extended { IsExtended rows.now (arrows_by (do_conflict conflicts.now) x (e ∷ [])) graph.old.walks graph.new.walks }
{
    if conflicts.between(x, e) {
        let from = place_of(rows, x.process);
        graph.counts.more(from, to);
        if !graph.walks.has(from, to) {
            graph.walks.join(from, to);
        }
    }
}

/// Counts the pairs of these entries and one that comes later, and adds the arrows between them.
pub fn join_to(graph: &mut Graph, conflicts: &Conflicts, rows: &[Row], entries: &[Entry], e: Entry)
    requires counts { AreDistinctRows rows.now graph.old.counts }
    requires walks { AreDistinctRows rows.now graph.old.walks }
    requires entries { Each (IsPlaced conflicts.now rows.now) entries.now }
    requires later { IsPlaced conflicts.now rows.now e }
    requires room { HasRoomFor rows.now (pairs_to (do_conflict conflicts.now) entries.now e) graph.old.counts }
    ensures counted { IsCounted rows.now (pairs_to (do_conflict conflicts.now) entries.now e) graph.old.counts graph.new.counts }
    ensures extended { IsExtended rows.now (arrows_to (do_conflict conflicts.now) entries.now e) graph.old.walks graph.new.walks }
{
    let to = place_of(rows, e.process);
    let mut rest = entries;
    'entries: while let Some((x, after)) = rest.split_first() {
        join_pair(graph, conflicts, rows, *x, e, to);
        rest = after;
    }
}

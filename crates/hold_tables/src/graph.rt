// The conflict graph of the open processes, by their places: the pairs that make its arrows, and where its walks lead.
ghost use Rattle.std.specs.Prelude.{◌≡◌, ◌≤◌, length, false, true};
ghost use Rattle.process_tree.specs.Conflicts.{do_conflict};
ghost use Rattle.hold_tables.specs.Kept.{AreTidy};
ghost use Rattle.hold_tables.specs.Counts.{TellCounts, TellCountsBut, arrow_at, pairs_by, pairs_to};
ghost use Rattle.hold_tables.specs.Walks.{AreRows, IsPlaced, TellWalks, TellWalksBut, arrows_by, arrows_to, steps_under_way};
ghost use Rattle.bit_rows.specs.Cells.{cell};
ghost use Rattle.hold_tables.specs.Arrows.{IsClosed, TellGraph, TellGraphBut};

use crate::counting::count_steps;
use crate::extending::join_to;
use crate::reach::follow_steps;
use crate::row::Row;
use bit_rows::{Bits, Counts};
use process_tree::{Conflicts, Entry};

/// A row for each place: how many pairs of entries make the arrow from it to each, and to which a walk of one or more arrows leads.
#[derive(Drop)]
pub struct Graph {
    pub counts: Counts,
    pub walks: Bits,
}

/// Sets where walks lead, where the arrows are set.
fn close(walks: &mut Bits)
    requires few { length walks.old ≤ 256 }
    ensures { IsClosed (length walks.old) (cell walks.old) walks.new }
{
    for place in 0..walks.len() {
        walks.pass(place);
    }
}

/// Sets where walks lead, by the arrows for which pairs are counted.
fn close_walks(walks: &mut Bits, counts: &Counts)
    requires count { length walks.old ≡ length counts.now }
    requires few { length counts.now ≤ 256 }
    ensures { IsClosed (length counts.now) (arrow_at counts.now) walks.new }
{
    walks.copy_from(counts.bits());
    close(walks);
}

/// Finds anew where walks lead if arrows are gone: else the marks stay.
pub fn close_if(gone: bool, graph: &mut Graph, conflicts: &Conflicts, rows: &[Row], net: &[Entry])
    requires tidy { AreTidy (record { conflicts = conflicts.now; net = net.now; processes = rows.now }) }
    requires counts { TellCounts
        (record { conflicts = conflicts.now; net = net.now; processes = rows.now }) graph.old.counts }
    requires rows { AreRows rows.now graph.old.walks }
    requires same { gone ≡ false → TellWalks
        (record { conflicts = conflicts.now; net = net.now; processes = rows.now }) graph.old.walks }
    ensures tell { TellGraph (record { conflicts = conflicts.now; net = net.now; processes = rows.now }) graph.new }
{
    if gone {
        close_walks(&mut graph.walks, &graph.counts);
    }
}

/// Counts the pairs with a step that came under way, and adds the arrows to it, which were left out.
fn join_run(graph: &mut Graph, conflicts: &Conflicts, rows: &[Row], net: &[Entry], e: Entry)
    requires tidy { AreTidy (record { conflicts = conflicts.now; net = net.now; processes = rows.now }) }
    requires rows { AreRows rows.now graph.old.walks }
    requires placed { IsPlaced conflicts.now rows.now e }
    requires but { TellGraphBut (record { conflicts = conflicts.now; net = net.now; processes = rows.now })
        (pairs_to (do_conflict conflicts.now) net.now e) (arrows_to (do_conflict conflicts.now) net.now e) graph.old }
    ensures tell { TellGraph (record { conflicts = conflicts.now; net = net.now; processes = rows.now }) graph.new }
{
    join_to(graph, conflicts, rows, net, e);
}

/// What is kept once this is under way, if it makes arrows.
pub fn tell_run(
    changed: bool,
    graph: &mut Graph,
    conflicts: &Conflicts,
    rows: &[Row],
    net: &[Entry],
    e: Entry,
)
    requires tidy { AreTidy (record { conflicts = conflicts.now; net = net.now; processes = rows.now }) }
    requires rows { AreRows rows.now graph.old.walks }
    requires placed { IsPlaced conflicts.now rows.now e }
    requires more { changed ≡ true → TellGraphBut (record { conflicts = conflicts.now; net = net.now; processes = rows.now })
        (pairs_to (do_conflict conflicts.now) net.now e) (arrows_to (do_conflict conflicts.now) net.now e) graph.old }
    requires same { changed ≡ false → TellGraph
        (record { conflicts = conflicts.now; net = net.now; processes = rows.now }) graph.old }
    ensures tell { TellGraph (record { conflicts = conflicts.now; net = net.now; processes = rows.now }) graph.new }
{
    if changed {
        join_run(graph, conflicts, rows, net, e);
    }
}

/// Counts the pairs of a step that took effect with those that are under way, which were left out.
fn count_done(counts: &mut Counts, conflicts: &Conflicts, rows: &[Row], net: &[Entry], e: Entry)
    requires tidy { AreTidy (record { conflicts = conflicts.now; net = net.now; processes = rows.now }) }
    requires placed { IsPlaced conflicts.now rows.now e }
    requires but { TellCountsBut (record { conflicts = conflicts.now; net = net.now; processes = rows.now })
        (pairs_by (do_conflict conflicts.now) e (steps_under_way rows.now)) counts.old }
    ensures tell { TellCounts (record { conflicts = conflicts.now; net = net.now; processes = rows.now }) counts.new }
{
    count_steps(counts, conflicts, rows, e);
}

/// Adds the arrows from it to where walks lead.
fn follow_done(walks: &mut Bits, conflicts: &Conflicts, rows: &[Row], net: &[Entry], e: Entry)
    requires tidy { AreTidy (record { conflicts = conflicts.now; net = net.now; processes = rows.now }) }
    requires rows { AreRows rows.now walks.old }
    requires placed { IsPlaced conflicts.now rows.now e }
    requires but { TellWalksBut (record { conflicts = conflicts.now; net = net.now; processes = rows.now })
        (arrows_by (do_conflict conflicts.now) e (steps_under_way rows.now)) walks.old }
    ensures tell { TellWalks (record { conflicts = conflicts.now; net = net.now; processes = rows.now }) walks.new }
{
    follow_steps(walks, conflicts, rows, e);
}

/// What is kept once a step took effect, which makes arrows to those that are under way.
pub fn tell_step(graph: &mut Graph, conflicts: &Conflicts, rows: &[Row], net: &[Entry], e: Entry)
    requires tidy { AreTidy (record { conflicts = conflicts.now; net = net.now; processes = rows.now }) }
    requires rows { AreRows rows.now graph.old.walks }
    requires placed { IsPlaced conflicts.now rows.now e }
    requires more { TellGraphBut (record { conflicts = conflicts.now; net = net.now; processes = rows.now })
        (pairs_by (do_conflict conflicts.now) e (steps_under_way rows.now))
        (arrows_by (do_conflict conflicts.now) e (steps_under_way rows.now)) graph.old }
    ensures tell { TellGraph (record { conflicts = conflicts.now; net = net.now; processes = rows.now }) graph.new }
{
    count_done(&mut graph.counts, conflicts, rows, net, e);
    follow_done(&mut graph.walks, conflicts, rows, net, e);
}

// Who is dragged along by what a process takes back.
ghost use Rattle.std.specs.Prelude.{◌≡◌, ◌<◌, ◌+◌, ◌++◌, ◌∷◌, [], drop, length, slice_index_or};
ghost use Rattle.process_tree.specs.Conflicts.{do_conflict};
ghost use Rattle.process_tree.specs.Order.{Each};
ghost use Rattle.process_tree.specs.declared.entry.Entry.{Entry};
ghost use Rattle.cascade.specs.Sets.{IsMarked};
ghost use Rattle.cascade.specs.Walking.{IsWithin, drags_from, has_hit};

use crate::marks::{Mark, bring_in, is_in};
use hold_tables::Holds;
use process_tree::{Conflicts, Entry};

/// Brings in the process of an entry that conflicts with what is taken back.
fn drag(conflicts: &Conflicts, x: Entry, y: Entry, marks: &mut [Mark])
    requires first { IsWithin conflicts.now (length marks.old) x }
    requires later { IsWithin conflicts.now (length marks.old) y }
    ensures { IsMarked (has_hit (do_conflict conflicts.now) x (y ∷ [])) marks.old marks.new }
{
    if !is_in(marks, y.process) && conflicts.between(x, y) {
        bring_in(marks, y.process);
    }
}

/// The same of the net entries behind a place.
fn drag_behind(holds: &Holds, place: usize, x: Entry, marks: &mut [Mark])
    requires place { place < length holds.now.net }
    requires first { IsWithin holds.now.conflicts (length marks.old) x }
    requires later { Each (IsWithin holds.now.conflicts (length marks.old)) holds.now.net }
    ensures { IsMarked (has_hit (do_conflict holds.now.conflicts) x (drop (place + 1) holds.now.net)) marks.old marks.new }
{
    let conflicts = holds.conflicts();
    let mut at = holds.net_len();
    'places: while at - place > 1 {
        at -= 1;
        drag(conflicts, x, holds.net_at(at), marks);
    }
}

/// The same of steps that are under way.
fn drag_running(conflicts: &Conflicts, running: &[Entry], x: Entry, marks: &mut [Mark])
    requires first { IsWithin conflicts.now (length marks.old) x }
    requires running { Each (IsWithin conflicts.now (length marks.old)) running.now }
    ensures { IsMarked (has_hit (do_conflict conflicts.now) x running.now) marks.old marks.new }
{
    let mut rest = running;
    'entries: while let Some((y, after)) = rest.split_first() {
        drag(conflicts, x, *y, marks);
        rest = after;
    }
}

/// The same of both, for the entry at a place.
fn drag_at(holds: &Holds, running: &[Entry], place: usize, marks: &mut [Mark])
    requires place { place < length holds.now.net }
    requires net { Each (IsWithin holds.now.conflicts (length marks.old)) holds.now.net }
    requires running { Each (IsWithin holds.now.conflicts (length marks.old)) running.now }
    ensures { (x : Entry) → x ≡ slice_index_or holds.now.net place x
        → IsMarked (has_hit (do_conflict holds.now.conflicts) x
        (drop (place + 1) holds.now.net ++ running.now)) marks.old marks.new }
{
    let x = holds.net_at(place);
    drag_behind(holds, place, x, marks);
    drag_running(holds.conflicts(), running, x, marks);
}

/// Brings in whoever is dragged along by a process that takes back all its net entries but the first so many.
pub fn drag_along(holds: &Holds, running: &[Entry], process: u32, stay: usize, marks: &mut [Mark])
    requires net { Each (IsWithin holds.now.conflicts (length marks.old)) holds.now.net }
    requires running { Each (IsWithin holds.now.conflicts (length marks.old)) running.now }
    ensures { IsMarked (drags_from (do_conflict holds.now.conflicts) running.now process stay holds.now.net) marks.old marks.new }
{
    let end = holds.net_len();
    let mut left = stay;
    let mut place = 0;
    'places: while place < end {
        if holds.net_at(place).process == process {
            if left == 0 {
                drag_at(holds, running, place, marks);
            } else {
                left -= 1;
            }
        }
        place += 1;
    }
}

// Conflicts among entries.
ghost use Rattle.std.specs.Prelude.{◌≡◌, ◌<◌, ◌&&◌, ◌||◌, nat_eq};
ghost use Rattle.std.specs.List.{list_any};
ghost use Rattle.process_tree.specs.Conflicts.{do_conflict, operations_in};
ghost use Rattle.schedule_model.specs.Conflict.{conflict};
ghost use Rattle.schedule_rules.specs.Applying.{AreKnown};
ghost use Rattle.history_judging.specs.Conflicting.{conflicts_in_front, conflicts_with_any};

use process_tree::{Conflicts, Entry};
use schedule_rules::conflict;

/// Whether one of these entries conflicts with an entry.
pub fn conflicts_with_any(c: &Conflicts, entry: &Entry, others: &[Entry]) -> bool
    requires entry { entry.now.op < operations_in c.now }
    requires others { AreKnown c.now others.now }
    ensures { result ≡ conflicts_with_any (do_conflict c.now) entry.now others.now }
{
    others.iter().any(|other| conflict(c, entry, other))
}

// Whether one of these entries is of the process and conflicts with an entry.
fn conflicts_of_process(c: &Conflicts, process: u32, entry: &Entry, others: &[Entry]) -> bool
    requires entry { entry.now.op < operations_in c.now }
    requires others { AreKnown c.now others.now }
    ensures { result ≡ list_any (λ y. nat_eq y.process process && conflict (do_conflict c.now) y entry.now) others.now }
{
    others.iter().any(|other| other.process == process && conflict(c, other, entry))
}

// Whether an entry of a process conflicts with one in front of it.
fn conflicts_in_front(c: &Conflicts, process: u32, entries: &[Entry]) -> bool
    requires { AreKnown c.now entries.now }
    ensures { result ≡ conflicts_in_front (do_conflict c.now) process entries.now }
{
    let mut rest = entries;
    while let [entry, after @ ..] = rest {
        if conflicts_of_process(c, process, entry, after) {
            return true;
        }
        rest = after;
    }
    false
}

/// Whether one of these entries conflicts with an entry, or with one behind it that is of the same process.
pub fn stands_in_way(c: &Conflicts, entry: &Entry, standing: &[Entry]) -> bool
    requires entry { entry.now.op < operations_in c.now }
    requires standing { AreKnown c.now standing.now }
    ensures { result ≡ (conflicts_with_any (do_conflict c.now) entry.now standing.now
        || conflicts_in_front (do_conflict c.now) entry.now.process standing.now) }
{
    conflicts_with_any(c, entry, standing) || conflicts_in_front(c, entry.process, standing)
}

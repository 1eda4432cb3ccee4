// Whether what stands or is owed conflicts with an event.
ghost use Rattle.std.specs.Prelude.{◌≡◌, ◌<◌, ◌&&◌, not, ◌++◌, nat_eq, IfOk};
ghost use Rattle.std.specs.List.{list_any};
ghost use Rattle.process_tree.specs.declared.entry.Entry.{Entry};
ghost use Rattle.process_tree.specs.Conflicts.{do_conflict, operations_in};
ghost use Rattle.process_tree.specs.Entries.{access_of};
ghost use Rattle.process_tree.specs.Order.{Each};
ghost use Rattle.schedule_model.specs.Conflict.{conflict};
ghost use Rattle.schedule_model.specs.Holdings.{behind};
ghost use Rattle.schedule_rules.specs.Applying.{AreKnown};
ghost use Rattle.history_judging.specs.Conflicting.{conflicts_with_any, any_conflicts, conflicts_in_front, access_conflicts};

use crate::access::{Accesses, accesses_of};
use process_tree::{Conflicts, Entry};
use schedule_rules::{conflict, is_same_step};
use std::alloc::{AllocError, Global};

/// Whether one of these entries conflicts with an entry.
pub fn conflicts_with_any(c: &Conflicts, entry: &Entry, others: &[Entry]) -> bool
    requires entry { entry.now.op < operations_in c.now }
    requires others { AreKnown c.now others.now }
    ensures { result ≡ conflicts_with_any (do_conflict c.now) entry.now others.now }
{
    others.iter().any(|other| conflict(c, entry, other))
}

/// Whether one of those behind the entry of its step does.
pub fn conflicts_behind(c: &Conflicts, entry: &Entry, others: &[Entry]) -> bool
    requires entry { entry.now.op < operations_in c.now }
    requires others { AreKnown c.now others.now }
    ensures { result ≡ conflicts_with_any (do_conflict c.now) entry.now (behind entry.now others.now) }
{
    let mut rest = others;
    while let [other, after @ ..] = rest {
        if is_same_step(entry, other) {
            return conflicts_with_any(c, entry, after);
        }
        rest = after;
    }
    false
}

/// Whether an entry of another process conflicts with one of these accesses.
fn conflicts_among(c: &Conflicts, process: u32, accesses: &Accesses, others: &[Entry]) -> bool
    requires known { Each (λ a. a.op < operations_in c.now) accesses.now }
    requires others { AreKnown c.now others.now }
    ensures { result ≡ list_any
        (λ x. not (nat_eq process x.process) && access_conflicts (do_conflict c.now) accesses.now (access_of x)) others.now }
{
    others.iter().any(|other| process != other.process && accesses.conflict(c, other))
}

/// Whether one of these steps of a process conflicts with one of two lists of entries.
pub fn any_conflicts(
    alloc: Global,
    c: &Conflicts,
    process: u32,
    steps: &[Entry],
    net: &[Entry],
    owed: &[Entry],
) -> Result<bool, AllocError>
    requires own { Each (λ e. e.process ≡ process) steps.now }
    requires steps { AreKnown c.now steps.now }
    requires net { AreKnown c.now net.now }
    requires owed { AreKnown c.now owed.now }
    ensures { IfOk result (λ met. met ≡ any_conflicts (do_conflict c.now) steps.now (net.now ++ owed.now)) }
{
    let accesses = accesses_of(alloc, steps)?;
    if conflicts_among(c, process, &accesses, net) {
        return Ok(true);
    }
    Ok(conflicts_among(c, process, &accesses, owed))
}

/// Whether an entry of a process conflicts with one in front of it.
pub fn conflicts_in_front(
    alloc: Global,
    c: &Conflicts,
    process: u32,
    entries: &[Entry],
) -> Result<bool, AllocError>
    requires known { AreKnown c.now entries.now }
    ensures { IfOk result (λ met. met ≡ conflicts_in_front (do_conflict c.now) process entries.now) }
{
    let mut accesses = Accesses::new(alloc);
    let mut rest = entries;
    while let [before @ .., entry] = rest {
        if entry.process == process {
            accesses.add(entry)?;
        } else if accesses.conflict(c, entry) {
            return Ok(true);
        }
        rest = before;
    }
    Ok(false)
}

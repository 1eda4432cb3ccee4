// Circles of processes that build on each other.
ghost use Rattle.std.specs.Prelude.{◌≡◌, ◌<◌, ◌&&◌, true, false, ℕ, Bool, length, IfOk};
ghost use Rattle.std.specs.List.{list_any};
ghost use Rattle.process_tree.specs.declared.entry.Entry.{Entry};
ghost use Rattle.process_tree.specs.Conflicts.{do_conflict, operations_in};
ghost use Rattle.process_tree.specs.Order.{Each};
ghost use Rattle.schedule_model.specs.Conflict.{conflict};
ghost use Rattle.schedule_rules.specs.Applying.{AreKnown};
ghost use Rattle.history_judging.specs.Conflicting.{closes_circle, is_marked, is_closed, Spreads};

use crate::access::Accesses;
use crate::against::conflicts_with_any;
use process_tree::{Conflicts, Entry};
use schedule_rules::conflict;
use std::alloc::{AllocError, Global};

/// Whether a step conflicts with an entry of a process to which a walk along arrows leads from its own. The processes of the
/// entries are below a number.
pub fn closes_circle(
    alloc: Global,
    c: &Conflicts,
    entries: &[Entry],
    processes: usize,
    step: &Entry,
) -> Result<bool, AllocError>
    requires step { step.now.op < operations_in c.now }
    requires known { AreKnown c.now entries.now }
    requires own { step.now.process < processes }
    requires numbers { Each (λ e. e.process < processes) entries.now }
    ensures { IfOk result (λ closes. closes ≡ closes_circle (do_conflict c.now) entries.now step.now) }
{
    if !conflicts_with_any(c, step, entries) {
        return Ok(false);
    }
    let marks = reached(alloc, c, entries, processes, step.process)?;
    Ok(conflicts_with_marked(c, step, entries, &marks))
}

/// Marks a process, and all to which a walk along arrows leads from it.
fn reached(
    alloc: Global,
    c: &Conflicts,
    entries: &[Entry],
    processes: usize,
    process: u32,
) -> Result<Vec<bool>, AllocError>
    requires known { AreKnown c.now entries.now }
    requires own { process < processes }
    requires numbers { Each (λ e. e.process < processes) entries.now }
    ensures len { IfOk result (λ marks. length marks.items ≡ processes) }
    ensures own { IfOk result (λ marks. is_marked marks.items process ≡ true) }
    ensures closed { IfOk result (λ marks. is_closed (do_conflict c.now) (is_marked marks.items) entries.now ≡ true) }
    ensures only { IfOk result
        (λ marks. (p : ℕ → Bool) → p process ≡ true → is_closed (do_conflict c.now) p entries.now ≡ true → (k : ℕ)
        → is_marked marks.items k ≡ true → p k ≡ true) }
{
    let mut marks = vec![in alloc; false; processes]?;
    marks[process as usize] = true;
    let mut grew = true;
    while grew {
        grew = spread(alloc, c, entries, &mut marks)?;
    }
    Ok(marks)
}

/// Marks further processes to which arrows lead from marked ones, in one pass over the entries; whether there was one.
fn spread(
    alloc: Global,
    c: &Conflicts,
    entries: &[Entry],
    marks: &mut [bool],
) -> Result<bool, AllocError>
    requires known { AreKnown c.now entries.now }
    requires numbers { Each (λ e. e.process < length marks.old) entries.now }
    ensures len { length marks.new ≡ length marks.old }
    ensures spread { IfOk result (λ grew. Spreads (do_conflict c.now) entries.now marks.old marks.new grew) }
{
    let mut accesses = Accesses::new(alloc);
    let mut grew = false;
    let mut rest = entries;
    while let [entry, after @ ..] = rest {
        let place = entry.process as usize;
        if marks[place] {
            accesses.add(entry)?;
        } else if accesses.conflict(c, entry) {
            accesses.add(entry)?;
            marks[place] = true;
            grew = true;
        }
        rest = after;
    }
    Ok(grew)
}

/// Whether a step conflicts with an entry of a marked process.
fn conflicts_with_marked(c: &Conflicts, step: &Entry, entries: &[Entry], marks: &[bool]) -> bool
    requires step { step.now.op < operations_in c.now }
    requires known { AreKnown c.now entries.now }
    requires numbers { Each (λ e. e.process < length marks.now) entries.now }
    ensures { result ≡ list_any (λ x. conflict (do_conflict c.now) step.now x && is_marked marks.now x.process) entries.now }
{
    entries.iter().any(|entry| conflict(c, step, entry) && marks[entry.process as usize])
}

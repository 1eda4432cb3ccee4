// Which entries depend on which.
ghost use Rattle.std.specs.Prelude.{◌≡◌, ◌<◌, ◌∷◌, IfOk};
ghost use Rattle.process_tree.specs.Conflicts.{do_conflict, operations_in};
ghost use Rattle.schedule_model.specs.Reduction.{is_pair};
ghost use Rattle.schedule_rules.specs.Applying.{AreKnown};
ghost use Rattle.dependence_model.specs.Dependence.{can_go, depends, depends_on_any, entries_of};
ghost use Rattle.audit_core.specs.Taking.{AreAllKnown};

use dependence_model::Placed;
use process_tree::{Conflicts, Entry};
use schedule_rules::conflict;
use std::alloc::{AllocError, Global};

/// Whether an entry depends on an earlier one.
fn depends(c: &Conflicts, earlier: &Entry, later: &Entry) -> bool
    requires earlier { earlier.now.op < operations_in c.now }
    requires later { later.now.op < operations_in c.now }
    ensures { result ≡ depends (do_conflict c.now) earlier.now later.now }
{
    earlier.process == later.process || conflict(c, earlier, later)
}

/// Whether these are a step and its undo.
pub fn is_pair(a: &Entry, b: &Entry) -> bool
    ensures { result ≡ is_pair a.now b.now }
{
    !a.undo && b.undo && a.process == b.process && a.step == b.step
}

// Whether an entry depends on one of these.
fn depends_on_any(c: &Conflicts, earlier: &[Entry], later: &Entry) -> bool
    requires earlier { AreKnown c.now earlier.now }
    requires later { later.now.op < operations_in c.now }
    ensures { result ≡ depends_on_any (do_conflict c.now) earlier.now later.now }
{
    earlier.iter().any(|x| depends(c, x, later))
}

// Whether an entry goes on with a chain from a step.
fn is_chained(c: &Conflicts, step: &Entry, found: &[Entry], x: &Entry) -> bool
    requires step { step.now.op < operations_in c.now }
    requires found { AreKnown c.now found.now }
    requires x { x.now.op < operations_in c.now }
    ensures { result ≡ depends_on_any (do_conflict c.now) (step.now ∷ found.now) x.now }
{
    depends(c, step, x) || depends_on_any(c, found, x)
}

/// Whether no chain leads from a step to its undo through these entries, which stand between them. It is looked no further than to
/// the first entry of a chain on which the undo depends: where that does what the step does, it is the first of all.
pub fn can_go(
    alloc: Global,
    c: &Conflicts,
    step: &Entry,
    between: &[Placed],
    undo: &Entry,
) -> Result<bool, AllocError>
    requires step { step.now.op < operations_in c.now }
    requires between { AreAllKnown c.now between.now }
    requires undo { undo.now.op < operations_in c.now }
    ensures { IfOk result (λ can. can ≡ can_go (do_conflict c.now) step.now (entries_of between.now) undo.now) }
{
    let mut found: Vec<Entry> = Vec::new(alloc);
    let mut rest = between;
    while let [x, after @ ..] = rest {
        if is_chained(c, step, &found, &x.entry) {
            if depends(c, &x.entry, undo) {
                return Ok(false);
            }
            found.push(x.entry)?;
        }
        rest = after;
    }
    Ok(true)
}

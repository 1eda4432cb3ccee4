// Steps taken away with their undos.
ghost use Rattle.std.specs.Prelude.{◌≡◌, ◌<◌, ◌≤◌, length, IfOk, OnOk};
ghost use Rattle.process_tree.specs.Conflicts.{do_conflict};
ghost use Rattle.dependence_model.specs.Dependence.{IsLeft};
ghost use Rattle.audit_core.specs.Taking.{AreAllKnown, AreBefore, IsUndoBehind, TookAt, TookSome};

use crate::dependence::{can_go, is_pair};
use dependence_model::Placed;
use process_tree::Conflicts;
use std::alloc::{AllocError, Global};

// How many entries stand before the first of a process.
fn before_own(process: u32, entries: &[Placed]) -> usize
    ensures { AreBefore process entries.now result }
{
    let mut size = 0;
    let mut rest = entries;
    while let [x, after @ ..] = rest {
        if x.entry.process == process {
            break;
        }
        size += 1;
        rest = after;
    }
    size
}

// How far behind the step at a place its undo stands, where no chain leads to it.
fn undo_behind(
    alloc: Global,
    c: &Conflicts,
    list: &[Placed],
    at: usize,
) -> Result<Option<usize>, AllocError>
    requires known { AreAllKnown c.now list.now }
    requires within { at < length list.now }
    ensures found { IfOk result (λ found. IsUndoBehind (do_conflict c.now) at list.now found) }
{
    let (_, from) = list.split_at(at);
    let [step, behind @ ..] = from else {
        return Ok(None);
    };
    let size = before_own(step.entry.process, behind);
    let (between, later) = behind.split_at(size);
    match later {
        [undo, ..] if is_pair(&step.entry, &undo.entry) => {
            let can = can_go(alloc, c, &step.entry, between, &undo.entry)?;
            Ok(if can { Some(size) } else { None })
        }
        _ => Ok(None),
    }
}

// Takes the step at a place away with its undo, if that can be.
fn take_at(
    alloc: Global,
    c: &Conflicts,
    list: &mut Vec<Placed>,
    at: usize,
) -> Result<bool, AllocError>
    requires known { AreAllKnown c.now list.old.items }
    requires within { at < length list.old.items }
    ensures took { IfOk result (λ took. TookAt (do_conflict c.now) at list.old.items list.new.items took) }
{
    match undo_behind(alloc, c, list, at)? {
        Some(size) => {
            list.remove(at + 1 + size);
            list.remove(at);
            Ok(true)
        }
        None => Ok(false),
    }
}

// Looks at each place, the last first.
fn take_some(alloc: Global, c: &Conflicts, list: &mut Vec<Placed>) -> Result<bool, AllocError>
    requires known { AreAllKnown c.now list.old.items }
    ensures took { IfOk result (λ took. TookSome (do_conflict c.now) list.old.items list.new.items took) }
{
    let mut took = false;
    let mut at = list.len();
    while at > 0 {
        at -= 1;
        if take_at(alloc, c, list, at)? {
            took = true;
        }
    }
    Ok(took)
}

/// Takes steps away with their undos until no more can be taken.
pub fn take_away(alloc: Global, c: &Conflicts, list: &mut Vec<Placed>) -> Result<(), AllocError>
    requires known { AreAllKnown c.now list.old.items }
    ensures left { OnOk result (IsLeft (do_conflict c.now) list.old.items list.new.items) }
    ensures known { OnOk result (AreAllKnown c.now list.new.items) }
{
    let mut more = true;
    while more {
        more = take_some(alloc, c, list)?;
    }
    Ok(())
}

// What is found of one completed history.
ghost use Rattle.std.specs.Prelude.{◌≡◌, ◌≤◌, length, IfOk, IsTrue};
ghost use Rattle.std.specs.List.{list_any};
ghost use Rattle.process_tree.specs.Conflicts.{do_conflict, operations_in};
ghost use Rattle.schedule_model.specs.Course.{courses_of};
ghost use Rattle.schedule_model.specs.Laws.{IsPlanned};
ghost use Rattle.schedule_model.specs.OwnOrder.{is_in_own_order};
ghost use Rattle.dependence_model.specs.Dependence.{left_of};
ghost use Rattle.dependence_model.specs.Audited.{completed_schedule};
ghost use Rattle.audit_core.specs.Taking.{AreAllKnown};
ghost use Rattle.audit_core.specs.Arrows.{AreFew};
ghost use Rattle.audit_core.specs.Audits.{most_events, serial_schedule, NowFound};

use crate::cycles::told_cycle;
use crate::ordering::{one_by_one, order_of};
use crate::placing::placed;
use crate::taking::take_away;
use dependence_model::{Placed, left_is_computed, left_is_unique, schedules_are_once};
use process_tree::{Conflicts, Entry};
use schedule_rules::{History, completed};
use std::alloc::{AllocError, Global};

/// What an audit finds.
#[derive(Drop)]
pub enum Audited {
    /// Each beginning can be reduced, and this is the serial list to which the whole is brought.
    Reducible {
        serial: Vec<Entry>,
    },
    /// An undo can't be brought to its step: the least number of events for which that is so, and what is left of them.
    Barred {
        prefix: u32,
        left: Vec<Placed>,
    },
    /// Processes would have to come before themselves: the least number of events, what is left, and the cycle that is told.
    Cycle {
        prefix: u32,
        left: Vec<Placed>,
        processes: Vec<u32>,
    },
}

/// What is left of the schedule of a completed history.
fn left_behind(alloc: Global, h: &History, c: &Conflicts) -> Result<Vec<Placed>, AllocError>
    requires planned { IsPlanned (operations_in c.now) h.now.plans h.now.events }
    requires own_order { IsTrue (is_in_own_order (courses_of h.now.plans) h.now.events) }
    requires few { length h.now.events ≤ most_events }
    ensures left { IfOk result
        (λ left. left.items ≡ left_of (do_conflict c.now) (completed_schedule (courses_of h.now.plans) h.now.events)) }
    ensures known { IfOk result (λ left. AreAllKnown c.now left.items) }
    ensures few { IfOk result (λ left. AreFew left.items) }
{
    left_is_unique();
    left_is_computed();
    schedules_are_once();
    let added = completed(alloc, h)?;
    let mut list = placed(alloc, h.events.as_slice(), &added)?;
    take_away(alloc, c, &mut list)?;
    Ok(list)
}

// Whether an undo is among these entries.
fn has_undo(left: &[Placed]) -> bool
    ensures { result ≡ list_any (λ x. x.entry.undo) left.now }
{
    left.iter().any(|x| x.entry.undo)
}

/// The serial list to which the schedule of a completed history is brought.
pub fn serial_schedule(alloc: Global, h: &History, c: &Conflicts) -> Result<Vec<Entry>, AllocError>
    requires planned { IsPlanned (operations_in c.now) h.now.plans h.now.events }
    requires own_order { IsTrue (is_in_own_order (courses_of h.now.plans) h.now.events) }
    requires few { length h.now.events ≤ most_events }
    ensures { IfOk result
        (λ serial. serial.items ≡ serial_schedule (do_conflict c.now) (courses_of h.now.plans) h.now.events) }
{
    let left = left_behind(alloc, h, c)?;
    let order = order_of(alloc, c, &left)?;
    one_by_one(alloc, &left, &order)
}

/// What is found where this history is judged, too: it fails, or what was found of longer ones stays.
pub fn judged(
    alloc: Global,
    h: &History,
    c: &Conflicts,
    found: Audited,
) -> Result<Audited, AllocError>
    requires planned { IsPlanned (operations_in c.now) h.now.plans h.now.events }
    requires own_order { IsTrue (is_in_own_order (courses_of h.now.plans) h.now.events) }
    requires few { length h.now.events ≤ most_events }
    ensures { IfOk result (λ now. NowFound (do_conflict c.now) (completed_schedule (courses_of h.now.plans) h.now.events)
        (length h.now.events) found now) }
{
    let left = left_behind(alloc, h, c)?;
    let prefix = h.events.as_slice().len() as u32;
    if has_undo(&left) {
        return Ok(Audited::Barred { prefix, left });
    }
    match told_cycle(alloc, c, &left)? {
        Some(processes) => Ok(Audited::Cycle {
            prefix,
            left,
            processes,
        }),
        None => Ok(found),
    }
}

// Reductions.
ghost use Rattle.std.specs.Prelude.{◌≡◌, ℕ, flat_map, Some, IfOk, IsTrue};
ghost use Rattle.process_tree.specs.Conflicts.{operations_in, do_conflict};
ghost use Rattle.schedule_model.specs.Completion.{completion};
ghost use Rattle.schedule_model.specs.Course.{courses_of};
ghost use Rattle.schedule_model.specs.Histories.{acts, ends, net_of};
ghost use Rattle.schedule_model.specs.Laws.{IsPlanned};
ghost use Rattle.schedule_model.specs.Legal.{is_legal};
ghost use Rattle.schedule_model.specs.OwnOrder.{is_in_own_order};
ghost use Rattle.schedule_model.specs.PrintedTrace.{printed_trace, trace_of};
ghost use Rattle.schedule_model.specs.Reduction.{AreReduced, applied_all, is_serial};
ghost use Rattle.reduction_trace.specs.Whole.{completed_history};

use crate::cancelling::cancel_undos;
use crate::ordering::in_order;
use crate::schedule::{order_of_ends, schedule};
use plain_list::Items;
use process_tree::{Conflicts, Entry};
use schedule_rules::{Event, History, TraceStep, completed};
use std::alloc::{AllocError, Global};

/// A list of entries.
pub type Entries = Items<Entry>;

/// A list of steps of a reduction.
pub type TraceSteps = Items<TraceStep>;

/// How the schedule of a completed history is brought to a serial one.
#[derive(Drop)]
pub struct Reduction {
    /// What completion adds to the history.
    pub completion: Items<Event>,
    /// The schedule: what took effect in the history and in its completion.
    pub list: Entries,
    /// The printed trace.
    pub steps: TraceSteps,
    /// The list to which it leads: one process after another, in the order of their ends.
    pub serial: Entries,
}

/// The reduction of a legal history, over the table of its conflicts: `docs/SCHEDULES.md`, 'Reduction'. A schedule of 2^32
/// entries or more is told as want of memory.
pub fn trace(alloc: Global, h: &History, c: &Conflicts) -> Result<Reduction, AllocError>
    requires planned { IsPlanned (operations_in c.now) h.now.plans h.now.events }
    requires legal { IsTrue (is_legal (do_conflict c.now) (courses_of h.now.plans) h.now.events) }
    ensures list { IfOk result
        (λ r. (r.completion ≡ completion (courses_of h.now.plans) h.now.events) × (r.list ≡ acts (completed_history h.now))) }
    ensures printed { IfOk result
        (λ r. record { steps = r.steps; list = r.serial } ≡ printed_trace (courses_of h.now.plans) h.now.events) }
    ensures applies { IfOk result (λ r. applied_all (do_conflict c.now) r.steps r.list ≡ Some r.serial) }
    ensures chain { IfOk result (λ r. AreReduced (do_conflict c.now) r.list r.serial) }
    ensures serial { IfOk result
        (λ r. IsTrue (is_serial r.serial) ×
        (r.serial ≡ flat_map (net_of (completed_history h.now)) (ends (completed_history h.now)))) }
{
    printed(alloc, h)
}

/// What is printed of a history in own order.
fn printed(alloc: Global, h: &History) -> Result<Reduction, AllocError>
    requires planned { (operations : ℕ) × IsPlanned operations h.now.plans h.now.events }
    requires own_order { IsTrue (is_in_own_order (courses_of h.now.plans) h.now.events) }
    ensures list { IfOk result
        (λ r. (r.completion ≡ completion (courses_of h.now.plans) h.now.events) × (r.list ≡ acts (completed_history h.now))) }
    ensures printed { IfOk result
        (λ r. record { steps = r.steps; list = r.serial } ≡ printed_trace (courses_of h.now.plans) h.now.events) }
{
    let added = completed(alloc, h)?;
    let list = schedule(alloc, h.events.as_slice(), &added)?;
    let order = order_of_ends(alloc, h.events.as_slice(), &added)?;
    let (steps, serial) = trace_of(alloc, &list, &order)?;
    Ok(Reduction {
        completion: Items::new(added),
        list: Entries::new(list),
        steps: TraceSteps::new(steps),
        serial: Entries::new(serial),
    })
}

/// The printed trace of a list of entries whose processes end in this order, and the list to which it leads. It asks nothing of
/// the list: where that isn't the schedule of a legal history, the steps need not apply. Places have 32 bits, and a list beyond
/// them is told as want of memory.
pub fn trace_of(
    alloc: Global,
    list: &[Entry],
    order: &[u32],
) -> Result<(Vec<TraceStep>, Vec<Entry>), AllocError>
    ensures { IfOk result (λ r. record { steps = r.0.items; list = r.1.items } ≡ trace_of order.now list.now) }
{
    if list.len() > u32::MAX as usize {
        return Err(AllocError);
    }
    let mut left = list.to_vec(alloc)?;
    let mut steps = Vec::new(alloc);
    cancel_undos(&mut left, &mut steps)?;
    let serial = in_order(alloc, order, &mut left, &mut steps)?;
    Ok((steps, serial))
}

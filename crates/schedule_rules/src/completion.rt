// What completes a history.
ghost use Rattle.std.specs.Prelude.{◌≡◌, ◌++◌, [], ℕ, filter, map, reverse, None, IfOk, OnOk, IsTrue};
ghost use Rattle.std.specs.List.{list_any};
ghost use Rattle.process_tree.specs.declared.entry.Entry.{Entry};
ghost use Rattle.process_tree.specs.Making.{tree_fault};
ghost use Rattle.process_tree.specs.Recovery.{forward};
ghost use Rattle.process_tree.specs.Shape.{shape_of, IsBranch};
ghost use Rattle.schedule_model.specs.declared.event.Event.TheVariants.{Act, End};
ghost use Rattle.schedule_model.specs.Completion.{completion};
ghost use Rattle.schedule_model.specs.Course.{courses_of, course_of};
ghost use Rattle.schedule_model.specs.Histories.{active, starts, ends, is_in, of_process, same_step, steps_of, undoing};
ghost use Rattle.schedule_model.specs.Laws.{AreGood, IsPlanned};
ghost use Rattle.schedule_model.specs.OwnOrder.{is_in_own_order};
ghost use Rattle.schedule_rules.specs.Recovering.{StandsOnBranches, backward_among, all_backward, owed_by, closed_by};
ghost use Rattle.schedule_rules.specs.Recovering.{closing_among};

use crate::events::{is_same_step, net};
use crate::planned::entry_of;
use process_tree::{Entry, Plan, fixed_len};
use schedule_model::{Event, History};
use std::alloc::{AllocError, Global};

/// The events that completion adds: what is to be undone, the last first, and then what each active process owes, and its
/// end.
pub fn completed(alloc: Global, h: &History) -> Result<Vec<Event>, AllocError>
    requires planned { (operations : ℕ) × IsPlanned operations h.now.plans h.now.events }
    requires own_order { IsTrue (is_in_own_order (courses_of h.now.plans) h.now.events) }
    ensures { IfOk result (λ added. added.items ≡ completion (courses_of h.now.plans) h.now.events) }
{
    let plans = h.plans.as_slice();
    let entries = net(alloc, h)?;
    let processes = active_processes(alloc, h.events.as_slice())?;
    let mut added = undos(alloc, plans, &entries, &processes)?;
    add_closings(alloc, plans, &entries, &processes, &mut added)?;
    Ok(added)
}

/// Who started, in order.
pub fn started(alloc: Global, events: &[Event]) -> Result<Vec<u32>, AllocError>
    ensures { IfOk result (λ found. found.items ≡ starts events.now) }
{
    let mut found = Vec::new(alloc);
    let mut rest = events;
    while let [event, after @ ..] = rest {
        if let Event::Start(i) = event {
            found.push(*i)?;
        }
        rest = after;
    }
    Ok(found)
}

/// Who ended, in order.
fn ended(alloc: Global, events: &[Event]) -> Result<Vec<u32>, AllocError>
    ensures { IfOk result (λ found. found.items ≡ ends events.now) }
{
    let mut found = Vec::new(alloc);
    let mut rest = events;
    while let [event, after @ ..] = rest {
        if let Event::End(i) = event {
            found.push(*i)?;
        }
        rest = after;
    }
    Ok(found)
}

fn is_listed(numbers: &[u32], i: u32) -> bool
    ensures { result ≡ is_in i numbers.now }
{
    numbers.iter().any(|number| *number == i)
}

/// Who is active, by number.
fn active_processes(alloc: Global, events: &[Event]) -> Result<Vec<u32>, AllocError>
    ensures { IfOk result (λ processes. processes.items ≡ active events.now) }
{
    let ended = ended(alloc, events)?;
    let mut processes = started(alloc, events)?;
    processes.retain(|i| !is_listed(&ended, *i));
    Ok(processes)
}

/// The entries of one process.
pub fn of_process(alloc: Global, entries: &[Entry], i: u32) -> Result<Vec<Entry>, AllocError>
    ensures { IfOk result (λ own. own.items ≡ of_process i entries.now) }
{
    let mut own = Vec::new(alloc);
    let mut rest = entries;
    while let [entry, after @ ..] = rest {
        if entry.process == i {
            own.push(*entry)?;
        }
        rest = after;
    }
    Ok(own)
}

/// The steps of these entries.
pub fn steps_of(alloc: Global, entries: &[Entry]) -> Result<Vec<u16>, AllocError>
    ensures { IfOk result (λ steps. steps.items ≡ steps_of entries.now) }
{
    let mut steps = Vec::new(alloc);
    let mut rest = entries;
    while let [entry, after @ ..] = rest {
        steps.push(entry.step)?;
        rest = after;
    }
    Ok(steps)
}

/// The backward recovery of a process among those that stand.
pub fn backward(
    alloc: Global,
    plan: &Plan,
    entries: &[Entry],
    i: u32,
) -> Result<Vec<Entry>, AllocError>
    requires good { tree_fault plan.now.tree ≡ None }
    requires branch { IsBranch (shape_of plan.now.tree) (steps_of (of_process i entries.now)) }
    ensures { IfOk result (λ found. found.items ≡ backward_among (course_of plan.now) entries.now i) }
{
    let own = of_process(alloc, entries, i)?;
    let steps = steps_of(alloc, &own)?;
    let fixed = fixed_len(&plan.tree, &steps);
    let (_, later) = own.split_at(fixed);
    later.to_vec(alloc)
}

/// The backward recoveries of these processes, one after another.
fn backward_of_all(
    alloc: Global,
    plans: &[Plan],
    entries: &[Entry],
    processes: &[u32],
) -> Result<Vec<Entry>, AllocError>
    requires good { AreGood plans.now }
    requires branches { StandsOnBranches plans.now entries.now processes.now }
    ensures { IfOk result (λ found. found.items ≡ all_backward (courses_of plans.now) entries.now processes.now) }
{
    let mut found = Vec::new(alloc);
    let mut rest = processes;
    while let [i, after @ ..] = rest {
        let own = backward(alloc, &plans[*i as usize - 1], entries, *i)?;
        found.extend_from_slice(&own)?;
        rest = after;
    }
    Ok(found)
}

/// Whether one of these entries is of the same step of the same process.
pub fn has_same_step(entries: &[Entry], entry: &Entry) -> bool
    ensures { result ≡ list_any (same_step entry.now) entries.now }
{
    entries.iter().any(|other| is_same_step(entry, other))
}

/// The undo of an entry.
fn undo_of(entry: &Entry) -> Entry
    ensures { result ≡ undoing entry.now }
{
    Entry {
        process: entry.process,
        step: entry.step,
        op: entry.op,
        key: entry.key,
        undo: true,
    }
}

/// The undos of what these processes have to undo, the last entry first.
fn undos(
    alloc: Global,
    plans: &[Plan],
    entries: &[Entry],
    processes: &[u32],
) -> Result<Vec<Event>, AllocError>
    requires good { AreGood plans.now }
    requires branches { StandsOnBranches plans.now entries.now processes.now }
    ensures { IfOk result
        (λ added. added.items ≡ map (λ e. Act (undoing e))
        (reverse (filter (λ e. list_any (same_step e)
        (all_backward (courses_of plans.now) entries.now processes.now)) entries.now))) }
{
    let backward = backward_of_all(alloc, plans, entries, processes)?;
    undos_among(alloc, entries, &backward)
}

/// The undos of those of these entries that are listed, the last entry first.
fn undos_among(alloc: Global, entries: &[Entry], listed: &[Entry]) -> Result<Vec<Event>, AllocError>
    ensures { IfOk result
        (λ added. added.items ≡ map (λ e. Act (undoing e))
        (reverse (filter (λ e. list_any (same_step e) listed.now) entries.now))) }
{
    let mut added = Vec::new(alloc);
    let mut rest = entries;
    while let [before @ .., entry] = rest {
        if has_same_step(listed, entry) {
            added.push(Event::Act(undo_of(entry)))?;
        }
        rest = before;
    }
    Ok(added)
}

/// What a process owes, these steps of it being done.
pub fn owed(alloc: Global, plan: &Plan, steps: &[u16]) -> Result<Vec<u16>, AllocError>
    requires good { tree_fault plan.now.tree ≡ None }
    requires branch { IsBranch (shape_of plan.now.tree) steps.now }
    ensures { IfOk result (λ places. places.items ≡ forward (shape_of plan.now.tree) steps.now) }
{
    let fixed = fixed_len(&plan.tree, steps);
    let (done, _) = steps.split_at(fixed);
    match done {
        [] => Ok(Vec::new(alloc)),
        [.., last] => {
            let places = plan.tree.completion(alloc, *last)?;
            Ok(places.into_items())
        }
    }
}

/// Adds what a process owes, and its end.
fn add_closing(
    alloc: Global,
    plan: &Plan,
    entries: &[Entry],
    i: u32,
    added: &mut Vec<Event>,
) -> Result<(), AllocError>
    requires good { tree_fault plan.now.tree ≡ None }
    requires branch { IsBranch (shape_of plan.now.tree) (steps_of (of_process i entries.now)) }
    ensures { OnOk result (added.new.items ≡ added.old.items ++ closing_among (course_of plan.now) entries.now i) }
{
    let own = of_process(alloc, entries, i)?;
    let steps = steps_of(alloc, &own)?;
    let places = owed(alloc, plan, &steps)?;
    add_steps(plan, &places, i, added)?;
    added.push(Event::End(i))?;
    Ok(())
}

/// Adds these steps of a process.
fn add_steps(plan: &Plan, steps: &[u16], i: u32, added: &mut Vec<Event>) -> Result<(), AllocError>
    ensures { OnOk result (added.new.items ≡ added.old.items ++ map Act (owed_by (course_of plan.now) i steps.now)) }
{
    let mut rest = steps;
    while let [step, after @ ..] = rest {
        added.push(Event::Act(entry_of(plan, i, *step)))?;
        rest = after;
    }
    Ok(())
}

/// Adds what these processes owe, and their ends.
fn add_closings(
    alloc: Global,
    plans: &[Plan],
    entries: &[Entry],
    processes: &[u32],
    added: &mut Vec<Event>,
) -> Result<(), AllocError>
    requires good { AreGood plans.now }
    requires branches { StandsOnBranches plans.now entries.now processes.now }
    ensures { OnOk result (added.new.items ≡ added.old.items ++ closed_by (courses_of plans.now) entries.now processes.now) }
{
    let mut rest = processes;
    while let [i, after @ ..] = rest {
        add_closing(alloc, &plans[*i as usize - 1], entries, *i, added)?;
        rest = after;
    }
    Ok(())
}

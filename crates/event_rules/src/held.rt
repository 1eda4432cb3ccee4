// What the active processes of a history hold.
ghost use Rattle.std.specs.Prelude.{◌≡◌, ◌++◌, filter, IfOk, None, OnOk};
ghost use Rattle.std.specs.List.{flat_map};
ghost use Rattle.process_tree.specs.Making.{tree_fault};
ghost use Rattle.process_tree.specs.Recovery.{forward};
ghost use Rattle.process_tree.specs.Shape.{shape_of, IsBranch};
ghost use Rattle.schedule_model.specs.Course.{course_of, courses_of};
ghost use Rattle.schedule_model.specs.Histories.{active, is_active, net, of_process, steps_of};
ghost use Rattle.schedule_model.specs.Laws.{AreGood};
ghost use Rattle.schedule_model.specs.Recovery.{owed};
ghost use Rattle.schedule_rules.specs.Recovering.{owed_by, StandsOnBranches};
ghost use Rattle.event_rules.specs.Held.{all_owed_among};

use process_tree::{Entry, Plan};
use schedule_model::History;
use schedule_rules::{active, entry_of, net, of_process, owed, started, steps_of};
use std::alloc::{AllocError, Global};

// Adds these steps of a process.
fn add_steps(plan: &Plan, steps: &[u16], i: u32, added: &mut Vec<Entry>) -> Result<(), AllocError>
    ensures { OnOk result (added.new.items ≡ added.old.items ++ owed_by (course_of plan.now) i steps.now) }
{
    let mut rest = steps;
    while let [step, after @ ..] = rest {
        added.push(entry_of(plan, i, *step))?;
        rest = after;
    }
    Ok(())
}

// Adds what a process owes.
fn add_owed(
    alloc: Global,
    plan: &Plan,
    entries: &[Entry],
    i: u32,
    added: &mut Vec<Entry>,
) -> Result<(), AllocError>
    requires good { tree_fault plan.now.tree ≡ None }
    requires branch { IsBranch (shape_of plan.now.tree) (steps_of (of_process i entries.now)) }
    ensures { OnOk result (added.new.items
        ≡ added.old.items ++ owed_by (course_of plan.now) i (forward (shape_of plan.now.tree) (steps_of (of_process i entries.now)))) }
{
    let own = of_process(alloc, entries, i)?;
    let steps = steps_of(alloc, &own)?;
    let places = owed(alloc, plan, &steps)?;
    add_steps(plan, &places, i, added)
}

// What these processes owe, one after another.
fn owed_by_all(
    alloc: Global,
    plans: &[Plan],
    entries: &[Entry],
    processes: &[u32],
) -> Result<Vec<Entry>, AllocError>
    requires good { AreGood plans.now }
    requires branches { StandsOnBranches plans.now entries.now processes.now }
    ensures { IfOk result (λ found. found.items ≡ all_owed_among (courses_of plans.now) entries.now processes.now) }
{
    let mut found = Vec::new(alloc);
    let mut rest = processes;
    while let [i, after @ ..] = rest {
        add_owed(alloc, &plans[*i as usize - 1], entries, *i, &mut found)?;
        rest = after;
    }
    Ok(found)
}

// Who is active, by number.
fn active_processes(alloc: Global, h: &History) -> Result<Vec<u32>, AllocError>
    ensures { IfOk result (λ processes. processes.items ≡ active h.now.events) }
{
    let mut processes = started(alloc, h.events.as_slice())?;
    processes.retain(|i| active(h, *i));
    Ok(processes)
}

/// What all active processes owe.
pub fn all_owed(alloc: Global, plans: &[Plan], h: &History) -> Result<Vec<Entry>, AllocError>
    requires good { AreGood plans.now }
    requires branches { StandsOnBranches plans.now (net h.now.events) (active h.now.events) }
    ensures { IfOk result (λ found. found.items ≡ flat_map (owed (courses_of plans.now) h.now.events) (active h.now.events)) }
{
    let entries = net(alloc, h)?;
    let processes = active_processes(alloc, h)?;
    owed_by_all(alloc, plans, &entries, &processes)
}

/// The net entries of those that are active.
pub fn active_net(alloc: Global, h: &History) -> Result<Vec<Entry>, AllocError>
    ensures { IfOk result (λ found. found.items ≡ filter (λ e. is_active h.now.events e.process) (net h.now.events)) }
{
    let mut entries = net(alloc, h)?;
    entries.retain(|entry| active(h, entry.process));
    Ok(entries)
}

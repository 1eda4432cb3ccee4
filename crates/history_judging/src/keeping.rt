// What an event makes of the tables.
ghost use Rattle.std.specs.Prelude.{◌≡◌, ◌<◌, ◌+◌, ◌-◌, ◌∷◌, ◌++◌, [], true, false, IfOk, OnOk};
ghost use Rattle.process_tree.specs.declared.entry.Entry.{Entry};
ghost use Rattle.process_tree.specs.declared.plan.Plan.{Plan};
ghost use Rattle.process_tree.specs.Shape.{shape_of, goes_on_to};
ghost use Rattle.schedule_model.specs.Course.{course_of};
ghost use Rattle.schedule_model.specs.Laws.{IsGoodPlan};
ghost use Rattle.process_tree.specs.Recovery.{forward};
ghost use Rattle.history_judging.specs.Judging.{steps_among};
ghost use Rattle.schedule_rules.specs.Recovering.{owed_by};
ghost use Rattle.history_judging.specs.Keeping.{started, undone, stepped, ended, is_active_in};
ghost use Rattle.history_judging.specs.Keeping.{of_others, owed_with};

use crate::judging::{add_owed, steps_among};
use crate::legality::{Legality, ProcessRow};
use process_tree::{Entry, Plan, commits};
use schedule_rules::{has_same_step, is_same_step, take_effect};
use std::alloc::{AllocError, Global};

/// A process of this plan starts.
pub fn start(mut t: Legality, plan: &Plan) -> Result<Legality, AllocError>
    ensures { IfOk result (λ after. after ≡ started (course_of plan.now) t) }
{
    let needed = 2 * plan.ops.as_slice().len() + 1;
    let (Some(active), Some(entries)) = (t.active.checked_add(1), t.entries.checked_add(needed))
    else {
        return Err(AllocError);
    };
    t.processes.push(ProcessRow {
        active: true,
        bound: 0,
        needed,
    })?;
    t.active = active;
    t.entries = entries;
    Ok(t)
}

/// An undo of an active process takes effect.
pub fn undo(mut t: Legality, e: &Entry) -> Result<Legality, AllocError>
    requires { is_active_in t.processes e.now.process ≡ true }
    ensures { IfOk result (λ after. after ≡ undone e.now t) }
{
    take_effect(&mut t.net, *e)?;
    let row = &mut t.processes[e.process as usize - 1];
    row.needed = row.needed.saturating_sub(1);
    Ok(t)
}

/// A step of an active process of this plan takes effect.
pub fn step(alloc: Global, mut t: Legality, plan: &Plan, e: &Entry) -> Result<Legality, AllocError>
    requires good { IsGoodPlan plan.now }
    requires going { is_active_in t.processes e.now.process ≡ true }
    requires goes { goes_on_to (shape_of plan.now.tree) (steps_among t.net e.now.process) e.now.step ≡ true }
    ensures { IfOk result (λ after. after ≡ stepped (course_of plan.now) e.now t) }
{
    owe(alloc, &t.net, &mut t.owed, plan, e)?;
    take_effect(&mut t.net, *e)?;
    let row = &mut t.processes[e.process as usize - 1];
    row.bound = u32::from(e.step) + 1;
    row.needed = row.needed.saturating_sub(1);
    Ok(t)
}

/// What is owed once a step took effect.
fn owe(
    alloc: Global,
    net: &[Entry],
    owed: &mut Vec<Entry>,
    plan: &Plan,
    e: &Entry,
) -> Result<(), AllocError>
    requires good { IsGoodPlan plan.now }
    requires goes { goes_on_to (shape_of plan.now.tree) (steps_among net.now e.now.process) e.now.step ≡ true }
    ensures { OnOk result (owed.new.items ≡ owed_with (course_of plan.now) net.now owed.old.items e.now) }
{
    if has_same_step(owed, e) {
        owed.retain(|other| !is_same_step(other, e));
        return Ok(());
    }
    if commits(&plan.tree, e.step) {
        owe_after(alloc, net, owed, plan, e)?;
    }
    Ok(())
}

/// What is owed once a new commit point took effect.
fn owe_after(
    alloc: Global,
    net: &[Entry],
    owed: &mut Vec<Entry>,
    plan: &Plan,
    e: &Entry,
) -> Result<(), AllocError>
    requires good { IsGoodPlan plan.now }
    requires goes { goes_on_to (shape_of plan.now.tree) (steps_among net.now e.now.process) e.now.step ≡ true }
    ensures { OnOk result
        (owed.new.items ≡ of_others e.now.process owed.old.items
        ++ owed_by (course_of plan.now) e.now.process
        (forward (shape_of plan.now.tree) (steps_among net.now e.now.process ++ e.now.step ∷ []))) }
{
    let steps = steps_among(alloc, net, e.process)?;
    leave(owed, e.process);
    add_owed(alloc, plan, &steps, e, owed)
}

/// The entries of a process go.
fn leave(entries: &mut Vec<Entry>, process: u32)
    ensures { entries.new.items ≡ of_others process entries.old.items }
{
    entries.retain(|entry| entry.process != process);
}

/// An active process ends.
pub fn end(mut t: Legality, i: u32) -> Legality
    requires { is_active_in t.processes i ≡ true }
    ensures { result ≡ ended i t }
{
    leave(&mut t.net, i);
    leave(&mut t.owed, i);
    let row = &mut t.processes[i as usize - 1];
    let needed = row.needed;
    row.active = false;
    t.active = t.active.saturating_sub(1);
    t.entries = t.entries.saturating_sub(needed.saturating_sub(1));
    t
}

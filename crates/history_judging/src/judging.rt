// Whether an event may come.
ghost use Rattle.std.specs.Prelude.{◌≡◌, ◌<◌, ◌≤◌, ◌+◌, ◌-◌, ◌∷◌, ◌++◌, [], length, true, IfOk, OnOk};
ghost use Rattle.std.specs.Prelude.{slice_index_or, nat_le, ◌&&◌};
ghost use Rattle.process_tree.specs.declared.entry.Entry.{Entry};
ghost use Rattle.process_tree.specs.declared.plan.Plan.{Plan};
ghost use Rattle.process_tree.specs.Conflicts.{do_conflict, operations_in};
ghost use Rattle.process_tree.specs.Order.{Each};
ghost use Rattle.process_tree.specs.Recovery.{forward};
ghost use Rattle.process_tree.specs.Shape.{shape_of, goes_on_to};
ghost use Rattle.schedule_model.specs.declared.event.Event.{Event};
ghost use Rattle.schedule_model.specs.Course.{course_of, courses_of};
ghost use Rattle.schedule_model.specs.Histories.{steps_of, of_process};
ghost use Rattle.schedule_model.specs.Laws.{IsGoodPlan};
ghost use Rattle.schedule_rules.specs.Applying.{AreKnown};
ghost use Rattle.history_judging.specs.Judging.{AreReady, IsReady, comes, entry_comes, end_comes, undo_comes, step_goes_on};
ghost use Rattle.history_judging.specs.Judging.{step_is_clear, commit_is_clear, undoable_is_clear, steps_among};
ghost use Rattle.history_judging.specs.Keeping.{is_active_in, row_of};
ghost use Rattle.schedule_rules.specs.Recovering.{owed_by};

use crate::against::{any_conflicts, conflicts_behind, conflicts_in_front, conflicts_with_any};
use crate::circle::closes_circle;
use crate::legality::{Legality, ProcessRow};
use crate::order::{goes_on_to, is_end, is_of_last};
use process_tree::{Conflicts, Entry, Plan, commits};
use schedule_model::Event;
use schedule_rules::{backward, entry_of, has_same_step, of_process, owed, steps_of};
use std::alloc::{AllocError, Global};

/// Whether an event may come after the history of which these are the tables.
pub fn comes(
    alloc: Global,
    c: &Conflicts,
    plans: &[Plan],
    t: &Legality,
    event: Event,
) -> Result<bool, AllocError>
    requires ready { AreReady c.now plans.now t.now }
    ensures { IfOk result (λ may. may ≡ comes (do_conflict c.now) (courses_of plans.now) t.now event) }
{
    match event {
        Event::Start(i) => Ok(i as usize == t.processes.len() + 1),
        Event::Act(e) => {
            if !is_active_in(&t.processes, e.process) {
                return Ok(false);
            }
            entry_comes(alloc, c, &plans[e.process as usize - 1], t, &e)
        }
        Event::End(i) => {
            if !is_active_in(&t.processes, i) {
                return Ok(false);
            }
            end_comes(alloc, c, &plans[i as usize - 1], t, i)
        }
    }
}

/// Whether a process is active.
fn is_active_in(rows: &[ProcessRow], i: u32) -> bool
    ensures { result ≡ is_active_in rows.now i }
{
    let place = i as usize;
    0 < place && place <= rows.len() && rows[place - 1].active
}

/// Whether an active process is at an end, and may end.
fn end_comes(
    alloc: Global,
    c: &Conflicts,
    plan: &Plan,
    t: &Legality,
    i: u32,
) -> Result<bool, AllocError>
    requires ready { IsReady c.now plan.now t.now i }
    ensures { IfOk result (λ may. may ≡ end_comes (do_conflict c.now) (course_of plan.now) t.now i) }
{
    let steps = steps_among(alloc, &t.net, i)?;
    let front = conflicts_in_front(alloc, c, i, &t.net)?;
    Ok(is_end(&plan.tree, &steps) && !front)
}

/// The steps of a process among these entries.
pub fn steps_among(alloc: Global, entries: &[Entry], i: u32) -> Result<Vec<u16>, AllocError>
    ensures { IfOk result (λ steps. steps.items ≡ steps_among entries.now i) }
{
    let own = of_process(alloc, entries, i)?;
    steps_of(alloc, &own)
}

/// Whether an entry of an active process may come.
fn entry_comes(
    alloc: Global,
    c: &Conflicts,
    plan: &Plan,
    t: &Legality,
    e: &Entry,
) -> Result<bool, AllocError>
    requires ready { IsReady c.now plan.now t.now e.now.process }
    ensures { IfOk result (λ may. may ≡ entry_comes (do_conflict c.now) (course_of plan.now) t.now e.now) }
{
    let planned = entry_of(plan, e.process, e.step);
    if e.op != planned.op || e.key != planned.key {
        return Ok(false);
    }
    if e.undo {
        undo_comes(alloc, c, plan, t, e)
    } else {
        step_comes(alloc, c, plan, t, e)
    }
}

fn undo_comes(
    alloc: Global,
    c: &Conflicts,
    plan: &Plan,
    t: &Legality,
    e: &Entry,
) -> Result<bool, AllocError>
    requires ready { IsReady c.now plan.now t.now e.now.process }
    requires op { e.now.op ≡ slice_index_or plan.now.ops e.now.step 0 }
    ensures { IfOk result (λ may. may ≡ undo_comes (do_conflict c.now) (course_of plan.now) t.now e.now) }
{
    let own = backward(alloc, plan, &t.net, e.process)?;
    Ok(is_of_last(&own, e) && !conflicts_behind(c, e, &t.net))
}

fn step_comes(
    alloc: Global,
    c: &Conflicts,
    plan: &Plan,
    t: &Legality,
    e: &Entry,
) -> Result<bool, AllocError>
    requires ready { IsReady c.now plan.now t.now e.now.process }
    requires op { e.now.op ≡ slice_index_or plan.now.ops e.now.step 0 }
    ensures { IfOk result
        (λ may. may ≡ (step_goes_on (course_of plan.now) t.now e.now
        && step_is_clear (do_conflict c.now) (course_of plan.now) t.now e.now)) }
{
    let steps = steps_among(alloc, &t.net, e.process)?;
    if !goes_on_to(&plan.tree, &steps, e.step) || !is_above(&t.processes, e) {
        return Ok(false);
    }
    step_is_clear(alloc, c, plan, t, &steps, e)
}

/// Whether a step is at the bound of its process or above.
fn is_above(rows: &[ProcessRow], e: &Entry) -> bool
    requires started { (0 < e.now.process) × (e.now.process ≤ length rows.now) }
    ensures { result ≡ nat_le (row_of rows.now e.now.process).bound e.now.step }
{
    rows[e.process as usize - 1].bound <= u32::from(e.step)
}

/// Whether nothing stands against a step that goes on from these.
fn step_is_clear(
    alloc: Global,
    c: &Conflicts,
    plan: &Plan,
    t: &Legality,
    steps: &[u16],
    e: &Entry,
) -> Result<bool, AllocError>
    requires ready { IsReady c.now plan.now t.now e.now.process }
    requires op { e.now.op ≡ slice_index_or plan.now.ops e.now.step 0 }
    requires steps { steps.now ≡ steps_among t.now.net e.now.process }
    requires goes { goes_on_to (shape_of plan.now.tree) steps.now e.now.step ≡ true }
    ensures { IfOk result (λ clear. clear ≡ step_is_clear (do_conflict c.now) (course_of plan.now) t.now e.now) }
{
    if has_same_step(&t.owed, e) {
        return Ok(!conflicts_with_any(c, e, &t.owed));
    }
    if commits(&plan.tree, e.step) {
        commit_is_clear(alloc, c, plan, t, steps, e)
    } else {
        undoable_is_clear(alloc, c, t, e)
    }
}

fn commit_is_clear(
    alloc: Global,
    c: &Conflicts,
    plan: &Plan,
    t: &Legality,
    steps: &[u16],
    e: &Entry,
) -> Result<bool, AllocError>
    requires ready { IsReady c.now plan.now t.now e.now.process }
    requires op { e.now.op ≡ slice_index_or plan.now.ops e.now.step 0 }
    requires steps { steps.now ≡ steps_among t.now.net e.now.process }
    requires goes { goes_on_to (shape_of plan.now.tree) steps.now e.now.step ≡ true }
    ensures { IfOk result (λ clear. clear ≡ commit_is_clear (do_conflict c.now) (course_of plan.now) t.now e.now) }
{
    let mut held = vec![in alloc; *e]?;
    add_owed(alloc, plan, steps, e, &mut held)?;
    let met = any_conflicts(alloc, c, e.process, &held, &t.net, &t.owed)?;
    let front = conflicts_in_front(alloc, c, e.process, &t.net)?;
    Ok(!met && !front)
}

fn undoable_is_clear(
    alloc: Global,
    c: &Conflicts,
    t: &Legality,
    e: &Entry,
) -> Result<bool, AllocError>
    requires op { e.now.op < operations_in c.now }
    requires net { AreKnown c.now t.now.net }
    requires owed { AreKnown c.now t.now.owed }
    requires numbers { Each (λ x. x.process ≤ length t.now.processes) t.now.net }
    requires own { e.now.process ≤ length t.now.processes }
    ensures { IfOk result (λ clear. clear ≡ undoable_is_clear (do_conflict c.now) t.now e.now) }
{
    if conflicts_with_any(c, e, &t.owed) {
        return Ok(false);
    }
    let circle = closes_circle(alloc, c, &t.net, t.processes.len() + 1, e)?;
    Ok(!circle)
}

/// Adds the steps that a process would owe after one more step than these.
pub fn add_owed(
    alloc: Global,
    plan: &Plan,
    steps: &[u16],
    e: &Entry,
    added: &mut Vec<Entry>,
) -> Result<(), AllocError>
    requires good { IsGoodPlan plan.now }
    requires goes { goes_on_to (shape_of plan.now.tree) steps.now e.now.step ≡ true }
    ensures { OnOk result
        (added.new.items ≡ added.old.items ++ owed_by (course_of plan.now) e.now.process
        (forward (shape_of plan.now.tree) (steps.now ++ e.now.step ∷ []))) }
{
    let mut done = steps.to_vec(alloc)?;
    done.push(e.step)?;
    let places = owed(alloc, plan, &done)?;
    add_entries(plan, &places, e.process, added)
}

/// Adds these steps of a process.
fn add_entries(plan: &Plan, steps: &[u16], i: u32, added: &mut Vec<Entry>) -> Result<(), AllocError>
    ensures { OnOk result (added.new.items ≡ added.old.items ++ owed_by (course_of plan.now) i steps.now) }
{
    let mut rest = steps;
    while let [step, after @ ..] = rest {
        added.push(entry_of(plan, i, *step))?;
        rest = after;
    }
    Ok(())
}

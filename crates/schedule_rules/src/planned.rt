// What plans give their steps.
ghost use Rattle.std.specs.Prelude.{◌≡◌};
ghost use Rattle.process_tree.specs.Entries as entries;
ghost use Rattle.schedule_model.specs.Course.{courses_of, key_of, op_of};

use process_tree::{Entry, Plan, Tree, key_of, op_of};

/// The key of a step, or 0 where there is none.
pub fn step_key(tree: &Tree, step: u16) -> u32
    ensures { result ≡ entries.key_of tree.now step }
{
    if step < tree.count() {
        key_of(tree, step)
    } else {
        0
    }
}

/// A step of a process taking effect, by its plan.
pub fn entry_of(plan: &Plan, process: u32, step: u16) -> Entry
    ensures { result ≡ entries.entry_of plan.now process step }
{
    Entry {
        process,
        step,
        op: op_of(plan.ops.as_slice(), step),
        key: step_key(&plan.tree, step),
        undo: false,
    }
}

/// The operation that the plan of a process gives a step, or 0 where there is none. Processes are numbered from 1.
pub fn planned_op(plans: &[Plan], process: u32, step: u16) -> u16
    ensures { result ≡ op_of (courses_of plans.now) process step }
{
    let Some(plan) = plans.get((process as usize).saturating_sub(1)) else {
        return 0;
    };
    match plan.ops.as_slice().get(usize::from(step)) {
        Some(op) => *op,
        None => 0,
    }
}

/// The key that it gives the step, or 0 where there is none.
pub fn planned_key(plans: &[Plan], process: u32, step: u16) -> u32
    ensures { result ≡ key_of (courses_of plans.now) process step }
{
    let Some(plan) = plans.get((process as usize).saturating_sub(1)) else {
        return 0;
    };
    step_key(&plan.tree, step)
}

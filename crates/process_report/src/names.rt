// The names that stand for numbers.
ghost use Rattle.std.specs.Prelude.{◌≡◌, ◌-◌, slice_index_or, []};
ghost use Rattle.process_report.specs.Names.{process_name, names_in, step_name, op_name};

use commute_table::Op;
use process_tree::{Plan, Tree};

// The place of a process's plan.
fn place_of(i: u32) -> usize
    ensures { result ≡ i - 1 }
{
    (i as usize).saturating_sub(1)
}

/// The name of a process, or nothing where there is no such process.
pub fn process_name(plans: &[Plan], i: u32) -> &[u8]
    ensures { result.now ≡ process_name plans.now i }
{
    let place = place_of(i);
    if place < plans.len() {
        plans[place].name.bytes()
    } else {
        b""
    }
}

// The name of a step of a plan, or nothing where there is no such step.
fn name_in(plan: &Plan, step: u16) -> &[u8]
    ensures { result.now ≡ slice_index_or (names_in plan.now) step [] }
{
    let tree: &Tree = &plan.tree;
    if step < tree.count() {
        tree.step(step).name.bytes()
    } else {
        b""
    }
}

/// The name of a step of a process, or nothing where there is no such step.
pub fn step_name(plans: &[Plan], i: u32, step: u16) -> &[u8]
    ensures { result.now ≡ step_name plans.now i step }
{
    let place = place_of(i);
    if place < plans.len() {
        name_in(&plans[place], step)
    } else {
        b""
    }
}

/// The name of an operation, or nothing where there is no such operation.
pub fn op_name(ops: &[Op], n: u16) -> &[u8]
    ensures { result.now ≡ op_name ops.now n }
{
    let place = usize::from(n);
    if place < ops.len() {
        ops[place].name.bytes()
    } else {
        b""
    }
}

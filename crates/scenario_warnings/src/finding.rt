// Finding what there is to warn of.
ghost use Rattle.std.specs.Prelude.{◌≡◌, ◌<◌, ◌+◌, ◌++◌, length, take, drop, IfOk, OnOk};
ghost use Rattle.std.specs.List.{flat_map};
ghost use Rattle.process_tree.specs.Blocks.{numbers_from, outline};
ghost use Rattle.commute_table.specs.Operations.{IsCatalog};
ghost use Rattle.scenario_warnings.specs.Warnings.{uses, is_used, unused, commuting, of_operation, has_name, same_process};
ghost use Rattle.scenario_warnings.specs.Warnings.{verb_at, of_call, of_step, of_plan, of_plans, warnings};

use crate::Warning;
use commute_table::{Catalog, Op, Verb};
use process_tree::Plan;
use std::alloc::{AllocError, Global};
use value_conflict::is_commuting;

// Whether a process uses the operation.
fn uses(plan: &Plan, op: u16) -> bool
    ensures { result ≡ uses op plan.now }
{
    plan.ops.as_slice().iter().any(|used| *used == op)
}

// Whether one of these processes does.
fn is_used(plans: &[Plan], op: u16) -> bool
    ensures { result ≡ is_used plans.now op }
{
    plans.iter().any(|plan| uses(plan, op))
}

// Warns of an operation that no process uses, where there are any.
fn add_unused(plans: &[Plan], op: u16, out: &mut Vec<Warning>) -> Result<(), AllocError>
    ensures { OnOk result (out.new.items ≡ out.old.items ++ unused plans.now op) }
{
    match plans {
        [] => Ok(()),
        [..] if is_used(plans, op) => Ok(()),
        [..] => {
            out.push(Warning::Unused(op))?;
            Ok(())
        }
    }
}

// Warns of two operations that conflict in value without being named.
fn add_pair(c: &Catalog, a: u16, b: u16, out: &mut Vec<Warning>) -> Result<(), AllocError>
    requires catalog { IsCatalog c.now }
    requires a_is_one { a < length c.now.ops }
    requires b_is_one { b < length c.now.ops }
    ensures { OnOk result (out.new.items ≡ out.old.items ++ commuting c.now a b) }
{
    if is_commuting(c, a, b) {
        out.push(Warning::Commuting(a, b))?;
    }
    Ok(())
}

// Warns of an operation, and of its pairs with itself and later ones.
fn add_operation(
    c: &Catalog,
    plans: &[Plan],
    a: u16,
    count: u16,
    out: &mut Vec<Warning>,
) -> Result<(), AllocError>
    requires catalog { IsCatalog c.now }
    requires count { count ≡ length c.now.ops }
    requires a_is_one { a < count }
    ensures { OnOk result (out.new.items ≡ out.old.items ++ of_operation c.now plans.now a) }
{
    add_unused(plans, a, out)?;
    for b in a..count {
        add_pair(c, a, b, out)?;
    }
    Ok(())
}

// Warns of all operations.
fn add_operations(c: &Catalog, plans: &[Plan], out: &mut Vec<Warning>) -> Result<(), AllocError>
    requires catalog { IsCatalog c.now }
    ensures { OnOk result
        (out.new.items ≡ out.old.items ++ flat_map (of_operation c.now plans.now) (numbers_from 0 (length c.now.ops))) }
{
    let count = c.ops.as_slice().len() as u16;
    for a in 0..count {
        add_operation(c, plans, a, count, out)?;
    }
    Ok(())
}

// Whether one of these processes has the name.
fn has_name(plans: &[Plan], name: &[u8]) -> bool
    ensures { result ≡ has_name plans.now name.now }
{
    plans.iter().any(|plan| plan.name.bytes() == name)
}

// Warns of a process whose name one of the earlier has.
fn add_same(earlier: &[Plan], plan: &Plan, out: &mut Vec<Warning>) -> Result<(), AllocError>
    ensures { OnOk result (out.new.items ≡ out.old.items ++ same_process earlier.now plan.now) }
{
    if has_name(earlier, plan.name.bytes()) {
        out.push(Warning::SameProcess(earlier.len()))?;
    }
    Ok(())
}

// The verb of a step. One without an operation looks.
fn verb_at(ops: &[Op], plan: &Plan, step: u16) -> Verb
    ensures { result ≡ verb_at ops.now plan.now step }
{
    match plan.ops.as_slice().get(usize::from(step)) {
        Some(number) => match ops.get(usize::from(*number)) {
            Some(op) => op.verb,
            None => Verb::Look,
        },
        None => Verb::Look,
    }
}

// Warns of what a step of this process calls.
fn add_call(
    process: usize,
    step: u16,
    verb: Verb,
    amount: i64,
    out: &mut Vec<Warning>,
) -> Result<(), AllocError>
    ensures { OnOk result (out.new.items ≡ out.old.items ++ of_call process step verb amount) }
{
    match verb {
        Verb::Hold if amount == 0 => out.push(Warning::HoldOfNothing(process, step))?,
        Verb::Take if amount < 0 => out.push(Warning::NegativeTake(process, step))?,
        _ => {}
    }
    Ok(())
}

// Warns of a step.
fn add_step(
    ops: &[Op],
    process: usize,
    plan: &Plan,
    step: u16,
    out: &mut Vec<Warning>,
) -> Result<(), AllocError>
    requires { step < length (outline plan.now.tree).steps }
    ensures { OnOk result (out.new.items ≡ out.old.items ++ of_step ops.now process plan.now step) }
{
    let verb = verb_at(ops, plan, step);
    add_call(process, step, verb, plan.tree.step(step).amount, out)
}

// Warns of a process and its steps.
fn add_plan(
    ops: &[Op],
    earlier: &[Plan],
    plan: &Plan,
    out: &mut Vec<Warning>,
) -> Result<(), AllocError>
    ensures { OnOk result (out.new.items ≡ out.old.items ++ of_plan ops.now earlier.now plan.now) }
{
    add_same(earlier, plan, out)?;
    let count = plan.tree.count();
    for step in 0..count {
        add_step(ops, earlier.len(), plan, step, out)?;
    }
    Ok(())
}

// Warns of the process that stands behind so many of the list.
fn add_process(
    ops: &[Op],
    plans: &[Plan],
    process: usize,
    out: &mut Vec<Warning>,
) -> Result<(), AllocError>
    requires { process < length plans.now }
    ensures { OnOk result
        (out.new.items ++ of_plans ops.now (take (process + 1) plans.now) (drop (process + 1) plans.now)
        ≡ out.old.items ++ of_plans ops.now (take process plans.now) (drop process plans.now)) }
{
    let (earlier, rest) = plans.split_at(process);
    if let [plan, ..] = rest {
        add_plan(ops, earlier, plan, out)?;
    }
    Ok(())
}

/// What there is to warn of: of the operations by number, and then of the processes in their order.
pub fn warnings(alloc: Global, c: &Catalog, plans: &[Plan]) -> Result<Vec<Warning>, AllocError>
    requires { IsCatalog c.now }
    ensures { IfOk result (λ found. found.items ≡ warnings c.now plans.now) }
{
    let mut out = Vec::new(alloc);
    add_operations(c, plans, &mut out)?;
    for process in 0..plans.len() {
        add_process(c.ops.as_slice(), plans, process, &mut out)?;
    }
    Ok(out)
}

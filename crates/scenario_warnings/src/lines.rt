// A line for people of each warning.
ghost use Rattle.std.specs.Prelude.{◌≡◌, ◌++◌, ◌-◌, length, take, IfOk, OnOk};
ghost use Rattle.std.specs.List.{flat_map};
ghost use Rattle.scenario_warnings.specs.Lines.{op_name, process_name, step_name, front, back, of_one, of_two, line_of, more, shown};

use crate::{Warning, words};
use commute_table::{Catalog, Op};
use process_tree::Plan;
use std::alloc::{AllocError, Global};

/// How many warnings have a line.
pub const MOST_SHOWN: usize = 20;

// The name of an operation, or nothing where there is none.
fn op_name(ops: &[Op], op: u16) -> &[u8]
    ensures { result.now ≡ op_name ops.now op }
{
    match ops.get(usize::from(op)) {
        Some(op) => op.name.bytes(),
        None => b"",
    }
}

// The name of a process, or nothing where there is none.
fn process_name(plans: &[Plan], process: usize) -> &[u8]
    ensures { result.now ≡ process_name plans.now process }
{
    match plans.get(process) {
        Some(plan) => plan.name.bytes(),
        None => b"",
    }
}

// The name of a step, or nothing where there is none.
fn step_name(plans: &[Plan], process: usize, step: u16) -> &[u8]
    ensures { result.now ≡ step_name plans.now process step }
{
    match plans.get(process) {
        Some(plan) if step < plan.tree.count() => plan.tree.step(step).name.bytes(),
        _ => b"",
    }
}

// The beginning of a line, with the first name.
fn add_front(label: &[u8], name: &[u8], out: &mut Vec<u8>) -> Result<(), AllocError>
    ensures { OnOk result (out.new.items ≡ out.old.items ++ front label.now name.now) }
{
    out.extend_from_slice(b"warning: ")?;
    out.extend_from_slice(label)?;
    out.extend_from_slice(name)
}

// What is said, and the end of the line.
fn add_back(text: &str, out: &mut Vec<u8>) -> Result<(), AllocError>
    ensures { OnOk result (out.new.items ≡ out.old.items ++ back text.now) }
{
    out.extend_from_slice(b": ")?;
    out.extend_from_slice(text.as_bytes())?;
    out.extend_from_slice(b"\n")
}

// A line about what has one name.
fn add_one(label: &[u8], name: &[u8], text: &str, out: &mut Vec<u8>) -> Result<(), AllocError>
    ensures { OnOk result (out.new.items ≡ out.old.items ++ of_one label.now name.now text.now) }
{
    add_front(label, name, out)?;
    add_back(text, out)
}

// A line about two names.
fn add_two(
    label: &[u8],
    name: &[u8],
    between: &[u8],
    other: &[u8],
    text: &str,
    out: &mut Vec<u8>,
) -> Result<(), AllocError>
    ensures { OnOk result (out.new.items ≡ out.old.items ++ of_two label.now name.now between.now other.now text.now) }
{
    add_front(label, name, out)?;
    out.extend_from_slice(between)?;
    out.extend_from_slice(other)?;
    add_back(text, out)
}

// The line of a warning.
fn add_line(
    ops: &[Op],
    plans: &[Plan],
    warning: Warning,
    out: &mut Vec<u8>,
) -> Result<(), AllocError>
    ensures { OnOk result (out.new.items ≡ out.old.items ++ line_of ops.now plans.now warning) }
{
    match warning {
        Warning::Unused(op) => add_one(b"operation ", op_name(ops, op), words::UNUSED, out),
        Warning::Commuting(a, b) => {
            let (a, b) = (op_name(ops, a), op_name(ops, b));
            add_two(b"operations ", a, b" and ", b, words::COMMUTING, out)
        }
        Warning::SameProcess(i) => {
            add_one(
                b"process ",
                process_name(plans, i),
                words::SAME_PROCESS,
                out,
            )
        }
        Warning::HoldOfNothing(i, n) => {
            let (step, process) = (step_name(plans, i, n), process_name(plans, i));
            add_two(
                b"step ",
                step,
                b" of process ",
                process,
                words::HOLD_OF_NOTHING,
                out,
            )
        }
        Warning::NegativeTake(i, n) => {
            let (step, process) = (step_name(plans, i, n), process_name(plans, i));
            add_two(
                b"step ",
                step,
                b" of process ",
                process,
                words::NEGATIVE_TAKE,
                out,
            )
        }
    }
}

// The lines of these warnings.
fn add_lines(
    ops: &[Op],
    plans: &[Plan],
    warnings: &[Warning],
    out: &mut Vec<u8>,
) -> Result<(), AllocError>
    ensures { OnOk result (out.new.items ≡ out.old.items ++ flat_map (line_of ops.now plans.now) warnings.now) }
{
    for warning in warnings {
        add_line(ops, plans, *warning, out)?;
    }
    Ok(())
}

// How many more there are.
fn add_more(alloc: Global, count: usize, out: &mut Vec<u8>) -> Result<(), AllocError>
    ensures { OnOk result (out.new.items ≡ out.old.items ++ more count) }
{
    if count == 0 {
        return Ok(());
    }
    let text = format!(in alloc; "warning: {count} more\n")?;
    out.extend_from_slice(text.as_bytes())
}

// The warnings that have a line, and how many more there are.
fn first_shown(warnings: &[Warning]) -> (&[Warning], usize)
    ensures first { result.0.now ≡ take MOST_SHOWN warnings.now }
    ensures rest { result.1 ≡ length warnings.now - MOST_SHOWN }
{
    if warnings.len() <= MOST_SHOWN {
        return (warnings, 0);
    }
    let (first, rest) = warnings.split_at(MOST_SHOWN);
    (first, rest.len())
}

/// A line for each of the first `MOST_SHOWN` of these warnings, and how many more there are.
pub fn shown(
    alloc: Global,
    c: &Catalog,
    plans: &[Plan],
    warnings: &[Warning],
) -> Result<Vec<u8>, AllocError>
    ensures { IfOk result (λ text. text.items ≡ shown c.now.ops plans.now warnings.now) }
{
    let mut out = Vec::new(alloc);
    let (first, rest) = first_shown(warnings);
    add_lines(c.ops.as_slice(), plans, first, &mut out)?;
    add_more(alloc, rest, &mut out)?;
    Ok(out)
}

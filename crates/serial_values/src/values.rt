// The values that steps leave in one subsystem.
ghost use Rattle.std.specs.Prelude.{◌≡◌, ◌<◌, ◌+◌, ◌++◌, [], ℕ, take, length, OnOk};
ghost use Rattle.std.specs.List.{Contains};
ghost use Rattle.std.specs.List.Sorted.{IsStrictlySortedBy};
ghost use Rattle.std.specs.Ordering.{nat_cmp};
ghost use Rattle.resource_box.specs.Table.{kind_of};
ghost use Rattle.process_report.specs.Lines.{text_of};
ghost use Rattle.value_replay.specs.Replays.{AreSteps};
ghost use Rattle.serial_values.specs.Told.{entry_keys, subsystem_lines, HasValuesOf};

use commute_table::Op;
use history_files::{effect_of, subsystem_of};
use process_tree::{Entry, Plan};
use replay_run::put_box;
use resource_box::{Cells, Counters, Resource, Seats};
use std::alloc::{AllocError, Global};

// Applies the step at a place to the box of a subsystem, if it is on that.
fn apply_at<B: Resource>(
    ops: &[Op],
    plans: &[Plan],
    steps: &[Entry],
    at: usize,
    q: usize,
    resource: &mut B,
) -> Result<(), AllocError>
    requires there { at < length steps.now }
    requires steps { AreSteps steps.now }
    requires kind { B.sort resource.old ≡ kind_of q }
    requires values { HasValuesOf ops.now plans.now (take at steps.now) q (B.meaning resource.old).items }
    ensures kind { B.sort resource.new ≡ kind_of q }
    ensures values { OnOk result (HasValuesOf ops.now plans.now (take (at + 1) steps.now) q (B.meaning resource.new).items) }
{
    let entry = steps[at];
    if usize::from(subsystem_of(ops, entry.op)) != q {
        return Ok(());
    }
    let call = effect_of(ops, plans, 0, &entry).call;
    resource.ready(call.key)?;
    resource.apply(&call);
    Ok(())
}

// Applies those of these steps to the empty box of a subsystem that are on that.
fn fill<B: Resource>(
    ops: &[Op],
    plans: &[Plan],
    steps: &[Entry],
    q: usize,
    resource: &mut B,
) -> Result<(), AllocError>
    requires steps { AreSteps steps.now }
    requires kind { B.sort resource.old ≡ kind_of q }
    requires empty { (B.meaning resource.old).items ≡ [] }
    ensures { OnOk result (HasValuesOf ops.now plans.now steps.now q (B.meaning resource.new).items) }
{
    for at in 0..steps.len() {
        apply_at(ops, plans, steps, at, q, resource)?;
    }
    Ok(())
}

// Writes the lines of what these steps leave in a subsystem, whose empty box this is.
fn put_filled<B: Resource>(
    alloc: Global,
    ops: &[Op],
    plans: &[Plan],
    steps: &[Entry],
    q: usize,
    keys: &[u32],
    resource: B,
    out: &mut Vec<u8>,
) -> Result<(), AllocError>
    requires steps { AreSteps steps.now }
    requires kind { B.sort resource ≡ kind_of q }
    requires empty { (B.meaning resource).items ≡ [] }
    requires keys { (k : ℕ) → Contains (entry_keys plans.now steps.now) k → Contains keys.now k }
    requires sorted { IsStrictlySortedBy nat_cmp keys.now }
    ensures { OnOk result (out.new.items ≡ out.old.items ++ text_of (subsystem_lines ops.now plans.now steps.now q)) }
{
    let mut resource = resource;
    fill(ops, plans, steps, q, &mut resource)?;
    put_box(alloc, q, &resource, keys, out)
}

/// Writes the lines of what these steps leave in a subsystem, at their keys.
pub fn put_subsystem(
    alloc: Global,
    ops: &[Op],
    plans: &[Plan],
    steps: &[Entry],
    q: usize,
    keys: &[u32],
    out: &mut Vec<u8>,
) -> Result<(), AllocError>
    requires steps { AreSteps steps.now }
    requires keys { (k : ℕ) → Contains (entry_keys plans.now steps.now) k → Contains keys.now k }
    requires sorted { IsStrictlySortedBy nat_cmp keys.now }
    ensures { OnOk result (out.new.items ≡ out.old.items ++ text_of (subsystem_lines ops.now plans.now steps.now q)) }
{
    if q < 4 {
        put_filled(alloc, ops, plans, steps, q, keys, Counters::new(alloc), out)
    } else if q < 6 {
        put_filled(alloc, ops, plans, steps, q, keys, Cells::new(alloc), out)
    } else {
        put_filled(alloc, ops, plans, steps, q, keys, Seats::new(alloc), out)
    }
}

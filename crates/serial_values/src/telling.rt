// What is told of the values that steps leave.
ghost use Rattle.std.specs.Prelude.{◌≡◌, ◌++◌, ℕ, IfOk, OnOk};
ghost use Rattle.std.specs.List.{Contains};
ghost use Rattle.std.specs.List.Sorted.{IsStrictlySortedBy};
ghost use Rattle.std.specs.Ordering.{nat_cmp};
ghost use Rattle.commute_table.specs.Operations.{IsCatalog};
ghost use Rattle.process_report.specs.Lines.{text_of};
ghost use Rattle.replay_run.specs.Printed.{values_lines};
ghost use Rattle.value_replay.specs.Replays.{AreSteps, books};
ghost use Rattle.serial_values.specs.Told.{commuting_text, entry_keys, told_values, values_text};

use crate::keys::keys_in;
use crate::values::put_subsystem;
use commute_table::{Catalog, Op};
use process_report::put_line;
use process_tree::{Entry, Name, Plan};
use std::alloc::{AllocError, Global};
use value_conflict::commuting;

// How many subsystems there are.
const SUBSYSTEMS: usize = 8;

// Writes the lines of all subsystems, at these keys.
fn put_values(
    alloc: Global,
    ops: &[Op],
    plans: &[Plan],
    steps: &[Entry],
    keys: &[u32],
    out: &mut Vec<u8>,
) -> Result<(), AllocError>
    requires steps { AreSteps steps.now }
    requires keys { (k : ℕ) → Contains (entry_keys plans.now steps.now) k → Contains keys.now k }
    requires sorted { IsStrictlySortedBy nat_cmp keys.now }
    ensures { OnOk result (out.new.items ≡ out.old.items ++ text_of (values_lines (books ops.now plans.now steps.now))) }
{
    let mut q = 0;
    while q < SUBSYSTEMS {
        put_subsystem(alloc, ops, plans, steps, q, keys, out)?;
        q += 1;
    }
    Ok(())
}

// The section of the values.
fn told_values(
    alloc: Global,
    ops: &[Op],
    plans: &[Plan],
    steps: &[Entry],
) -> Result<Vec<u8>, AllocError>
    requires { AreSteps steps.now }
    ensures { IfOk result (λ text. text.items ≡ told_values ops.now plans.now steps.now) }
{
    let keys = keys_in(alloc, ops, plans, steps)?;
    let mut text = b"values\n".to_vec(alloc)?;
    put_values(alloc, ops, plans, steps, &keys, &mut text)?;
    Ok(text)
}

// The line of two operations.
fn commuting_text(alloc: Global, first: &Name, second: &Name) -> Result<Vec<u8>, AllocError>
    ensures { IfOk result (λ text. text.items ≡ commuting_text (first.now, second.now)) }
{
    let mut text = Vec::new(alloc);
    put_line(&mut text, &[b"commuting", first.bytes(), second.bytes()])?;
    Ok(text)
}

/// The values that these steps leave, one after another on empty books: `values`, and a line `Q KEY VALUE` for each that isn't 0. Where
/// the catalog doesn't name each conflict in value it is `commuting A B`, with the least pair of operations that it leaves out.
pub fn values_text(
    alloc: Global,
    c: &Catalog,
    plans: &[Plan],
    steps: &[Entry],
) -> Result<Vec<u8>, AllocError>
    requires catalog { IsCatalog c.now }
    requires steps { AreSteps steps.now }
    ensures { IfOk result (λ text. text.items ≡ values_text c.now plans.now steps.now) }
{
    match commuting(alloc, c)? {
        Some((first, second)) => commuting_text(alloc, &first, &second),
        None => told_values(alloc, c.ops.as_slice(), plans, steps),
    }
}

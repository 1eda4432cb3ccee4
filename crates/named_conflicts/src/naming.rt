// The operations of one catalog under the conflicts of another.
ghost use Rattle.std.specs.Prelude.{◌≡◌, ◌<◌, ◌≤◌, ◌⊎◌, ℕ, find, length, IfOk, IfSome};
ghost use Rattle.process_tree.specs.Conflicts.{mode_of, operations_in};
ghost use Rattle.commute_table.specs.Operations.{IsCatalog};
ghost use Rattle.commute_table.specs.Document.{number_of};
ghost use Rattle.process_tree.specs.declared.conflicts.Mode.TheVariants.{Never};
ghost use Rattle.named_conflicts.specs.Under.{first_unknown, is_none, named_mode, number_under, HasItsTable, IsUnder};

use commute_table::{Catalog, Op};
use process_tree::{Conflicts, Mode, Plan};
use std::alloc::{AllocError, Global};

// The number of the operation of a name.
fn number_of(ops: &[Op], name: &[u8]) -> Option<usize>
    ensures number { result ≡ number_of ops.now name.now }
    ensures within { IfSome result (λ n. n < length ops.now) }
{
    ops.iter().position(|op| op.name.bytes() == name)
}

// The number of an operation among others, by its name.
fn number_under(others: &[Op], ops: &[Op], k: u16) -> Option<usize>
    ensures number { result ≡ number_under others.now ops.now k }
    ensures within { IfSome result (λ n. n < length others.now) }
{
    match ops.get(usize::from(k)) {
        Some(op) => number_of(others, op.name.bytes()),
        None => None,
    }
}

// The first of these operations whose name no other has.
fn unknown_among(others: &[Op], ops: &[Op], numbers: &[u16]) -> Option<u16>
    ensures { result ≡ find (λ k. is_none (number_under others.now ops.now k)) numbers.now }
{
    let mut rest = numbers;
    while let [number, after @ ..] = rest {
        if number_under(others, ops, *number).is_none() {
            return Some(*number);
        }
        rest = after;
    }
    None
}

/// The first operation of these plans whose name no other has.
pub fn first_unknown(others: &[Op], ops: &[Op], plans: &[Plan]) -> Option<u16>
    ensures { result ≡ first_unknown others.now ops.now plans.now }
{
    let mut rest = plans;
    while let [plan, after @ ..] = rest {
        let found = unknown_among(others, ops, plan.ops.as_slice());
        if found.is_some() {
            return found;
        }
        rest = after;
    }
    None
}

// The mode of two operations under another catalog, by their names.
fn named_mode(c: &Catalog, ops: &[Op], a: u16, b: u16) -> Mode
    requires { IsCatalog c.now }
    ensures { result ≡ named_mode c.now ops.now a b }
{
    let others = c.ops.as_slice();
    match (number_under(others, ops, a), number_under(others, ops, b)) {
        (Some(a), Some(b)) => c.conflicts.mode(a as u16, b as u16),
        _ => Mode::Never,
    }
}

// Gives an operation the modes that it has there with each.
fn name_row(table: &mut Conflicts, c: &Catalog, ops: &[Op], a: u16)
    requires catalog { IsCatalog c.now }
    requires few { length ops.now ≤ 256 }
    requires all { operations_in table.old ≡ length ops.now }
    requires a { a < length ops.now }
    ensures all { operations_in table.new ≡ length ops.now }
    ensures modes { (x y : ℕ) → x < length ops.now → y < length ops.now
        → (x ≡ a) ⊎ (mode_of table.old x y ≡ named_mode c.now ops.now x y)
        → mode_of table.new x y ≡ named_mode c.now ops.now x y }
    ensures others { (x y : ℕ) → length ops.now ≤ x ⊎ length ops.now ≤ y → mode_of table.new x y ≡ mode_of table.old x y }
{
    for b in 0..ops.len() as u16 {
        table.set(a, b, named_mode(c, ops, a, b));
    }
}

// The table of these operations by the conflicts of another catalog.
fn named_table(alloc: Global, c: &Catalog, ops: &[Op]) -> Result<Conflicts, AllocError>
    requires catalog { IsCatalog c.now }
    requires few { length ops.now ≤ 256 }
    ensures all { IfOk result (λ table. operations_in table ≡ length ops.now) }
    ensures modes { IfOk result
        (λ table. (a b : ℕ) → a < length ops.now → b < length ops.now → mode_of table a b ≡ named_mode c.now ops.now a b) }
    ensures others { IfOk result
        (λ table. (a b : ℕ) → length ops.now ≤ a ⊎ length ops.now ≤ b → mode_of table a b ≡ Never) }
{
    let count = ops.len() as u16;
    let mut table = Conflicts::new(alloc, count)?;
    for a in 0..count {
        name_row(&mut table, c, ops, a);
    }
    Ok(table)
}

/// A catalog under another.
pub fn under(alloc: Global, c: &Catalog, own: Catalog) -> Result<Catalog, AllocError>
    requires catalog { IsCatalog c.now }
    requires own { IsCatalog own }
    ensures under { IfOk result (λ under. IsUnder c.now own under) }
    ensures table { IfOk result HasItsTable }
{
    let conflicts = named_table(alloc, c, own.ops.as_slice())?;
    Ok(Catalog {
        version: c.version,
        ops: own.ops,
        conflicts,
    })
}

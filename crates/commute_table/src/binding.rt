// Binding a process to a catalog.
ghost use Rattle.std.specs.Prelude.{◌≤◌, [], length};
ghost use Rattle.process_tree.specs.Blocks.{outline};
ghost use Rattle.commute_table.specs.Operations.{IsCatalog};
ghost use Rattle.commute_table.specs.Binding.{Gives, Binds, number_bound, numbers_bound};

use crate::scenario::number_of;
use crate::{BindError, Catalog, Op};
use process_tree::{Name, NameError, Named, Operations, Plan, Tree};
use std::alloc::Global;

/// The plan of a process: its name, its tree, and the number of each step's operation.
pub fn bind(alloc: Global, named: Named, c: &Catalog) -> Result<Plan, BindError>
    requires { IsCatalog c.now }
    ensures { Binds named c.now.ops result }
{
    let ops = numbers_of(alloc, &named.tree, c.ops.as_slice())?;
    Ok(Plan {
        name: named.name,
        tree: named.tree,
        ops,
    })
}

fn numbers_of(alloc: Global, tree: &Tree, ops: &[Op]) -> Result<Operations, BindError>
    requires { length ops.now ≤ 256 }
    ensures { Gives (λ x. x) result (numbers_bound ops.now [] (outline tree.now).steps) }
{
    let mut numbers = Vec::new(alloc);
    for n in 0..tree.count() {
        let number = number_bound(alloc, ops, &tree.step(n).op)?;
        numbers.push(number)?;
    }
    Ok(Operations::new(numbers))
}

fn number_bound(alloc: Global, ops: &[Op], name: &Name) -> Result<u16, BindError>
    requires { length ops.now ≤ 256 }
    ensures { Gives (λ x. x) result (number_bound ops.now name.now) }
{
    match number_of(ops, name.bytes()) {
        Some(number) => Ok(number as u16),
        None => match Name::new(alloc, name.bytes()) {
            Ok(name) => Err(BindError::UnknownOp(name)),
            Err(NameError::NoMemory) => Err(BindError::NoMemory),
            Err(NameError::BadName) => unreachable!(),
        },
    }
}

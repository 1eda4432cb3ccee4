// The names of two operations that conflict in value.
ghost use Rattle.std.specs.Prelude.{◌≡◌, ◌<◌, length, IfOk};
ghost use Rattle.commute_table.specs.Operations.{IsCatalog};
ghost use Rattle.value_conflict.specs.Names.{commuting_names, names_at};

use crate::soundness::{Commuting, value_sound};
use commute_table::{Catalog, Op};
use process_tree::{Name, NameError};
use std::alloc::{AllocError, Global};

// A copy of an operation's name.
fn name_of(alloc: Global, op: &Op) -> Result<Name, AllocError>
    ensures { IfOk result (λ name. name ≡ op.now.name) }
{
    match Name::new(alloc, op.name.bytes()) {
        Ok(name) => Ok(name),
        Err(NameError::NoMemory) => Err(AllocError),
        Err(NameError::BadName) => unreachable!(),
    }
}

// The names of two operations.
fn names_of(alloc: Global, c: &Catalog, a: u16, b: u16) -> Result<(Name, Name), AllocError>
    requires a_is_one { a < length c.now.ops }
    requires b_is_one { b < length c.now.ops }
    ensures { IfOk result (λ names. names ≡ names_at c.now (a, b)) }
{
    let ops = c.ops.as_slice();
    let first = name_of(alloc, &ops[usize::from(a)])?;
    let second = name_of(alloc, &ops[usize::from(b)])?;
    Ok((first, second))
}

/// The names of the least pair of operations that conflict in value, though the catalog names no conflict of them. The second may be
/// the first.
pub fn commuting(alloc: Global, c: &Catalog) -> Result<Option<(Name, Name)>, AllocError>
    requires { IsCatalog c.now }
    ensures { IfOk result (λ found. found ≡ commuting_names c.now) }
{
    match value_sound(c) {
        Ok(()) => Ok(None),
        Err(Commuting { a, b }) => {
            let names = names_of(alloc, c, a, b)?;
            Ok(Some(names))
        }
    }
}

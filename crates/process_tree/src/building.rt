// What the making of a tree tests.
ghost use Rattle.std.specs.Prelude.{◌≡◌, ◌⊎◌, length, Some, None, nat_eq, if◌then◌else◌, IfOk, IfErr, OnOk};
ghost use Rattle.process_tree.specs.Blocks.{outline};
ghost use Rattle.process_tree.specs.Making.{tree_fault};
ghost use Rattle.process_tree.specs.Measures.{size_fault};
ghost use Rattle.process_tree.specs.declared.tree.TreeError.TheVariants.{NoMemory};

use crate::good::{first_bad_step, first_same_name};
use crate::measure::{Measure, measured};
use crate::walk::steps_of;
use crate::{Block, MOST_NESTING, MOST_STEPS, TreeError};
use std::alloc::Global;

/// A refusal with a number, or want of memory where the number is too large for it.
fn refused_with(error: TreeError, number: u32) -> TreeError
    ensures { result ≡ (if nat_eq number 4294967295 then NoMemory else error) }
{
    if number == u32::MAX {
        TreeError::NoMemory
    } else {
        error
    }
}

/// What is refused of a block of this size.
fn size_fault(size: Measure) -> Option<TreeError>
    ensures { result ≡ size_fault size }
{
    if size.has_empty {
        return Some(TreeError::Empty);
    }
    if size.steps as usize > MOST_STEPS {
        return Some(refused_with(TreeError::Steps(size.steps), size.steps));
    }
    if size.nesting as usize > MOST_NESTING {
        return Some(refused_with(TreeError::Nesting(size.nesting), size.nesting));
    }
    match size.odd_choice {
        None => None,
        Some(alternatives) => Some(refused_with(
            TreeError::Alternatives(alternatives),
            alternatives,
        )),
    }
}

/// How many steps a block has, if it makes a tree.
pub fn steps_within(alloc: Global, root: &Block) -> Result<u16, TreeError>
    ensures count { IfOk result (λ n. n ≡ length (outline root.now).steps) }
    ensures good { OnOk result (tree_fault root.now ≡ None) }
    ensures fault { IfErr result (λ e. (e ≡ NoMemory) ⊎ (tree_fault root.now ≡ Some e)) }
{
    let size = measured(root);
    if let Some(fault) = size_fault(size) {
        return Err(fault);
    }
    let steps = steps_of(alloc, root, size.steps as usize)?;
    if let Some(place) = first_same_name(&steps) {
        return Err(TreeError::SameName(place as u16));
    }
    if let Some(place) = first_bad_step(&steps) {
        return Err(TreeError::Number(place as u16));
    }
    Ok(size.steps as u16)
}

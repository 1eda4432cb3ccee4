// Steps by their numbers.
ghost use Rattle.std.specs.Prelude.{◌≡◌, ◌+◌, ◌<◌, length, map, slice_get, Some, IfOk, IfErr};
ghost use Rattle.process_tree.specs.Blocks.{outline};

use crate::{Block, Step, Tail};
use std::alloc::{AllocError, Global};

/// The step at this place of a block, or how many places further it is.
pub fn step_at(block: &Block, place: usize) -> Result<&Step, usize>
    ensures found { IfOk result (λ s. slice_get (outline block.now).steps place ≡ Some s.now) }
    ensures past { IfErr result (λ left. length (outline block.now).steps + left ≡ place) }
{
    let own = block.steps.as_slice();
    if place < own.len() {
        return Ok(&own[place]);
    }
    let mut left = place - own.len();
    match &block.tail {
        Tail::End => Err(left),
        Tail::Choice(blocks) => {
            for inner in blocks {
                match step_at(inner, left) {
                    Ok(step) => return Ok(step),
                    Err(further) => left = further,
                }
            }
            Err(left)
        }
    }
}

/// The first steps, in text order.
pub fn steps_of(alloc: Global, root: &Block, count: usize) -> Result<Vec<&Step>, AllocError>
    requires { count ≡ length (outline root.now).steps }
    ensures { IfOk result (λ v. map (λ s. s.now) v.items ≡ (outline root.now).steps) }
{
    let mut steps = Vec::new(alloc);
    for place in 0..count {
        match step_at(root, place) {
            Ok(step) => steps.push(step)?,
            Err(_) => unreachable!(),
        }
    }
    Ok(steps)
}

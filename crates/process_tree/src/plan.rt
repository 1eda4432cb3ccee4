// Plans: processes whose operations are known by number.
ghost use Rattle.std.specs.Prelude.{◌≡◌, IfOk};
ghost use Rattle.process_tree.specs.Form.{form_of, AreEqualPlans};

use crate::{Block, Name, NameError, Step, Steps, Tail, Tree, TreeError};
use plain_list::Items;
use std::alloc::{AllocError, Global};

/// A list of operation numbers.
pub type Operations = Items<u16>;

/// A process with the number of each step's operation.
#[derive(Drop)]
pub struct Plan {
    pub name: Name,
    pub tree: Tree,
    pub ops: Operations,
}

impl Plan {
    /// An equal plan.
    pub fn copy(&self, alloc: Global) -> Result<Plan, AllocError>
        ensures { IfOk result (λ plan. AreEqualPlans plan self.now) }
    {
        let name = copy_name(alloc, &self.name)?;
        let tree = copy_tree(alloc, &self.tree)?;
        let items = self.ops.as_slice().to_vec(alloc)?;
        let ops = Operations::new(items);
        Ok(Plan { name, tree, ops })
    }
}

fn copy_name(alloc: Global, name: &Name) -> Result<Name, AllocError>
    ensures { IfOk result (λ copy. copy ≡ name.now) }
{
    match Name::new(alloc, name.bytes()) {
        Ok(copy) => Ok(copy),
        Err(NameError::NoMemory) => Err(AllocError),
        Err(NameError::BadName) => unreachable!(),
    }
}

fn copy_tree(alloc: Global, tree: &Tree) -> Result<Tree, AllocError>
    ensures { IfOk result (λ copy. form_of copy ≡ form_of tree.now) }
{
    let root = copy_block(alloc, tree.root())?;
    match Tree::build(alloc, root) {
        Ok(copy) => Ok(copy),
        Err(TreeError::NoMemory) => Err(AllocError),
        Err(_) => unreachable!(),
    }
}

fn copy_block(alloc: Global, block: &Block) -> Result<Block, AllocError>
    ensures { IfOk result (λ copy. form_of copy ≡ form_of block.now) }
{
    let steps = copy_steps(alloc, &block.steps)?;
    match &block.tail {
        Tail::End => Ok(Block {
            steps,
            tail: Tail::End,
        }),
        Tail::Choice(blocks) => {
            let mut copies = Vec::new(alloc);
            for inner in blocks {
                copies.push(copy_block(alloc, inner)?)?;
            }
            Ok(Block {
                steps,
                tail: Tail::Choice(copies),
            })
        }
    }
}

fn copy_steps(alloc: Global, steps: &Steps) -> Result<Steps, AllocError>
    ensures { IfOk result (λ copies. copies ≡ steps.now) }
{
    let mut copies = Vec::new(alloc);
    for step in steps.as_slice() {
        copies.push(copy_step(alloc, step)?)?;
    }
    Ok(Steps::new(copies))
}

fn copy_step(alloc: Global, step: &Step) -> Result<Step, AllocError>
    ensures { IfOk result (λ copy. copy ≡ step.now) }
{
    Ok(Step {
        kind: step.kind,
        name: copy_name(alloc, &step.name)?,
        op: copy_name(alloc, &step.op)?,
        key: step.key,
        amount: step.amount,
        tries: step.tries,
        undo_tries: step.undo_tries,
        refuse: step.refuse,
        undo_refuse: step.undo_refuse,
    })
}

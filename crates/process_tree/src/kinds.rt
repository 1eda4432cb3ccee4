// The kinds, the keys and the operations of steps.
ghost use Rattle.std.specs.Prelude.{◌≡◌, ◌<◌, None, length, slice_index_or, IfSome};
ghost use Rattle.process_tree.specs.Blocks.{outline};
ghost use Rattle.process_tree.specs.Entries.{key_of};
ghost use Rattle.process_tree.specs.Making.{tree_fault};
ghost use Rattle.process_tree.specs.Order.{has};
ghost use Rattle.process_tree.specs.Recovery.{forward, owed_behind};
ghost use Rattle.process_tree.specs.Shape.{shape_of, branch_to, commits, commits_by_kind, fixed_len, kind_of, IsBranch};

use crate::ways::{branch_to, commits_on};
use crate::{StepKind, Tree};

/// The kind of a step.
pub fn kind_of(tree: &Tree, n: u16) -> StepKind
    requires { n < length (outline tree.now).steps }
    ensures { result ≡ kind_of (shape_of tree.now) n }
{
    tree.step(n).kind
}

/// The key of a step.
pub fn key_of(tree: &Tree, n: u16) -> u32
    requires { n < length (outline tree.now).steps }
    ensures { result ≡ key_of tree.now n }
{
    tree.step(n).key
}

/// Whether a step is a commit point where `commit` is the last one before it.
pub fn commits_behind(tree: &Tree, commit: Option<u16>, step: u16) -> bool
    requires good { tree_fault tree.now ≡ None }
    requires step { step < length (outline tree.now).steps }
    ensures { result ≡ commits_by_kind (kind_of (shape_of tree.now) step) (has step (owed_behind (shape_of tree.now) commit)) }
{
    let count = usize::from(tree.count());
    commits_on(tree.paths(), count, kind_of(tree, step), commit, step)
}

/// How many of these steps stand up to the last commit point, and which step that is.
fn fixed(tree: &Tree, steps: &[u16]) -> (usize, Option<u16>)
    requires good { tree_fault tree.now ≡ None }
    requires branch { IsBranch (shape_of tree.now) steps.now }
    ensures fixed { result.0 ≡ fixed_len (shape_of tree.now) steps.now }
    ensures owed { owed_behind (shape_of tree.now) result.1 ≡ forward (shape_of tree.now) steps.now }
    ensures within { IfSome result.1 (λ c. c < length (outline tree.now).steps) }
{
    let mut fixed = 0;
    let mut commit = None;
    for (place, step) in steps.iter().enumerate() {
        if commits_behind(tree, commit, *step) {
            fixed = place + 1;
            commit = Some(*step);
        }
    }
    (fixed, commit)
}

/// How many of these steps stand up to the last commit point.
pub fn fixed_len(tree: &Tree, steps: &[u16]) -> usize
    requires good { tree_fault tree.now ≡ None }
    requires branch { IsBranch (shape_of tree.now) steps.now }
    ensures { result ≡ fixed_len (shape_of tree.now) steps.now }
{
    fixed(tree, steps).0
}

/// Whether a step is a commit point, the steps before it on its branch being done.
pub fn commits(tree: &Tree, step: u16) -> bool
    requires good { tree_fault tree.now ≡ None }
    requires step { step < length (outline tree.now).steps }
    ensures { result ≡ commits (shape_of tree.now) step }
{
    match kind_of(tree, step) {
        StepKind::C => false,
        StepKind::P | StepKind::R => true,
        StepKind::Cr => {
            let (_, commit) = fixed(tree, branch_to(tree.paths(), step));
            commits_behind(tree, commit, step)
        }
    }
}

/// The operation of a step, by the operations of all steps in order, or 0 where there is none.
pub fn op_of(ops: &[u16], step: u16) -> u16
    ensures { result ≡ slice_index_or ops.now step 0 }
{
    let place = usize::from(step);
    if place < ops.len() { ops[place] } else { 0 }
}

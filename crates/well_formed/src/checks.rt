// The check of a process, and its branches.
ghost use Rattle.std.specs.Prelude.{◌≡◌, ◌⊎◌, ◌++◌, ◌∷◌, [], IfOk};
ghost use Rattle.process_tree.specs.Shape.{shape_by, shape_of, branch_to};
ghost use Rattle.process_tree.specs.Termination.{IsWellFormed};
ghost use Rattle.well_formed.specs.Flaws.{IsOrderly};
ghost use Rattle.well_formed.specs.Verdicts.{Tells};
ghost use Rattle.well_formed.specs.declared.verdict.Verdict.TheVariants.{Good, NoMemory};

use crate::Verdict;
use crate::flaw::Flaw;
use crate::judge::first_flaw;
use crate::outcomes::outcomes_to;
use process_tree::{Places, StepKind, Tree, branch_to};
use std::alloc::{AllocError, Global};

/// The kinds of all steps, in text order.
fn kinds_of(alloc: Global, tree: &Tree) -> Result<Vec<StepKind>, AllocError>
    ensures { IfOk result (λ kinds. kinds.items ≡ (shape_of tree.now).kinds) }
{
    let mut kinds = Vec::new(alloc);
    for step in 0..tree.count() {
        kinds.push(tree.step(step).kind)?;
    }
    Ok(kinds)
}

/// The verdict on a process with these whole paths and kinds.
fn verdict_by(alloc: Global, paths: &[Places], kinds: &[StepKind]) -> Result<Verdict, AllocError>
    requires { IsOrderly (shape_by kinds.now paths.now) }
    ensures { IfOk result (Tells (shape_by kinds.now paths.now)) }
{
    match first_flaw(paths, kinds) {
        None => Ok(Verdict::Good),
        Some(flawed) => match flawed.flaw {
            Flaw::CutOff => Ok(Verdict::Unreachable { step: flawed.step }),
            Flaw::DeadEnd => {
                let outcomes = outcomes_to(alloc, paths, kinds, flawed.step)?;
                Ok(Verdict::Stuck {
                    step: flawed.step,
                    outcomes,
                })
            }
        },
    }
}

fn verdict(alloc: Global, tree: &Tree) -> Result<Verdict, AllocError>
    ensures { IfOk result (Tells (shape_of tree.now)) }
{
    let kinds = kinds_of(alloc, tree)?;
    verdict_by(alloc, tree.paths(), &kinds)
}

/// Whether a process can go wrong, and if so where first.
pub fn check(alloc: Global, tree: &Tree) -> Verdict
    ensures told { Tells (shape_of tree.now) result }
    ensures good { IsWellFormed (shape_of tree.now) → (result ≡ Good) ⊎ (result ≡ NoMemory) }
{
    match verdict(alloc, tree) {
        Ok(verdict) => verdict,
        Err(_) => Verdict::NoMemory,
    }
}

/// The branch path of a step: the steps of the branch to it, and itself.
pub fn path(alloc: Global, tree: &Tree, step: u16) -> Result<Places, AllocError>
    ensures { IfOk result (λ path. path ≡ branch_to (shape_of tree.now) step ++ step ∷ []) }
{
    let mut path = branch_to(tree.paths(), step).to_vec(alloc)?;
    path.push(step)?;
    Ok(Places::new(path))
}

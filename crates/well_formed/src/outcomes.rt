// Outcomes that lead to a step.
ghost use Rattle.std.specs.Prelude.{◌≡◌, ◌≤◌, ◌<◌, ◌++◌, ◌∷◌, ℕ, [], false, length, replicate, slice_index_or, IfOk, OnOk};
ghost use Rattle.std.specs.Prelude.{if◌then◌else◌};
ghost use Rattle.std.specs.List.{list_any};
ghost use Rattle.process_tree.specs.declared.play.Outcome.TheVariants.{Done, Refused};
ghost use Rattle.process_tree.specs.declared.step.StepKind.TheVariants.{C};
ghost use Rattle.process_tree.specs.Order.{Each};
ghost use Rattle.process_tree.specs.Shape.{shape_by, branch_to, can_be_refused};
ghost use Rattle.process_tree.specs.Termination.{is_first_tried, tried_before, outcomes_to};
ghost use Rattle.well_formed.specs.Flaws.{IsOrderly, IsOn};

use crate::Outcomes;
use process_tree::{Outcome, Places, StepKind, branch_to};
use std::alloc::{AllocError, Global};

/// Whether one of these steps can be refused.
fn can_any_be_refused(kinds: &[StepKind], steps: &[u16]) -> bool
    requires { Each (λ b. b < length kinds.now) steps.now }
    ensures { result ≡ list_any (λ b. can_be_refused (slice_index_or kinds.now b C)) steps.now }
{
    steps
        .iter()
        .any(|step| kinds[usize::from(*step)].can_be_refused())
}

/// Whether a step can be refused, and is the first such step behind this branch on its own.
fn is_first_tried(paths: &[Places], kinds: &[StepKind], branch: &[u16], step: u16) -> bool
    requires orderly { IsOrderly (shape_by kinds.now paths.now) }
    requires step { step < length kinds.now }
    ensures { result ≡ is_first_tried (shape_by kinds.now paths.now) branch.now step }
{
    if !kinds[usize::from(step)].can_be_refused() {
        return false;
    }
    let own = branch_to(paths, step);
    if !own.starts_with(branch) {
        return false;
    }
    let (_, behind) = own.split_at(branch.len());
    !can_any_be_refused(kinds, behind)
}

/// Adds a refusal for each step that is tried behind a branch before this one, which goes on from it. Those below `first`
/// aren't behind it.
fn pass_ways(
    paths: &[Places],
    kinds: &[StepKind],
    branch: &[u16],
    first: u16,
    step: u16,
    outcomes: &mut Vec<Outcome>,
) -> Result<(), AllocError>
    requires orderly { IsOrderly (shape_by kinds.now paths.now) }
    requires on { IsOn (shape_by kinds.now paths.now) step }
    requires branch { branch.now ≡ branch_to (shape_by kinds.now paths.now) step }
    requires first { first ≤ step }
    requires early { (b : ℕ) → b < first → is_first_tried (shape_by kinds.now paths.now) branch.now b ≡ false }
    ensures { OnOk result
        (outcomes.new.items ≡ outcomes.old.items ++ replicate (length (tried_before (shape_by kinds.now paths.now) step)) Refused) }
{
    for other in first..step {
        if is_first_tried(paths, kinds, branch, other) {
            outcomes.push(Outcome::Refused)?;
        }
    }
    Ok(())
}

/// Adds that a step is done, if it asks for an outcome.
fn pass_step(kind: StepKind, outcomes: &mut Vec<Outcome>) -> Result<(), AllocError>
    ensures { OnOk result (outcomes.new.items ≡ outcomes.old.items ++ (if can_be_refused kind then Done ∷ [] else [])) }
{
    if kind.can_be_refused() {
        outcomes.push(Outcome::Done)?;
    }
    Ok(())
}

/// The outcomes by which play goes to a step and is refused there.
pub fn outcomes_to(
    alloc: Global,
    paths: &[Places],
    kinds: &[StepKind],
    step: u16,
) -> Result<Outcomes, AllocError>
    requires orderly { IsOrderly (shape_by kinds.now paths.now) }
    requires on { IsOn (shape_by kinds.now paths.now) step }
    ensures { IfOk result (λ outcomes. outcomes ≡ outcomes_to (shape_by kinds.now paths.now) step) }
{
    let branch = branch_to(paths, step);
    let mut outcomes = Vec::new(alloc);
    let mut first = 0;
    for place in 0..branch.len() {
        let other = branch[place];
        pass_ways(paths, kinds, &branch[..place], first, other, &mut outcomes)?;
        pass_step(kinds[usize::from(other)], &mut outcomes)?;
        first = other + 1;
    }
    pass_ways(paths, kinds, branch, first, step, &mut outcomes)?;
    outcomes.push(Outcome::Refused)?;
    Ok(Outcomes::new(outcomes))
}

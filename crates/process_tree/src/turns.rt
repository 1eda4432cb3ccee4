// Play, turn by turn.
ghost use Rattle.std.specs.Prelude.{◌≡◌, ◌<◌, None, true, IfOk};
ghost use Rattle.process_tree.specs.Making.{tree_fault};
ghost use Rattle.process_tree.specs.Shape.{shape_of, goes_on_to, last_of};
ghost use Rattle.process_tree.specs.Play.{play, asks, answered, go_back};
ghost use Rattle.process_tree.specs.Stands.{stand_of, arrive_at, IsNext, IsOpen};

use crate::{Fallback, Outcome, Place, Places, Played, Tree, fixed_len, kind_of};
use std::alloc::{AllocError, Global};

/// Where a play stands, beside the steps that are done.
#[derive(Clone, Copy)]
pub enum Standing {
    /// This step is tried.
    Asks(u16),
    Path,
    Nothing,
    Stuck(u16),
}

/// The last of a list.
fn last_of(steps: &[u16]) -> Option<u16>
    ensures { result ≡ last_of steps.now }
{
    let mut last = None;
    let mut rest = steps;
    while let [step, after @ ..] = rest {
        last = Some(*step);
        rest = after;
    }
    last
}

/// Play comes to a place: a retriable step is done at once.
fn come_to(tree: &Tree, done: &mut Vec<u16>, place: Place) -> Result<Standing, AllocError>
    requires good { tree_fault tree.now ≡ None }
    requires next { IsNext (shape_of tree.now) done.old.items place }
    ensures stand { IfOk result (λ s. stand_of done.new.items s ≡ arrive_at (shape_of tree.now) done.old.items place) }
    ensures asked { IfOk result (λ s. IsOpen (shape_of tree.now) done.new.items s) }
{
    let mut at = place;
    while let Place::Step(step) = at {
        if kind_of(tree, step).can_be_refused() {
            return Ok(Standing::Asks(step));
        }
        done.push(step)?;
        at = tree.after(step);
    }
    Ok(Standing::Path)
}

/// Play goes back from a refused step.
fn go_back(tree: &Tree, done: &mut Vec<u16>, step: u16) -> Result<Standing, AllocError>
    requires good { tree_fault tree.now ≡ None }
    requires asked { goes_on_to (shape_of tree.now) done.old.items step ≡ true }
    ensures stand { IfOk result
        (λ s. stand_of done.new.items s ≡ answered (shape_of tree.now) (asks done.old.items step) Outcome.Refused) }
    ensures asked { IfOk result (λ s. IsOpen (shape_of tree.now) done.new.items s) }
{
    let fixed = fixed_len(tree, done);
    let commit = last_of(&done[..fixed]);
    match tree.fallback(step, commit) {
        Fallback::Alternative { keep, to } => {
            done.truncate(usize::from(keep));
            come_to(tree, done, Place::Step(to))
        }
        Fallback::All => Ok(Standing::Nothing),
        Fallback::Stuck => Ok(Standing::Stuck(step)),
    }
}

/// One outcome of a step that is tried.
fn tried(
    tree: &Tree,
    done: &mut Vec<u16>,
    step: u16,
    outcome: Outcome,
) -> Result<Standing, AllocError>
    requires good { tree_fault tree.now ≡ None }
    requires asked { goes_on_to (shape_of tree.now) done.old.items step ≡ true }
    ensures stand { IfOk result (λ s. stand_of done.new.items s ≡ answered (shape_of tree.now) (asks done.old.items step) outcome) }
    ensures asked { IfOk result (λ s. IsOpen (shape_of tree.now) done.new.items s) }
{
    match outcome {
        Outcome::Done => {
            done.push(step)?;
            come_to(tree, done, tree.after(step))
        }
        Outcome::Refused => go_back(tree, done, step),
    }
}

/// One outcome; an end stays as it is.
fn answered(
    tree: &Tree,
    done: &mut Vec<u16>,
    stand: Standing,
    outcome: Outcome,
) -> Result<Standing, AllocError>
    requires good { tree_fault tree.now ≡ None }
    requires asked { IsOpen (shape_of tree.now) done.old.items stand }
    ensures stand { IfOk result
        (λ s. stand_of done.new.items s ≡ answered (shape_of tree.now) (stand_of done.old.items stand) outcome) }
    ensures asked { IfOk result (λ s. IsOpen (shape_of tree.now) done.new.items s) }
{
    match stand {
        Standing::Asks(step) => tried(tree, done, step, outcome),
        Standing::Path | Standing::Nothing | Standing::Stuck(_) => Ok(stand),
    }
}

impl Tree {
    /// What becomes of the process where its tries end so.
    pub fn play(&self, alloc: Global, outcomes: &[Outcome]) -> Result<Played, AllocError>
        ensures { IfOk result (λ played. played ≡ play (shape_of self.now) outcomes.now) }
    {
        let mut done = Vec::new(alloc);
        let mut stand = come_to(self, &mut done, self.first())?;
        for outcome in outcomes {
            stand = answered(self, &mut done, stand, *outcome)?;
        }
        Ok(match stand {
            Standing::Asks(_) => Played::Unfinished,
            Standing::Path => Played::Path(Places::new(done)),
            Standing::Nothing => Played::Nothing,
            Standing::Stuck(step) => Played::Stuck(step),
        })
    }
}

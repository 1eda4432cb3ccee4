// What is wrong first with a process.
ghost use Rattle.std.specs.Prelude.{◌≡◌, ◌<◌, true, [], length, take, slice_index_or, IsTrue, if◌then◌else◌};
ghost use Rattle.process_tree.specs.declared.step.StepKind.TheVariants.{C};
ghost use Rattle.process_tree.specs.Order.{Each};
ghost use Rattle.process_tree.specs.Shape.{shape_by, goes_on_to, fixed_len, commits_by_kind};
ghost use Rattle.well_formed.specs.Flaws.{IsOrderly, is_sure, is_cut_off, is_dead_end, flaw_at, IsSound, AreJudged, IsJudged};
ghost use Rattle.well_formed.specs.Spots.{stands_at, last_through};

use crate::flaw::{Flaw, has_way_on, last_through, stands_at, way_before};
use process_tree::{Places, StepKind, shared};

/// A step with what is wrong with it.
#[derive(Clone, Copy)]
pub struct Flawed {
    pub step: u16,
    pub flaw: Flaw,
}

/// Whether steps are sure: none of them can be refused before one that can't be undone is done.
fn is_sure(kinds: &[StepKind], steps: &[u16]) -> bool
    requires { Each (λ b. b < length kinds.now) steps.now }
    ensures { result ≡ is_sure kinds.now steps.now }
{
    for step in steps {
        match kinds[usize::from(*step)] {
            StepKind::C | StepKind::P => return false,
            StepKind::R => return true,
            StepKind::Cr => {}
        }
    }
    true
}

/// Whether a step that goes on from this branch is cut off by the way before it.
fn is_cut_off(paths: &[Places], kinds: &[StepKind], branch: &[u16], step: u16) -> bool
    requires orderly { IsOrderly (shape_by kinds.now paths.now) }
    requires on { goes_on_to (shape_by kinds.now paths.now) branch.now step ≡ true }
    ensures { result ≡ is_cut_off (shape_by kinds.now paths.now) step }
{
    match way_before(paths, branch, step) {
        None => false,
        Some(way) => {
            let path = last_through(paths, branch.len(), way);
            let (_, steps) = path.split_at(branch.len());
            is_sure(kinds, steps)
        }
    }
}

/// Whether a step that goes on from this branch is a dead end. So many first steps of the branch stand up to its last
/// commit point.
fn is_dead_end(
    paths: &[Places],
    kinds: &[StepKind],
    branch: &[u16],
    fixed: usize,
    step: u16,
) -> bool
    requires orderly { IsOrderly (shape_by kinds.now paths.now) }
    requires on { goes_on_to (shape_by kinds.now paths.now) branch.now step ≡ true }
    requires fixed { fixed ≡ fixed_len (shape_by kinds.now paths.now) branch.now }
    ensures { result ≡ is_dead_end (shape_by kinds.now paths.now) step }
{
    if fixed == 0 {
        return false;
    }
    if !kinds[usize::from(step)].can_be_refused() {
        return false;
    }
    !has_way_on(paths, branch, fixed, step)
}

/// What is wrong with a step that goes on from this branch. Nothing is looked up of a step that is known to be sound.
fn flaw_of(
    paths: &[Places],
    kinds: &[StepKind],
    branch: &[u16],
    fixed: usize,
    step: u16,
    is_known: bool,
) -> Option<Flaw>
    requires orderly { IsOrderly (shape_by kinds.now paths.now) }
    requires on { goes_on_to (shape_by kinds.now paths.now) branch.now step ≡ true }
    requires fixed { fixed ≡ fixed_len (shape_by kinds.now paths.now) branch.now }
    requires known { IsTrue is_known → IsSound (shape_by kinds.now paths.now) step }
    ensures { result ≡ flaw_at (shape_by kinds.now paths.now) step }
{
    if is_known {
        return None;
    }
    if is_cut_off(paths, kinds, branch, step) {
        return Some(Flaw::CutOff);
    }
    if is_dead_end(paths, kinds, branch, fixed, step) {
        return Some(Flaw::DeadEnd);
    }
    None
}

/// Whether a step at this place is a commit point, where `owed` is the last path through the last one before it.
fn commits_there(kinds: &[StepKind], owed: &[u16], place: usize, step: u16) -> bool
    requires { step < length kinds.now }
    ensures { result ≡ commits_by_kind (slice_index_or kinds.now step C) (stands_at step place owed.now) }
{
    kinds[usize::from(step)].commits(stands_at(owed, place, step))
}

/// The last path through a step at this place, where `owed` is the last one through an earlier step, or no path.
fn owed_behind<'a>(paths: &'a [Places], owed: &'a [u16], place: usize, step: u16) -> &'a [u16]
    ensures { result.now ≡ (if stands_at step place owed.now then owed.now else last_through step place paths.now []) }
{
    if stands_at(owed, place, step) {
        owed
    } else {
        last_through(paths, place, step)
    }
}

/// What is wrong first on a path, of which the first steps were found sound on an earlier one.
fn flaw_on(paths: &[Places], kinds: &[StepKind], at: usize, skip: usize) -> Option<Flawed>
    requires orderly { IsOrderly (shape_by kinds.now paths.now) }
    requires within { at < length paths.now }
    requires earlier { Each (Each (IsSound (shape_by kinds.now paths.now))) (take at paths.now) }
    requires skip { Each (IsSound (shape_by kinds.now paths.now)) (take skip (slice_index_or paths.now at [])) }
    ensures { AreJudged (shape_by kinds.now paths.now) (slice_index_or paths.now at []) result }
{
    let path = paths[at].as_slice();
    let mut fixed = 0;
    let mut owed: &[u16] = &[];
    for place in 0..path.len() {
        let step = path[place];
        if let Some(flaw) = flaw_of(paths, kinds, &path[..place], fixed, step, place < skip) {
            return Some(Flawed { step, flaw });
        }
        if commits_there(kinds, owed, place, step) {
            fixed = place + 1;
            owed = owed_behind(paths, owed, place, step);
        }
    }
    None
}

/// What is wrong first with a process with these whole paths and kinds.
pub fn first_flaw(paths: &[Places], kinds: &[StepKind]) -> Option<Flawed>
    requires { IsOrderly (shape_by kinds.now paths.now) }
    ensures { IsJudged (shape_by kinds.now paths.now) result }
{
    let mut earlier: &[u16] = &[];
    for at in 0..paths.len() {
        let path = paths[at].as_slice();
        if let Some(flawed) = flaw_on(paths, kinds, at, shared(earlier, path)) {
            return Some(flawed);
        }
        earlier = path;
    }
    None
}

// What is wrong with single steps.
ghost use Rattle.std.specs.Prelude.{◌≡◌, ◌≤◌, ◌<◌, ◌-◌, [], length};
ghost use Rattle.std.specs.List.{list_any, filter_map};
ghost use Rattle.process_tree.specs.Shape.{greatest, last_of};
ghost use Rattle.well_formed.specs.Spots.{stands_at, last_through, step_on, earlier_way, is_later, leaves_later};

use process_tree::{Places, greater_of};

/// What can be wrong with a step.
#[derive(Clone, Copy, Debug, PartialEq, Eq)]
pub enum Flaw {
    /// It begins an alternative that nothing falls back to, since the one before it is sure.
    CutOff,
    /// If it is refused, the process is stuck.
    DeadEnd,
}

/// Whether a step stands at this place of a path.
pub fn stands_at(path: &[u16], place: usize, step: u16) -> bool
    ensures { result ≡ stands_at step place path.now }
{
    match path.get(place) {
        None => false,
        Some(other) => *other == step,
    }
}

/// The last of the paths that have a step at this place: behind it, that path takes last alternatives.
pub fn last_through(paths: &[Places], place: usize, step: u16) -> &[u16]
    ensures { result.now ≡ last_through step place paths.now [] }
{
    let mut found: &[u16] = &[];
    for path in paths {
        let steps = path.as_slice();
        if stands_at(steps, place, step) {
            found = steps;
        }
    }
    found
}

/// The step with which a path goes on from a branch: a step stands behind one branch only.
fn step_on(path: &[u16], branch: &[u16]) -> Option<u16>
    ensures { result ≡ step_on (length branch.now) branch.now path.now }
{
    let place = branch.len();
    if place > 0 && !stands_at(path, place - 1, branch[place - 1]) {
        return None;
    }
    match path.get(place) {
        None => None,
        Some(step) => Some(*step),
    }
}

fn earlier_way(path: &[u16], branch: &[u16], step: u16) -> Option<u16>
    ensures { result ≡ earlier_way branch.now step path.now }
{
    match step_on(path, branch) {
        None => None,
        Some(other) => { if other < step { Some(other) } else { None } }
    }
}

/// The greatest step below this one with which a path goes on from a branch.
pub fn way_before(paths: &[Places], branch: &[u16], step: u16) -> Option<u16>
    ensures { result ≡ greatest (filter_map (earlier_way branch.now step) paths.now) }
{
    let mut found = None;
    for path in paths {
        found = greater_of(found, earlier_way(path.as_slice(), branch, step));
    }
    found
}

/// Whether a path goes on to a step behind this one.
fn ends_later(path: &[u16], step: u16) -> bool
    ensures { result ≡ is_later step (last_of path.now) }
{
    match path.last() {
        None => false,
        Some(last) => step < *last,
    }
}

/// Whether a path leaves the branch to a step behind its first steps, for later ones.
fn leaves_later(path: &[u16], branch: &[u16], fixed: usize, step: u16) -> bool
    requires some { 0 < fixed }
    requires within { fixed ≤ length branch.now }
    ensures { result ≡ leaves_later (fixed - 1) branch.now step path.now }
{
    stands_at(path, fixed - 1, branch[fixed - 1])
        && !stands_at(path, branch.len(), step)
        && ends_later(path, step)
}

pub fn has_way_on(paths: &[Places], branch: &[u16], fixed: usize, step: u16) -> bool
    requires some { 0 < fixed }
    requires within { fixed ≤ length branch.now }
    ensures { result ≡ list_any (leaves_later (fixed - 1) branch.now step) paths.now }
{
    paths
        .iter()
        .any(|path| leaves_later(path.as_slice(), branch, fixed, step))
}

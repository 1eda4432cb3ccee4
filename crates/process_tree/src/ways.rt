// Steps along whole paths.
ghost use Rattle.std.specs.Prelude.{◌≡◌, ◌<◌, true, false, List, Some, length, take, IfSome, MatchOption};
ghost use Rattle.std.specs.List.{filter_map};
ghost use Rattle.process_tree.specs.Shape.{commits_by_kind, shape_by, first_of, least, greatest, steps_before, path_through};
ghost use Rattle.process_tree.specs.Paths.{behind, step_behind, lesser_of, greater_of, shared, way_from, kept_len};
ghost use Rattle.process_tree.specs.declared.step.StepKind.{StepKind};
ghost use Rattle.process_tree.specs.Order.{has, AreInOrder, Each, IsRising};
ghost use Rattle.process_tree.specs.Recovery.{owed_behind};

use crate::{Places, StepKind};

/// The first step of a path.
fn first_of(path: &[u16]) -> Option<u16>
    ensures { result ≡ first_of path.now }
{
    match path {
        [] => None,
        [step, ..] => Some(*step),
    }
}

/// The step after this one on a path.
fn behind(path: &[u16], step: u16) -> Option<u16>
    ensures { result ≡ behind step path.now }
{
    let mut rest = path;
    while let [other, after @ ..] = rest {
        if *other == step {
            return first_of(after);
        }
        rest = after;
    }
    None
}

fn step_behind(path: &[u16], last: Option<u16>) -> Option<u16>
    ensures { result ≡ step_behind last path.now }
{
    match last {
        None => first_of(path),
        Some(step) => behind(path, step),
    }
}

/// The lesser of two, where they are there.
fn lesser_of(found: Option<u16>, next: Option<u16>) -> Option<u16>
    ensures { result ≡ lesser_of found next }
{
    match (found, next) {
        (None, _) => next,
        (Some(step), None) => Some(step),
        (Some(step), Some(other)) => Some(if step < other { step } else { other }),
    }
}

/// The greater of two, where they are there.
pub fn greater_of(found: Option<u16>, next: Option<u16>) -> Option<u16>
    ensures { result ≡ greater_of found next }
{
    match (found, next) {
        (None, _) => next,
        (Some(step), None) => Some(step),
        (Some(step), Some(other)) => Some(if other < step { step } else { other }),
    }
}

/// The least step after this one on any path, or the least first step.
pub fn least_behind(paths: &[Places], last: Option<u16>) -> Option<u16>
    ensures { result ≡ least (filter_map (step_behind last) paths.now) }
{
    let mut found = None;
    for path in paths {
        found = lesser_of(found, step_behind(path.as_slice(), last));
    }
    found
}

/// The greatest step after this one on any path, or the greatest first step.
pub fn greatest_behind(paths: &[Places], last: Option<u16>) -> Option<u16>
    ensures { result ≡ greatest (filter_map (step_behind last) paths.now) }
{
    let mut found = None;
    for path in paths {
        found = greater_of(found, step_behind(path.as_slice(), last));
    }
    found
}

/// At which place of a path a step stands.
pub fn place_on(path: &[u16], step: u16) -> Option<usize>
    ensures before { IfSome result (λ place. take place path.now ≡ steps_before step path.now) }
    ensures within { IfSome result (λ place. place < length path.now) }
    ensures has { MatchOption result (has step path.now ≡ false) (λ _. has step path.now ≡ true) }
{
    for (place, other) in path.iter().enumerate() {
        if *other == step {
            return Some(place);
        }
    }
    None
}

/// The steps before this one on the first path that has it.
pub fn branch_to(paths: &[Places], step: u16) -> &[u16]
    ensures { result.now ≡ steps_before step (path_through step paths.now) }
{
    for path in paths {
        let steps = path.as_slice();
        if let Some(place) = place_on(steps, step) {
            return &steps[..place];
        }
    }
    &[]
}

/// How many steps a path and a branch have in common.
pub fn shared(branch: &[u16], path: &[u16]) -> usize
    ensures count { result ≡ shared branch.now path.now }
    ensures same { take result branch.now ≡ take result path.now }
{
    let mut count = 0;
    while count < branch.len() && count < path.len() && branch[count] == path[count] {
        count += 1;
    }
    count
}

/// The step with which a path leaves a branch.
fn way_from(fixed: usize, branch: &[u16], step: u16, path: &[u16]) -> Option<u16>
    ensures { result ≡ way_from fixed branch.now step path.now }
{
    let count = shared(branch, path);
    if count < fixed || path.len() <= count {
        return None;
    }
    let next = path[count];
    if step < next { Some(next) } else { None }
}

/// The least step with which a path leaves a branch.
pub fn least_way(paths: &[Places], fixed: usize, branch: &[u16], step: u16) -> Option<u16>
    ensures { result ≡ least (filter_map (way_from fixed branch.now step) paths.now) }
{
    let mut found = None;
    for path in paths {
        found = lesser_of(found, way_from(fixed, branch, step, path.as_slice()));
    }
    found
}

/// How many steps of a branch stand up to a commit point of it, that one included.
pub fn kept_len(branch: &[u16], commit: Option<u16>) -> usize
    requires { IfSome commit (λ step. has step branch.now ≡ true) }
    ensures { result ≡ kept_len branch.now commit }
{
    match commit {
        None => 0,
        Some(step) => match place_on(branch, step) {
            Some(place) => place + 1,
            None => unreachable!(),
        },
    }
}

/// Whether a step is owed where `commit` is the last commit point: it stands behind it through last alternatives. The paths
/// are those of so many steps.
fn is_owed(paths: &[Places], count: usize, commit: u16, step: u16) -> bool
    requires within { Each (Each (λ b. b < count)) paths.now }
    requires order { AreInOrder paths.now }
    requires rising { Each IsRising paths.now }
    ensures { (kinds : List StepKind) → length kinds ≡ count
        → result ≡ has step (owed_behind (shape_by kinds paths.now) (Some commit)) }
{
    let mut next = greatest_behind(paths, Some(commit));
    while let Some(owed) = next {
        if step <= owed {
            return step == owed;
        }
        next = greatest_behind(paths, Some(owed));
    }
    false
}

/// Whether a step of this kind is a commit point where `commit` is the last one before it. The paths are those of so many
/// steps.
pub fn commits_on(
    paths: &[Places],
    count: usize,
    kind: StepKind,
    commit: Option<u16>,
    step: u16,
) -> bool
    requires within { Each (Each (λ b. b < count)) paths.now }
    requires order { AreInOrder paths.now }
    requires rising { Each IsRising paths.now }
    ensures { (kinds : List StepKind) → length kinds ≡ count
        → result ≡ commits_by_kind kind (has step (owed_behind (shape_by kinds paths.now) commit)) }
{
    match kind {
        StepKind::C => false,
        StepKind::P | StepKind::R => true,
        StepKind::Cr => match commit {
            None => false,
            Some(commit) => is_owed(paths, count, commit, step),
        },
    }
}

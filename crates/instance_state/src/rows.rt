// What is kept of each step of a process.
ghost use Rattle.std.specs.Prelude.{[], ◌≡◌, ◌<◌, ◌+◌, Option, ℕ, IfOk, IfSome, None, length, slice_index_or, Some};
ghost use Rattle.std.specs.Prelude.{if◌then◌else◌};
ghost use Rattle.process_tree.specs.Blocks.{outline};
ghost use Rattle.process_tree.specs.Making.{tree_fault};
ghost use Rattle.process_tree.specs.Shape.{shape_of, last_of, branch_to, last_after};
ghost use Rattle.process_tree.specs.Recovery.{place_of};
ghost use Rattle.instance_state.specs.Rows.{row_of, rows_to, way_of, done_to, no_row};

use process_tree::{Fallback, Place, Plan, StepKind, Tree, branch_to, commits_behind};
use std::alloc::{AllocError, Global};
use std::marker::Model;

/// What is kept of a step.
#[derive(Clone, Copy)]
pub struct Row {
    pub kind: StepKind,
    pub tries: u8,
    pub undo_tries: u8,
    /// How many steps are done once it is.
    pub len: usize,
    /// How many of them stand up to the last commit point.
    pub fixed: usize,
    /// That commit point.
    pub commit: Option<u16>,
    /// The step before it on its branch.
    pub before: Option<u16>,
    /// The steps behind it through first and through last alternatives.
    pub after: Option<u16>,
    pub last_after: Option<u16>,
    /// Where the process goes on where it is refused.
    pub other: Option<u16>,
    /// Where the process goes on where it is the last that is done.
    pub way: Option<u16>,
}

/// A process, and what is kept of each of its steps.
#[derive(Drop)]
pub struct Rows {
    plan: Plan,
    rows: Vec<Row>,
}

impl Model for Rows {
    ghost use Rattle.schedule_model.specs.Course.{Course, course_of};

    ghost Value = { Course };

    ghost view = { λ r. course_of r.plan };

    ghost use Rattle.std.specs.Prelude.{◌≡◌, None, length};
    ghost use Rattle.process_tree.specs.Blocks.{outline};
    ghost use Rattle.process_tree.specs.Making.{tree_fault};
    ghost use Rattle.instance_state.specs.Rows.{rows_to};

    ghost invariant = { λ r.
        (tree_fault r.plan.tree ≡ None)
        × (r.rows.items ≡ rows_to r.plan.tree (length (outline r.plan.tree).steps)) };
}

impl Rows {
    ghost use Rattle.schedule_model.specs.Course.{course_of};
    ghost use Rattle.process_tree.specs.Laws.{IsTreeShape};
    ghost use Rattle.process_tree.specs.Shape.{least, next_steps};
    ghost use Rattle.instance_state.specs.Rows.{row_in};

    pub fn new(alloc: Global, plan: &Plan) -> Result<Rows, AllocError>
        ensures { IfOk result (λ rows. rows ≡ course_of plan.now) }
    {
        let plan = plan.copy(alloc)?;
        let rows = rows_of(alloc, &plan.tree)?;
        Ok(Rows { plan, rows })
    }

    /// What is kept of a step.
    pub fn row(&self, step: u16) -> Row
        requires { step < length self.now.shape.kinds }
        ensures row { result ≡ row_in self.now step }
        ensures tree { IsTreeShape self.now.shape }
    {
        self.rows[usize::from(step)]
    }

    /// The step with which the process begins.
    pub fn first(&self) -> Option<u16>
        ensures step { result ≡ least (next_steps self.now.shape []) }
        ensures tree { IsTreeShape self.now.shape }
    {
        step_at(self.plan.tree.first())
    }

    /// How many steps follow a step through last alternatives.
    pub fn count_behind(&self, step: u16) -> usize
        requires { step < length self.now.shape.kinds }
        ensures { result ≡ length (last_after self.now.shape (done_to self.now.shape (Some step))) }
    {
        count_behind(&self.plan.tree, step)
    }
}

/// How many steps of a tree follow a step through last alternatives.
fn count_behind(tree: &Tree, step: u16) -> usize
    requires { step < length (outline tree.now).steps }
    ensures { result ≡ length (last_after (shape_of tree.now) (done_to (shape_of tree.now) (Some step))) }
{
    let mut place = tree.last_after(step);
    let mut count = 0;
    'behind: while let Place::Step(next) = place {
        count += 1;
        place = tree.last_after(next);
    }
    count
}

/// The step at a place, if it isn't the end.
fn step_at(place: Place) -> Option<u16>
    ensures { (step : Option ℕ) → place ≡ place_of step → result ≡ step }
{
    match place {
        Place::Step(step) => Some(step),
        Place::End => None,
    }
}

fn way_of(fallback: Fallback) -> Option<u16>
    ensures { result ≡ way_of fallback }
{
    match fallback {
        Fallback::Alternative { to, .. } => Some(to),
        Fallback::All | Fallback::Stuck => None,
    }
}

/// The last of a list.
fn last_of(steps: &[u16]) -> Option<u16>
    ensures { result ≡ last_of steps.now }
{
    match steps {
        [] => None,
        [.., last] => Some(*last),
    }
}

/// The commit point up to a step, and how many steps stand up to it.
fn commit_of(rows: &[Row], last: Option<u16>) -> (Option<u16>, usize)
    requires { IfSome last (λ b. b < length rows.now) }
    ensures commit { IfSome last (λ b. result.0 ≡ (slice_index_or rows.now b no_row).commit) }
    ensures fixed { IfSome last (λ b. result.1 ≡ (slice_index_or rows.now b no_row).fixed) }
    ensures none { last ≡ None → (result.0 ≡ None) × (result.1 ≡ 0) }
{
    match last {
        None => (None, 0),
        Some(step) => {
            let row = &rows[usize::from(step)];
            (row.commit, row.fixed)
        }
    }
}

/// The step with which the process goes on once this one is done: the one behind it, or else, unless it commits, the one to
/// which its refusal leads.
fn way_behind(after: Option<u16>, other: Option<u16>, fixes: bool) -> Option<u16>
    ensures some { IfSome after (λ d. result ≡ Some d) }
    ensures none { after ≡ None → result ≡ (if fixes then None else other) }
{
    match after {
        Some(_) => after,
        None => { if fixes { None } else { other } }
    }
}

/// The commit point with a step that commits, or without it.
fn commits_with(
    fixes: bool,
    with: (Option<u16>, usize),
    without: (Option<u16>, usize),
) -> (Option<u16>, usize)
    ensures commit { result.0 ≡ (if fixes then with.0 else without.0) }
    ensures fixed { result.1 ≡ (if fixes then with.1 else without.1) }
{
    if fixes { with } else { without }
}

/// What is kept of step n, by what is kept of those before it.
fn next_row(tree: &Tree, rows: &[Row], n: u16) -> Row
    requires step { n < length (outline tree.now).steps }
    requires rows { rows.now ≡ rows_to tree.now n }
    ensures { result ≡ row_of tree.now n }
{
    let step = tree.step(n);
    let branch = branch_to(tree.paths(), n);
    let before = last_of(branch);
    let (commit, fixed) = commit_of(rows, before);
    let other = way_of(tree.fallback(n, commit));
    let after = step_at(tree.after(n));
    let last_after = step_at(tree.last_after(n));
    let len = branch.len() + 1;
    let fixes = commits_behind(tree, commit, n);
    let (commit, fixed) = commits_with(fixes, (Some(n), len), (commit, fixed));
    Row {
        kind: step.kind,
        tries: step.tries,
        undo_tries: step.undo_tries,
        len,
        fixed,
        commit,
        before,
        after,
        last_after,
        other,
        way: way_behind(after, other, fixes),
    }
}

/// What is kept of each step of a tree.
fn rows_of(alloc: Global, tree: &Tree) -> Result<Vec<Row>, AllocError>
    ensures rows { IfOk result (λ rows. rows.items ≡ rows_to tree.now (length (outline tree.now).steps)) }
    ensures good { tree_fault tree.now ≡ None }
{
    let mut rows = Vec::new(alloc);
    for n in 0..tree.count() {
        let next = next_row(tree, &rows, n);
        rows.push(next)?;
    }
    Ok(rows)
}

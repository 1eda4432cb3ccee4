// Own order: whether a step goes on from what is done, and whether that is an end.
ghost use Rattle.std.specs.Prelude.{◌≡◌, None, Some, Option, true};
ghost use Rattle.std.specs.List.{starts_with, list_any};
ghost use Rattle.process_tree.specs.declared.entry.Entry.{Entry};
ghost use Rattle.process_tree.specs.Shape.{shape_of, goes_on_to, is_end, same_steps};
ghost use Rattle.schedule_model.specs.OwnOrder.{is_of_last};
ghost use Rattle.history_judging.specs.Judging.{step_on};

use process_tree::{Entry, Places, Tree};
use schedule_rules::is_same_step;

/// The step with which a path goes on from these, if it begins with them.
fn step_on(path: &[u16], done: &[u16]) -> Option<u16>
    ensures { result ≡ step_on done.now path.now }
{
    if !path.starts_with(done) {
        return None;
    }
    let (_, later) = path.split_at(done.len());
    match later {
        [] => None,
        [step, ..] => Some(*step),
    }
}

/// Whether a step goes on from these along a whole path.
pub fn goes_on_to(tree: &Tree, done: &[u16], step: u16) -> bool
    ensures { result ≡ goes_on_to (shape_of tree.now) done.now step }
{
    let mut rest = tree.paths();
    while let [path, after @ ..] = rest {
        if step_on(path.as_slice(), done) == Some(step) {
            return true;
        }
        rest = after;
    }
    false
}

/// Whether these are one of the paths.
fn is_listed(paths: &[Places], done: &[u16]) -> bool
    ensures { result ≡ list_any (same_steps done.now) paths.now }
{
    paths.iter().any(|path| done == path.as_slice())
}

/// Whether these are a whole path or nothing.
pub fn is_end(tree: &Tree, done: &[u16]) -> bool
    ensures { result ≡ is_end (shape_of tree.now) done.now }
{
    match done {
        [] => true,
        [_, ..] => is_listed(tree.paths(), done),
    }
}

/// Whether an entry is of the step of the last of these.
pub fn is_of_last(entries: &[Entry], entry: &Entry) -> bool
    ensures { result ≡ is_of_last entries.now entry.now }
{
    match entries {
        [] => false,
        [.., last] => is_same_step(last, entry),
    }
}

// The printed serial list against the last list.
ghost use Rattle.std.specs.Prelude.{◌≡◌, ◌≤◌, length};
ghost use Rattle.trace_verify.specs.Verdicts.{is_printed, differs_from};

use crate::names::Names;
use crate::report::NamedAct;
use process_tree::Entry;

// Whether an entry is printed so.
fn is_printed(steps: &Names<'_>, ops: &Names<'_>, entry: &Entry, act: &NamedAct<'_>) -> bool
    ensures { result ≡ is_printed steps.now ops.now entry.now act.now }
{
    entry.process == act.process
        && steps.is_named(entry.step, act.step)
        && ops.is_named(entry.op, act.op)
        && entry.key == act.key
        && entry.undo == act.undo
}

/// The first place at which a list isn't printed so.
pub fn differs_at(
    steps: &Names<'_>,
    ops: &Names<'_>,
    list: &[Entry],
    printed: &[NamedAct<'_>],
) -> Option<u32>
    requires { length list.now ≤ 32768 }
    ensures { result ≡ differs_from steps.now ops.now 1 list.now printed.now }
{
    let mut rest = list;
    let mut acts = printed;
    let mut number = 1;
    while let [entry, after @ ..] = rest {
        match acts {
            [act, later @ ..] => {
                if !is_printed(steps, ops, entry, act) {
                    return Some(number);
                }
                acts = later;
            }
            [] => return Some(number),
        }
        number += 1;
        rest = after;
    }
    if acts.is_empty() { None } else { Some(number) }
}

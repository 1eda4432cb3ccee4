// What stands against the steps that a step would make its process owe.
ghost use Rattle.std.specs.Prelude.{◌≡◌, ◌<◌, length};
ghost use Rattle.process_tree.specs.Blocks.{outline};
ghost use Rattle.process_tree.specs.Entries.{entry_of};
ghost use Rattle.hold_tables.specs.Kept.{IsKnown};
ghost use Rattle.admission.specs.Admission.{IsPlanFor, steps_owed_after};
ghost use Rattle.admission.specs.Least.{lesser_of};
ghost use Rattle.admission.specs.Parts.{least_against_owed, least_against_steps};

use crate::least::lesser_of;
use crate::net::least_in_net;
use crate::processes::{Sought, least_of_all};
use hold_tables::{Blocked, Holds, Rule};
use process_tree::{Entry, Place, Plan, key_of, op_of};

/// A step of the process, as an entry.
pub fn entry_of(plan: &Plan, process: u32, step: u16) -> Entry
    requires { step < length (outline plan.now.tree).steps }
    ensures { result ≡ entry_of plan.now process step }
{
    Entry {
        process,
        step,
        op: op_of(plan.ops.as_slice(), step),
        key: key_of(&plan.tree, step),
        undo: false,
    }
}

/// The least of what was found and of the blocks of one step that would be owed.
fn least_against_owed(holds: &Holds, own: Entry, found: Option<Blocked>) -> Option<Blocked>
    requires own { IsKnown holds.now.conflicts own }
    ensures { result ≡ lesser_of found (least_against_owed holds.now own) }
{
    let held = lesser_of(found, least_of_all(holds, Sought::Owed, own));
    least_in_net(holds, Rule::A4, own, held)
}

/// The least of what was found and of the blocks of any step that would be owed behind this one.
pub fn least_owed(
    holds: &Holds,
    plan: &Plan,
    process: u32,
    step: u16,
    found: Option<Blocked>,
) -> Option<Blocked>
    requires step { step < length (outline plan.now.tree).steps }
    requires plan { IsPlanFor holds.now plan.now }
    ensures { result ≡ lesser_of found (least_against_steps holds.now plan.now process (steps_owed_after plan.now step)) }
{
    let mut place = plan.tree.last_after(step);
    let mut least = found;
    'owed: while let Place::Step(owed) = place {
        let own = entry_of(plan, process, owed);
        least = least_against_owed(holds, own, least);
        place = plan.tree.last_after(owed);
    }
    least
}

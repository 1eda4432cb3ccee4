// What a step would close a circle with.
ghost use Rattle.std.specs.Prelude.{◌≡◌, true};
ghost use Rattle.process_tree.specs.Conflicts.{do_conflict};
ghost use Rattle.schedule_model.specs.Blocking.{in_a_circle};
ghost use Rattle.machine_model.specs.Blocks.{by_rule, least_block};
ghost use Rattle.machine_model.specs.declared.blocked.Rule.TheVariants.{A2};
ghost use Rattle.hold_tables.specs.Kept.{IsKnown};
ghost use Rattle.hold_tables.specs.Tables.{holdings_of, is_open};
ghost use Rattle.admission.specs.Parts.{with_circle};

use crate::least::least_with;
use hold_tables::{Blocked, Holds, Rule};
use process_tree::Entry;

/// The least of a block on another entry, where the two conflict and a walk leads to its process, and of what was found.
fn with_circle(holds: &Holds, own: Entry, other: Entry, least: Option<Blocked>) -> Option<Blocked>
    requires from { is_open holds.now own.process ≡ true }
    requires to { is_open holds.now other.process ≡ true }
    requires own { IsKnown holds.now.conflicts own }
    requires other { IsKnown holds.now.conflicts other }
    ensures { result ≡ with_circle holds.now own other least }
{
    let c = holds.conflicts();
    if c.between(own, other) && holds.reaches(own.process, other.process) {
        least_with(c, Rule::A2, own, other, least)
    } else {
        least
    }
}

/// The least block on a net entry with which the step would close a circle.
pub fn least_in_circle(holds: &Holds, own: Entry) -> Option<Blocked>
    requires open { is_open holds.now own.process ≡ true }
    requires own { IsKnown holds.now.conflicts own }
    ensures { result ≡ least_block (by_rule A2 (in_a_circle (do_conflict holds.now.conflicts) (holdings_of holds.now) own)) }
{
    let mut place = holds.net_len();
    if holds.is_clear_of_net(own.op) {
        return None;
    }
    if holds.leads_nowhere(own.process) {
        return None;
    }
    let mut least = None;
    'places: while 0 < place {
        place -= 1;
        let other = holds.net_at(place);
        least = with_circle(holds, own, other, least);
    }
    least
}

// What the net of the open processes has against an entry.
ghost use Rattle.std.specs.Prelude.{◌≡◌, ◌<◌, ◌≤◌, [], IfSome, drop, length, slice_index_or, take};
ghost use Rattle.process_tree.specs.Conflicts.{do_conflict};
ghost use Rattle.process_tree.specs.Order.{Each};
ghost use Rattle.process_tree.specs.declared.entry.Entry.{Entry};
ghost use Rattle.machine_model.specs.declared.blocked.Rule.{Rule};
ghost use Rattle.machine_model.specs.declared.blocked.Rule.TheVariants.{A3};
ghost use Rattle.hold_tables.specs.Kept.{AreTidy, IsKnown};
ghost use Rattle.admission.specs.Admission.{is_of_step};
ghost use Rattle.admission.specs.Least.{least_on, lesser_of};
ghost use Rattle.admission.specs.Parts.{least_front, least_fronts, place_of_step};

use crate::least::least_with;
use hold_tables::{Blocked, Holds, Rule};
use process_tree::Entry;

/// The first place, from one place to another, whose net entry is of a process up to this number, or else the other place.
fn first_up_to(holds: &Holds, most: u32, from: usize, end: usize) -> usize
    requires places { (from ≤ end) × (end ≤ length holds.now.net) }
    ensures within { (from ≤ result) × (result ≤ end) }
    ensures passed { Each (λ e. most < e.process) (drop from (take result holds.now.net)) }
{
    let mut place = from;
    'places: while place < end && most < holds.net_at(place).process {
        place += 1;
    }
    place
}

/// The first place, from one place to another, whose net entry may have a lesser block than the one found, or else the other place.
fn first_before(holds: &Holds, found: Option<Blocked>, from: usize, end: usize) -> usize
    requires places { (from ≤ end) × (end ≤ length holds.now.net) }
    ensures within { (from ≤ result) × (result ≤ end) }
    ensures passed { (rule : Rule) (own : Entry)
        → lesser_of (least_on (do_conflict holds.now.conflicts) rule own (drop from (take result holds.now.net))) found ≡ found }
{
    match found {
        Some(block) => first_up_to(holds, block.on, from, end),
        None => from,
    }
}

/// The least block on the net entries from one place to before another, and of what was found. It goes from the front, where the
/// first block is mostly the least, so that few other entries are looked at.
pub fn least_between(
    holds: &Holds,
    rule: Rule,
    own: Entry,
    from: usize,
    end: usize,
    found: Option<Blocked>,
) -> Option<Blocked>
    requires own { IsKnown holds.now.conflicts own }
    requires places { (from ≤ end) × (end ≤ length holds.now.net) }
    ensures { result ≡ lesser_of (least_on (do_conflict holds.now.conflicts) rule own (drop from (take end holds.now.net))) found }
{
    let c = holds.conflicts();
    let mut place = first_before(holds, found, from, end);
    let mut least = found;
    'places: while place < end {
        least = least_with(c, rule, own, holds.net_at(place), least);
        place = first_before(holds, least, place + 1, end);
    }
    least
}

/// The least block on any net entry, and of what was found.
pub fn least_in_net(
    holds: &Holds,
    rule: Rule,
    own: Entry,
    found: Option<Blocked>,
) -> Option<Blocked>
    requires own { IsKnown holds.now.conflicts own }
    ensures { result ≡ lesser_of (least_on (do_conflict holds.now.conflicts) rule own holds.now.net) found }
{
    if holds.is_clear_of_net(own.op) {
        return found;
    }
    least_between(holds, rule, own, 0, holds.net_len(), found)
}

/// The least block of an entry on the net entries before a place, and of what was found.
fn least_before(holds: &Holds, y: Entry, place: usize, found: Option<Blocked>) -> Option<Blocked>
    requires y { IsKnown holds.now.conflicts y }
    requires place { place ≤ length holds.now.net }
    ensures { result ≡ lesser_of (least_on (do_conflict holds.now.conflicts) A3 y (take place holds.now.net)) found }
{
    if holds.is_clear_of_net(y.op) {
        return found;
    }
    least_between(holds, Rule::A3, y, 0, place, found)
}

/// The least block of the entry at a place, if it is of the process, on what stands in front of it, and of what was found.
fn least_at(holds: &Holds, process: u32, place: usize, found: Option<Blocked>) -> Option<Blocked>
    requires { place < length holds.now.net }
    ensures { (d : Entry) → result ≡ lesser_of (least_front (do_conflict holds.now.conflicts) process
        (take place holds.now.net) (slice_index_or holds.now.net place d)) found }
{
    let y = holds.net_at(place);
    if y.process == process {
        least_before(holds, y, place, found)
    } else {
        found
    }
}

/// The least block of an entry of the process on what stands in front of it.
pub fn least_in_front(holds: &Holds, process: u32) -> Option<Blocked>
    ensures least { result ≡ least_fronts (do_conflict holds.now.conflicts) process [] holds.now.net }
    ensures tidy { AreTidy holds.now }
{
    let mut place = holds.net_len();
    let mut least = None;
    'places: while 0 < place {
        place -= 1;
        least = least_at(holds, process, place, least);
    }
    least
}

/// Whether the entry is of the step.
fn is_of_step(e: Entry, process: u32, step: u16) -> bool
    ensures { result ≡ is_of_step process step e }
{
    e.process == process && e.step == step
}

/// Where the net entry of a step stands.
pub fn place_of_step(holds: &Holds, process: u32, step: u16) -> Option<usize>
    ensures place { result ≡ place_of_step process step holds.now.net }
    ensures within { IfSome result (λ place. place < length holds.now.net) }
{
    let mut place = holds.net_len();
    let mut found = None;
    'places: while 0 < place {
        place -= 1;
        let e = holds.net_at(place);
        if is_of_step(e, process, step) {
            found = Some(place);
        }
    }
    found
}

// What the open processes have against a step.
ghost use Rattle.std.specs.Prelude.{◌≡◌, true};
ghost use Rattle.process_tree.specs.Conflicts.{do_conflict};
ghost use Rattle.machine_model.specs.declared.blocked.Rule.TheVariants.{A1};
ghost use Rattle.hold_tables.specs.Kept.{AreTidy, IsKnown};
ghost use Rattle.hold_tables.specs.Tables.{is_open, kept_of, reserved_of, running_of};
ghost use Rattle.admission.specs.Least.{least_on};
ghost use Rattle.admission.specs.Parts.{least_of_all, least_of_process, pending_of};

use crate::least::{least_with, lesser_of};
use hold_tables::{Blocked, Holds, Rule};
use process_tree::Entry;

/// For which step is asked: the next one, or one that it would make its process owe.
#[derive(Clone, Copy)]
pub enum Sought {
    Next,
    Owed,
}

/// The least block on what is under way in a process.
pub fn least_running(holds: &Holds, rule: Rule, own: Entry, process: u32) -> Option<Blocked>
    requires open { is_open holds.now process ≡ true }
    requires own { IsKnown holds.now.conflicts own }
    ensures { result ≡ least_on (do_conflict holds.now.conflicts) rule own (running_of (kept_of holds.now process)) }
{
    match holds.running(process) {
        Some(e) => least_with(holds.conflicts(), rule, own, e, None),
        None => None,
    }
}

/// The least block on what a process has reserved.
fn least_reserved(holds: &Holds, rule: Rule, own: Entry, process: u32) -> Option<Blocked>
    requires open { is_open holds.now process ≡ true }
    requires own { IsKnown holds.now.conflicts own }
    ensures { result ≡ least_on (do_conflict holds.now.conflicts) rule own (reserved_of (kept_of holds.now process)) }
{
    let c = holds.conflicts();
    let mut place = holds.reserved_len(process);
    let mut least = None;
    'places: while 0 < place {
        place -= 1;
        let (step, op, key) = holds.reserved_at(process, place);
        let other = Entry {
            process,
            step,
            op,
            key,
            undo: false,
        };
        least = least_with(c, rule, own, other, least);
    }
    least
}

/// The least block on what a process has to undo.
fn least_pending(holds: &Holds, own: Entry, process: u32) -> Option<Blocked>
    requires open { is_open holds.now process ≡ true }
    requires own { IsKnown holds.now.conflicts own }
    ensures { result ≡ least_on (do_conflict holds.now.conflicts) A1 own (pending_of holds.now.net (kept_of holds.now process)) }
{
    let c = holds.conflicts();
    let mut place = holds.net_len();
    let mut left = holds.pending(process);
    let mut least = None;
    'places: while 0 < place && 0 < left {
        place -= 1;
        let other = holds.net_at(place);
        if other.process == process {
            left -= 1;
            least = least_with(c, Rule::A1, own, other, least);
        }
    }
    least
}

/// The least block on what a process holds beside its net.
pub fn least_of_process(holds: &Holds, sought: Sought, own: Entry, process: u32) -> Option<Blocked>
    requires open { is_open holds.now process ≡ true }
    requires own { IsKnown holds.now.conflicts own }
    ensures { result ≡ least_of_process holds.now sought own (kept_of holds.now process) }
{
    match sought {
        Sought::Next => {
            let reserved = least_reserved(holds, Rule::A1, own, process);
            let held = lesser_of(reserved, least_pending(holds, own, process));
            lesser_of(least_running(holds, Rule::A0, own, process), held)
        }
        Sought::Owed => {
            let reserved = least_reserved(holds, Rule::A4, own, process);
            lesser_of(least_running(holds, Rule::A4, own, process), reserved)
        }
    }
}

/// The least block on what any process holds beside its net.
pub fn least_of_all(holds: &Holds, sought: Sought, own: Entry) -> Option<Blocked>
    requires own { IsKnown holds.now.conflicts own }
    ensures least { result ≡ least_of_all holds.now sought own }
    ensures tidy { AreTidy holds.now }
{
    let mut place = holds.open_len();
    let who = holds.who_may_hold(own.op);
    if who.is_empty() {
        return None;
    }
    let mut least = None;
    'places: while 0 < place {
        place -= 1;
        if who.has(place) {
            let process = holds.open_at(place);
            least = lesser_of(least_of_process(holds, sought, own, process), least);
        }
    }
    least
}

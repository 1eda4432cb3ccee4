// Whether a step waits for the process at a place, or the net entry at one: found at once where many wait for the same.
ghost use Rattle.std.specs.Prelude.{◌≡◌, ◌<◌, Some, length, true};
ghost use Rattle.process_tree.specs.Blocks.{outline};
ghost use Rattle.process_tree.specs.Conflicts.{do_conflict};
ghost use Rattle.schedule_model.specs.Blocking.{in_a_circle};
ghost use Rattle.machine_model.specs.Blocks.{blocks_of, by_rule, least_block};
ghost use Rattle.machine_model.specs.declared.blocked.Rule.TheVariants.{A2, A3};
ghost use Rattle.machine_model.specs.declared.replies.Todo.TheVariants.{Forward};
ghost use Rattle.machine_model.specs.declared.blocked.Admitted.TheVariants.{Blocked as BlockedBy};
ghost use Rattle.machine_model.specs.declared.blocked.Blocked.{Blocked};
ghost use Rattle.hold_tables.specs.Kept.{AreTidy, IsKnown};
ghost use Rattle.hold_tables.specs.Tables.{holdings_of, is_open, kept_of};
ghost use Rattle.admission.specs.Admission.{IsPlanFor, IsWithin, admission, against_todo};
ghost use Rattle.admission.specs.Least.{least_on};
ghost use Rattle.admission.specs.declared.processes.Sought.TheVariants.{Next};
ghost use Rattle.admission.specs.Parts.{least_of_all, least_of_process};

use crate::admission::is_reserved;
use crate::owed::entry_of;
use crate::processes::{Sought, least_of_process, least_running};
use hold_tables::{Holds, Rule};
use machine_model::Todo;
use process_tree::{Entry, Plan, StepKind};

/// Whether an open process has something beside its net against the step. What is under way is looked at first.
fn holds_against(holds: &Holds, own: Entry, process: u32) -> bool
    requires open { is_open holds.now process ≡ true }
    requires own { IsKnown holds.now.conflicts own }
    ensures { result ≡ true → (b : Blocked) × (least_of_process holds.now Next own (kept_of holds.now process) ≡ Some b) }
{
    if least_running(holds, Rule::A0, own, process).is_some() {
        return true;
    }
    least_of_process(holds, Sought::Next, own, process).is_some()
}

/// Whether the process at a place has something beside its net against the step.
fn is_held_at(holds: &Holds, own: Entry, place: usize) -> bool
    requires own { IsKnown holds.now.conflicts own }
    ensures held { result ≡ true → (b : Blocked) × (least_of_all holds.now Next own ≡ Some b) }
    ensures tidy { AreTidy holds.now }
{
    if place >= holds.open_len() {
        return false;
    }
    holds_against(holds, own, holds.open_at(place))
}

/// Whether what a process does next is a step that the process at a place, counted from 0 in the order in which they were opened,
/// has something against beside its net. Then it is blocked, and `admit` needn't look for the least block.
pub fn is_held_up(holds: &Holds, plan: &Plan, process: u32, todo: Todo, place: usize) -> bool
    requires plan { IsPlanFor holds.now plan.now }
    requires todo { IsWithin plan.now todo }
    ensures { result ≡ true → (b : Blocked) × (admission holds.now plan.now process todo ≡ BlockedBy b) }
{
    match todo {
        Todo::Forward(step) => is_held_at(holds, entry_of(plan, process, step), place),
        _ => false,
    }
}

/// Whether a step would close a circle with the net entry at a place.
fn closes_circle(holds: &Holds, own: Entry, place: usize) -> bool
    requires open { is_open holds.now own.process ≡ true }
    requires own { IsKnown holds.now.conflicts own }
    requires place { place < length holds.now.net }
    ensures circle { result ≡ true → (b : Blocked) × (least_block
        (by_rule A2 (in_a_circle (do_conflict holds.now.conflicts) (holdings_of holds.now) own)) ≡ Some b) }
    ensures tidy { AreTidy holds.now }
{
    let other = holds.net_at(place);
    holds.conflicts().between(own, other) && holds.reaches(own.process, other.process)
}

/// Whether a step conflicts with the net entry at a place.
fn is_met(holds: &Holds, own: Entry, place: usize) -> bool
    requires own { IsKnown holds.now.conflicts own }
    requires place { place < length holds.now.net }
    ensures met { result ≡ true → (b : Blocked) × (least_on (do_conflict holds.now.conflicts) A3 own holds.now.net ≡ Some b) }
    ensures tidy { AreTidy holds.now }
{
    let other = holds.net_at(place);
    holds.conflicts().between(own, other)
}

/// Whether a step that isn't reserved has the net entry at a place against it.
fn is_barred_at(holds: &Holds, plan: &Plan, process: u32, step: u16, place: usize) -> bool
    requires open { is_open holds.now process ≡ true }
    requires step { step < length (outline plan.now.tree).steps }
    requires plan { IsPlanFor holds.now plan.now }
    ensures { result ≡ true
        → (b : Blocked) × (least_block (blocks_of (against_todo holds.now plan.now process (Forward step))) ≡ Some b) }
{
    if place >= holds.net_len() || is_reserved(holds, process, step) {
        return false;
    }
    let own = entry_of(plan, process, step);
    match plan.tree.step(step).kind {
        StepKind::C | StepKind::Cr => closes_circle(holds, own, place),
        StepKind::P | StepKind::R => is_met(holds, own, place),
    }
}

/// Whether what an open process does next is a step that isn't reserved, and that the net entry at a place, counted from 0, stands
/// against: they close a circle, or the step would fix what rests on the entry. Then it is blocked.
pub fn is_barred(holds: &Holds, plan: &Plan, process: u32, todo: Todo, place: usize) -> bool
    requires open { is_open holds.now process ≡ true }
    requires plan { IsPlanFor holds.now plan.now }
    requires todo { IsWithin plan.now todo }
    ensures { result ≡ true → (b : Blocked) × (admission holds.now plan.now process todo ≡ BlockedBy b) }
{
    match todo {
        Todo::Forward(step) => is_barred_at(holds, plan, process, step, place),
        _ => false,
    }
}

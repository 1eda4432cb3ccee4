// Whether a piece may be handed out.
ghost use Rattle.std.specs.Prelude.{◌≡◌, ◌<◌, ◌++◌, length, true};
ghost use Rattle.process_tree.specs.Blocks.{outline};
ghost use Rattle.process_tree.specs.Conflicts.{do_conflict};
ghost use Rattle.process_tree.specs.Entries.{entry_of};
ghost use Rattle.schedule_model.specs.Blocking.{with_active, with_owed};
ghost use Rattle.schedule_model.specs.Histories.{is_in};
ghost use Rattle.machine_model.specs.Blocks.{blocks_of, by_rule, least_block};
ghost use Rattle.machine_model.specs.declared.blocked.Rule.TheVariants.{A3, A4};
ghost use Rattle.machine_model.specs.declared.replies.Todo.TheVariants.{Forward, Undo};
ghost use Rattle.process_tree.specs.declared.plan.Plan.{Plan};
ghost use Rattle.hold_tables.specs.Tables.{holdings_of, is_open};
ghost use Rattle.admission.specs.Admission.{IsPlanFor, IsWithin, admission, admitted, against_todo, owed_behind, reserved_steps};

use crate::circle::least_in_circle;
use crate::least::lesser_of;
use crate::net::{least_between, least_in_front, least_in_net, place_of_step};
use crate::owed::{entry_of, least_owed};
use crate::processes::{Sought, least_of_all};
use hold_tables::{Admitted, Blocked, Holds, Rule};
use machine_model::Todo;
use process_tree::{Plan, StepKind};

/// Whether a process has reserved this step.
pub fn is_reserved(holds: &Holds, process: u32, step: u16) -> bool
    requires open { is_open holds.now process ≡ true }
    ensures { result ≡ is_in step (reserved_steps holds.now process) }
{
    let mut place = holds.reserved_len(process);
    let mut found = false;
    'places: while 0 < place {
        place -= 1;
        found = step == holds.reserved_at(process, place).0 || found;
    }
    found
}

/// The least block of a step that would fix what its process has done.
fn least_committing(holds: &Holds, plan: &Plan, process: u32, step: u16) -> Option<Blocked>
    requires step { step < length (outline plan.now.tree).steps }
    requires plan { IsPlanFor holds.now plan.now }
    ensures { result ≡ least_block
        (by_rule A3 (with_active (do_conflict holds.now.conflicts) (holdings_of holds.now) (entry_of plan.now process step))
        ++ by_rule A4 (with_owed (do_conflict holds.now.conflicts) (holdings_of holds.now) (owed_behind plan.now process step))) }
{
    let own = entry_of(plan, process, step);
    let front = least_in_front(holds, process);
    let active = least_in_net(holds, Rule::A3, own, front);
    least_owed(holds, plan, process, step, active)
}

/// The least block of a step.
fn least_of_step(holds: &Holds, plan: &Plan, process: u32, step: u16) -> Option<Blocked>
    requires open { is_open holds.now process ≡ true }
    requires step { step < length (outline plan.now.tree).steps }
    requires plan { IsPlanFor holds.now plan.now }
    ensures { result ≡ least_block (blocks_of (against_todo holds.now plan.now process (Forward step))) }
{
    let own = entry_of(plan, process, step);
    let held = least_of_all(holds, Sought::Next, own);
    if is_reserved(holds, process, step) {
        return held;
    }
    match plan.tree.step(step).kind {
        StepKind::C | StepKind::Cr => lesser_of(held, least_in_circle(holds, own)),
        StepKind::P | StepKind::R => {
            lesser_of(held, least_committing(holds, plan, process, step))
        }
    }
}

/// The least block of the undo of a step.
fn least_of_undo(holds: &Holds, process: u32, step: u16) -> Option<Blocked>
    ensures { (plan : Plan) → result ≡ least_block (blocks_of (against_todo holds.now plan process (Undo step))) }
{
    let end = holds.net_len();
    match place_of_step(holds, process, step) {
        None => None,
        Some(place) => {
            let own = holds.net_at(place);
            least_between(holds, Rule::A5, own, place + 1, end, None)
        }
    }
}

/// Free where there is no block.
fn admitted(least: Option<Blocked>) -> Admitted
    ensures { result ≡ admitted least }
{
    match least {
        None => Admitted::Free,
        Some(block) => Admitted::Blocked(block),
    }
}

/// Whether what an open process does next may be handed out, or else the least block: by the other process, its step, the own step,
/// and the rule. `docs/ADMISSION.md` has the rules.
pub fn admit(holds: &Holds, plan: &Plan, process: u32, todo: Todo) -> Admitted
    requires open { is_open holds.now process ≡ true }
    requires plan { IsPlanFor holds.now plan.now }
    requires todo { IsWithin plan.now todo }
    ensures { result ≡ admission holds.now plan.now process todo }
{
    let least = match todo {
        Todo::Forward(step) => least_of_step(holds, plan, process, step),
        Todo::Undo(step) => least_of_undo(holds, process, step),
        Todo::End => least_in_front(holds, process),
        Todo::Exhausted(_) => unreachable!(),
    };
    admitted(least)
}

// What the effect of a piece makes of what is kept.
ghost use Rattle.std.specs.Prelude.{◌≡◌, ◌<◌, true, length, None};
ghost use Rattle.process_tree.specs.Blocks.{outline};
ghost use Rattle.process_tree.specs.Conflicts.{operations_in};
ghost use Rattle.process_tree.specs.Making.{tree_fault};
ghost use Rattle.process_tree.specs.Order.{Each};
ghost use Rattle.machine_model.specs.declared.kept.Work.TheVariants.{Forward};
ghost use Rattle.hold_tables.specs.Changes.{all_fixed, changed, with_reserved};
ghost use Rattle.hold_tables.specs.Tables.{is_open, kept_of};
ghost use Rattle.core_state.specs.Effects.{HoldsWork, event_told, step_effected, tables_effected};
ghost use Rattle.core_state.specs.OpenTables.{planned_behind};

use crate::owed::{PlannedSteps, add_owed};
use hold_tables::Holds;
use machine_model::Work;
use process_tree::{Plan, commits};
use schedule_model::Event;

/// The event that what a process has under way makes once it took effect; with nothing under way that is its end.
pub fn event_told(holds: &Holds, process: u32) -> Event
    requires { is_open holds.now process ≡ true }
    ensures { result ≡ event_told process (kept_of holds.now process).running }
{
    match holds.running(process) {
        None => Event::End(process),
        Some(e) => Event::Act(e),
    }
}

/// All that a process has done is fixed, and what follows a step is reserved.
fn fix_and_reserve(holds: &mut Holds, plan: &Plan, process: u32, step: u16)
    requires held { is_open holds.old process ≡ true }
    requires idle { (kept_of holds.old process).running ≡ None }
    requires steps { (kept_of holds.old process).steps ≡ length (outline plan.now.tree).steps }
    requires step { step < length (outline plan.now.tree).steps }
    requires good { tree_fault plan.now.tree ≡ None }
    requires operations { length plan.now.ops ≡ length (outline plan.now.tree).steps }
    requires known { Each (λ op. op < operations_in holds.old.conflicts) plan.now.ops }
    ensures { holds.new ≡ changed (with_reserved (planned_behind plan.now step)) process (all_fixed process holds.old) }
{
    let mut planned = PlannedSteps::new();
    add_owed(&mut planned, plan, step);
    holds.fix(process);
    holds.reserve(process, planned.as_slice());
}

/// A step took effect.
fn effect_step(holds: &mut Holds, plan: &Plan, process: u32, step: u16)
    requires { HoldsWork plan.now process step Forward holds.old }
    ensures { holds.new ≡ step_effected plan.now process step holds.old }
{
    holds.take_effect(process);
    if commits(&plan.tree, step) {
        fix_and_reserve(holds, plan, process, step);
    }
}

/// Work on a step of a process took effect, and `pending` entries of the process are to be undone then. The step of an end is 0.
pub fn effect(holds: &mut Holds, plan: &Plan, process: u32, step: u16, work: Work, pending: u16)
    requires { HoldsWork plan.now process step work holds.old }
    ensures { holds.new ≡ tables_effected plan.now process step work pending holds.old }
{
    match work {
        Work::Forward => {
            effect_step(holds, plan, process, step);
            holds.pend(process, pending);
        }
        Work::Undo => {
            holds.take_effect(process);
            holds.pend(process, pending);
        }
        Work::End => holds.drop_process(process),
    }
}

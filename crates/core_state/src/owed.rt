// The steps that a commit point makes its process owe.
ghost use Rattle.std.specs.Prelude.{◌≡◌, ◌<◌, ◌≤◌, ◌+◌, ◌++◌, length};
ghost use Rattle.process_tree.specs.Blocks.{outline};
ghost use Rattle.core_state.specs.OpenTables.{planned_behind, planned_step};

use arrayvec::ArrayVec;
use process_tree::{MOST_STEPS, Place, Plan, op_of};
use schedule_rules::step_key;

/// Steps, each with its operation and its key.
pub type PlannedSteps = ArrayVec<(u16, u16, u32), MOST_STEPS>;

/// A step of a plan with its operation and its key.
pub fn planned_step(plan: &Plan, step: u16) -> (u16, u16, u32)
    ensures { result ≡ planned_step plan.now step }
{
    let op = op_of(plan.ops.as_slice(), step);
    (step, op, step_key(&plan.tree, step))
}

/// Adds what a step will make its process owe.
pub fn add_owed(planned: &mut PlannedSteps, plan: &Plan, step: u16)
    requires step { step < length (outline plan.now.tree).steps }
    requires few { length planned.old.items + length (planned_behind plan.now step) ≤ 256 }
    ensures { planned.new.items ≡ planned.old.items ++ planned_behind plan.now step }
{
    let mut place = plan.tree.last_after(step);
    'owed: while let Place::Step(owed) = place {
        planned.push(planned_step(plan, owed));
        place = plan.tree.last_after(owed);
    }
}

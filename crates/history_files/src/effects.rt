// The effects of a history.
ghost use Rattle.std.specs.Prelude.{◌≡◌};
ghost use Rattle.history_files.specs.Effects.{verb_of, subsystem_of, key_of, amount_of, effect_of};

use commute_table::{Op, Verb};
use process_tree::{Entry, Plan};
use resource_box::Call;
use subsystem_store::Effect;

fn verb_of(ops: &[Op], op: u16) -> Verb
    ensures { result ≡ verb_of ops.now op }
{
    match ops.get(usize::from(op)) {
        Some(found) => found.verb,
        None => Verb::Look,
    }
}

/// The subsystem that an operation is on.
pub fn subsystem_of(ops: &[Op], op: u16) -> u8
    ensures { result ≡ subsystem_of ops.now op }
{
    match ops.get(usize::from(op)) {
        Some(found) => found.subsystem,
        None => 0,
    }
}

// The key and the amount of a step.
fn place_of(plans: &[Plan], process: u32, step: u16) -> (u32, i64)
    ensures { (result.0 ≡ key_of plans.now process step) × (result.1 ≡ amount_of plans.now process step) }
{
    let Some(plan) = plans.get((process as usize).saturating_sub(1)) else {
        return (0, 0);
    };
    if step >= plan.tree.count() {
        return (0, 0);
    }
    let found = plan.tree.step(step);
    (found.key, found.amount)
}

/// The effect of an entry, before which so many others stand.
pub fn effect_of(ops: &[Op], plans: &[Plan], number: u32, entry: &Entry) -> Effect
    ensures { result ≡ effect_of ops.now plans.now number entry.now }
{
    let (key, amount) = place_of(plans, entry.process, entry.step);
    Effect {
        number,
        process: entry.process,
        step: entry.step,
        undo: entry.undo,
        call: Call {
            verb: verb_of(ops, entry.op),
            key,
            amount,
        },
    }
}

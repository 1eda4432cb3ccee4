// The effects of a history on a subsystem.
ghost use Rattle.std.specs.Prelude.{◌≡◌, ◌<◌, ◌^◌, length, IfOk};
ghost use Rattle.schedule_model.specs.Histories.{acts};
ghost use Rattle.history_files.specs.Effects.{effects_from};
ghost use Rattle.history_files.specs.Sound.{is_among};

use crate::comparing::same_effect;
use commute_table::Op;
use history_files::{effect_of, subsystem_of};
use process_tree::Plan;
use schedule_rules::Event;
use std::alloc::{AllocError, Global};
use subsystem_store::Effect;

/// The effects of some events on a subsystem, in order.
pub fn effects_on(
    alloc: Global,
    ops: &[Op],
    plans: &[Plan],
    events: &[Event],
    q: u8,
) -> Result<Vec<Effect>, AllocError>
    requires few { length (acts events.now) < 2 ^ 32 }
    ensures { IfOk result (λ found. found.items ≡ effects_from ops.now plans.now q 0 (acts events.now)) }
{
    let mut found = Vec::new(alloc);
    let mut number = 0;
    let mut rest = events;
    while let [event, after @ ..] = rest {
        if let Event::Act(entry) = event {
            if subsystem_of(ops, entry.op) == q {
                found.push(effect_of(ops, plans, number, entry))?;
            }
            number += 1;
        }
        rest = after;
    }
    Ok(found)
}

/// Whether an effect is one of those of some events on a subsystem. It takes no memory.
pub fn has_effect(ops: &[Op], plans: &[Plan], events: &[Event], q: u8, effect: &Effect) -> bool
    requires few { length (acts events.now) < 2 ^ 32 }
    ensures { result ≡ is_among effect.now (effects_from ops.now plans.now q 0 (acts events.now)) }
{
    let mut number = 0;
    let mut rest = events;
    while let [event, after @ ..] = rest {
        if let Event::Act(entry) = event {
            if subsystem_of(ops, entry.op) == q
                && same_effect(effect, &effect_of(ops, plans, number, entry))
            {
                return true;
            }
            number += 1;
        }
        rest = after;
    }
    false
}

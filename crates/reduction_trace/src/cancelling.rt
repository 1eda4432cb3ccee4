// The cancel phase.
ghost use Rattle.std.specs.Prelude.{◌≡◌, ◌<◌, ◌≤◌, length, Some, OnOk};
ghost use Rattle.schedule_model.specs.PrintedTrace.{first_undo};
ghost use Rattle.reduction_trace.specs.Phases.{cancel_phase_behind};

use crate::places::{add_move, first_undo, place_taken_back, remove};
use process_tree::Entry;
use schedule_rules::TraceStep;
use std::alloc::AllocError;

/// Cancels each undo with its step, the first undo first. What is left has no undo.
pub fn cancel_undos(left: &mut Vec<Entry>, steps: &mut Vec<TraceStep>) -> Result<(), AllocError>
    requires few { length left.old.items < 4294967296 }
    ensures phase { OnOk result
        (cancel_phase_behind steps.old.items left.old.items ≡ record { steps = steps.new.items; list = left.new.items }) }
    ensures few { OnOk result (length left.new.items ≤ length left.old.items) }
{
    while let Some(undo) = first_undo(left) {
        cancel(left, undo, steps)?;
    }
    Ok(())
}

/// Cancels the undo at a place with its step.
fn cancel(left: &mut Vec<Entry>, undo: usize, steps: &mut Vec<TraceStep>) -> Result<(), AllocError>
    requires few { length left.old.items < 4294967296 }
    requires first { first_undo left.old.items ≡ Some undo }
    requires within { (0 < undo) × (undo ≤ length left.old.items) }
    ensures phase { OnOk result
        (cancel_phase_behind steps.old.items left.old.items ≡ cancel_phase_behind steps.new.items left.new.items) }
    ensures fewer { OnOk result (length left.new.items < length left.old.items) }
{
    let step = place_taken_back(left, undo);
    add_move(steps, step, undo - 1)?;
    steps.push(TraceStep::Cancel(undo as u32 - 1))?;
    remove(left, undo);
    remove(left, step);
    Ok(())
}

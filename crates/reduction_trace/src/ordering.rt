// The serial phase.
ghost use Rattle.std.specs.Prelude.{◌≡◌, ◌<◌, ◌≤◌, ◌+◌, [], ◌∷◌, List, ℕ, length, IfOk, OnOk};
ghost use Rattle.schedule_model.specs.PrintedTrace.{first_to_end};
ghost use Rattle.reduction_trace.specs.Phases.{serial_phase_behind};

use crate::places::{add_move, first_of, remove};
use process_tree::Entry;
use schedule_rules::TraceStep;
use std::alloc::{AllocError, Global};

/// Moves the entries that are left to their places: those of each of these processes, one process after another, and then
/// all others. Answers the list that is made.
pub fn in_order(
    alloc: Global,
    order: &[u32],
    left: &mut Vec<Entry>,
    steps: &mut Vec<TraceStep>,
) -> Result<Vec<Entry>, AllocError>
    requires few { length left.old.items < 4294967296 }
    ensures phase { IfOk result
        (λ serial. serial_phase_behind order.now steps.old.items [] left.old.items
        ≡ record { steps = steps.new.items; list = serial.items }) }
{
    let mut serial = Vec::new(alloc);
    let mut rest = order;
    while let [process, after @ ..] = rest {
        move_process(*process, left, steps, &mut serial)?;
        rest = after;
    }
    serial.extend_from_slice(left)?;
    Ok(serial)
}

/// Moves the entries of a process to the next places.
fn move_process(
    process: u32,
    left: &mut Vec<Entry>,
    steps: &mut Vec<TraceStep>,
    serial: &mut Vec<Entry>,
) -> Result<(), AllocError>
    requires few { length serial.old.items + length left.old.items < 4294967296 }
    ensures phase { OnOk result
        ((order : List ℕ) → serial_phase_behind (process ∷ order) steps.old.items serial.old.items left.old.items
        ≡ serial_phase_behind order steps.new.items serial.new.items left.new.items) }
    ensures count { OnOk result
        (length serial.new.items + length left.new.items ≡ length serial.old.items + length left.old.items) }
{
    while let Some(place) = first_of(left, process) {
        move_entry(place, left, steps, serial)?;
    }
    Ok(())
}

/// Moves the entry at a place of those that are left to the next place.
fn move_entry(
    place: usize,
    left: &mut Vec<Entry>,
    steps: &mut Vec<TraceStep>,
    serial: &mut Vec<Entry>,
) -> Result<(), AllocError>
    requires few { length serial.old.items + length left.old.items < 4294967296 }
    requires within { (0 < place) × (place ≤ length left.old.items) }
    ensures phase { OnOk result
        ((order : List ℕ) → first_to_end order left.old.items ≡ place
        → serial_phase_behind order steps.old.items serial.old.items left.old.items
        ≡ serial_phase_behind order steps.new.items serial.new.items left.new.items) }
    ensures count { OnOk result
        (length serial.new.items + length left.new.items ≡ length serial.old.items + length left.old.items) }
    ensures fewer { OnOk result (length left.new.items < length left.old.items) }
{
    add_move(steps, serial.len() + place, serial.len() + 1)?;
    serial.push(left[place - 1])?;
    remove(left, place);
    Ok(())
}

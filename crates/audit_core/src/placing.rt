// Entries with their places.
ghost use Rattle.std.specs.Prelude.{◌≡◌, ◌++◌, ◌∷◌, ◌+◌, [], length, IfOk, OnOk};
ghost use Rattle.schedule_model.specs.Histories.{acts};
ghost use Rattle.dependence_model.specs.Dependence.{placed, placed_from};

use dependence_model::Placed;
use process_tree::Entry;
use schedule_model::Event;
use std::alloc::{AllocError, Global};

/// What took effect in two histories, one after the other, with its places. A place beyond 32 bits is told as want of memory.
pub fn placed(alloc: Global, first: &[Event], then: &[Event]) -> Result<Vec<Placed>, AllocError>
    ensures { IfOk result (λ list. list.items ≡ placed (acts (first.now ++ then.now))) }
{
    let mut list = Vec::new(alloc);
    add_acts(first, &mut list)?;
    add_acts(then, &mut list)?;
    Ok(list)
}

// Adds what took effect.
fn add_acts(events: &[Event], list: &mut Vec<Placed>) -> Result<(), AllocError>
    ensures { OnOk result (list.new.items ≡ list.old.items ++ placed_from (length list.old.items + 1) (acts events.now)) }
{
    let mut rest = events;
    while let [event, after @ ..] = rest {
        if let Event::Act(entry) = event {
            add_entry(*entry, list)?;
        }
        rest = after;
    }
    Ok(())
}

// Adds an entry at the next place.
fn add_entry(entry: Entry, list: &mut Vec<Placed>) -> Result<(), AllocError>
    ensures { OnOk result
        (list.new.items ≡ list.old.items ++ record { place = length list.old.items + 1; entry = entry } ∷ []) }
{
    let Ok(place) = u32::try_from(list.len() + 1) else {
        return Err(AllocError);
    };
    list.push(Placed { place, entry })?;
    Ok(())
}

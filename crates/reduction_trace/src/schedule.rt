// The schedule of a completed history, and the order of its ends.
ghost use Rattle.std.specs.Prelude.{◌≡◌, ◌++◌, IfOk, OnOk};
ghost use Rattle.schedule_model.specs.Histories.{acts, ends};

use process_tree::Entry;
use schedule_rules::Event;
use std::alloc::{AllocError, Global};

/// What took effect in two histories, one after the other.
pub fn schedule(alloc: Global, first: &[Event], then: &[Event]) -> Result<Vec<Entry>, AllocError>
    ensures { IfOk result (λ list. list.items ≡ acts (first.now ++ then.now)) }
{
    let mut list = Vec::new(alloc);
    add_acts(first, &mut list)?;
    add_acts(then, &mut list)?;
    Ok(list)
}

/// Adds what took effect.
fn add_acts(events: &[Event], list: &mut Vec<Entry>) -> Result<(), AllocError>
    ensures { OnOk result (list.new.items ≡ list.old.items ++ acts events.now) }
{
    let mut rest = events;
    while let [event, after @ ..] = rest {
        if let Event::Act(entry) = event {
            list.push(*entry)?;
        }
        rest = after;
    }
    Ok(())
}

/// Who ended in two histories, one after the other.
pub fn order_of_ends(alloc: Global, first: &[Event], then: &[Event]) -> Result<Vec<u32>, AllocError>
    ensures { IfOk result (λ order. order.items ≡ ends (first.now ++ then.now)) }
{
    let mut order = Vec::new(alloc);
    add_ends(first, &mut order)?;
    add_ends(then, &mut order)?;
    Ok(order)
}

/// Adds who ended.
fn add_ends(events: &[Event], order: &mut Vec<u32>) -> Result<(), AllocError>
    ensures { OnOk result (order.new.items ≡ order.old.items ++ ends events.now) }
{
    let mut rest = events;
    while let [event, after @ ..] = rest {
        if let Event::End(process) = event {
            order.push(*process)?;
        }
        rest = after;
    }
    Ok(())
}

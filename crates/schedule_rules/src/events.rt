// Who is active, and which entries stand.
ghost use Rattle.std.specs.Prelude.{◌≡◌, IfOk, OnOk};
ghost use Rattle.schedule_model.specs.Histories.{is_active, is_in, starts, ends, net, same_step};
ghost use Rattle.schedule_rules.specs.Standing.{stands_after};

use process_tree::Entry;
use schedule_model::{Event, History};
use std::alloc::{AllocError, Global};

/// Whether a process has started and not ended.
pub fn active(h: &History, i: u32) -> bool
    ensures { result ≡ is_active h.now.events i }
{
    let events = h.events.as_slice();
    has_started(events, i) && !has_ended(events, i)
}

fn has_started(events: &[Event], i: u32) -> bool
    ensures { result ≡ is_in i (starts events.now) }
{
    let mut rest = events;
    while let [event, after @ ..] = rest {
        if let Event::Start(k) = event
            && *k == i
        {
            return true;
        }
        rest = after;
    }
    false
}

fn has_ended(events: &[Event], i: u32) -> bool
    ensures { result ≡ is_in i (ends events.now) }
{
    let mut rest = events;
    while let [event, after @ ..] = rest {
        if let Event::End(k) = event
            && *k == i
        {
            return true;
        }
        rest = after;
    }
    false
}

/// The steps that took effect and whose undo doesn't follow, in joint order.
pub fn net(alloc: Global, h: &History) -> Result<Vec<Entry>, AllocError>
    ensures { IfOk result (λ entries. entries.items ≡ net h.now.events) }
{
    let mut entries = Vec::new(alloc);
    let mut rest = h.events.as_slice();
    while let [event, after @ ..] = rest {
        if let Event::Act(entry) = event {
            take_effect(&mut entries, *entry)?;
        }
        rest = after;
    }
    Ok(entries)
}

/// Whether two entries are of one step of one process.
pub fn is_same_step(a: &Entry, b: &Entry) -> bool
    ensures { result ≡ same_step a.now b.now }
{
    a.process == b.process && a.step == b.step
}

/// A step comes to those that stand, and an undo takes its step away.
pub fn take_effect(entries: &mut Vec<Entry>, entry: Entry) -> Result<(), AllocError>
    ensures { OnOk result (entries.new.items ≡ stands_after entries.old.items entry) }
{
    if entry.undo {
        entries.retain(|other| !is_same_step(other, &entry));
    } else {
        entries.push(entry)?;
    }
    Ok(())
}

// What became of a step.
ghost use Rattle.std.specs.Prelude.{◌≡◌, ◌++◌, IfOk, IfSome, IfNone, None, OnOk, Some};
ghost use Rattle.process_text.specs.Canonical.{line_of};
ghost use Rattle.driver_answers.specs.Happenings.{happening, made_by, step_named, unless_later};
ghost use Rattle.driver_answers.specs.Serving.{happened, happened_of, plan_at};

use driver_requests::{Happening, put_happening, put_no_step};
use process_text::is_word;
use process_tree::{Name, Plan, Tree};
use schedule_model::{Event, History};
use session_text::put_number;
use std::alloc::{AllocError, Global};

// What an event at this place makes of a step.
fn made_by(i: u32, step: u16, place: u32, event: &Event) -> Happening
    ensures { result ≡ made_by i step place event.now }
{
    match event {
        Event::Act(entry) if entry.process == i && entry.step == step => {
            if entry.undo {
                Happening::Undone(place)
            } else {
                Happening::Done(place)
            }
        }
        _ => Happening::NotDone,
    }
}

// What comes later decides.
fn unless_later(earlier: Happening, later: Happening) -> Happening
    ensures { result ≡ unless_later earlier later }
{
    match later {
        Happening::NotDone => earlier,
        Happening::Done(_) | Happening::Undone(_) => later,
    }
}

// What became of a step. Events of which 32 bits don't hold the number are told as want of memory.
fn happening(i: u32, step: u16, events: &[Event]) -> Result<Happening, AllocError>
    ensures { IfOk result (λ found. found ≡ happening i step events.now) }
{
    let Ok(_) = u32::try_from(events.len()) else {
        return Err(AllocError);
    };
    let mut found = Happening::NotDone;
    let mut place = 0;
    let mut rest = events;
    while let [event, after @ ..] = rest {
        place += 1;
        found = unless_later(found, made_by(i, step, place, event));
        rest = after;
    }
    Ok(found)
}

// The step of this name.
fn step_named(name: &[u8], plan: &Plan) -> Option<u16>
    ensures { result ≡ step_named name.now plan.now }
{
    let tree: &Tree = &plan.tree;
    let mut step = 0;
    while step < tree.count() {
        if is_word(tree.step(step).name.bytes(), name) {
            return Some(step);
        }
        step += 1;
    }
    None
}

// The plan of process i.
fn plan_at(plans: &[Plan], i: u32) -> Option<&Plan>
    ensures some { IfSome result (λ plan. plan_at plans.now i ≡ Some plan.now) }
    ensures none { IfNone result (plan_at plans.now i ≡ None) }
{
    if i == 0 {
        return None;
    }
    plans.get(i as usize - 1)
}

// Writes what became of the step of this name of a process of this plan.
fn put_happened(
    alloc: Global,
    h: &History,
    i: u32,
    plan: &Plan,
    name: &[u8],
    out: &mut Vec<u8>,
) -> Result<(), AllocError>
    ensures { OnOk result (out.new.items ≡ out.old.items ++ line_of (happened_of h.now i name.now (Some plan.now))) }
{
    match step_named(name, plan) {
        Some(step) => {
            let found = happening(i, step, h.events.as_slice())?;
            put_happening(alloc, h.plans.as_slice(), i, step, found, out)
        }
        None => put_no_step(name, out),
    }
}

/// What a driver reads for `done I.STEP`.
pub fn happened_text(alloc: Global, h: &History, i: u32, name: &Name) -> Result<Vec<u8>, AllocError>
    ensures { IfOk result (λ text. text.items ≡ line_of (happened h.now i name.now)) }
{
    let mut text = Vec::new(alloc);
    match plan_at(h.plans.as_slice(), i) {
        Some(plan) => put_happened(alloc, h, i, plan, name.bytes(), &mut text)?,
        None => put_number(alloc, b"unknown", i, &mut text)?,
    }
    Ok(text)
}

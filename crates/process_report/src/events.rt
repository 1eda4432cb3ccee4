// Lines of events and entries.
ghost use Rattle.std.specs.Prelude.{◌≡◌, ◌++◌, ◌∷◌, [], map, codes, decimal, if◌then◌else◌, OnOk};
ghost use Rattle.process_text.specs.Canonical.{line_of};
ghost use Rattle.process_report.specs.Names.{process_name};
ghost use Rattle.process_report.specs.Lines.{text_of, entry_line, event_line};

use crate::blocks::place_word;
use crate::lines::{put_four, put_line, put_three};
use crate::names::{op_name, process_name};
use commute_table::Op;
use process_tree::{Entry, Plan};
use schedule_model::Event;
use std::alloc::{AllocError, Global};
use trace_verify::Form;

/// The word of an act in a report.
pub fn act_word(undo: bool) -> &'static [u8]
    ensures { result.now ≡ (if undo then codes "undo" else codes "do") }
{
    if undo { b"undo" } else { b"do" }
}

// Writes the line of an entry.
fn put_entry(
    alloc: Global,
    form: Form,
    plans: &[Plan],
    ops: &[Op],
    entry: &Entry,
    out: &mut Vec<u8>,
) -> Result<(), AllocError>
    ensures { OnOk result (out.new.items ≡ out.old.items ++ line_of (entry_line form plans.now ops.now entry.now)) }
{
    let place = place_word(alloc, plans, entry.process, entry.step)?;
    let op = op_name(ops, entry.op);
    match form {
        Form::Plain => put_three(out, act_word(entry.undo), &place, op),
        Form::Keyed => {
            let key = entry.key;
            let word = format!(in alloc; "{key}")?;
            put_four(out, act_word(entry.undo), &place, op, word.as_bytes())
        }
    }
}

// Writes the line of a start.
fn put_start(alloc: Global, plans: &[Plan], i: u32, out: &mut Vec<u8>) -> Result<(), AllocError>
    ensures { OnOk result (out.new.items ≡ out.old.items ++ line_of (codes "start" ∷ decimal i ∷ process_name plans.now i ∷ [])) }
{
    let number = format!(in alloc; "{i}")?;
    put_line(out, &[b"start", number.as_bytes(), process_name(plans, i)])
}

// Writes the line of an end.
fn put_end(alloc: Global, i: u32, out: &mut Vec<u8>) -> Result<(), AllocError>
    ensures { OnOk result (out.new.items ≡ out.old.items ++ line_of (codes "end" ∷ decimal i ∷ [])) }
{
    let number = format!(in alloc; "{i}")?;
    put_line(out, &[b"end", number.as_bytes()])
}

// Writes the line of an event.
fn put_event(
    alloc: Global,
    form: Form,
    plans: &[Plan],
    ops: &[Op],
    event: &Event,
    out: &mut Vec<u8>,
) -> Result<(), AllocError>
    ensures { OnOk result (out.new.items ≡ out.old.items ++ line_of (event_line form plans.now ops.now event.now)) }
{
    match event {
        Event::Start(i) => put_start(alloc, plans, *i, out),
        Event::Act(entry) => put_entry(alloc, form, plans, ops, entry, out),
        Event::End(i) => put_end(alloc, *i, out),
    }
}

/// Writes the lines of events.
pub fn put_events(
    alloc: Global,
    form: Form,
    plans: &[Plan],
    ops: &[Op],
    events: &[Event],
    out: &mut Vec<u8>,
) -> Result<(), AllocError>
    ensures { OnOk result (out.new.items ≡ out.old.items ++ text_of (map (event_line form plans.now ops.now) events.now)) }
{
    let mut rest = events;
    while let [event, after @ ..] = rest {
        put_event(alloc, form, plans, ops, event, out)?;
        rest = after;
    }
    Ok(())
}

/// Writes the lines of entries.
pub fn put_entries(
    alloc: Global,
    form: Form,
    plans: &[Plan],
    ops: &[Op],
    entries: &[Entry],
    out: &mut Vec<u8>,
) -> Result<(), AllocError>
    ensures { OnOk result (out.new.items ≡ out.old.items ++ text_of (map (entry_line form plans.now ops.now) entries.now)) }
{
    let mut rest = entries;
    while let [entry, after @ ..] = rest {
        put_entry(alloc, form, plans, ops, entry, out)?;
        rest = after;
    }
    Ok(())
}

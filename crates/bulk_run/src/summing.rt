// What a run came to, in numbers.
ghost use Rattle.std.specs.Prelude.{◌≡◌, ◌++◌, IfOk, OnOk, IsTrue, count_by};
ghost use Rattle.process_tree.specs.Conflicts.{operations_in, do_conflict};
ghost use Rattle.schedule_model.specs.Course.{courses_of};
ghost use Rattle.schedule_model.specs.Laws.{IsPlanned};
ghost use Rattle.schedule_model.specs.Legal.{is_legal};
ghost use Rattle.bulk_run.specs.Summary.{event_numbers, is_cancel, is_end, is_forward, is_move, is_start, is_undo, number_text};
ghost use Rattle.bulk_run.specs.Summary.{summary_line, summary_of, trace_numbers};

use process_tree::Conflicts;
use reduction_trace::trace;
use schedule_model::{Event, History, TraceStep};
use std::alloc::{AllocError, Global};

/// What a history has of each kind of event, and its printed trace of each kind of step.
#[derive(Clone, Copy, Debug, PartialEq, Eq, Drop)]
pub struct Summary {
    /// Processes that started.
    pub processes: usize,
    /// Steps that took effect.
    pub acts: usize,
    /// Undos that did.
    pub undos: usize,
    /// Processes that ended.
    pub ends: usize,
    pub moves: usize,
    pub cancels: usize,
}

fn is_start(event: &Event) -> bool
    ensures { result ≡ is_start event.now }
{
    matches!(event, Event::Start(_))
}

// How many processes started.
fn starts(events: &[Event]) -> usize
    ensures { result ≡ count_by is_start events.now }
{
    events.iter().filter(|event| is_start(event)).count()
}

fn is_forward(event: &Event) -> bool
    ensures { result ≡ is_forward event.now }
{
    matches!(event, Event::Act(entry) if !entry.undo)
}

// How many steps took effect.
fn acts(events: &[Event]) -> usize
    ensures { result ≡ count_by is_forward events.now }
{
    events.iter().filter(|event| is_forward(event)).count()
}

fn is_undo(event: &Event) -> bool
    ensures { result ≡ is_undo event.now }
{
    matches!(event, Event::Act(entry) if entry.undo)
}

// How many undos did.
fn undos(events: &[Event]) -> usize
    ensures { result ≡ count_by is_undo events.now }
{
    events.iter().filter(|event| is_undo(event)).count()
}

fn is_end(event: &Event) -> bool
    ensures { result ≡ is_end event.now }
{
    matches!(event, Event::End(_))
}

// How many processes ended.
fn ends(events: &[Event]) -> usize
    ensures { result ≡ count_by is_end events.now }
{
    events.iter().filter(|event| is_end(event)).count()
}

fn is_move(step: &TraceStep) -> bool
    ensures { result ≡ is_move step.now }
{
    matches!(step, TraceStep::Move(_, _))
}

// How many steps of a trace are moves.
fn moves(steps: &[TraceStep]) -> usize
    ensures { result ≡ count_by is_move steps.now }
{
    steps.iter().filter(|step| is_move(step)).count()
}

fn is_cancel(step: &TraceStep) -> bool
    ensures { result ≡ is_cancel step.now }
{
    matches!(step, TraceStep::Cancel(_))
}

// How many are cancels.
fn cancels(steps: &[TraceStep]) -> usize
    ensures { result ≡ count_by is_cancel steps.now }
{
    steps.iter().filter(|step| is_cancel(step)).count()
}

/// What a legal history comes to, over the table of its conflicts. The trace takes memory.
pub fn summed_up(alloc: Global, h: &History, c: &Conflicts) -> Result<Summary, AllocError>
    requires planned { IsPlanned (operations_in c.now) h.now.plans h.now.events }
    requires legal { IsTrue (is_legal (do_conflict c.now) (courses_of h.now.plans) h.now.events) }
    ensures { IfOk result (λ s. s ≡ summary_of h.now) }
{
    let reduction = trace(alloc, h, c)?;
    let events = h.events.as_slice();
    let steps = reduction.steps.as_slice();
    Ok(Summary {
        processes: starts(events),
        acts: acts(events),
        undos: undos(events),
        ends: ends(events),
        moves: moves(steps),
        cancels: cancels(steps),
    })
}

// Writes words and a number.
fn put_number(
    alloc: Global,
    words: &str,
    number: usize,
    out: &mut Vec<u8>,
) -> Result<(), AllocError>
    ensures { OnOk result (out.new.items ≡ out.old.items ++ number_text words.now number) }
{
    let text = format!(in alloc; "{words}{number}")?;
    out.extend_from_slice(text.as_bytes())
}

// Writes the numbers of events.
#[tactic(auto, unfolding(crate::specs::Summary::event_numbers))]
fn put_event_numbers(alloc: Global, summary: Summary, out: &mut Vec<u8>) -> Result<(), AllocError>
    ensures { OnOk result (out.new.items ≡ out.old.items ++ event_numbers summary) }
{
    put_number(alloc, "processes ", summary.processes, out)?;
    put_number(alloc, " acts ", summary.acts, out)?;
    put_number(alloc, " undos ", summary.undos, out)?;
    put_number(alloc, " ends ", summary.ends, out)
}

// Writes the numbers of a trace, and the end of the line.
#[tactic(auto, unfolding(crate::specs::Summary::trace_numbers))]
fn put_trace_numbers(alloc: Global, summary: Summary, out: &mut Vec<u8>) -> Result<(), AllocError>
    ensures { OnOk result (out.new.items ≡ out.old.items ++ trace_numbers summary) }
{
    put_number(alloc, " moves ", summary.moves, out)?;
    put_number(alloc, " cancels ", summary.cancels, out)?;
    out.extend_from_slice(b"\n")
}

/// The line of a summary.
pub fn summary_line(alloc: Global, summary: Summary) -> Result<Vec<u8>, AllocError>
    ensures { IfOk result (λ line. line.items ≡ summary_line summary) }
{
    let mut line = Vec::new(alloc);
    put_event_numbers(alloc, summary, &mut line)?;
    put_trace_numbers(alloc, summary, &mut line)?;
    Ok(line)
}

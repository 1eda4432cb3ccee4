// Logs, line by line.
ghost use Rattle.std.specs.Prelude.{◌≡◌, IfOk};
ghost use Rattle.std.specs.Option.{option_map};
ghost use Rattle.audit_text.specs.Logs.{act_at, act_of, after_line, named_act, nothing, placed_act, plan_named, plans_in};
ghost use Rattle.audit_text.specs.Logs.{process_of, started_at, told_by, with_act, with_end, with_start, IsTaken};

use crate::finding::{plan_at, plan_named, step_named};
use process_text::is_word;
use process_tree::{Entry, Plan};
use schedule_model::Event;
use schedule_rules::entry_of;
use std::alloc::{AllocError, Global};
use std::marker::Model;
use trace_verify::{cut, number_of};

/// What a log tells.
#[derive(Drop)]
pub struct Log<'a> {
    /// The plan of each process that started, in order.
    pub started: Vec<&'a Plan>,
    pub events: Vec<Event>,
}

impl<'a> Model for Log<'a> {
    ghost use Rattle.audit_text.specs.Logs.{Log as Told, plans_in};

    ghost Value = { Told };

    ghost use Rattle.process_tree.specs.contracts.block.Block as e;
    ghost use Rattle.std.specs.Coded.{codes};

    ghost coded = { Prim.hlevel (codes, e.the_row.coded) };

    ghost view = { λ l. record { started = plans_in l.started.items; events = l.events.items } };
}

// A step of process i takes effect, or its undo does.
fn act_of(plan: &Plan, i: u32, step: u16, undo: bool) -> Entry
    ensures { result ≡ act_of undo plan.now i step }
{
    let entry = entry_of(plan, i, step);
    Entry { undo, ..entry }
}

// The same of the step of this name.
fn named_act(plan: &Plan, i: u32, name: &[u8], undo: bool) -> Option<Entry>
    ensures { result ≡ named_act undo i name.now plan.now }
{
    match step_named(name, plan) {
        Some(step) => Some(act_of(plan, i, step, undo)),
        None => None,
    }
}

// The same of process i.
fn act_at(started: &[&Plan], i: u32, name: &[u8], undo: bool) -> Option<Entry>
    ensures { result ≡ act_at (plans_in started.now) undo name.now i }
{
    match plan_at(started, i) {
        Some(plan) => named_act(plan, i, name, undo),
        None => None,
    }
}

// `I.STEP`
fn placed_act(started: &[&Plan], place: &[u8], undo: bool) -> Option<Entry>
    ensures { result ≡ placed_act (plans_in started.now) undo place.now }
{
    match cut(place, b'.') {
        Some((word, name)) => match number_of(word) {
            Some(i) => act_at(started, i, name, undo),
            None => None,
        },
        None => None,
    }
}

// Process i, if it has started.
fn started_at(started: &[&Plan], i: u32) -> Option<u32>
    ensures { result ≡ started_at (plans_in started.now) i }
{
    match plan_at(started, i) {
        Some(_) => Some(i),
        None => None,
    }
}

// `I`
fn process_of(started: &[&Plan], word: &[u8]) -> Option<u32>
    ensures { result ≡ process_of (plans_in started.now) word.now }
{
    match number_of(word) {
        Some(i) => started_at(started, i),
        None => None,
    }
}

impl<'a> Log<'a> {
    /// Nothing is told.
    pub fn new(alloc: Global) -> Self
        ensures { result ≡ nothing }
    {
        Log {
            started: Vec::new(alloc),
            events: Vec::new(alloc),
        }
    }

    // Takes the start of a process of this name. A number beyond 32 bits is told as want of memory.
    fn take_start(&mut self, plans: &'a [Plan], name: &[u8]) -> Result<bool, AllocError>
        ensures { IfOk result
            (λ taken. IsTaken (option_map (with_start self.old) (plan_named plans.now name.now)) taken self.new) }
    {
        let Some(plan) = plan_named(plans, name) else {
            return Ok(false);
        };
        let Ok(i) = u32::try_from(self.started.len() + 1) else {
            return Err(AllocError);
        };
        self.started.push(plan)?;
        self.events.push(Event::Start(i))?;
        Ok(true)
    }

    // What takes effect by `I.STEP`.
    fn act_told(&self, place: &[u8], undo: bool) -> Option<Entry>
        ensures { result ≡ placed_act self.now.started undo place.now }
    {
        placed_act(&self.started, place, undo)
    }

    // Which process ends by `I`.
    fn end_told(&self, word: &[u8]) -> Option<u32>
        ensures { result ≡ process_of self.now.started word.now }
    {
        process_of(&self.started, word)
    }

    // Takes what takes effect, if that was told.
    fn take_act(&mut self, act: Option<Entry>) -> Result<bool, AllocError>
        ensures { IfOk result (λ taken. IsTaken (option_map (with_act self.old) act) taken self.new) }
    {
        match act {
            Some(entry) => {
                self.events.push(Event::Act(entry))?;
                Ok(true)
            }
            None => Ok(false),
        }
    }

    // Takes the end of a process, if one was told.
    fn take_end(&mut self, process: Option<u32>) -> Result<bool, AllocError>
        ensures { IfOk result (λ taken. IsTaken (option_map (with_end self.old) process) taken self.new) }
    {
        match process {
            Some(i) => {
                self.events.push(Event::End(i))?;
                Ok(true)
            }
            None => Ok(false),
        }
    }

    // Takes a line by its first word and the rest.
    fn take_words(
        &mut self,
        plans: &'a [Plan],
        word: &[u8],
        rest: &[u8],
    ) -> Result<bool, AllocError>
        ensures { IfOk result (λ taken. IsTaken (told_by plans.now self.old word.now rest.now) taken self.new) }
    {
        if is_word(word, b"start") {
            self.take_start(plans, rest)
        } else if is_word(word, b"do") {
            let act = self.act_told(rest, false);
            self.take_act(act)
        } else if is_word(word, b"undo") {
            let act = self.act_told(rest, true);
            self.take_act(act)
        } else if is_word(word, b"end") {
            let process = self.end_told(rest);
            self.take_end(process)
        } else {
            Ok(false)
        }
    }

    /// Takes a line, if it has its form.
    pub fn take_line(&mut self, plans: &'a [Plan], line: &[u8]) -> Result<bool, AllocError>
        ensures { IfOk result (λ taken. IsTaken (after_line plans.now self.old line.now) taken self.new) }
    {
        if line.is_empty() {
            return Ok(true);
        }
        match cut(line, b' ') {
            Some((word, rest)) => self.take_words(plans, word, rest),
            None => Ok(false),
        }
    }
}

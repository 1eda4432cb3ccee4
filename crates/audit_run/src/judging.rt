// What is found of a log.
ghost use Rattle.std.specs.Prelude.{◌≡◌, ◌≤◌, ◌<◌, length, IfOk};
ghost use Rattle.audit_core.specs.Audits.{most_events};
ghost use Rattle.audit_text.specs.Copies.{IsSound};
ghost use Rattle.audit_text.specs.Logs.{plans_in};
ghost use Rattle.named_conflicts.specs.Under.{HasItsTable};
ghost use Rattle.audit_run.specs.Outcomes.{outcome_status, steps_in, IsOutcome, IsWithin};

use audit_core::{Audited, MOST_EVENTS, audit};
use audit_text::{Log, history_of, out_of_order};
use command_refusals::Status;
use commute_table::Catalog;
use process_tree::Plan;
use std::alloc::{AllocError, Global};

// How many steps the processes of a log may have together.
const MOST_STEPS: usize = 256;

/// What is found of a log.
#[derive(Drop)]
pub enum Outcome {
    /// It has this many events, which is too many.
    Events(u32),
    /// Its processes have this many steps together, which is too many.
    Steps(u32),
    /// This is its first event that isn't in own order, counted from 1.
    OutOfOrder(u32),
    Found(Audited),
}

impl Outcome {
    /// With which status the command ends.
    pub fn status(&self) -> Status
        ensures { result ≡ outcome_status self.now }
    {
        match self {
            Outcome::Events(_) | Outcome::Steps(_) => Status::Limit,
            Outcome::OutOfOrder(_) => Status::BadInput,
            Outcome::Found(Audited::Reducible { .. }) => Status::Done,
            Outcome::Found(Audited::Barred { .. } | Audited::Cycle { .. }) => Status::NotReduced,
        }
    }
}

// The steps of these plans together.
fn steps_in(started: &[&Plan]) -> usize
    requires { length started.now ≤ most_events }
    ensures { result ≡ steps_in (plans_in started.now) }
{
    let mut steps = 0;
    let mut rest = started;
    while let [plan, after @ ..] = rest {
        steps += usize::from(plan.tree.count());
        rest = after;
    }
    steps
}

// A count, of which 32 bits hold no more is told as want of memory.
fn counted(n: usize) -> Result<u32, AllocError>
    ensures { IfOk result (λ count. count ≡ n) }
{
    match u32::try_from(n) {
        Ok(count) => Ok(count),
        Err(_) => Err(AllocError),
    }
}

// What is found of a log that is within the limits.
fn judged(alloc: Global, c: &Catalog, log: &Log<'_>) -> Result<Outcome, AllocError>
    requires catalog { HasItsTable c.now }
    requires sound { IsSound (length c.now.ops) log.now }
    requires within { IsWithin log.now }
    ensures { IfOk result (IsOutcome c.now log.now) }
{
    let h = history_of(alloc, log)?;
    match out_of_order(alloc, &h, c.ops.as_slice().len() as u16)? {
        Some(n) => Ok(Outcome::OutOfOrder(n)),
        None => Ok(Outcome::Found(audit(alloc, h, &c.conflicts)?)),
    }
}

/// What is found of a log.
pub fn outcome_of(alloc: Global, c: &Catalog, log: &Log<'_>) -> Result<Outcome, AllocError>
    requires catalog { HasItsTable c.now }
    requires sound { IsSound (length c.now.ops) log.now }
    ensures { IfOk result (IsOutcome c.now log.now) }
{
    let events = log.events.len();
    if events > MOST_EVENTS {
        return Ok(Outcome::Events(counted(events)?));
    }
    let steps = steps_in(&log.started);
    if steps > MOST_STEPS {
        return Ok(Outcome::Steps(counted(steps)?));
    }
    judged(alloc, c, log)
}

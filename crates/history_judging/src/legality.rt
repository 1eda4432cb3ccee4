// Histories judged event by event.
ghost use Rattle.std.specs.Prelude.{◌≡◌, ◌<◌, ◌⊎◌, ◌+◌, List, ◌++◌, ◌∷◌, [], true, false, IfOk, IfErr, Some};
ghost use Rattle.process_tree.specs.declared.entry.Entry.{Entry};
ghost use Rattle.process_tree.specs.declared.plan.Plan.{Plan};
ghost use Rattle.process_tree.specs.Conflicts.{Table, do_conflict};
ghost use Rattle.schedule_model.specs.declared.event.Event.{Event};
ghost use Rattle.schedule_model.specs.Course.{courses_of};
ghost use Rattle.schedule_model.specs.Legal.{may_come};
ghost use Rattle.schedule_model.specs.Limits.{limits, stands_within};
ghost use Rattle.history_judging.specs.Errors.{event_text};
ghost use Rattle.history_judging.specs.Judging.{AreReady, comes, kept_after};
ghost use Rattle.history_judging.specs.Keeping.{ArePlans, HasPlan, IsJudged};
ghost use Rattle.history_judging.specs.declared.legality.EventError.TheVariants.{Illegal, NoMemory};

use crate::judging::comes;
use crate::keeping::{end, start, step, undo};
use process_tree::{Conflicts, Entry, Plan};
use schedule_model::{Event, MOST_ACTIVE, MOST_ENTRIES, MOST_PROCESSES};
use std::alloc::{AllocError, Global};
use std::error::Error;
use std::fmt;
use std::marker::Model;

/// What is kept of one process.
#[derive(Clone, Copy)]
pub struct ProcessRow {
    /// Whether it is active.
    pub active: bool,
    /// Above every step of it that ever took effect.
    pub bound: u32,
    /// How many acts and ends it may still need.
    pub needed: usize,
}

/// A legal history, as far as its next event is to be judged. It doesn't hold the history.
#[derive(Drop)]
pub struct Legality {
    pub(crate) processes: Vec<ProcessRow>,
    pub(crate) net: Vec<Entry>,
    pub(crate) owed: Vec<Entry>,
    pub(crate) active: usize,
    pub(crate) entries: usize,
}

impl Model for Legality {
    ghost use Rattle.history_judging.specs.Keeping.{Tables};

    ghost Value = { Tables };

    ghost view = { λ l. record {
      processes = l.processes.items;
      net = l.net.items;
      owed = l.owed.items;
      active = l.active;
      entries = l.entries;
    } };
}

/// Why an event was not taken.
#[derive(Clone, Copy, Debug, PartialEq, Eq)]
pub enum EventError {
    /// It may not come.
    Illegal,
    NoMemory,
}

impl fmt::Display for EventError {
    ghost output = { λ e. Some (event_text e) };

    fn fmt<W: fmt::Write>(&self, f: &mut fmt::Formatter<W>) -> fmt::Result {
        match *self {
            EventError::Illegal => f.write_str("the event may not come"),
            EventError::NoMemory => f.write_str("out of memory"),
        }
    }
}

impl Error for EventError {}

impl From<AllocError> for EventError {
    ghost from_gives = { λ _ e. e ≡ NoMemory };

    fn from(_: AllocError) -> Self {
        EventError::NoMemory
    }
}

impl Legality {
    /// The legality of the history without an event.
    pub fn new(alloc: Global) -> Legality
        ensures { (table : Table) (plans : List Plan) → ArePlans table plans → IsJudged table plans [] result }
    {
        Legality {
            processes: Vec::new(alloc),
            net: Vec::new(alloc),
            owed: Vec::new(alloc),
            active: 0,
            entries: 0,
        }
    }

    /// The legality of the history with one more event, where that may come. Among the plans are those of all that start in
    /// it.
    pub fn with_event(
        self,
        alloc: Global,
        c: &Conflicts,
        plans: &[Plan],
        event: Event,
    ) -> Result<Legality, EventError>
        requires judged { (h : List Event) × IsJudged c.now plans.now h self }
        requires plan { HasPlan plans.now self event }
        ensures judged { IfOk result
            (λ longer. (h : List Event) → IsJudged c.now plans.now h self → IsJudged c.now plans.now (h ++ event ∷ []) longer) }
        ensures refused { IfErr result
            (λ e. (e ≡ NoMemory) ⊎
            ((e ≡ Illegal) × ((h : List Event) → IsJudged c.now plans.now h self
            → may_come (do_conflict c.now) (courses_of plans.now) h event ≡ false))) }
    {
        if !comes(alloc, c, plans, &self, event)? {
            return Err(EventError::Illegal);
        }
        let longer = after(alloc, self, plans, event)?;
        Ok(longer)
    }

    /// Whether no more processes are active, have started, and are done and reserved of acts and ends than may be.
    pub fn is_within_limits(&self) -> bool
        ensures { (table : Table) (plans : List Plan) (h : List Event) → IsJudged table plans h self.now
            → result ≡ stands_within limits (courses_of plans) h }
    {
        self.active <= MOST_ACTIVE
            && self.processes.len() <= MOST_PROCESSES
            && self.entries <= MOST_ENTRIES
    }
}

/// The tables after an event that may come.
fn after(alloc: Global, t: Legality, plans: &[Plan], event: Event) -> Result<Legality, AllocError>
    requires plan { HasPlan plans.now t event }
    requires comes { (table : Table) × AreReady table plans.now t
        × (comes (do_conflict table) (courses_of plans.now) t event ≡ true) }
    ensures { IfOk result (λ longer. longer ≡ kept_after (courses_of plans.now) t event) }
{
    match event {
        Event::Start(i) => start(t, &plans[i as usize - 1]),
        Event::Act(e) => {
            if e.undo {
                undo(t, &e)
            } else {
                step(alloc, t, &plans[e.process as usize - 1], &e)
            }
        }
        Event::End(i) => Ok(end(t, i)),
    }
}

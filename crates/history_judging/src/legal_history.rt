// Whether a history is legal.
ghost use Rattle.std.specs.Prelude.{◌≡◌, ◌⊎◌, ◌<◌, ◌+◌, ℕ, List, ◌++◌, ◌∷◌, [], Some, IfOk, IfErr, OnOk, IsTrue};
ghost use Rattle.std.specs.Prelude.{false};
ghost use Rattle.process_tree.specs.Conflicts.{do_conflict, operations_in};
ghost use Rattle.process_tree.specs.declared.plan.Plan.{Plan};
ghost use Rattle.schedule_model.specs.declared.event.Event.{Event};
ghost use Rattle.schedule_model.specs.Course.{courses_of};
ghost use Rattle.schedule_model.specs.Laws.{IsPlanned};
ghost use Rattle.schedule_model.specs.Legal.{first_illegal, is_legal, may_come};
ghost use Rattle.history_judging.specs.Errors.{history_text};
ghost use Rattle.history_judging.specs.Keeping.{HasPlan, IsJudged};
ghost use Rattle.history_judging.specs.declared.legal_history.LegalError.TheVariants.{At, NoMemory};

use crate::legality::{EventError, Legality};
use process_tree::{Conflicts, Plan};
use schedule_model::{Event, History};
use std::alloc::Global;
use std::error::Error;
use std::fmt;

/// Why a history was not found legal.
#[derive(Clone, Copy, Debug, PartialEq, Eq)]
pub enum LegalError {
    /// This event, counted from 1, is the first that may not come after those before it.
    At(u32),
    NoMemory,
}

impl fmt::Display for LegalError {
    ghost output = { λ e. Some (history_text e) };

    fn fmt<W: fmt::Write>(&self, f: &mut fmt::Formatter<W>) -> fmt::Result {
        match *self {
            LegalError::At(n) => write!(f, "event {n} may not come"),
            LegalError::NoMemory => f.write_str("out of memory"),
        }
    }
}

impl Error for LegalError {}

/// Whether each event of a history may come after those before it. A place beyond 32 bits is told as want of memory.
pub fn legal(alloc: Global, h: &History, c: &Conflicts) -> Result<(), LegalError>
    requires planned { IsPlanned (operations_in c.now) h.now.plans h.now.events }
    ensures legal { OnOk result (IsTrue (is_legal (do_conflict c.now) (courses_of h.now.plans) h.now.events)) }
    ensures first { IfErr result
        (λ e. (e ≡ NoMemory) ⊎
        ((n : ℕ) × (e ≡ At n) × (first_illegal (do_conflict c.now) (courses_of h.now.plans) h.now.events ≡ Some n))) }
{
    let plans = h.plans.as_slice();
    let mut rest = h.events.as_slice();
    let mut legality = Legality::new(alloc);
    let mut place: u32 = 0;
    while let [event, after @ ..] = rest {
        let Some(next) = place.checked_add(1) else {
            return Err(LegalError::NoMemory);
        };
        match one_more(alloc, c, plans, legality, *event, next) {
            Ok(longer) => legality = longer,
            Err(error) => return Err(error),
        }
        place = next;
        rest = after;
    }
    Ok(())
}

/// The legality of the history with the event at a place.
fn one_more(
    alloc: Global,
    c: &Conflicts,
    plans: &[Plan],
    legality: Legality,
    event: Event,
    place: u32,
) -> Result<Legality, LegalError>
    requires judged { (h : List Event) × IsJudged c.now plans.now h legality }
    requires plan { HasPlan plans.now legality event }
    ensures judged { IfOk result
        (λ longer. (h : List Event) → IsJudged c.now plans.now h legality → IsJudged c.now plans.now (h ++ event ∷ []) longer) }
    ensures refused { IfErr result
        (λ e. (e ≡ NoMemory) ⊎
        ((e ≡ At place) × ((h : List Event) → IsJudged c.now plans.now h legality
        → may_come (do_conflict c.now) (courses_of plans.now) h event ≡ false))) }
{
    match legality.with_event(alloc, c, plans, event) {
        Ok(longer) => Ok(longer),
        Err(EventError::Illegal) => Err(LegalError::At(place)),
        Err(EventError::NoMemory) => Err(LegalError::NoMemory),
    }
}

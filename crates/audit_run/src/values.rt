// What is told of the values behind what is found.
ghost use Rattle.std.specs.Prelude.{◌≡◌, length, IfOk};
ghost use Rattle.commute_table.specs.Operations.{IsCatalog};
ghost use Rattle.audit_text.specs.Copies.{IsSound};
ghost use Rattle.audit_run.specs.declared.judging.Outcome.TheVariants.{Found};
ghost use Rattle.audit_run.specs.Outcomes.{audited_values, outcome_values, IsOutcome};

use crate::judging::Outcome;
use audit_core::Audited;
use audit_text::{Log, plans_of};
use commute_table::Catalog;
use serial_values::values_text;
use std::alloc::{AllocError, Global};

// What is told of the values behind an answer on a log.
fn found_values(
    alloc: Global,
    c: &Catalog,
    log: &Log<'_>,
    found: &Audited,
) -> Result<Vec<u8>, AllocError>
    requires catalog { IsCatalog c.now }
    requires sound { IsSound (length c.now.ops) log.now }
    requires found { IsOutcome c.now log.now (Found found.now) }
    ensures { IfOk result (λ text. text.items ≡ audited_values c.now log.now.started found.now) }
{
    match found {
        Audited::Reducible { serial } => {
            let plans = plans_of(alloc, log)?;
            values_text(alloc, c, &plans, serial)
        }
        Audited::Barred { .. } | Audited::Cycle { .. } => Ok(Vec::new(alloc)),
    }
}

/// What is told of the values behind what is found of a log.
pub fn outcome_values(
    alloc: Global,
    c: &Catalog,
    log: &Log<'_>,
    outcome: &Outcome,
) -> Result<Vec<u8>, AllocError>
    requires catalog { IsCatalog c.now }
    requires sound { IsSound (length c.now.ops) log.now }
    requires found { IsOutcome c.now log.now outcome.now }
    ensures { IfOk result (λ text. text.items ≡ outcome_values c.now log.now.started outcome.now) }
{
    match outcome {
        Outcome::Found(found) => found_values(alloc, c, log, found),
        Outcome::Events(_) | Outcome::Steps(_) | Outcome::OutOfOrder(_) => Ok(Vec::new(alloc)),
    }
}

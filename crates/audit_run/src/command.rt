// The command.
ghost use Rattle.std.specs.Prelude.{◌≡◌, length, IfOk};
ghost use Rattle.commute_table.specs.Operations.{IsCatalog};
ghost use Rattle.command_input.specs.Inputs.{input};
ghost use Rattle.audit_text.specs.Copies.{IsSound};
ghost use Rattle.audit_run.specs.Audit.{lines_refusal, IsAuditDue, IsTextAudited};
ghost use Rattle.audit_run.specs.Outcomes.{IsSaidOf};

use crate::judging::outcome_of;
use crate::printing::outcome_text;
use crate::values::outcome_values;
use audit_text::{Log, divide, read_log};
use command_input::{Bound, NoPlans, Said, scenario_of, text_of};
use command_refusals::{Refusal, Status};
use commute_table::Catalog;
use process_flow::Source;
use session_text::LinesError;
use std::alloc::{AllocError, Global};

fn lines_refusal(error: LinesError) -> Refusal
    ensures { result ≡ lines_refusal error }
{
    match error {
        LinesError::BadLine(n) => Refusal::BadLine(n),
        LinesError::NoMemory => Refusal::NoMemory,
    }
}

// What is said of a log.
fn said_of(alloc: Global, c: &Catalog, log: &Log<'_>) -> Result<Said, AllocError>
    requires catalog { IsCatalog c.now }
    requires sound { IsSound (length c.now.ops) log.now }
    ensures { IfOk result (λ s. IsSaidOf c.now log.now s.text.items s.status) }
{
    let outcome = outcome_of(alloc, c, log)?;
    let mut text = outcome_text(alloc, c, log, &outcome)?;
    let values = outcome_values(alloc, c, log, &outcome)?;
    text.extend_from_slice(&values)?;
    Ok(Said {
        text,
        status: outcome.status(),
    })
}

// What a text comes to.
fn audited(alloc: Global, text: &[u8]) -> Result<Said, NoPlans>
    ensures { IsTextAudited text.now result }
{
    let divided = divide(text);
    let Bound { catalog, plans } = scenario_of(alloc, divided.scenario)?;
    match read_log(alloc, &plans, divided.lines, divided.first) {
        Ok(log) => Ok(said_of(alloc, &catalog, &log)?),
        Err(error) => Err(NoPlans::Refused(lines_refusal(error))),
    }
}

/// Audits the log that stands behind the scenario in the source's text.
pub fn audit<S: Source>(alloc: Global, source: &mut S) -> Result<Said, Refusal>
    ensures { IsAuditDue (input S.Source source.old) (input S.Source source.new) result }
{
    let text = text_of(alloc, source)?;
    match audited(alloc, &text) {
        Ok(said) => Ok(said),
        Err(NoPlans::Refused(refusal)) => Err(refusal),
        Err(NoPlans::IllFormed(line)) => Ok(Said {
            text: line,
            status: Status::IllFormed,
        }),
    }
}

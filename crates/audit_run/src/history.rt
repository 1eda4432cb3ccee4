// The command over the history of file 0.
ghost use Rattle.std.specs.Prelude.{◌≡◌, ◌≢◌, ◌++◌, true, false, length, codes, IfOk, IfErr, IsTrue};
ghost use Rattle.commute_table.specs.Operations.{IsCatalog};
ghost use Rattle.process_disk.specs.Disk.{Told};
ghost use Rattle.process_disk.specs.Images.{AllAsBefore};
ghost use Rattle.process_journal.specs.Journals.{IsHistoryUnder};
ghost use Rattle.process_report.specs.Names.{op_name};
ghost use Rattle.schedule_model.specs.Laws.{IsPlanned};
ghost use Rattle.command_input.specs.FilesLeft.{AreLeft, files};
ghost use Rattle.command_input.specs.Early.{comes_before_files};
ghost use Rattle.command_input.specs.Inputs.{input, IsWholeText};
ghost use Rattle.command_input.specs.Scenarios.{IsBound, IsNotBound};
ghost use Rattle.command_refusals.specs.declared.status.Status.TheVariants.{BadInput};
ghost use Rattle.audit_text.specs.Logs.{plans_in};
ghost use Rattle.audit_run.specs.History.{found_text, is_beyond, log_in, verdict_status, verdict_text, IsHistoryAuditDue};
ghost use Rattle.audit_run.specs.History.{IsHistorySaid, IsJudgedBy, IsToldOf};
ghost use Rattle.audit_run.specs.History.{first_refused, legality_text, AreRuled};
ghost use Rattle.schedule_model.specs.Course.{courses_of};
ghost use Rattle.schedule_model.specs.OwnOrder.{is_in_own_order};
ghost use Rattle.named_conflicts.specs.Under.{HasItsTable};
ghost use Rattle.commute_table.specs.declared.catalog.Catalog.{Catalog};
ghost use Rattle.journal_input.specs.Opening.{IsNotOpened, IsOpened};
ghost use Rattle.schedule_model.specs.declared.history.History.{History};

use crate::judging::{Outcome, outcome_of};
use crate::legality::{first_refused, legality_text};
use crate::printing::outcome_text;
use audit_text::Log;
use command_input::{NoPlans, Said, scenario_of, text_of};
use command_refusals::{Refusal, Status};
use commute_table::Catalog;
use journal_input::opened;
use named_conflicts::{first_unknown, under};
use process_disk::Rack;
use process_flow::Source;
use process_report::op_name;
use process_tree::Plan;
use schedule_model::History;
use std::alloc::{AllocError, Global};

// Plans, referred to.
fn referred(alloc: Global, plans: &[Plan]) -> Result<Vec<&Plan>, AllocError>
    ensures { IfOk result (λ started. plans_in started.items ≡ plans.now) }
{
    let mut started = Vec::new(alloc);
    let mut rest = plans;
    while let [plan, after @ ..] = rest {
        started.push(plan)?;
        rest = after;
    }
    Ok(started)
}

// A history as a log.
fn log_in(alloc: Global, h: &History) -> Result<Log<'_>, AllocError>
    ensures { IfOk result (λ log. log ≡ log_in h.now) }
{
    let started = referred(alloc, h.plans.as_slice())?;
    let events = h.events.as_slice().to_vec(alloc)?;
    Ok(Log { started, events })
}

// It has more events, or its processes more steps, than an audit takes.
fn is_beyond(outcome: &Outcome) -> bool
    ensures { result ≡ is_beyond outcome.now }
{
    matches!(outcome, Outcome::Events(_) | Outcome::Steps(_))
}

// The status of what is found of a history whose first event that may not come is this.
fn verdict_status(first: Option<u32>, outcome: &Outcome) -> Status
    ensures { result ≡ verdict_status first outcome.now }
{
    if first.is_none() && is_beyond(outcome) {
        Status::Done
    } else {
        outcome.status()
    }
}

// The text of that.
fn verdict_text(
    alloc: Global,
    c: &Catalog,
    log: &Log<'_>,
    first: Option<u32>,
    outcome: &Outcome,
) -> Result<Vec<u8>, AllocError>
    ensures { IfOk result (λ text. (h : History) → log.now ≡ log_in h → text.items ≡ verdict_text c.now h first outcome.now) }
{
    if first.is_none() && is_beyond(outcome) {
        Ok(Vec::new(alloc))
    } else {
        outcome_text(alloc, c, log, outcome)
    }
}

// What an audit finds is said behind this text.
fn said_behind(
    alloc: Global,
    c: &Catalog,
    h: &History,
    first: Option<u32>,
    mut text: Vec<u8>,
) -> Result<Said, AllocError>
    requires table { HasItsTable c.now }
    requires planned { IsPlanned (length c.now.ops) h.now.plans h.now.events }
    requires first { first ≡ first_refused c.now h.now }
    requires text { text.items ≡ legality_text c.now h.now first }
    requires ruled { AreRuled c.now h.now }
    ensures { IfOk result (λ s. IsJudgedBy c.now h.now s.text.items s.status) }
{
    let log = log_in(alloc, h)?;
    let outcome = outcome_of(alloc, c, &log)?;
    let verdict = verdict_text(alloc, c, &log, first, &outcome)?;
    text.extend_from_slice(&verdict)?;
    Ok(Said {
        text,
        status: verdict_status(first, &outcome),
    })
}

// What is said of a history under a catalog of its operations.
fn judged_by(alloc: Global, c: &Catalog, h: &History) -> Result<Said, AllocError>
    requires table { HasItsTable c.now }
    requires planned { IsPlanned (length c.now.ops) h.now.plans h.now.events }
    requires own_order { IsTrue (is_in_own_order (courses_of h.now.plans) h.now.events) }
    ensures { IfOk result (λ s. IsJudgedBy c.now h.now s.text.items s.status) }
{
    let first = first_refused(alloc, c, h)?;
    let text = legality_text(alloc, c, h, first)?;
    said_behind(alloc, c, h, first, text)
}

// `unknown operation NAME`
fn unknown_said(alloc: Global, name: &[u8]) -> Result<Said, AllocError>
    ensures text { IfOk result (λ s. s.text.items ≡ codes "unknown operation " ++ name.now ++ codes "\n") }
    ensures status { IfOk result (λ s. s.status ≡ BadInput) }
{
    let mut text = b"unknown operation ".to_vec(alloc)?;
    text.extend_from_slice(name)?;
    text.push(b'\n')?;
    Ok(Said {
        text,
        status: Status::BadInput,
    })
}

// What is said of a history that was kept under its own catalog, under that of a scenario.
fn history_said(alloc: Global, c: &Catalog, own: Catalog, h: &History) -> Result<Said, AllocError>
    requires catalog { IsCatalog c.now }
    requires history { IsHistoryUnder own h.now }
    ensures { IfOk result (λ s. IsHistorySaid c.now own h.now s.text.items s.status) }
{
    let unknown = first_unknown(c.ops.as_slice(), own.ops.as_slice(), h.plans.as_slice());
    if let Some(number) = unknown {
        return unknown_said(alloc, op_name(own.ops.as_slice(), number));
    }
    let under = under(alloc, c, own)?;
    judged_by(alloc, &under, h)
}

// What is said of file 0 under the catalog of a scenario.
fn file_said<R: Rack>(alloc: Global, c: &Catalog, rack: &mut R) -> Result<Said, Refusal>
    requires catalog { IsCatalog c.now }
    ensures said { IfOk result (λ s. (own : Catalog) × (h : History) × IsOpened own h (files R.Rack rack.old) (files R.Rack rack.new)
        × IsHistorySaid c.now own h s.text.items s.status) }
    ensures refused { IfErr result (λ r. IsNotOpened r (files R.Rack rack.old) (files R.Rack rack.new)) }
    ensures all { Told (R.disk rack.old) → AllAsBefore (R.disk rack.old) (R.disk rack.new) }
    ensures left { AreLeft (files R.Rack rack.old) (files R.Rack rack.new) }
    ensures late { IfErr result (λ r. comes_before_files r ≡ false) }
    ensures status { IfOk result (λ s. s.status ≢ Status.IllFormed) }
{
    let (own, history) = opened(alloc, rack)?;
    let said = history_said(alloc, c, own, &history)?;
    Ok(said)
}

// What is told where a scenario gives no plans.
fn told(none: NoPlans) -> Result<Said, Refusal>
    ensures { IsToldOf none result }
{
    match none {
        NoPlans::Refused(refusal) => Err(refusal),
        NoPlans::IllFormed(line) => Ok(Said {
            text: line,
            status: Status::IllFormed,
        }),
    }
}

/// Audits the history of file 0 under the scenario in the source's text.
pub fn audit_history<S: Source, R: Rack>(
    alloc: Global,
    source: &mut S,
    rack: &mut R,
) -> Result<Said, Refusal>
    ensures due { IsHistoryAuditDue (input S.Source source.old) (input S.Source source.new) (files R.Rack rack.old) (files R.Rack rack.new) result }
    ensures all { Told (R.disk rack.old) → AllAsBefore (R.disk rack.old) (R.disk rack.new) }
    ensures left { AreLeft (files R.Rack rack.old) (files R.Rack rack.new) }
    // What is refused of the input alone is refused before the rack is called.
    ensures early { IfErr result (λ r. comes_before_files r ≡ true → rack.new ≡ rack.old) }
    ensures ill_formed { IfOk result (λ s. s.status ≡ Status.IllFormed → rack.new ≡ rack.old) }
{
    let text = text_of(alloc, source)?;
    match scenario_of(alloc, &text) {
        Ok(bound) => file_said(alloc, &bound.catalog, rack),
        Err(none) => told(none),
    }
}

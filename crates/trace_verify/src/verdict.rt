// The verdict on a text.
ghost use Rattle.std.specs.Prelude.{◌≡◌, ◌⊎◌, ◌≤◌, length, IfOk};
ghost use Rattle.process_tree.specs.Conflicts.{do_conflict};
ghost use Rattle.schedule_rules.specs.Applying.{AreKnown};
ghost use Rattle.trace_verify.specs.Names.{step_names, op_names};
ghost use Rattle.trace_verify.specs.Verdicts.{verdict, of_outcome, outcome, outcome_from};
ghost use Rattle.trace_verify.specs.Laws.{Means};

use crate::applying::apply_all;
use crate::comparing::differs_at;
use crate::names::Names;
use crate::numbering::{Numbered, entries_of, table_of};
use crate::report::Report;
use process_tree::{Conflicts, Entry};
use schedule_rules::not_serial;
use std::alloc::{AllocError, Global};

/// What a text is.
#[derive(Clone, Copy, Debug, PartialEq, Eq)]
pub enum Verified {
    /// A report whose steps bring its schedule to the serial list that it prints.
    Accepted,
    /// No report: the first line that isn't what its place wants, counted from 1. Where the text ends too early it is the number of
    /// its lines and one.
    BadText(u32),
    /// The first step that doesn't apply, counted from 1.
    StepRefused(u32),
    /// All steps apply, and this is the first place of the last list that is out of place, counted from 1.
    NotSerial(u32),
    /// The last list is serial, and this is the first place at which the printed one isn't that list, counted from 1.
    SerialDiffers(u32),
    NoMemory,
}

// What is answered of a bad line.
fn bad_text(line: usize) -> Verified
    ensures { (result ≡ Verified.NoMemory) ⊎ (result ≡ Verified.BadText line) }
{
    match u32::try_from(line) {
        Ok(line) => Verified::BadText(line),
        Err(_) => Verified::NoMemory,
    }
}

// The verdict on a report whose acts are these entries.
fn of_entries(
    list: &mut Vec<Entry>,
    table: &Conflicts,
    steps: &Names<'_>,
    ops: &Names<'_>,
    report: &Report<'_>,
) -> Verified
    requires known { AreKnown table.now list.old.items }
    requires few { length list.old.items ≤ 32768 }
    requires steps { steps.now ≡ step_names report.now.acts }
    requires ops { ops.now ≡ op_names report.now.acts }
    ensures { result ≡ of_outcome report.now (outcome_from (do_conflict table.now) 1 report.now.steps list.old.items) }
{
    if let Some(step) = apply_all(list, table, &report.steps) {
        return Verified::StepRefused(step);
    }
    if let Some(place) = not_serial(list) {
        return Verified::NotSerial(place);
    }
    match differs_at(steps, ops, list, &report.serial) {
        Some(place) => Verified::SerialDiffers(place),
        None => Verified::Accepted,
    }
}

// The verdict on a report.
fn of_report(alloc: Global, report: &Report<'_>) -> Result<Verified, AllocError>
    ensures { IfOk result (λ verified. verified ≡ of_outcome report.now (outcome report.now)) }
{
    let Numbered {
        mut entries,
        steps,
        ops,
    } = entries_of(alloc, &report.acts)?;
    let table = table_of(alloc, &ops, &report.pairs)?;
    Ok(of_entries(&mut entries, &table, &steps, &ops, report))
}

// The verdict on a text.
fn of_text(alloc: Global, text: &[u8]) -> Result<Verified, AllocError>
    ensures { IfOk result (λ verified. (verified ≡ Verified.NoMemory) ⊎ (verified ≡ verdict text.now)) }
{
    let mut report = Report::new(alloc);
    match report.read(text)? {
        Some(line) => Ok(bad_text(line)),
        None => of_report(alloc, &report),
    }
}

/// Whether a text is a report whose printed steps bring its schedule to its printed serial list (`docs/SCHEDULES.md`,
/// `docs/FORMATS.md`).
pub fn verify(alloc: Global, text: &[u8]) -> Verified
    // It is the verdict of the definition, but for want of memory. A bad line beyond the 4,294,967,295th is told as that, too.
    ensures verdict { (result ≡ Verified.NoMemory) ⊎ (result ≡ verdict text.now) }
    // Accepted means that the text is a report from whose schedule a chain of single exchanges of neighbours that don't conflict,
    // and of removals of a step with its undo behind it, leads to the serial list that it prints. A refusal means that it is the
    // first.
    ensures means { Means text.now result }
{
    match of_text(alloc, text) {
        Ok(verified) => verified,
        Err(_) => Verified::NoMemory,
    }
}

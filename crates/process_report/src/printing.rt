// Reports.
ghost use Rattle.std.specs.Prelude.{◌≡◌, ◌++◌, length, map, codes, IfOk, OnOk, IsTrue};
ghost use Rattle.process_tree.specs.Conflicts.{do_conflict};
ghost use Rattle.commute_table.specs.Operations.{IsCatalog};
ghost use Rattle.schedule_model.specs.Course.{courses_of};
ghost use Rattle.schedule_model.specs.Laws.{IsPlanned};
ghost use Rattle.schedule_model.specs.Legal.{is_legal};
ghost use Rattle.trace_verify.specs.Forms.{first_title};
ghost use Rattle.process_report.specs.Lines.{event_line};
ghost use Rattle.process_report.specs.Report.{form_of, conflicts_lines, history_lines, completion_lines, ends_lines, causes_lines};
ghost use Rattle.process_report.specs.Report.{trace_lines, serial_lines, section, report_of, report_text};
ghost use Rattle.process_report.specs.Reduced.{trace_in};

use crate::causes::put_causes;
use crate::conflicts::{form_of, put_conflicts};
use crate::ends::put_ends;
use crate::events::{put_entries, put_events};
use crate::lines::put_line;
use crate::steps::put_steps;
use commute_table::Catalog;
use machine_model::Cause;
use reduction_trace::{Reduction, trace};
use schedule_model::{Event, History};
use std::alloc::{AllocError, Global};
use trace_verify::Form;

// The title of the first section.
fn first_title(form: Form) -> &'static [u8]
    ensures { result.now ≡ first_title form }
{
    match form {
        Form::Plain => b"conflicts",
        Form::Keyed => b"conflicts 2",
    }
}

// Writes the section of conflicts.
fn put_conflicts_section(c: &Catalog, out: &mut Vec<u8>) -> Result<(), AllocError>
    requires catalog { IsCatalog c.now }
    ensures { OnOk result (out.new.items ≡ out.old.items ++ section (first_title (form_of c.now)) (conflicts_lines c.now)) }
{
    put_line(out, &[first_title(form_of(c))])?;
    put_conflicts(c, out)
}

// Writes a section of events.
fn put_event_section(
    alloc: Global,
    title: &[u8],
    c: &Catalog,
    h: &History,
    events: &[Event],
    out: &mut Vec<u8>,
) -> Result<(), AllocError>
    ensures { OnOk result
        (out.new.items ≡ out.old.items ++ section title.now (map (event_line (form_of c.now) h.now.plans c.now.ops) events.now)) }
{
    put_line(out, &[title])?;
    put_events(
        alloc,
        form_of(c),
        h.plans.as_slice(),
        c.ops.as_slice(),
        events,
        out,
    )
}

// Writes the section of the history.
fn put_history_section(
    alloc: Global,
    c: &Catalog,
    h: &History,
    out: &mut Vec<u8>,
) -> Result<(), AllocError>
    ensures { OnOk result (out.new.items ≡ out.old.items ++ section (codes "history") (history_lines c.now h.now)) }
{
    put_event_section(alloc, b"history", c, h, h.events.as_slice(), out)
}

// Writes the section of the completion.
fn put_completion_section(
    alloc: Global,
    c: &Catalog,
    h: &History,
    reduction: &Reduction,
    out: &mut Vec<u8>,
) -> Result<(), AllocError>
    ensures { OnOk result
        (out.new.items ≡ out.old.items ++ section (codes "completion") (completion_lines c.now h.now reduction.now.completion)) }
{
    put_event_section(
        alloc,
        b"completion",
        c,
        h,
        reduction.completion.as_slice(),
        out,
    )
}

// Writes the section of ends.
fn put_ends_section(alloc: Global, h: &History, out: &mut Vec<u8>) -> Result<(), AllocError>
    ensures { OnOk result (out.new.items ≡ out.old.items ++ section (codes "ends") (ends_lines h.now)) }
{
    put_line(out, &[b"ends"])?;
    put_ends(alloc, h, out)
}

// Writes the section of causes.
fn put_causes_section(
    alloc: Global,
    h: &History,
    causes: &[(u32, Cause)],
    out: &mut Vec<u8>,
) -> Result<(), AllocError>
    ensures { OnOk result (out.new.items ≡ out.old.items ++ section (codes "causes") (causes_lines h.now causes.now)) }
{
    put_line(out, &[b"causes"])?;
    put_causes(alloc, h.plans.as_slice(), causes, out)
}

// Writes the sections of the trace and of the serial list.
fn put_reduction_sections(
    alloc: Global,
    c: &Catalog,
    h: &History,
    reduction: &Reduction,
    out: &mut Vec<u8>,
) -> Result<(), AllocError>
    ensures { OnOk result (out.new.items ≡ out.old.items
        ++ (section (codes "trace") (trace_lines (trace_in reduction.now))
        ++ section (codes "serial") (serial_lines c.now h.now (trace_in reduction.now)))) }
{
    put_line(out, &[b"trace"])?;
    put_steps(alloc, reduction.steps.as_slice(), out)?;
    put_line(out, &[b"serial"])?;
    put_entries(
        alloc,
        form_of(c),
        h.plans.as_slice(),
        c.ops.as_slice(),
        reduction.serial.as_slice(),
        out,
    )
}

// Writes what conflicts, what happened, and how it is completed.
fn put_event_sections(
    alloc: Global,
    c: &Catalog,
    h: &History,
    reduction: &Reduction,
    out: &mut Vec<u8>,
) -> Result<(), AllocError>
    requires catalog { IsCatalog c.now }
    ensures { OnOk result (out.new.items ≡ out.old.items
        ++ (section (first_title (form_of c.now)) (conflicts_lines c.now) ++ section (codes "history") (history_lines c.now h.now)
        ++ section (codes "completion") (completion_lines c.now h.now reduction.now.completion))) }
{
    put_conflicts_section(c, out)?;
    put_history_section(alloc, c, h, out)?;
    put_completion_section(alloc, c, h, reduction, out)
}

/// The report of a history with this reduction, and with the causes for which processes began to complete. It asks nothing of the
/// history: `report` does this once the reduction is there.
pub fn report_of(
    alloc: Global,
    c: &Catalog,
    h: &History,
    causes: &[(u32, Cause)],
    reduction: &Reduction,
) -> Result<Vec<u8>, AllocError>
    requires catalog { IsCatalog c.now }
    ensures { IfOk result
        (λ text. text.items ≡ report_of c.now h.now causes.now reduction.now.completion (trace_in reduction.now)) }
{
    let mut out = Vec::new(alloc);
    put_event_sections(alloc, c, h, reduction, &mut out)?;
    put_ends_section(alloc, h, &mut out)?;
    put_causes_section(alloc, h, causes, &mut out)?;
    put_reduction_sections(alloc, c, h, reduction, &mut out)?;
    Ok(out)
}

/// The report of a legal history, with the causes for which processes began to complete: `docs/FORMATS.md`, 'Report'. A history of
/// 2^32 processes or acts or more is told as want of memory. A process or a step that there isn't has the empty name.
pub fn report(
    alloc: Global,
    c: &Catalog,
    h: &History,
    causes: &[(u32, Cause)],
) -> Result<Vec<u8>, AllocError>
    requires catalog { IsCatalog c.now }
    requires planned { IsPlanned (length c.now.ops) h.now.plans h.now.events }
    requires legal { IsTrue (is_legal (do_conflict c.now.conflicts) (courses_of h.now.plans) h.now.events) }
    ensures { IfOk result (λ text. text.items ≡ report_text c.now h.now causes.now) }
{
    let reduction = trace(alloc, h, &c.conflicts)?;
    let text = report_of(alloc, c, h, causes, &reduction)?;
    Ok(text)
}

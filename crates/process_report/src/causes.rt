// Lines of causes.
ghost use Rattle.std.specs.Prelude.{◌≡◌, ◌++◌, ◌∷◌, map, OnOk};
ghost use Rattle.process_text.specs.Canonical.{line_of};
ghost use Rattle.process_report.specs.Lines.{text_of, cause_words, cause_line};

use crate::lines::put_line;
use crate::names::step_name;
use machine_model::Cause;
use process_tree::Plan;
use std::alloc::{AllocError, Global};

// Writes the line of process i, whose number is that word.
fn put_cause_words(
    alloc: Global,
    plans: &[Plan],
    i: u32,
    number: &[u8],
    cause: Cause,
    out: &mut Vec<u8>,
) -> Result<(), AllocError>
    ensures { OnOk result (out.new.items ≡ out.old.items ++ line_of (number.now ∷ cause_words plans.now i cause)) }
{
    match cause {
        Cause::Refused(step) => put_line(out, &[number, b"refused", step_name(plans, i, step)]),
        Cause::Abort => put_line(out, &[number, b"abort"]),
        Cause::Cascade(by) => {
            let root = format!(in alloc; "{by}")?;
            put_line(out, &[number, b"cascade", root.as_bytes()])
        }
        Cause::Victim => put_line(out, &[number, b"victim"]),
        Cause::Restart => put_line(out, &[number, b"restart"]),
    }
}

// Writes the line of a cause.
fn put_cause(
    alloc: Global,
    plans: &[Plan],
    i: u32,
    cause: Cause,
    out: &mut Vec<u8>,
) -> Result<(), AllocError>
    ensures { OnOk result (out.new.items ≡ out.old.items ++ line_of (cause_line plans.now (i, cause))) }
{
    let number = format!(in alloc; "{i}")?;
    put_cause_words(alloc, plans, i, number.as_bytes(), cause, out)
}

/// Writes the lines of causes.
pub fn put_causes(
    alloc: Global,
    plans: &[Plan],
    causes: &[(u32, Cause)],
    out: &mut Vec<u8>,
) -> Result<(), AllocError>
    ensures { OnOk result (out.new.items ≡ out.old.items ++ text_of (map (cause_line plans.now) causes.now)) }
{
    let mut rest = causes;
    while let [(i, cause), after @ ..] = rest {
        put_cause(alloc, plans, *i, *cause, out)?;
        rest = after;
    }
    Ok(())
}

// Lines of a trace.
ghost use Rattle.std.specs.Prelude.{◌≡◌, ◌++◌, map, OnOk};
ghost use Rattle.process_text.specs.Canonical.{line_of};
ghost use Rattle.process_report.specs.Lines.{text_of, step_line};

use crate::lines::put_line;
use schedule_model::TraceStep;
use std::alloc::{AllocError, Global};

// Writes the line of a step.
fn put_step(alloc: Global, step: TraceStep, out: &mut Vec<u8>) -> Result<(), AllocError>
    ensures { OnOk result (out.new.items ≡ out.old.items ++ line_of (step_line step)) }
{
    match step {
        TraceStep::Move(from, to) => {
            let first = format!(in alloc; "{from}")?;
            let second = format!(in alloc; "{to}")?;
            put_line(out, &[b"move", first.as_bytes(), second.as_bytes()])
        }
        TraceStep::Cancel(at) => {
            let place = format!(in alloc; "{at}")?;
            put_line(out, &[b"cancel", place.as_bytes()])
        }
    }
}

/// Writes the lines of steps.
pub fn put_steps(alloc: Global, steps: &[TraceStep], out: &mut Vec<u8>) -> Result<(), AllocError>
    ensures { OnOk result (out.new.items ≡ out.old.items ++ text_of (map step_line steps.now)) }
{
    let mut rest = steps;
    while let [step, after @ ..] = rest {
        put_step(alloc, *step, out)?;
        rest = after;
    }
    Ok(())
}

// What is printed of a run.
ghost use Rattle.std.specs.Prelude.{◌≡◌, ◌++◌, IfOk};
ghost use Rattle.process_core.specs.Moments.{IsStuckIn};
ghost use Rattle.engine_calls.specs.Runs.{IsReady};
ghost use Rattle.scenario_run.specs.Reports.{HasUsedUp, causes_in, exhausted_line, report_in, step_due};

use machine_model::Cause;
use process_core::Admit;
use process_disk::Rack;
use process_engine::Engine;
use process_journal::journals_keep_histories;
use process_report::report;
use resource_box::Resource;
use session_text::put_exhausted;
use std::alloc::{AllocError, Global};

// The processes that began to complete since the opening, by number, each with its cause.
fn causes_of<R: Rack + Drop, B: Resource>(
    alloc: Global,
    engine: &Engine<R, B>,
) -> Result<Vec<(u32, Cause)>, AllocError>
    ensures { IfOk result (λ causes. causes.items ≡ causes_in engine.now.core) }
{
    engine.invariant_holds();
    let count = engine.history().plans.as_slice().len() as u32;
    let mut causes = Vec::new(alloc);
    let mut i = 0;
    while i < count {
        i += 1;
        if let Some(began) = engine.began(i) {
            causes.push((i, began.cause))?;
        }
    }
    Ok(causes)
}

/// The report of an engine's history, with the causes for which processes began to complete since the opening.
pub fn report_now<R: Rack + Drop, B: Resource>(
    alloc: Global,
    engine: &Engine<R, B>,
) -> Result<Vec<u8>, AllocError>
    ensures { IfOk result (λ text. text.items ≡ report_in engine.now.catalog engine.now.core) }
{
    journals_keep_histories();
    engine.invariant_holds();
    let causes = causes_of(alloc, engine)?;
    report(alloc, engine.catalog(), engine.history(), &causes)
}

/// The step that has no try left, of a process that is stuck.
pub fn stuck_step<R: Rack + Drop, B: Resource>(engine: &mut Engine<R, B>, i: u32) -> u16
    requires ready { IsReady B.Resource engine.old }
    requires stuck { IsStuckIn engine.old.core i }
    ensures step { result ≡ step_due engine.old.core i }
    ensures used_up { HasUsedUp engine.old.core i }
    ensures left { engine.new ≡ engine.old }
{
    engine.invariant_holds();
    match engine_calls::admit(engine, i) {
        Admit::Exhausted(step) => step,
        _ => unreachable!(),
    }
}

/// The report of a run in which this process is stuck, and a line that says so.
pub fn stuck_report<R: Rack + Drop, B: Resource>(
    alloc: Global,
    engine: &mut Engine<R, B>,
    i: u32,
) -> Result<Vec<u8>, AllocError>
    requires ready { IsReady B.Resource engine.old }
    requires stuck { IsStuckIn engine.old.core i }
    ensures text { IfOk result
        (λ text. text.items ≡ report_in engine.old.catalog engine.old.core ++ exhausted_line engine.old.core i) }
    ensures used_up { HasUsedUp engine.old.core i }
    ensures left { engine.new ≡ engine.old }
{
    let step = stuck_step(engine, i);
    let mut text = report_now(alloc, engine)?;
    put_exhausted(alloc, engine.history(), i, step, &mut text)?;
    Ok(text)
}

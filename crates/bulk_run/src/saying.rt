// What there is to say of a run.
ghost use Rattle.std.specs.Prelude.{◌≡◌, ◌≢◌, ◌++◌, IfOk};
ghost use Rattle.process_core.specs.Moments.{IsStuckIn};
ghost use Rattle.engine_calls.specs.Runs.{IsReady};
ghost use Rattle.worker_gate.specs.Running.{IsOutcome};
ghost use Rattle.scenario_run.specs.Reports.{HasUsedUp, exhausted_line};
ghost use Rattle.scenario_run.specs.Run.{IsSaidOf};
ghost use Rattle.bulk_run.specs.Bulk.{line_in, SaysBulk};

use crate::summing::{summary_line, summed_up};
use command_input::Said;
use command_refusals::{Refusal, Status};
use process_disk::Rack;
use process_engine::Engine;
use process_journal::journals_keep_histories;
use resource_box::Resource;
use scenario_run::stuck_step;
use session_text::put_exhausted;
use std::alloc::{AllocError, Global};
use worker_gate::RunOutcome;

// The line of an engine's history.
fn line_now<R: Rack + Drop, B: Resource>(
    alloc: Global,
    engine: &Engine<R, B>,
) -> Result<Vec<u8>, AllocError>
    ensures { IfOk result (λ text. text.items ≡ line_in engine.now.core) }
{
    journals_keep_histories();
    engine.invariant_holds();
    let summary = summed_up(alloc, engine.history(), &engine.catalog().conflicts)?;
    let line = summary_line(alloc, summary)?;
    Ok(line)
}

// The line of a run in which this process is stuck, and a line that says so.
fn stuck_line<R: Rack + Drop, B: Resource>(
    alloc: Global,
    engine: &mut Engine<R, B>,
    i: u32,
) -> Result<Vec<u8>, AllocError>
    requires ready { IsReady B.Resource engine.old }
    requires stuck { IsStuckIn engine.old.core i }
    ensures text { IfOk result (λ text. text.items ≡ line_in engine.old.core ++ exhausted_line engine.old.core i) }
    ensures used_up { HasUsedUp engine.old.core i }
    ensures left { engine.new ≡ engine.old }
{
    let step = stuck_step(engine, i);
    let mut text = line_now(alloc, engine)?;
    put_exhausted(alloc, engine.history(), i, step, &mut text)?;
    Ok(text)
}

/// What is said of a run that came to this outcome.
pub fn said_of<R: Rack + Drop, B: Resource>(
    alloc: Global,
    engine: &mut Engine<R, B>,
    outcome: RunOutcome,
) -> Result<Said, Refusal>
    requires outcome { IsOutcome engine.old outcome }
    requires ready { outcome ≢ RunOutcome.DiskFault → IsReady B.Resource engine.old }
    ensures said { IsSaidOf outcome (SaysBulk engine.old.core) result }
    ensures left { engine.new ≡ engine.old }
{
    match outcome {
        RunOutcome::AllEnded => Ok(Said {
            text: line_now(alloc, engine)?,
            status: Status::Done,
        }),
        RunOutcome::Stuck(i) => Ok(Said {
            text: stuck_line(alloc, engine, i)?,
            status: Status::Exhausted,
        }),
        RunOutcome::DiskFault => Err(Refusal::DiskFault),
        RunOutcome::NoMemory => Err(Refusal::NoMemory),
    }
}

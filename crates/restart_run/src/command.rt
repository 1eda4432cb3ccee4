// The command `restart`.
ghost use Rattle.std.specs.Prelude.{◌≡◌, ◌≢◌, false, IfOk, IfErr};
ghost use Rattle.process_disk.specs.Disk.{Told};
ghost use Rattle.history_files.specs.Boxes.{AreBoxes};
ghost use Rattle.engine_calls.specs.GateAnswers.{asked};
ghost use Rattle.command_input.specs.Early.{comes_before_files};
ghost use Rattle.command_input.specs.FilesLeft.{AreLeft, files};
ghost use Rattle.restart_run.specs.Boxes.{HaveValuesOf};
ghost use Rattle.restart_run.specs.Restart.{IsRestartComplete, IsRestartFound, SaysAll, SaysPart};

use command_input::{CommandEnd, Said};
use command_refusals::{Refusal, Status};
use history_opening::sound_files_are_opened;
use process_disk::Rack;
use process_engine::{Engine, Gate, Parts};
use process_restart::Restarted;
use resource_box::Resource;
use scenario_run::{open_refusal, report_now};
use session_text::put_exhausted;
use std::alloc::Global;
use subsystem_store::books_are_read_back;

// What is said of a completed history.
fn said_of_all<R: Rack + Drop, B: Resource>(
    alloc: Global,
    engine: &Engine<R, B>,
) -> Result<Said, Refusal>
    ensures said { IfOk result (SaysAll engine.now.catalog engine.now.core) }
    ensures refused { IfErr result (λ r. r ≡ Refusal.NoMemory) }
{
    Ok(Said {
        text: report_now(alloc, engine)?,
        status: Status::Done,
    })
}

// What is said of a history on the way, where this process has no try left at this step.
fn said_of_part<R: Rack + Drop, B: Resource>(
    alloc: Global,
    engine: &Engine<R, B>,
    process: u32,
    step: u16,
) -> Result<Said, Refusal>
    ensures said { IfOk result (SaysPart engine.now.catalog engine.now.core process step) }
    ensures refused { IfErr result (λ r. r ≡ Refusal.NoMemory) }
{
    let mut text = report_now(alloc, engine)?;
    put_exhausted(alloc, engine.history(), process, step, &mut text)?;
    Ok(Said {
        text,
        status: Status::Exhausted,
    })
}

/// Completes the history of the files, with a gate that works on one piece after another. The report is written once nobody is
/// active, or the process whose turn it is has no try left.
pub fn restart<R: Rack + Drop, B: Resource, G: Gate>(
    alloc: Global,
    parts: Parts<R, B>,
    gate: &mut G,
) -> CommandEnd<Parts<R, B>>
    requires boxes { AreBoxes B.sort parts.resources.items }
    ensures due { IsRestartFound (asked G.Gate gate.old gate.new) (files R.Rack parts.rack)
        (files R.Rack result.parts.rack) result.found }
    ensures complete { IsRestartComplete (files R.Rack parts.rack) (files R.Rack result.parts.rack) result.found }
    ensures late { IfErr result.found (λ r. comes_before_files r ≡ false) }
    ensures said { IfOk result.found (λ s. s.status ≢ Status.IllFormed) }
    ensures values { IfOk result.found (λ s. s.status ≡ Status.Done → Told (R.disk parts.rack)
        → HaveValuesOf (λ b. (B.meaning b).items) (R.disk result.parts.rack).files result.parts.resources.items) }
    ensures back { AreBoxes B.sort result.parts.resources.items }
    ensures left { AreLeft (files R.Rack parts.rack) (files R.Rack result.parts.rack) }
{
    sound_files_are_opened();
    books_are_read_back();
    match process_restart::restart(alloc, parts, gate) {
        Restarted::Ended(engine) => {
            engine.invariant_holds();
            let found = said_of_all(alloc, &engine);
            CommandEnd {
                parts: engine.into_parts(),
                found,
            }
        }
        Restarted::Exhausted {
            engine,
            process,
            step,
        } => {
            engine.invariant_holds();
            let found = said_of_part(alloc, &engine, process, step);
            CommandEnd {
                parts: engine.into_parts(),
                found,
            }
        }
        Restarted::Refused { parts, why } => CommandEnd {
            parts,
            found: Err(open_refusal(why)),
        },
    }
}

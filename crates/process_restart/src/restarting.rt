// Files are restarted.
ghost use Rattle.std.specs.Prelude.{◌≡◌};
ghost use Rattle.history_files.specs.Boxes.{AreBoxes, AreCleared};
ghost use Rattle.history_files.specs.Standing.{EachFits};
ghost use Rattle.engine_calls.specs.GateAnswers.{asked};
ghost use Rattle.process_restart.specs.Restarting.{HandsBackParts, IsRestartedAs};

use crate::RestartError;
use crate::completing::{Completion, complete};
use history_files::clear_all;
use process_disk::Rack;
use process_engine::{Engine, Gate, Parts};
use resource_box::Resource;
use std::alloc::Global;

/// What a restart came to.
#[derive(Drop)]
pub enum Restarted<R: Rack + Drop, B: Resource = Box<dyn Resource + Send>> {
    /// The history is completed: no process is active.
    Ended(Engine<R, B>),
    /// The process whose turn it is has used up the tries of this step.
    Exhausted {
        engine: Engine<R, B>,
        process: u32,
        step: u16,
    },
    /// The files were not opened, or a call of the rack failed or memory was wanting later. The boxes are empty.
    Refused {
        parts: Parts<R, B>,
        why: RestartError,
    },
}

// The parts of an engine that goes on no more, with their boxes empty.
fn cleared<R: Rack + Drop, B: Resource>(engine: Engine<R, B>) -> Parts<R, B>
    requires fits { EachFits B.Resource engine.files.stores }
    ensures rack { result.rack ≡ engine.files.rack }
    ensures boxes { AreCleared B.Resource result.resources.items }
{
    let mut parts = engine.into_parts();
    clear_all(&mut parts.resources);
    parts
}

/// Completes the history of nine files, with a gate that works on one piece after another.
pub fn restart<R: Rack + Drop, B: Resource, G: Gate>(
    alloc: Global,
    parts: Parts<R, B>,
    gate: &mut G,
) -> Restarted<R, B>
    requires boxes { AreBoxes B.sort parts.resources.items }
    ensures restarted { IsRestartedAs R.disk (asked G.Gate gate.old gate.new) parts.rack result }
    ensures back { HandsBackParts R.Rack B.Resource parts.rack result }
{
    let mut engine = match Engine::open(alloc, parts) {
        Ok(engine) => engine,
        Err(refused) => {
            return Restarted::Refused {
                parts: refused.parts,
                why: refused.why,
            };
        }
    };
    engine.invariant_holds();
    let completion = complete(&mut engine, gate);
    engine.invariant_holds();
    match completion {
        Completion::Ended => Restarted::Ended(engine),
        Completion::Exhausted { process, step } => Restarted::Exhausted {
            engine,
            process,
            step,
        },
        Completion::DiskFault => Restarted::Refused {
            parts: cleared(engine),
            why: RestartError::DiskFault,
        },
        Completion::NoMemory => Restarted::Refused {
            parts: cleared(engine),
            why: RestartError::NoMemory,
        },
    }
}

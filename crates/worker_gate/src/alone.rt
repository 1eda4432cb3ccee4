// One thread runs the processes of an engine, with one gate.
ghost use Rattle.std.specs.Prelude.{◌≡◌, ◌≢◌, ◌<◌, length, IfSome, Some, None};
ghost use Rattle.process_flow.specs.Causes.{Rose};
ghost use Rattle.history_files.specs.Standing.{EachFits};
ghost use Rattle.engine_calls.specs.GateAnswers.{asked};
ghost use Rattle.engine_calls.specs.Runs.{IsReady};
ghost use Rattle.worker_gate.specs.Running.{IsOutcome, NothingRuns, RanBy, failure_of};

use engine_calls::{next, work};
use process_core::Next;
use process_disk::Rack;
use process_engine::{Engine, Finish, Gate};
use resource_box::Resource;

/// Why nothing more is run.
#[derive(Clone, Copy, Debug, PartialEq, Eq)]
pub enum RunOutcome {
    /// No process is active.
    AllEnded,
    /// Nobody can go on or go back, and this is the least process that has used up its tries.
    Stuck(u32),
    /// A call of the rack failed. The engine is closed.
    DiskFault,
    /// A piece found no memory, and is still out.
    NoMemory,
}

/// Why nothing is run after the end of a piece.
fn failure(finish: Finish) -> Option<RunOutcome>
    ensures { result ≡ failure_of finish }
{
    match finish {
        Finish::DiskFault => Some(RunOutcome::DiskFault),
        Finish::NoMemory(_) => Some(RunOutcome::NoMemory),
        _ => None,
    }
}

/// The next piece is handed out, worked on and ended, while no other is out; or else nothing more is run.
fn turn<R: Rack + Drop, B: Resource, G: Gate>(
    engine: &mut Engine<R, B>,
    gate: &mut G,
) -> Option<RunOutcome>
    requires ready { IsReady B.Resource engine.old }
    requires alone { NothingRuns engine.old.core }
    ensures ran { RanBy R.Rack (asked G.Gate gate.old gate.new) engine.old engine.new }
    ensures outcome { IfSome result (IsOutcome engine.new) }
    ensures fault { result ≡ Some RunOutcome.DiskFault → Rose (R.faults engine.old.files.rack) (R.faults engine.new.files.rack) }
    ensures ready { result ≢ Some RunOutcome.DiskFault → IsReady B.Resource engine.new }
    ensures fits { EachFits B.Resource engine.new.files.stores }
    ensures idle { result ≡ None → NothingRuns engine.new.core }
    ensures more { result ≡ None → length engine.old.core.kept < length engine.new.core.kept }
{
    engine.invariant_holds();
    match next(engine) {
        Next::Piece(piece) => {
            engine.invariant_holds();
            failure(work(engine, gate, piece))
        }
        Next::Wait(_) => unreachable!(),
        Next::AllEnded => Some(RunOutcome::AllEnded),
        Next::Stuck(process) => Some(RunOutcome::Stuck(process)),
    }
}

/// Runs the processes of a settled engine of which no piece is out, until all have ended or one is stuck, or a call fails. The gate
/// works on one piece after another, each of which is finished by itself; the end of a process asks no gate. `bulk` goes by it, and
/// so do callers that have no threads.
pub fn run_alone<R: Rack + Drop, B: Resource, G: Gate>(
    engine: &mut Engine<R, B>,
    gate: &mut G,
) -> RunOutcome
    requires ready { IsReady B.Resource engine.old }
    requires alone { NothingRuns engine.old.core }
    ensures ran { RanBy R.Rack (asked G.Gate gate.old gate.new) engine.old engine.new }
    ensures outcome { IsOutcome engine.new result }
    ensures fault { result ≡ RunOutcome.DiskFault → Rose (R.faults engine.old.files.rack) (R.faults engine.new.files.rack) }
    ensures ready { result ≢ RunOutcome.DiskFault → IsReady B.Resource engine.new }
    ensures fits { EachFits B.Resource engine.new.files.stores }
{
    engine.invariant_holds();
    'turns: loop {
        match turn(engine, gate) {
            Some(outcome) => return outcome,
            None => engine.invariant_holds(),
        }
    }
}

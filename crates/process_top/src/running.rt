// The command `run` by the first of sixteen gates.
ghost use Rattle.std.specs.Prelude.{◌≡◌, ◌≤◌, true, length, IfOk, IfErr};
ghost use Rattle.history_files.specs.Boxes.{AreBoxes};
ghost use Rattle.command_input.specs.FilesLeft.{AreLeft};
ghost use Rattle.command_input.specs.Early.{comes_before_files};
ghost use Rattle.scenario_run.specs.Completeness.{IsRunComplete};
ghost use Rattle.scenario_run.specs.Run.{IsRunDue};
ghost use Rattle.process_top.specs.Commands.{AreOthersAsBefore};
ghost use Rattle.process_top.specs.Run.{first_gates, gates_asked};
ghost use Rattle.process_top.specs.Worlds.{files, input, gates as told_gates};

use command_refusals::{Refusal, Status};
use process_disk::{Rack, racks_are_honest};
use process_engine::{Gate, Parts};
use process_flow::Source;
use resource_box::Resource;
use scenario_run::{RunEnd, run};
use std::alloc::Global;
use std::sync::Wait;
use std::thread::Threads;

/// Runs the source's scenario by the first so many of sixteen gates, each of which has a worker. Room for the other gates is taken
/// before the input is read.
pub(crate) fn run_by_first<
    H: Threads + Wait + Sync,
    S: Source,
    R: Rack + Drop + Send,
    B: Resource + Send,
    G: Gate + Send,
>(
    rt: &H,
    alloc: Global,
    workers: u32,
    source: &mut S,
    parts: Parts<R, B>,
    gates: Vec<G>,
) -> RunEnd<Parts<R, B>, G>
    requires workers { (1 ≤ workers) × (workers ≤ 16) }
    requires boxes { AreBoxes B.sort parts.resources.items }
    requires gates { length gates.items ≡ 16 }
    ensures due { IsRunDue
        (first_gates workers (gates_asked (told_gates G.Gate gates.items) (told_gates G.Gate result.gates.items)))
        (input S.Source source.old) (input S.Source source.new) (files R.Rack parts.rack) (files R.Rack result.parts.rack)
        result.found }
    ensures others { AreOthersAsBefore workers (told_gates G.Gate gates.items) (told_gates G.Gate result.gates.items) }
    ensures complete { IsRunComplete (input S.Source source.old) (input S.Source source.new) (files R.Rack parts.rack)
        (files R.Rack result.parts.rack) result.found }
    ensures early { IfErr result.found (λ r. comes_before_files r ≡ true → result.parts.rack ≡ parts.rack) }
    ensures ill_formed { IfOk result.found (λ s. s.status ≡ Status.IllFormed → result.parts.rack ≡ parts.rack) }
    ensures back { AreBoxes B.sort result.parts.resources.items }
    ensures left { AreLeft (files R.Rack parts.rack) (files R.Rack result.parts.rack) }
{
    racks_are_honest::<R>();
    let mut gates = gates;
    let mut others = match gates.split_off(workers as usize) {
        Ok(others) => others,
        Err(_) => {
            return RunEnd {
                parts,
                gates,
                found: Err(Refusal::NoMemory),
            };
        }
    };
    let RunEnd {
        parts,
        gates,
        found,
    } = run(rt, alloc, source, parts, gates);
    let mut gates = gates;
    match gates.append(&mut others) {
        Ok(()) => others.destroy_empty(),
        Err(_) => unreachable!(),
    }
    RunEnd {
        parts,
        gates,
        found,
    }
}

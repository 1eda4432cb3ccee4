// Runs of one process with a gate: what each turn comes to.
ghost use Rattle.history_files.specs.Boxes.{AreBoxes};

use crate::beginnings::{created, must, planned, start_all};
use crate::turns::{Turn, take_turn};
use process_disk::Rack;
use process_engine::{Engine, StartLimit, fits};
use process_tree::Plan;
use resource_box::Resource;
use std::alloc::Global;
use std::process::Abort;
use worker_gate::{Gate, PlainGate, ScriptGate};

struct Run {
    name: &'static str,
    text: &'static [u8],
    /// The calls that a gate by a script refuses, and none of the plain gate.
    refuse: Option<&'static [u32]>,
    turns: &'static [Turn],
}

const RUNS: [Run; 7] = [
    Run {
        name: "a step is tried until the plain gate has refused it as often as it says",
        text: b"process a p x pay 1 5 r y ship 1 1 tries 3 refuse 2 end",
        refuse: None,
        turns: &[
            Turn::Effected(2),
            Turn::Retry(1),
            Turn::Retry(2),
            Turn::Effected(3),
            Turn::Effected(4),
            Turn::AllEnded,
        ],
    },
    Run {
        name: "and so is an undo",
        text: b"process a c w add 1 5 undorefuse 2 p x pay 1 5 refuse 1 end",
        refuse: None,
        turns: &[
            Turn::Effected(2),
            Turn::Failed,
            Turn::Retry(1),
            Turn::Retry(2),
            Turn::Effected(3),
            Turn::Effected(4),
            Turn::AllEnded,
        ],
    },
    Run {
        name: "a step that is refused as often as it may be tried is stuck",
        text: b"process a p x pay 1 5 r y ship 1 1 tries 2 refuse 2 end",
        refuse: None,
        turns: &[
            Turn::Effected(2),
            Turn::Retry(1),
            Turn::Exhausted,
            Turn::Stuck(1),
        ],
    },
    Run {
        name: "a step that the values bar fails though the gate has done its work",
        text: b"process a c w add 1 1 c x take 1 2 end",
        refuse: None,
        turns: &[
            Turn::Effected(2),
            Turn::Failed,
            Turn::Effected(3),
            Turn::Effected(4),
            Turn::AllEnded,
        ],
    },
    Run {
        name: "a gate by a script refuses calls by their numbers",
        text: b"process a p x pay 1 5 r y ship 1 1 r z ship 1 1 end",
        refuse: Some(&[1, 3]),
        turns: &[
            Turn::Effected(2),
            Turn::Retry(1),
            Turn::Effected(3),
            Turn::Retry(1),
            Turn::Effected(4),
            Turn::Effected(5),
            Turn::AllEnded,
        ],
    },
    Run {
        name: "whatever the steps say",
        text: b"process a p x pay 1 5 refuse 1 r y ship 1 1 refuse 1 end",
        refuse: Some(&[]),
        turns: &[
            Turn::Effected(2),
            Turn::Effected(3),
            Turn::Effected(4),
            Turn::AllEnded,
        ],
    },
    Run {
        name: "and is not asked for an end",
        text: b"process a c x add 1 5 end",
        refuse: Some(&[1]),
        turns: &[Turn::Effected(2), Turn::Effected(3), Turn::AllEnded],
    },
];

// Each turn of the process comes to what it should; the boxes are handed back.
fn expect_turns<H: Abort, B: Resource, G: Gate>(
    rt: &H,
    alloc: Global,
    run: &Run,
    gate: &mut G,
    resources: Vec<B>,
) -> Vec<B>
    requires { AreBoxes B.sort resources.items }
    ensures { AreBoxes B.sort result.items }
{
    let engine = created(rt, alloc, resources);
    let mut engine = start_all(rt, alloc, engine, &[run.text]);
    for (place, wanted) in run.turns.iter().enumerate() {
        let came = take_turn(&mut engine, gate);
        assert_eq!(rt; came, *wanted, "{}, turn {place}", run.name);
    }
    engine.into_parts().resources
}

fn expect_run<H: Abort, B: Resource>(rt: &H, alloc: Global, run: &Run, resources: Vec<B>) -> Vec<B>
    requires { AreBoxes B.sort resources.items }
    ensures { AreBoxes B.sort result.items }
{
    match run.refuse {
        None => expect_turns(rt, alloc, run, &mut PlainGate::new(), resources),
        Some(calls) => {
            let mut gate = ScriptGate::new(must(rt, calls.to_vec(alloc)));
            expect_turns(rt, alloc, run, &mut gate, resources)
        }
    }
}

/// Gates refuse what they were told.
pub fn expect_runs<H: Abort, B: Resource>(rt: &H, alloc: Global, resources: Vec<B>)
    requires { AreBoxes B.sort resources.items }
{
    let mut resources = resources;
    for run in &RUNS {
        resources = expect_run(rt, alloc, run, resources);
    }
}

const FIRST: &[u8] = b"process a c x add 1 5 end";

const SECOND: &[u8] = b"process b c u add 1 5 end";

// Which limit is passed with one process more.
fn limit_with<R: Rack + Drop, B: Resource>(
    engine: &Engine<R, B>,
    plan: Plan,
) -> Result<(), StartLimit> {
    fits(engine, &[plan])
}

/// A process fits beside another.
pub fn expect_room<H: Abort, B: Resource>(rt: &H, alloc: Global, resources: Vec<B>)
    requires { AreBoxes B.sort resources.items }
{
    let engine = created(rt, alloc, resources);
    let engine = start_all(rt, alloc, engine, &[FIRST]);
    let plan = planned(rt, alloc, &engine, SECOND);
    assert_eq!(rt; limit_with(&engine, plan), Ok(()));
}

// Two workers at one engine.
ghost use Rattle.history_files.specs.Boxes.{AreBoxes};

use crate::beginnings::{created, must, start_all};
use crate::boxes::boxes;
use process_disk::Rack;
use process_engine::Engine;
use resource_box::Resource;
use std::alloc::Global;
use std::process::Abort;
use std::sync::Wait;
use std::thread::Threads;
use thread_workers::{MeetingGate, Ran, run_workers};
use worker_gate::RunOutcome;

// Each of two processes has one step, and does it while the other does its own: else a gate would have refused a pivot.
const TEXTS: [&[u8]; 2] = [b"process a p x pay 1 5 end", b"process b p u ship 1 1 end"];

// How often a gate looks for the other.
const LOOKS: u32 = 100_000_000;

// The history has a start, a step and an end of each, and nothing else.
fn expect_both<H: Abort, R: Rack + Drop, B: Resource>(rt: &H, engine: &Engine<R, B>) {
    let events = engine.history().events.as_slice();
    assert_eq!(rt; events.len(), 6, "the history");
}

/// Two workers, each with a gate that waits for the other, end both processes.
fn expect_meeting<H: Abort + Threads + Wait + Sync, B: Resource + Send>(
    rt: &H,
    alloc: Global,
    resources: Vec<B>,
)
    requires { AreBoxes B.sort resources.items }
{
    let (one, other) = must(rt, MeetingGate::pair(alloc, LOOKS));
    let Ok(gates) = vec![in alloc; one, other] else {
        panic!(rt; "no memory");
    };
    let engine = created(rt, alloc, resources);
    let engine = start_all(rt, alloc, engine, &TEXTS);
    let Ok(()) = engine.not_closed() else {
        panic!(rt; "closed");
    };
    let Ran {
        engine,
        gates,
        outcome,
    } = run_workers(rt, alloc, engine, gates);
    assert_eq!(rt; outcome, RunOutcome::AllEnded, "the outcome");
    assert_eq!(rt; gates.len(), 2, "the gates");
    expect_both(rt, &engine);
}

#[test]
fn two_workers_meet(rt: HostRuntime) {
    let alloc = rt.alloc();
    let boxes = boxes(&rt, alloc);
    expect_meeting(&rt, alloc, boxes);
}

// The printed traces of worked histories.
ghost use Rattle.std.specs.Prelude.{◌≡◌};
ghost use Rattle.process_tree.specs.Conflicts.{no_conflicts, with_mode};

use crate::shop::{ADD, TAKE, both_undone, done, must, undone};
use process_tree::{Conflicts, Mode};
use reduction_trace::TraceStep::{Cancel, Move};
use reduction_trace::{trace, trace_of};
use std::alloc::Global;
use std::process::Abort;

fn stock_table(rt: &impl Abort, alloc: Global) -> Conflicts
    ensures { result ≡ with_mode (with_mode (no_conflicts 5) 0 1 Mode.Always) 1 1 Mode.Always }
{
    let Ok(mut c) = Conflicts::new(alloc, 5) else {
        panic!(rt; "no memory");
    };
    c.set(ADD, TAKE, Mode::Always);
    c.set(TAKE, TAKE, Mode::Always);
    c
}

#[test]
fn histories_and_schedules_are_reduced(rt: HostRuntime) {
    let alloc = rt.alloc();
    let history = both_undone(&rt, alloc);
    let table = stock_table(&rt, alloc);
    let reduction = must(&rt, trace(alloc, &history, &table));
    assert!(rt; reduction.completion.as_slice().is_empty());
    assert!(rt; reduction.steps.as_slice() == [Cancel(2), Cancel(1)].as_slice());
    assert!(rt; reduction.serial.as_slice().is_empty());
    side_by_side(&rt, alloc);
    taken_back(&rt, alloc);
}

// A purchase and a delivery side by side, of which the delivery ends first.
fn side_by_side(rt: &impl Abort, alloc: Global) {
    let list = [done(1, 0, 0), done(2, 0, 0), done(2, 1, 3), done(1, 1, 2)];
    let (steps, serial) = must(rt, trace_of(alloc, &list, &[2, 1]));
    assert!(rt; steps.as_slice() == [Move(2, 1), Move(3, 2)].as_slice());
    assert!(rt; serial.as_slice() == [list[1], list[2], list[0], list[3]].as_slice());
}

// An order that pays, takes from what an addition made, takes that back with it, and ships by its last way.
fn taken_back(rt: &impl Abort, alloc: Global) {
    let list = [
        done(2, 0, 2),
        done(1, 0, 0),
        done(2, 1, 1),
        undone(2, 1, 1),
        undone(1, 0, 0),
        done(2, 4, 3),
    ];
    let (steps, serial) = must(rt, trace_of(alloc, &list, &[1, 2]));
    assert!(rt; steps.as_slice() == [Cancel(3), Cancel(2)].as_slice());
    assert!(rt; serial.as_slice() == [list[0], list[5]].as_slice());
}

// What no clause of `instance_state` says: one process on its way, step by step. After a pivot there are three ways, of which the
// last is retriable; and there is a process of a single step.
use crate::plans::{must, steps};
use instance_state::{Instance, Recovery, Refusal, Todo};
use process_tree::{Block, Name, Operations, Plan, StepKind, Tail, Tree};
use std::alloc::Global;
use std::process::Abort;

/// Steps of these kinds, named by letters from this one on, and a tail.
fn block(rt: &impl Abort, alloc: Global, kinds: &[StepKind], first: u8, tail: Tail) -> Block {
    let steps = steps(rt, alloc, kinds, first, 0);
    Block { steps, tail }
}

fn plan(rt: &impl Abort, alloc: Global, root: Block) -> Plan {
    let tree = must(rt, Tree::build(alloc, root));
    let mut ops = Vec::new(alloc);
    for _ in 0..tree.count() {
        must(rt, ops.push(0));
    }
    Plan {
        name: must(rt, Name::new(alloc, b"b")),
        tree,
        ops: Operations::new(ops),
    }
}

/// A pivot 0; then 1 and 2, or 3, or 4, of which 4 alone is retriable.
fn three_ways(rt: &impl Abort, alloc: Global) -> Plan {
    let mut ways = Vec::new(alloc);
    must(
        rt,
        ways.push(block(rt, alloc, &[StepKind::C, StepKind::C], b'b', Tail::End)),
    );
    must(
        rt,
        ways.push(block(rt, alloc, &[StepKind::C], b'd', Tail::End)),
    );
    must(
        rt,
        ways.push(block(rt, alloc, &[StepKind::R], b'e', Tail::End)),
    );
    plan(
        rt,
        alloc,
        block(rt, alloc, &[StepKind::P], b'a', Tail::Choice(ways)),
    )
}

/// Its next piece is refused, if there is one that may be tried.
fn refused(process: &mut Instance) -> Option<Refusal> {
    match process.todo() {
        Todo::Forward(_) | Todo::Undo(_) => Some(process.refused()),
        Todo::End | Todo::Exhausted(_) => None,
    }
}

#[test]
fn an_abort_undoes_behind_the_commit_point_and_does_what_is_owed(rt: HostRuntime) {
    let alloc = rt.alloc();
    let plan = three_ways(&rt, alloc);
    let mut process = must(&rt, Instance::new(alloc, &plan));
    process.effected();
    process.effected();
    assert_eq!(rt; process.todo(), Todo::Forward(2));
    process.abort();
    assert_eq!(rt; process.todo(), Todo::Undo(1));
    assert_eq!(rt; process.pending(), 1);
    process.effected();
    assert_eq!(rt; process.todo(), Todo::Forward(4));
    process.effected();
    assert_eq!(rt; process.todo(), Todo::End);
    assert_eq!(rt; process.recovery(), Recovery::Forward);
    assert_eq!(rt; process.pending(), 0);
}

#[test]
fn refusals_lead_from_way_to_way_and_then_to_other_tries(rt: HostRuntime) {
    let alloc = rt.alloc();
    let plan = three_ways(&rt, alloc);
    let mut process = must(&rt, Instance::new(alloc, &plan));
    process.effected();
    assert_eq!(rt; refused(&mut process), Some(Refusal::Alternative));
    assert_eq!(rt; process.todo(), Todo::Forward(3));
    assert_eq!(rt; refused(&mut process), Some(Refusal::Alternative));
    assert_eq!(rt; process.todo(), Todo::Forward(4));
    assert_eq!(rt; refused(&mut process), Some(Refusal::Retry(1)));
    assert_eq!(rt; refused(&mut process), Some(Refusal::Retry(2)));
    assert_eq!(rt; refused(&mut process), Some(Refusal::Exhausted));
    assert_eq!(rt; process.todo(), Todo::Exhausted(4));
}

#[test]
fn the_refusal_of_the_only_step_rolls_back(rt: HostRuntime) {
    let alloc = rt.alloc();
    let root = block(&rt, alloc, &[StepKind::C], b'x', Tail::End);
    let plan = plan(&rt, alloc, root);
    let mut process = must(&rt, Instance::new(alloc, &plan));
    assert_eq!(rt; refused(&mut process), Some(Refusal::RollBack));
    assert_eq!(rt; process.todo(), Todo::End);
    assert_eq!(rt; process.recovery(), Recovery::Backward);
}

#[test]
fn a_process_that_did_nothing_before_an_opening_is_as_one_that_starts(rt: HostRuntime) {
    let alloc = rt.alloc();
    let plan = three_ways(&rt, alloc);
    let process = must(&rt, Instance::replay(alloc, &plan, &[]));
    assert_eq!(rt; process.todo(), Todo::Forward(0));
    assert_eq!(rt; process.tried(), 0);
    assert_eq!(rt; process.pending(), 0);
}

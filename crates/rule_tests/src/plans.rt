// Plans of a few steps.
ghost use Rattle.std.specs.Prelude.{◌≡◌, ◌∷◌, [], false, length};
ghost use Rattle.process_tree.specs.Blocks.{outline};
ghost use Rattle.process_tree.specs.Conflicts.{no_conflicts, with_mode};

use process_tree::{
    Block, Conflicts, Entry, Mode, Name, Operations, Plan, Step, StepKind, Steps, Tail, Tree,
};
use std::alloc::Global;
use std::process::Abort;

/// What was to be had: memory is never wanting here.
pub fn must<T: Drop, E: Drop>(rt: &impl Abort, found: Result<T, E>) -> T {
    match found {
        Ok(value) => value,
        Err(_) => panic!(rt; "no memory"),
    }
}

fn step(rt: &impl Abort, alloc: Global, kind: StepKind, name: u8, key: u32) -> Step {
    Step {
        kind,
        name: must(rt, Name::new(alloc, &[name])),
        op: must(rt, Name::new(alloc, b"op")),
        key,
        amount: 0,
        tries: 3,
        undo_tries: 3,
        refuse: 0,
        undo_refuse: 0,
    }
}

/// Steps of these kinds on this key, named by letters from this one on.
pub fn steps(rt: &impl Abort, alloc: Global, kinds: &[StepKind], first: u8, key: u32) -> Steps
    ensures { length result ≡ length kinds.now }
{
    let mut steps = Vec::new(alloc);
    let mut letter = first;
    for place in 0..kinds.len() {
        let Ok(()) = steps.push(step(rt, alloc, kinds[place], letter, key)) else {
            panic!(rt; "no memory");
        };
        letter = letter.wrapping_add(1);
    }
    Steps::new(steps)
}

/// A plan of steps of these kinds, with these operations on this key.
pub fn plan(rt: &impl Abort, alloc: Global, kinds: &[StepKind], ops: Vec<u16>, key: u32) -> Plan
    ensures ops { result.ops ≡ ops.items }
    ensures steps { length (outline result.tree).steps ≡ length kinds.now }
{
    let name = must(rt, Name::new(alloc, b"plan"));
    let block = Block {
        steps: steps(rt, alloc, kinds, b'a', key),
        tail: Tail::End,
    };
    let Ok(tree) = Tree::build(alloc, block) else {
        panic!(rt; "no tree");
    };
    Plan {
        name,
        tree,
        ops: Operations::new(ops),
    }
}

/// A plan of one step, of operation 0 on key 0.
pub fn one_step(rt: &impl Abort, alloc: Global) -> Plan
    ensures ops { result.ops ≡ 0 ∷ [] }
    ensures steps { length (outline result.tree).steps ≡ 1 }
{
    let Ok(ops) = vec![in alloc; 0] else {
        panic!(rt; "no memory");
    };
    plan(rt, alloc, &[StepKind::C], ops, 0)
}

/// One operation, which conflicts with itself in this mode.
pub fn one_conflict(rt: &impl Abort, alloc: Global, mode: Mode) -> Conflicts
    ensures { result ≡ with_mode (no_conflicts 1) 0 0 mode }
{
    let Ok(mut conflicts) = Conflicts::new(alloc, 1) else {
        panic!(rt; "no memory");
    };
    conflicts.set(0, 0, mode);
    conflicts
}

/// A step of a process, with its operation and its key.
pub fn entry(process: u32, step: u16, op: u16, key: u32) -> Entry
    ensures { result ≡ record { process = process; step = step; op = op; key = key; undo = false } }
{
    Entry {
        process,
        step,
        op,
        key,
        undo: false,
    }
}

// Gates that refuse a piece as often as it may be tried, and gates that refuse nothing.
ghost use Rattle.std.specs.Prelude.{◌≡◌, length, IfOk};

use crate::plays::{Call, must, played_anew};
use command_tests::calls::{answer_with, plain_call};
use process_disk::MemoryRack;
use std::alloc::{AllocError, Global};
use std::process::Abort;
use std::sync::Wait;
use std::thread::Threads;
use worker_gate::ScriptGate;

// A step that is owed, and an undo, which the program's own gates refuse as often as they may be tried: in each restart anew.
const OWED_STEP: [Call; 2] = [
    (
        "run",
        b"process b p x pay 1 5 r y ship 1 1 refuse 3 end\n",
        b"",
        11,
        b"conflicts\nadd take\ntake take\nnote note\nbook book\nhistory\nstart 1 b\ndo 1.x pay\ncompletion\ndo 1.y ship\nend 1\n\
        ends\n1 b active\ncauses\ntrace\nserial\ndo 1.x pay\ndo 1.y ship\nexhausted 1 y\n",
    ),
    (
        "restart",
        b"",
        b"",
        11,
        b"conflicts\nadd take\ntake take\nnote note\nbook book\nhistory\nstart 1 b\ndo 1.x pay\ncompletion\ndo 1.y ship\nend 1\n\
        ends\n1 b active\ncauses\n1 restart\ntrace\nserial\ndo 1.x pay\ndo 1.y ship\nexhausted 1 y\n",
    ),
];

const STEP_DONE: &[u8] =
    b"conflicts\nadd take\ntake take\nnote note\nbook book\nhistory\nstart 1 b\ndo 1.x pay\ndo 1.y ship\nend 1\ncompletion\n\
    ends\n1 b path x y\ncauses\n1 restart\ntrace\nserial\ndo 1.x pay\ndo 1.y ship\n";

// What comes before the undo is undone first, and another process waits for its turn.
const OWED_UNDO: [Call; 2] = [
    (
        "session",
        b"process b c x pay 1 5 undo 2 undorefuse 2 c z add 1 1 end\nprocess d p v ship 1 1 r w mail 1 1 end\n",
        b"%%\nstart b\nstart d\nadmit 1\nfinish 1 done\nadmit 1\nfinish 2 done\nadmit 2\nfinish 3 done\n",
        0,
        b"started 1 b\nstarted 2 d\npiece 1: do 1.x\neffected 3\npiece 2: do 1.z\neffected 4\npiece 3: do 2.v\neffected 5\n",
    ),
    (
        "restart",
        b"",
        b"",
        11,
        b"conflicts\nadd take\ntake take\nnote note\nbook book\n\
        history\nstart 1 b\nstart 2 d\ndo 1.x pay\ndo 1.z add\ndo 2.v ship\nundo 1.z add\n\
        completion\nundo 1.x pay\nend 1\ndo 2.w mail\nend 2\nends\n1 b active\n2 d active\ncauses\n1 restart\n2 restart\n\
        trace\nmove 2 3\ncancel 3\nmove 1 2\ncancel 2\nserial\ndo 2.v ship\ndo 2.w mail\nexhausted 1 x\n",
    ),
];

const UNDO_DONE: &[u8] = b"conflicts\nadd take\ntake take\nnote note\nbook book\n\
    history\nstart 1 b\nstart 2 d\ndo 1.x pay\ndo 1.z add\ndo 2.v ship\nundo 1.z add\nundo 1.x pay\nend 1\ndo 2.w mail\nend 2\n\
    completion\nends\n1 b nothing\n2 d path v w\ncauses\n1 restart\n2 restart\n\
    trace\nmove 2 3\ncancel 3\nmove 1 2\ncancel 2\nserial\ndo 2.v ship\ndo 2.w mail\n";

// Sixteen gates that refuse nothing.
fn willing_gates(alloc: Global) -> Result<Vec<ScriptGate>, AllocError>
    ensures { IfOk result (λ gates. length gates.items ≡ 16) }
{
    let mut gates = Vec::new(alloc);
    for _ in 0..16_usize {
        gates.push(ScriptGate::new(Vec::new(alloc)))?;
    }
    Ok(gates)
}

// With gates that refuse nothing a restart has this output, and all is done.
fn expect_done<H: Abort + Threads + Wait + Sync>(
    rt: &H,
    alloc: Global,
    rack: MemoryRack,
    output: &[u8],
) {
    let Ok(gates) = willing_gates(alloc) else {
        panic!(rt; "no memory");
    };
    let told = must(
        rt,
        answer_with(rt, alloc, plain_call(&["restart"], b""), rack, gates),
    );
    assert_eq!(rt; told.sink.bytes(), output);
    assert_eq!(rt; told.status, 0);
}

#[test]
fn what_is_refused_as_often_as_it_may_be_tried_is_told(rt: HostRuntime) {
    let alloc = rt.alloc();
    let rack = played_anew(&rt, alloc, &OWED_STEP);
    expect_done(&rt, alloc, rack, STEP_DONE);
    let rack = played_anew(&rt, alloc, &OWED_UNDO);
    expect_done(&rt, alloc, rack, UNDO_DONE);
}

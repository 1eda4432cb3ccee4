// Two workers of a run.
ghost use Rattle.std.specs.Prelude.{◌≡◌, IfOk, length};

use crate::calls::{answer_with, empty, plain_call};
use crate::expected::{expect_on, must};
use crate::scenarios::scenario;
use std::alloc::{AllocError, Global};
use thread_workers::MeetingGate;

// Each of two processes has one step, and does it while the other does its own: else a gate would have refused a pivot.
const PROCESSES: &[u8] = b"process a p x pay 1 5 end\nprocess b p u ship 1 1 end\n";

// What the report has in whichever order the two ended their pieces; a trace may move one before the other.
const BOTH_ENDED: &[u8] = b"ends\n1 a path x\n2 b path u\ncauses\ntrace\n";

// How often a gate looks for the other.
const LOOKS: u32 = 100_000_000;

// Sixteen gates, two of which meet each.
fn meeting_gates(alloc: Global) -> Result<Vec<MeetingGate>, AllocError>
    ensures { IfOk result (λ gates. length gates.items ≡ 16) }
{
    let mut gates = Vec::new(alloc);
    for _ in 0..8_usize {
        let (one, other) = MeetingGate::pair(alloc, LOOKS)?;
        gates.push(one)?;
        gates.push(other)?;
    }
    Ok(gates)
}

fn has(text: &[u8], part: &[u8]) -> bool {
    let mut rest = text;
    while let [_, after @ ..] = rest {
        if rest.starts_with(part) {
            return true;
        }
        rest = after;
    }
    false
}

#[test]
fn two_workers_meet_in_a_run(rt: HostRuntime) {
    let alloc = rt.alloc();
    let text = must(&rt, scenario(alloc, PROCESSES, b""));
    let rack = must(&rt, empty(alloc, &[]));
    let rack = expect_on(&rt, alloc, &["init"], &text, rack, 0, b"created\n");
    let run = plain_call(&["run", "--workers", "2"], &text);
    let Ok(gates) = meeting_gates(alloc) else {
        panic!(&rt; "no memory");
    };
    let told = must(&rt, answer_with(&rt, alloc, run, rack, gates));
    assert_eq!(rt; told.status, 0);
    assert!(rt; has(told.sink.bytes(), BOTH_ENDED));
}

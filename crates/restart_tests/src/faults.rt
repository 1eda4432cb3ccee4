// What a restart makes of files on which a call of the rack had failed.
use crate::plays::{Call, expect_on, made, must, played};
use command_tests::scenarios::scenario;
use process_disk::MemoryRack;
use std::alloc::Global;
use std::process::Abort;
use std::sync::Wait;
use std::thread::Threads;

const PURCHASE: &[u8] = b"process a c x add 1 5 p y pay 1 5 end\n";

// What was prepared and isn't in the history is taken back.
const TAKEN_BACK: [Call; 1] = [(
    "restart",
    b"",
    b"",
    0,
    b"conflicts\nadd take\ntake take\nnote note\nbook book\nhistory\nstart 1 a\nend 1\ncompletion\n\
    ends\n1 a nothing\ncauses\n1 restart\ntrace\nserial\n",
)];

// The calls of a rack up to the piece that is handed out.
fn calls_before<H: Abort + Threads + Wait + Sync>(rt: &H, alloc: Global) -> u32 {
    let lines = must(rt, scenario(alloc, PURCHASE, b"%%\nstart a\nadmit 1\n"));
    let answers = b"started 1 a\npiece 1: do 1.x\n";
    let rack = made(rt, alloc, &[]);
    let rack = expect_on(rt, alloc, "session", &lines, rack, 0, answers);
    must(rt, u32::try_from(rack.calls()))
}

// The rack behind a session of which the last sync of a piece's prepare fails.
fn faulty<H: Abort + Threads + Wait + Sync>(rt: &H, alloc: Global) -> MemoryRack {
    let fails = [calls_before(rt, alloc).wrapping_add(4)];
    let lines = must(
        rt,
        scenario(
            alloc,
            PURCHASE,
            b"%%\nstart a\nadmit 1\nfinish 1 done\nnext\n",
        ),
    );
    let answers = b"started 1 a\npiece 1: do 1.x\ndisk fault\n";
    let rack = made(rt, alloc, &fails);
    expect_on(rt, alloc, "session", &lines, rack, 10, answers)
}

#[test]
fn a_restart_goes_on_behind_a_fault(rt: HostRuntime) {
    let alloc = rt.alloc();
    drop(played(&rt, alloc, faulty(&rt, alloc), &TAKEN_BACK));
}

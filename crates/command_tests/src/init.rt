// The command `init`.
use crate::calls::{Call, empty};
use crate::expected::{expect_call, expect_on, must};
use process_disk::Rack;

const INIT: &[&str] = &["init"];

// A scenario whose catalog has the operation `add` alone; what it says of processes isn't looked at.
const ADD_ALONE: &[u8] = b"version = 1\nprocesses = \"no process\"\n\n\
    [[op]]\nname = \"add\"\nsubsystem = 0\nverb = \"add\"\n";

const UNREAD: Call<'static> = Call {
    words: INIT,
    text: ADD_ALONE,
    reads: &[0],
    writes: &[],
};

#[test]
fn faults_are_told(rt: HostRuntime) {
    let alloc = rt.alloc();
    for fault in [0, 8, 9, 10, 13, 20] {
        let rack = must(&rt, empty(alloc, &[fault]));
        drop(expect_on(&rt, alloc, INIT, ADD_ALONE, rack, 10, b"disk fault\n"));
    }
    let mut left = expect_call(
        &rt,
        alloc,
        UNREAD,
        must(&rt, empty(alloc, &[])),
        8,
        b"read fault\n",
    );
    assert_eq!(rt; left.len(0), Ok(0));
}

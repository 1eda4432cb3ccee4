// Calls of the program on one rack, with what they should answer.
use command_tests::calls::{answer_to, empty, plain_call};
use command_tests::scenarios::scenario;
use process_disk::MemoryRack;
use std::alloc::Global;
use std::process::Abort;
use std::sync::Wait;
use std::thread::Threads;

/// A call: its word, the processes of its scenario, what stands behind the scenario, its status and its output.
pub type Call = (
    &'static str,
    &'static [u8],
    &'static [u8],
    u8,
    &'static [u8],
);

/// What was to be had: memory is never wanting here, and no number too large.
pub fn must<T: Drop, E: Drop>(rt: &impl Abort, found: Result<T, E>) -> T {
    match found {
        Ok(value) => value,
        Err(_) => panic!(rt; "no memory, or too large a number"),
    }
}

/// A word and an input on a rack have this status and this whole output. The answer is the rack after them.
pub fn expect_on<H: Abort + Threads + Wait + Sync>(
    rt: &H,
    alloc: Global,
    word: &str,
    text: &[u8],
    rack: MemoryRack,
    status: u8,
    output: &[u8],
) -> MemoryRack {
    let told = must(rt, answer_to(rt, alloc, plain_call(&[word], text), rack));
    assert_eq!(rt; told.sink.bytes(), output);
    assert_eq!(rt; told.status, status);
    told.rack
}

/// These calls in order on this rack; the rack after them.
pub fn played<H: Abort + Threads + Wait + Sync>(
    rt: &H,
    alloc: Global,
    rack: MemoryRack,
    calls: &[Call],
) -> MemoryRack {
    let mut rack = rack;
    for (word, processes, behind, status, output) in calls {
        let input = must(rt, scenario(alloc, processes, behind));
        rack = expect_on(rt, alloc, *word, &input, rack, *status, output);
    }
    rack
}

/// Nine files that were made for the scenario of nine operations, on a rack of which these calls fail.
pub fn made<H: Abort + Threads + Wait + Sync>(rt: &H, alloc: Global, fails: &[u32]) -> MemoryRack {
    let input = must(rt, scenario(alloc, b"", b""));
    expect_on(
        rt,
        alloc,
        "init",
        &input,
        must(rt, empty(alloc, fails)),
        0,
        b"created\n",
    )
}

/// These calls in order on nine files that were made before; the rack after them.
pub fn played_anew<H: Abort + Threads + Wait + Sync>(
    rt: &H,
    alloc: Global,
    calls: &[Call],
) -> MemoryRack {
    played(rt, alloc, made(rt, alloc, &[]), calls)
}

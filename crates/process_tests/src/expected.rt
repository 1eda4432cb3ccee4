// Calls of the program with what they should answer.
use command_tests::calls::{answer_to, plain_call};
use process_disk::MemoryRack;
use std::alloc::Global;
use std::process::Abort;
use std::sync::Wait;
use std::thread::Threads;

/// What was to be had: memory is never wanting here, and no number too large.
pub fn must<T: Drop, E: Drop>(rt: &impl Abort, found: Result<T, E>) -> T {
    match found {
        Ok(value) => value,
        Err(_) => panic!(rt; "no memory, or too large a number"),
    }
}

/// Words and an input on a rack have this status and this whole output. The answer is the rack after them.
pub fn expect_on<H: Abort + Threads + Wait + Sync>(
    rt: &H,
    alloc: Global,
    words: &[&str],
    text: &[u8],
    rack: MemoryRack,
    status: u8,
    output: &[u8],
) -> MemoryRack {
    let told = must(rt, answer_to(rt, alloc, plain_call(words, text), rack));
    assert_eq!(rt; told.sink.bytes(), output);
    assert_eq!(rt; told.status, status);
    told.rack
}

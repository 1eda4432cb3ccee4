// Calls of the program with what they should answer.
use crate::calls::{Call, answer_to, empty, plain_call};
use process_disk::MemoryRack;
use std::alloc::Global;
use std::process::Abort;
use std::sync::Wait;
use std::thread::Threads;

/// What was to be had: memory is never wanting here, no number too large, and no call of the system fails.
pub fn must<T: Drop, E: Drop>(rt: &impl Abort, found: Result<T, E>) -> T {
    match found {
        Ok(value) => value,
        Err(_) => panic!(rt; "no memory, too large a number, or a failed call"),
    }
}

/// A call on a rack has this status and this whole output. The answer is the rack after it.
pub fn expect_call<H: Abort + Threads + Wait + Sync>(
    rt: &H,
    alloc: Global,
    call: Call<'_>,
    rack: MemoryRack,
    status: u8,
    output: &[u8],
) -> MemoryRack {
    let told = must(rt, answer_to(rt, alloc, call, rack));
    assert_eq!(rt; told.sink.bytes(), output);
    assert_eq!(rt; told.status, status);
    told.rack
}

/// The same of words and an input.
pub fn expect_on<H: Abort + Threads + Wait + Sync>(
    rt: &H,
    alloc: Global,
    words: &[&str],
    text: &[u8],
    rack: MemoryRack,
    status: u8,
    output: &[u8],
) -> MemoryRack {
    expect_call(rt, alloc, plain_call(words, text), rack, status, output)
}

/// Words and an input have this status and this output on a fresh rack.
pub fn expect<H: Abort + Threads + Wait + Sync>(
    rt: &H,
    alloc: Global,
    words: &[&str],
    text: &[u8],
    status: u8,
    output: &[u8],
) {
    drop(expect_on(
        rt,
        alloc,
        words,
        text,
        must(rt, empty(alloc, &[])),
        status,
        output,
    ));
}

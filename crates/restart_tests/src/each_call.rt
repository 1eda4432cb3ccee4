// Runs and restarts that are stopped within each of their device calls, or of which one call fails: of the rack, the input or the
// output.
ghost use Rattle.std.specs.Prelude.{◌≤◌, length};

use crate::plays::{expect_on, made, must};
use command_tests::calls::{Call, answer_to, plain_call};
use command_tests::scenarios::scenario;
use process_disk::MemoryRack;
use std::alloc::Global;
use std::process::Abort;
use std::sync::Wait;
use std::thread::Threads;

// One that goes on behind its commit point, and one that takes of what it added and is refused then.
const PROCESSES: &[u8] =
    b"process a c x add 1 5 p y pay 1 5 r z mail 1 1 end\nprocess b c u take 1 2 p v pay 2 2 refuse 1 end\n";

// A session that leaves each of them in its midst.
const LINES: &[u8] =
    b"%%\nstart a\nstart b\nadmit 1\nfinish 1 done\nadmit 2\nfinish 2 done\nadmit 1\nfinish 3 done\n";

const ANSWERS: &[u8] =
    b"started 1 a\nstarted 2 b\npiece 1: do 1.x\neffected 3\npiece 2: do 2.u\neffected 4\n\
    piece 3: do 1.y\neffected 5\n";

// How many bytes of what isn't synced stay, and what stands in place of the others, beside none and 0.
const STOPS: [(u32, u8); 5] = [(0, 0x07), (0, 0xff), (1, 0x00), (1, 0x07), (1, 0xff)];

// The place of the first line that is this one, or the end.
fn place_of(text: &[u8], line: &[u8]) -> usize
    ensures { result ≤ length text.now }
{
    for place in 0..text.len() {
        if text[place..].starts_with(line) {
            return place;
        }
    }
    text.len()
}

// Two reports say the same, but for their causes.
fn expect_alike(rt: &impl Abort, a: &[u8], b: &[u8]) {
    assert_eq!(rt;
        a[..place_of(a, b"causes\n")],
        b[..place_of(b, b"causes\n")]
    );
    assert_eq!(rt; a[place_of(a, b"trace\n")..], b[place_of(b, b"trace\n")..]);
}

// How many lines of a report begin as this one.
fn count_of(text: &[u8], word: &[u8]) -> usize {
    let mut count: usize = 0;
    for place in 0..text.len() {
        if text[place..].starts_with(word) {
            count = count.wrapping_add(1);
        }
    }
    count
}

// What a call prints on this rack at status 0, and the rack after it.
fn printed<H: Abort + Threads + Wait + Sync>(
    rt: &H,
    alloc: Global,
    word: &str,
    text: &[u8],
    rack: MemoryRack,
) -> (Vec<u8>, MemoryRack) {
    let told = must(rt, answer_to(rt, alloc, plain_call(&[word], text), rack));
    assert_eq!(rt; told.status, 0);
    (must(rt, told.sink.bytes().to_vec(alloc)), told.rack)
}

// A restart ends all, its report is accepted, and another one says the same. The answer is how many starts and steps the history
// has.
fn expect_restored<H: Abort + Threads + Wait + Sync>(
    rt: &H,
    alloc: Global,
    rack: MemoryRack,
) -> usize {
    let (first, rack) = printed(rt, alloc, "restart", b"", rack);
    let (verdict, rack) = printed(rt, alloc, "verify", &first, rack);
    assert!(rt; verdict.as_slice() == b"accepted\n".as_slice());
    let (second, _) = printed(rt, alloc, "restart", b"", rack);
    expect_alike(rt, &first, &second);
    assert_eq!(rt; count_of(&second, b" active\n"), 0);
    happened(&second)
}

// How many starts and steps the history of a report has.
fn happened(report: &[u8]) -> usize {
    let history = &report[..place_of(report, b"completion\n")];
    count_of(history, b"\nstart ").wrapping_add(count_of(history, b"\ndo "))
}

// Stops within one device call: none leaves less than the one that keeps nothing, and this leaves no less than what was before.
fn expect_stops_within<H: Abort + Threads + Wait + Sync>(
    rt: &H,
    alloc: Global,
    whole: &MemoryRack,
    call: u32,
    before: usize,
) -> usize {
    assert!(rt; u64::from(call) < whole.calls());
    let least = expect_restored(rt, alloc, must(rt, whole.stopped(alloc, call, 0, 0x00)));
    assert!(rt; before <= least, "call {call}");
    for (keep, fill) in STOPS {
        let rack = must(rt, whole.stopped(alloc, call, keep, fill));
        let (report, _) = printed(rt, alloc, "restart", b"", rack);
        assert!(rt; least <= happened(&report), "call {call}");
    }
    least
}

// The rack behind a run of the two, and the number of its first call.
fn run_whole<H: Abort + Threads + Wait + Sync>(rt: &H, alloc: Global) -> (MemoryRack, u32) {
    let rack = made(rt, alloc, &[]);
    let first = must(rt, u32::try_from(rack.calls()));
    let text = must(rt, scenario(alloc, PROCESSES, b""));
    let (report, rack) = printed(rt, alloc, "run", &text, rack);
    assert_eq!(rt; count_of(&report, b" active\n"), 0);
    (rack, first)
}

#[test]
fn a_run_is_stopped_within_each_call_and_restarted(rt: HostRuntime) {
    let alloc = rt.alloc();
    let (whole, first) = run_whole(&rt, alloc);
    let last = must(&rt, u32::try_from(whole.calls()));
    let mut least = 0;
    for call in first..last {
        least = expect_stops_within(&rt, alloc, &whole, call, least);
    }
    // Two starts and four steps.
    assert_eq!(&rt; least, 6);
}

#[test]
fn each_call_of_a_run_fails_once(rt: HostRuntime) {
    let alloc = rt.alloc();
    let (whole, first) = run_whole(&rt, alloc);
    let text = must(&rt, scenario(alloc, PROCESSES, b""));
    for call in first..must(&rt, u32::try_from(whole.calls())) {
        let rack = made(&rt, alloc, &[call]);
        let rack = expect_on(&rt, alloc, "run", &text, rack, 10, b"disk fault\n");
        expect_restored(&rt, alloc, rack);
    }
}

// The rack behind the session, of which this call fails.
fn left<H: Abort + Threads + Wait + Sync>(rt: &H, alloc: Global, fails: &[u32]) -> MemoryRack {
    let text = must(rt, scenario(alloc, PROCESSES, LINES));
    let rack = made(rt, alloc, fails);
    expect_on(rt, alloc, "session", &text, rack, 0, ANSWERS)
}

#[test]
fn each_call_of_a_restart_fails_once(rt: HostRuntime) {
    let alloc = rt.alloc();
    let rack = left(&rt, alloc, &[]);
    let first = must(&rt, u32::try_from(rack.calls()));
    let (_, whole) = printed(&rt, alloc, "restart", b"", rack);
    for call in first..must(&rt, u32::try_from(whole.calls())) {
        let rack = left(&rt, alloc, &[call]);
        let rack = expect_on(&rt, alloc, "restart", b"", rack, 10, b"disk fault\n");
        expect_restored(&rt, alloc, rack);
    }
}

// A run of which this read fails: nothing has happened. Whether it made that read.
fn reads_so_often<H: Abort + Threads + Wait + Sync>(
    rt: &H,
    alloc: Global,
    text: &[u8],
    read: u32,
) -> bool {
    let rack = made(rt, alloc, &[]);
    let calls = rack.calls();
    let call = Call {
        reads: &[read],
        ..plain_call(&["run"], text)
    };
    let told = must(rt, answer_to(rt, alloc, call, rack));
    if told.status == 0 {
        return false;
    }
    assert_eq!(rt; told.status, 8);
    assert!(rt; told.sink.bytes() == b"read fault\n".as_slice());
    assert_eq!(rt; told.rack.calls(), calls);
    true
}

// A run of which this write fails: what went out is a beginning of the report, and all has happened. Whether it made that write.
fn writes_so_often<H: Abort + Threads + Wait + Sync>(
    rt: &H,
    alloc: Global,
    text: &[u8],
    write: u32,
    report: &[u8],
) -> bool {
    let call = Call {
        writes: &[write],
        ..plain_call(&["run"], text)
    };
    let told = must(rt, answer_to(rt, alloc, call, made(rt, alloc, &[])));
    let (shown, _) = printed(rt, alloc, "restart", b"", told.rack);
    expect_alike(rt, &shown, report);
    if told.status == 0 {
        return false;
    }
    assert_eq!(rt; told.status, 9);
    assert!(rt; report.starts_with(told.sink.bytes()));
    true
}

#[test]
fn each_read_and_each_write_fails_once(rt: HostRuntime) {
    let alloc = rt.alloc();
    let text = must(&rt, scenario(alloc, PROCESSES, b""));
    let (report, _) = printed(&rt, alloc, "run", &text, made(&rt, alloc, &[]));
    let mut reads: u32 = 0;
    let mut writes: u32 = 0;
    for call in 0..40 {
        if reads_so_often(&rt, alloc, &text, call) {
            reads = reads.wrapping_add(1);
        }
        if writes_so_often(&rt, alloc, &text, call, &report) {
            writes = writes.wrapping_add(1);
        }
    }
    assert!(&rt; 0 < reads && reads < 40);
    assert!(&rt; 0 < writes && writes < 40);
}

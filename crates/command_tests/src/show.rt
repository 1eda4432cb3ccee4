// The command `show`.
use crate::calls::{answer_to, empty, plain_call};
use crate::expected::{expect_on, must};
use process_disk::MemoryRack;
use std::alloc::Global;
use std::process::Abort;
use std::sync::Wait;
use std::thread::Threads;

/// A scenario of one operation, and of one process of two steps.
pub const TEXT: &[u8] = b"version = 1\nprocesses = \"process a c x add 1 5 c y add 1 6 end\"\n\
    [[op]]\nname = \"add\"\nsubsystem = 0\nverb = \"add\"\n";

/// The journal of its run: the header, five records behind open gates, and a closed gate.
pub const TWO_STEPS_KEPT: &[u8] = b"tpsl\x02\x00\x00\x00\
    \x01\x0b\x00\x00\x01\x01\x00\x03add\x00\x00\x00\
    \x01\x2b\x00\x01\x01\x00\x00\x00process a c x add 1 5 c y add 1 6 end\n\
    \x01\x08\x00\x02\x01\x00\x00\x00\x00\x00\x00\
    \x01\x08\x00\x02\x01\x00\x00\x00\x01\x00\x00\
    \x01\x05\x00\x03\x01\x00\x00\x00\
    \x00";

// What is shown of a rack, and the rack after it.
fn show_on<H: Abort + Threads + Wait + Sync>(
    rt: &H,
    alloc: Global,
    rack: MemoryRack,
    status: u8,
    output: &[u8],
) -> MemoryRack {
    expect_on(rt, alloc, &["show"], b"", rack, status, output)
}

// A rack on which that scenario was run.
fn run_before<H: Abort + Threads + Wait + Sync>(rt: &H, alloc: Global) -> MemoryRack {
    let rack = must(rt, empty(alloc, &[]));
    let rack = expect_on(rt, alloc, &["init"], TEXT, rack, 0, b"created\n");
    expect_on(rt, alloc, &["run"], TEXT, rack, 0, SHOWN)
}

// What is printed and shown of that run.
pub const SHOWN: &[u8] =
    b"conflicts\nhistory\nstart 1 a\ndo 1.x add\ndo 1.y add\nend 1\ncompletion\nends\n\
    1 a path x y\ncauses\ntrace\nserial\ndo 1.x add\ndo 1.y add\n";

// What is told of its first records: of the catalog alone, with the start, and with one step and two.
const CATALOG_ALONE: &[u8] = b"conflicts\nhistory\ncompletion\nends\ncauses\ntrace\nserial\n";

const STARTED: &[u8] =
    b"conflicts\nhistory\nstart 1 a\ncompletion\nend 1\nends\n1 a active\ncauses\ntrace\nserial\n";

const ONE_STEP: &[u8] =
    b"conflicts\nhistory\nstart 1 a\ndo 1.x add\ncompletion\nundo 1.x add\nend 1\nends\n\
    1 a active\ncauses\ntrace\ncancel 1\nserial\n";

const TWO_STEPS: &[u8] = b"conflicts\nhistory\nstart 1 a\ndo 1.x add\ndo 1.y add\n\
    completion\nundo 1.y add\nundo 1.x add\nend 1\nends\n\
    1 a active\ncauses\ntrace\ncancel 2\ncancel 1\nserial\n";

// What a stop of a run may leave: its beginnings.
const BEGINNINGS: [&[u8]; 5] = [CATALOG_ALONE, STARTED, ONE_STEP, TWO_STEPS, SHOWN];

#[test]
fn a_disk_fault_is_told(rt: HostRuntime) {
    let alloc = rt.alloc();
    for call in [0, 1, 2] {
        let rack = must(&rt, MemoryRack::new(alloc, must(&rt, vec![in alloc; call])));
        let rack = show_on(&rt, alloc, rack, 10, b"disk fault\n");
        drop(rack);
    }
}

// What is shown of so many records.
fn beginning(rt: &impl Abort, records: usize) -> &'static [u8] {
    BEGINNINGS.get(records).expect(rt, "fewer records")
}

// What is shown of what a stop leaves.
fn shown_after<H: Abort + Threads + Wait + Sync>(
    rt: &H,
    alloc: Global,
    whole: &MemoryRack,
    stop: (u32, u32, u8),
) -> Vec<u8> {
    let (call, keep, fill) = stop;
    assert!(rt; u64::from(call) < whole.calls());
    let left = must(rt, whole.stopped(alloc, call, keep, fill));
    let told = must(rt, answer_to(rt, alloc, plain_call(&["show"], b""), left));
    assert_eq!(rt; told.status, 0);
    must(rt, told.sink.bytes().to_vec(alloc))
}

#[test]
fn a_stop_leaves_a_beginning_of_the_history(rt: HostRuntime) {
    let alloc = rt.alloc();
    let rack = must(&rt, MemoryRack::new(alloc, Vec::new(alloc)));
    let made = expect_on(&rt, alloc, &["init"], TEXT, rack, 0, b"created\n");
    let first = must(&rt, u32::try_from(made.calls()));
    let whole = run_before(&rt, alloc);
    let last = must(&rt, u32::try_from(whole.calls()));
    // How many records stand where the call under way leaves nothing; they never get fewer, and another stop within it leaves one
    // more at most.
    let mut kept = 0;
    for call in first..last {
        let none = shown_after(&rt, alloc, &whole, (call, 0, 0x00));
        if kept < 4 && none.as_slice() != beginning(&rt, kept) {
            kept += 1;
        }
        assert_eq!(rt; none.as_slice(), beginning(&rt, kept));
        for (keep, fill) in [(0, 0x07), (0, 0xff), (1, 0x00), (1, 0xff), (2, 0x07)] {
            let shown = shown_after(&rt, alloc, &whole, (call, keep, fill));
            let more = kept < 4 && shown.as_slice() == beginning(&rt, kept + 1);
            assert!(rt;
                more || shown.as_slice() == beginning(&rt, kept),
                "within call {call}"
            );
        }
    }
    assert_eq!(rt; kept, 3);
}

// Restarts that are stopped within each of their device calls, and done again.
use crate::plays::{expect_on, made, must};
use command_tests::calls::{answer_to, plain_call};
use command_tests::scenarios::scenario;
use process_disk::{MemoryRack, Rack};
use std::alloc::Global;
use std::process::Abort;
use std::sync::Wait;
use std::thread::Threads;

// A last line of a session, its answer, and a stop within that device call of it.
#[derive(Clone, Copy)]
struct Stop {
    line: &'static [u8],
    answer: &'static [u8],
    call: u32,
    fill: u8,
}

// What a session leaves, and the report of its restart.
struct Case {
    processes: &'static [u8],
    lines: &'static [u8],
    answers: &'static [u8],
    stop: Option<Stop>,
    /// Up to the title of the causes, what stands there for each process that is active, in the order in which they end, and the
    /// rest.
    head: &'static [u8],
    causes: &'static [&'static [u8]],
    rest: &'static [u8],
}

// One took of what another added, and a third has to go on.
const THREE: Case = Case {
    processes: b"process a c x add 1 5 p y pay 1 5 end\nprocess b c u take 1 2 p v pay 2 2 end\n\
        process c p s ship 1 1 r t mail 1 1 end\n",
    lines: b"%%\nstart a\nstart b\nstart c\nadmit 1\nfinish 1 done\nadmit 2\nfinish 2 done\nadmit 3\nfinish 3 done\n",
    answers: b"started 1 a\nstarted 2 b\nstarted 3 c\npiece 1: do 1.x\neffected 4\npiece 2: do 2.u\neffected 5\n\
        piece 3: do 3.s\neffected 6\n",
    stop: None,
    head: b"conflicts\nadd take\ntake take\nnote note\nbook book\n\
        history\nstart 1 a\nstart 2 b\nstart 3 c\ndo 1.x add\ndo 2.u take\ndo 3.s ship\n\
        undo 2.u take\nundo 1.x add\nend 1\nend 2\ndo 3.t mail\nend 3\ncompletion\n\
        ends\n1 a nothing\n2 b nothing\n3 c path s t\ncauses\n",
    causes: &[b"1 restart\n", b"2 restart\n", b"3 restart\n"],
    rest: b"trace\nmove 2 3\ncancel 3\nmove 1 2\ncancel 2\nserial\ndo 3.s ship\ndo 3.t mail\n",
};

// Two steps of one process are done.
const TWO_STEPS: Case = Case {
    processes: b"process a c x add 1 5 c z add 2 6 end\n",
    lines: b"%%\nstart a\nadmit 1\nfinish 1 done\nadmit 1\nfinish 2 done\n",
    answers: b"started 1 a\npiece 1: do 1.x\neffected 2\npiece 2: do 1.z\neffected 3\n",
    stop: None,
    head: b"conflicts\nadd take\ntake take\nnote note\nbook book\n\
        history\nstart 1 a\ndo 1.x add\ndo 1.z add\nundo 1.z add\nundo 1.x add\nend 1\ncompletion\n\
        ends\n1 a nothing\ncauses\n",
    causes: &[b"1 restart\n"],
    rest: b"trace\ncancel 2\ncancel 1\nserial\n",
};

// A step is prepared, and the journal lacks it.
const LACKED: Case = Case {
    processes: b"process a c x add 1 5 p y pay 1 5 end\n",
    lines: b"%%\nstart a\nadmit 1\n",
    answers: b"started 1 a\npiece 1: do 1.x\n",
    stop: Some(Stop {
        line: b"finish 1 done\n",
        answer: b"effected 2\n",
        call: 5,
        fill: 0x00,
    }),
    head: b"conflicts\nadd take\ntake take\nnote note\nbook book\n\
        history\nstart 1 a\nend 1\ncompletion\nends\n1 a nothing\ncauses\n",
    causes: &[b"1 restart\n"],
    rest: b"trace\nserial\n",
};

// A step is prepared, and the journal has it.
const KEPT: Case = Case {
    processes: b"process a c x add 1 5 p y pay 1 5 end\n",
    lines: b"%%\nstart a\nadmit 1\n",
    answers: b"started 1 a\npiece 1: do 1.x\n",
    stop: Some(Stop {
        line: b"finish 1 done\n",
        answer: b"effected 2\n",
        call: 5,
        fill: 0x07,
    }),
    head: b"conflicts\nadd take\ntake take\nnote note\nbook book\n\
        history\nstart 1 a\ndo 1.x add\nundo 1.x add\nend 1\ncompletion\nends\n1 a nothing\ncauses\n",
    causes: &[b"1 restart\n"],
    rest: b"trace\ncancel 1\nserial\n",
};

// How many bytes of what isn't synced stay, and what stands in place of the others, beside none and 0.
const KEEPS: [(u32, u8); 2] = [(0, 0x07), (3, 0xff)];

// The rack behind the session of the case, with one line more.
fn session<H: Abort + Threads + Wait + Sync>(
    rt: &H,
    alloc: Global,
    case: &Case,
    line: &[u8],
    answer: &[u8],
) -> MemoryRack {
    let mut text = must(rt, scenario(alloc, case.processes, case.lines));
    must(rt, text.extend_from_slice(line));
    let mut answers = must(rt, case.answers.to_vec(alloc));
    must(rt, answers.extend_from_slice(answer));
    let rack = made(rt, alloc, &[]);
    expect_on(rt, alloc, "session", &text, rack, 0, &answers)
}

// What a stop within that device call behind so many others leaves.
fn left_by_stop<H: Abort + Threads + Wait + Sync>(
    rt: &H,
    alloc: Global,
    case: &Case,
    stop: Stop,
    calls: u32,
) -> MemoryRack {
    let rack = session(rt, alloc, case, stop.line, stop.answer);
    let call = calls.wrapping_add(stop.call);
    assert!(rt; u64::from(call) < rack.calls());
    must(rt, rack.stopped(alloc, call, 0, stop.fill))
}

// What the session leaves.
fn left<H: Abort + Threads + Wait + Sync>(rt: &H, alloc: Global, case: &Case) -> MemoryRack {
    let rack = session(rt, alloc, case, b"", b"");
    match case.stop {
        None => rack,
        Some(stop) => left_by_stop(rt, alloc, case, stop, must(rt, u32::try_from(rack.calls()))),
    }
}

// The report of a restart, where so many of those that were active had ended before.
fn report(rt: &impl Abort, alloc: Global, case: &Case, ended: usize) -> Vec<u8> {
    let mut text = must(rt, case.head.to_vec(alloc));
    for (place, cause) in case.causes.iter().enumerate() {
        if place >= ended {
            must(rt, text.extend_from_slice(cause));
        }
    }
    must(rt, text.extend_from_slice(case.rest));
    text
}

// What is said of a restart behind a stop within one of another, and the rack then.
fn restarted<H: Abort + Threads + Wait + Sync>(
    rt: &H,
    alloc: Global,
    whole: &MemoryRack,
    call: u32,
    keep: u32,
    fill: u8,
) -> (Vec<u8>, MemoryRack) {
    assert!(rt; u64::from(call) < whole.calls());
    let rack = must(rt, whole.stopped(alloc, call, keep, fill));
    let told = must(
        rt,
        answer_to(rt, alloc, plain_call(&["restart"], b""), rack),
    );
    assert_eq!(rt; told.status, 0);
    (must(rt, told.sink.bytes().to_vec(alloc)), told.rack)
}

// Another restart says that all had ended before.
fn expect_all_ended<H: Abort + Threads + Wait + Sync>(
    rt: &H,
    alloc: Global,
    case: &Case,
    rack: MemoryRack,
) {
    let all = report(rt, alloc, case, case.causes.len());
    drop(expect_on(rt, alloc, "restart", b"", rack, 0, &all));
}

// A stop that keeps nothing of what isn't synced: so many of those that were active had ended, as before or one more.
fn expect_none_kept<H: Abort + Threads + Wait + Sync>(
    rt: &H,
    alloc: Global,
    case: &Case,
    whole: &MemoryRack,
    call: u32,
    before: usize,
) -> usize {
    let (told, rack) = restarted(rt, alloc, whole, call, 0, 0x00);
    expect_all_ended(rt, alloc, case, rack);
    if told.as_slice() == report(rt, alloc, case, before).as_slice() {
        return before;
    }
    let ended = before.wrapping_add(1);
    let wanted = report(rt, alloc, case, ended);
    assert!(rt; told == wanted, "call {call}");
    ended
}

// Other stops within that call: so many of those that were active had ended, or one more.
fn expect_some_kept<H: Abort + Threads + Wait + Sync>(
    rt: &H,
    alloc: Global,
    case: &Case,
    whole: &MemoryRack,
    call: u32,
    ended: usize,
) {
    let wanted = report(rt, alloc, case, ended);
    let more = report(rt, alloc, case, ended.wrapping_add(1));
    for (keep, fill) in KEEPS {
        let (told, rack) = restarted(rt, alloc, whole, call, keep, fill);
        drop(rack);
        assert!(rt; told == wanted || told == more, "call {call}");
    }
}

// A stop within any device call of the restart: another restart ends with the same history.
fn expect_stops<H: Abort + Threads + Wait + Sync>(rt: &H, alloc: Global, case: &Case) {
    let rack = left(rt, alloc, case);
    let first = must(rt, u32::try_from(rack.calls()));
    let wanted = report(rt, alloc, case, 0);
    let whole = expect_on(rt, alloc, "restart", b"", rack, 0, &wanted);
    let last = must(rt, u32::try_from(whole.calls()));
    let mut ended = 0;
    for call in first..last {
        ended = expect_none_kept(rt, alloc, case, &whole, call, ended);
        expect_some_kept(rt, alloc, case, &whole, call, ended);
    }
    // The last call syncs the record of the last end.
    assert_eq!(rt; ended.wrapping_add(1), case.causes.len());
}

#[test]
fn a_restart_of_three_processes_is_stopped_and_done_again(rt: HostRuntime) {
    expect_stops(&rt, rt.alloc(), &THREE)
}

#[test]
fn a_restart_with_two_undos_is_stopped_and_done_again(rt: HostRuntime) {
    expect_stops(&rt, rt.alloc(), &TWO_STEPS)
}

#[test]
fn a_restart_that_takes_back_is_stopped_and_done_again(rt: HostRuntime) {
    expect_stops(&rt, rt.alloc(), &LACKED)
}

#[test]
fn a_restart_that_commits_is_stopped_and_done_again(rt: HostRuntime) {
    expect_stops(&rt, rt.alloc(), &KEPT)
}

// The first gate of file 1.
fn first_gate(rt: &impl Abort, rack: &mut MemoryRack) -> u8 {
    let mut byte = [0xff];
    must(rt, rack.read(1, 8, &mut byte));
    byte[0]
}

// It is closed by the restart, where the journal lacks what was prepared.
#[test]
fn what_the_journal_lacks_is_taken_back(rt: HostRuntime) {
    let alloc = rt.alloc();
    let mut rack = left(&rt, alloc, &LACKED);
    assert_eq!(rt; first_gate(&rt, &mut rack), 1);
    let wanted = report(&rt, alloc, &LACKED, 0);
    let mut rack = expect_on(&rt, alloc, "restart", b"", rack, 0, &wanted);
    assert_eq!(rt; first_gate(&rt, &mut rack), 0);
}

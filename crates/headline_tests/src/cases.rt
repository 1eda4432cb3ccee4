// Two processes, of which the second builds on the first: a session does the first step of each, and is stopped wherever a stop
// may fall.
use crate::{Stop, run_served_and_restarted, stopped_and_restarted};
use process_flow::MemorySink;
use std::alloc::{AllocError, Global};
use std::process::Abort;
use std::sync::Wait;
use std::test::Fail;
use std::thread::Threads;

const SCENARIO: &[u8] = b"version = 1\n\
    conflicts = [[\"add\", \"take\"], [\"take\", \"take\"]]\n\
    processes = \"\"\"\n\
    process a c x add 1 5 p y pay 1 5 end\n\
    process b c u take 1 2 p v pay 2 2 end\n\
    \"\"\"\n\
    \n[[op]]\nname = \"add\"\nsubsystem = 0\nverb = \"add\"\n\
    \n[[op]]\nname = \"take\"\nsubsystem = 0\nverb = \"take\"\n\
    \n[[op]]\nname = \"pay\"\nsubsystem = 1\nverb = \"add\"\n";

// What a driver says: it takes the first piece that is handed out, and does it.
const DIALOGUE: &[u8] = b"version = 1\n\
    conflicts = [[\"add\", \"take\"], [\"take\", \"take\"]]\n\
    processes = \"\"\n\
    \n[[op]]\nname = \"add\"\nsubsystem = 0\nverb = \"add\"\n\
    \n[[op]]\nname = \"take\"\nsubsystem = 0\nverb = \"take\"\n\
    \n[[op]]\nname = \"pay\"\nsubsystem = 1\nverb = \"add\"\n%%\nnext\nfinish 1 done\nnext\nstop\n";

const LINES: &[u8] = b"%%\nstart a\nstart b\nadmit 1\nfinish 1 done\nadmit 2\nfinish 2 done\n";

// What `restart` prints of each beginning of the session's history, which it has completed.
const REPORTS: [&[u8]; 5] = [
    b"conflicts\nadd take\ntake take\nhistory\ncompletion\nends\ncauses\ntrace\nserial\n",
    b"conflicts\nadd take\ntake take\nhistory\nstart 1 a\nend 1\ncompletion\nends\n1 a nothing\ncauses\n1 restart\ntrace\nserial\n",
    b"conflicts\nadd take\ntake take\nhistory\nstart 1 a\nstart 2 b\nend 1\nend 2\ncompletion\n\
    ends\n1 a nothing\n2 b nothing\ncauses\n1 restart\n2 restart\ntrace\nserial\n",
    b"conflicts\nadd take\ntake take\nhistory\nstart 1 a\nstart 2 b\ndo 1.x add\nundo 1.x add\nend 1\nend 2\ncompletion\n\
    ends\n1 a nothing\n2 b nothing\ncauses\n1 restart\n2 restart\ntrace\ncancel 1\nserial\n",
    b"conflicts\nadd take\ntake take\nhistory\nstart 1 a\nstart 2 b\ndo 1.x add\ndo 2.u take\n\
    undo 2.u take\nundo 1.x add\nend 1\nend 2\ncompletion\nends\n1 a nothing\n2 b nothing\n\
    causes\n1 restart\n2 restart\ntrace\ncancel 2\ncancel 1\nserial\n",
];

// The place of a report among them, or their count.
fn place_of(sink: &MemorySink) -> usize {
    for place in 0..REPORTS.len() {
        if REPORTS[place] == sink.bytes() {
            return place;
        }
    }
    REPORTS.len()
}

// Stops the session within each of its calls in turn, with this many bytes kept and this fill. Each restart ends well, with the
// report of one beginning, and none of a shorter one than the restart before. The answer is the place of the last one.
fn stopped_in_each_call<H: Abort + Threads + Wait + Sync>(
    rt: &H,
    alloc: Global,
    keep: u32,
    fill: u8,
) -> Result<usize, AllocError> {
    let mut session = SCENARIO.to_vec(alloc)?;
    session.extend_from_slice(LINES)?;
    let mut last = 0;
    for call in 0..1000_u32 {
        let Some(told) = stopped_and_restarted(rt, alloc, SCENARIO, &session, call, keep, fill)?
        else {
            return Ok(last);
        };
        let place = place_of(&told.sink);
        assert_eq!(rt; told.status, 0);
        assert!(rt; place < REPORTS.len());
        assert!(rt; last <= place);
        last = place;
    }
    Ok(last)
}

#[test]
fn a_stop_that_keeps_nothing_is_restored(rt: HostRuntime) -> Result<(), Fail> {
    assert_eq!(rt; stopped_in_each_call(&rt, rt.alloc(), 0, 0)?, 4);
    Ok(())
}

#[test]
fn a_stop_that_keeps_a_byte_and_fills_the_rest_is_restored(rt: HostRuntime) -> Result<(), Fail> {
    assert_eq!(rt; stopped_in_each_call(&rt, rt.alloc(), 1, 0xff)?, 4);
    Ok(())
}

#[test]
fn a_stop_that_keeps_half_a_record_is_restored(rt: HostRuntime) -> Result<(), Fail> {
    assert_eq!(rt; stopped_in_each_call(&rt, rt.alloc(), 9, 0x01)?, 4);
    Ok(())
}

#[test]
fn a_stop_that_keeps_all_is_restored(rt: HostRuntime) -> Result<(), Fail> {
    assert_eq!(rt; stopped_in_each_call(&rt, rt.alloc(), 1_000_000, 0)?, 4);
    Ok(())
}

// A run by three workers is stopped within this call, and `serve` behind it within each of its calls in turn, of which the first
// ones are those of its opening. Each restart ends well. The answer is how many there were.
fn stopped_twice<H: Abort + Threads + Wait + Sync>(
    rt: &H,
    alloc: Global,
    first: &Stop,
) -> Result<usize, AllocError> {
    for call in 0..24_u32 {
        let second = Stop {
            call,
            keep: 1,
            fill: 0xff,
        };
        let told = run_served_and_restarted(rt, alloc, SCENARIO, DIALOGUE, first, &second)?;
        let Some(told) = told else {
            return Ok(call as usize);
        };
        assert_eq!(rt; told.status, 0);
    }
    Ok(24)
}

// Stops the run within three of its calls: how many stops of `serve` there were at most behind one of them.
fn stopped_in_some_calls<H: Abort + Threads + Wait + Sync>(
    rt: &H,
    alloc: Global,
    keep: u32,
) -> Result<usize, AllocError> {
    let mut restarts = 0;
    for dozen in 1..4_u32 {
        let first = Stop {
            call: 12 * dozen,
            keep,
            fill: 0,
        };
        restarts = stopped_twice(rt, alloc, &first)?.max(restarts);
    }
    Ok(restarts)
}

#[test]
fn a_run_and_serve_that_are_stopped_are_restored(rt: HostRuntime) -> Result<(), Fail> {
    assert!(rt; stopped_in_some_calls(&rt, rt.alloc(), 0)? > 20);
    Ok(())
}

#[test]
fn a_run_and_serve_that_are_stopped_with_all_kept_are_restored(
    rt: HostRuntime,
) -> Result<(), Fail> {
    assert!(rt; stopped_in_some_calls(&rt, rt.alloc(), 1_000_000)? > 20);
    Ok(())
}

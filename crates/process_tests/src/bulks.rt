// Generated scenarios that are run on new files.
use crate::expected::{expect_on, must};
use command_tests::calls::{answer_to, empty, plain_call};

#[test]
fn a_generated_scenario_runs_on_new_files(rt: HostRuntime) {
    let alloc = rt.alloc();
    let rack = must(&rt, empty(alloc, &[]));
    let line = b"processes 1 acts 5 undos 0 ends 1 moves 0 cancels 0\n";
    let rack = expect_on(&rt, alloc, &["bulk", "1", "1"], b"", rack, 0, line);
    let refused = b"not empty file 0\n";
    let rack = expect_on(&rt, alloc, &["bulk", "1", "1"], b"", rack, 6, refused);
    drop(rack);
}

#[test]
fn undos_and_cancels_are_counted(rt: HostRuntime) {
    let alloc = rt.alloc();
    for _ in 0..2 {
        let rack = must(&rt, empty(alloc, &[]));
        let line = b"processes 16 acts 53 undos 12 ends 16 moves 44 cancels 12\n";
        drop(expect_on(&rt, alloc, &["bulk", "7", "16"], b"", rack, 0, line));
    }
}

// Each call of the rack fails in turn; once the files were made, what is left is completed.
#[test]
fn a_fault_is_told_alone(rt: HostRuntime) {
    let alloc = rt.alloc();
    for call in [0, 1, 20, 40, 60] {
        let rack = must(&rt, empty(alloc, &[call]));
        drop(expect_on(
            &rt,
            alloc,
            &["bulk", "1", "1"],
            b"",
            rack,
            10,
            b"disk fault\n",
        ));
    }
}

// A stop within a call of the rack leaves files that are completed.
#[test]
fn what_a_stop_leaves_is_completed(rt: HostRuntime) {
    let alloc = rt.alloc();
    let told = must(
        &rt,
        answer_to(
            &rt,
            alloc,
            plain_call(&["bulk", "1", "1"], b""),
            must(&rt, empty(alloc, &[])),
        ),
    );
    assert_eq!(rt; told.status, 0);
    let calls = must(&rt, u32::try_from(told.rack.calls()));
    for back in [2, 5, 9, 14] {
        let call = calls.wrapping_sub(back);
        assert!(&rt; u64::from(call) < told.rack.calls());
        let rack = must(&rt, told.rack.stopped(alloc, call, 0, 0x00));
        let again = must(
            &rt,
            answer_to(&rt, alloc, plain_call(&["restart"], b""), rack),
        );
        assert_eq!(rt; again.status, 0);
    }
}

// The tests, each with the boxes of eight subsystems.
ghost use Rattle.history_files.specs.Boxes.{AreBoxes};

use crate::boxes::boxes;
use crate::flushes::{expect_groups, expect_idle};
use crate::gates::{expect_room, expect_runs};
use crate::stops::expect_any_stop;
use resource_box::Resource;
use std::alloc::Global;
use std::process::Abort;

#[derive(Clone, Copy)]
enum Test {
    Groups,
    Idle,
    Room,
    Runs,
    Stops,
}

// A test with these boxes.
fn run<H: Abort>(rt: &H, alloc: Global, test: Test, boxes: Vec<Box<dyn Resource + Send>>)
    requires { AreBoxes (λ b. sort b) boxes.items }
{
    match test {
        Test::Groups => expect_groups(rt, alloc, boxes),
        Test::Idle => expect_idle(rt, alloc, boxes),
        Test::Room => expect_room(rt, alloc, boxes),
        Test::Runs => expect_runs(rt, alloc, boxes),
        Test::Stops => expect_any_stop(rt, alloc, boxes),
    }
}

// A test with the boxes of eight subsystems.
fn with_boxes<H: Abort>(rt: &H, alloc: Global, test: Test) {
    let boxes = boxes(rt, alloc);
    run(rt, alloc, test, boxes);
}

#[test]
fn a_process_fits_beside_another(rt: HostRuntime) {
    with_boxes(&rt, rt.alloc(), Test::Room);
}

#[test]
fn gates_refuse_what_they_were_told(rt: HostRuntime) {
    with_boxes(&rt, rt.alloc(), Test::Runs);
}

#[test]
fn a_stop_within_any_device_call_leaves_the_history_before_or_with_the_event(rt: HostRuntime) {
    with_boxes(&rt, rt.alloc(), Test::Stops);
}

#[test]
fn a_stop_within_any_device_call_of_a_flush_leaves_the_history_before_or_with_the_whole_group(
    rt: HostRuntime,
) {
    with_boxes(&rt, rt.alloc(), Test::Groups);
}

#[test]
fn a_piece_that_is_full_or_dropped_keeps_nothing(rt: HostRuntime) {
    with_boxes(&rt, rt.alloc(), Test::Idle);
}

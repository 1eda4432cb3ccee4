// What it saves that pieces of several processes take effect together.
use crate::expected::{expect_on, must};
use command_tests::calls::{answer_to, empty, plain_call};
use command_tests::scenarios::scenario;

// Their steps are on two subsystems, so both are in one group, and so are their ends.
const PROCESSES: &[u8] = b"process a c x add 1 5 end\nprocess b c u pay 2 2 end\n";

// Both start, and each piece is finished by itself.
const LINES: &[u8] = b"%%\nstart a\nstart b\nadmit 1\nfinish 1 done\nadmit 2\nfinish 2 done\n\
    admit 1\nfinish 3 done\nadmit 2\nfinish 4 done\n";

const ANSWERS: &[u8] =
    b"started 1 a\nstarted 2 b\npiece 1: do 1.x\neffected 3\npiece 2: do 2.u\neffected 4\n\
    piece 3: end 1\neffected 5\npiece 4: end 2\neffected 6\n";

#[test]
fn a_run_by_one_worker_makes_fewer_device_calls_than_a_session_that_finishes_each_piece(
    rt: HostRuntime,
) {
    let alloc = rt.alloc();
    let text = must(&rt, scenario(alloc, PROCESSES, b""));
    let made = expect_on(
        &rt,
        alloc,
        &["init"],
        &text,
        must(&rt, empty(alloc, &[])),
        0,
        b"created\n",
    );
    let ran = must(
        &rt,
        answer_to(&rt, alloc, plain_call(&["run"], &text), made),
    );
    assert_eq!(rt; ran.status, 0);
    let made = expect_on(
        &rt,
        alloc,
        &["init"],
        &text,
        must(&rt, empty(alloc, &[])),
        0,
        b"created\n",
    );
    let lines = must(&rt, scenario(alloc, PROCESSES, LINES));
    let played = expect_on(&rt, alloc, &["session"], &lines, made, 0, ANSWERS);
    assert!(&rt; ran.rack.calls() < played.calls());
}

// What a fault leaves.
use crate::expected::{expect_on, must};
use command_tests::calls::empty;
use command_tests::scenarios::scenario;

// The last device call of a piece's prepare fails: what was answered before stands, the fault is the last line, and what was done
// is not in the history.
#[test]
fn a_fault_ends_a_session(rt: HostRuntime) {
    let alloc = rt.alloc();
    let process = b"process a c x add 1 5 p y pay 1 5 end\n";
    let input = must(&rt, scenario(alloc, b"", b""));
    let rack = must(&rt, empty(alloc, &[]));
    let rack = expect_on(&rt, alloc, &["init"], &input, rack, 0, b"created\n");
    let lines = must(&rt, scenario(alloc, process, b"%%\nstart a\nadmit 1\n"));
    let answers = b"started 1 a\npiece 1: do 1.x\n";
    let rack = expect_on(&rt, alloc, &["session"], &lines, rack, 0, answers);
    let before = must(&rt, u32::try_from(rack.calls()));
    let rack = must(&rt, empty(alloc, &[before.wrapping_add(4)]));
    let rack = expect_on(&rt, alloc, &["init"], &input, rack, 0, b"created\n");
    let lines = must(
        &rt,
        scenario(
            alloc,
            process,
            b"%%\nstart a\nadmit 1\nfinish 1 done\nnext\n",
        ),
    );
    let answers = b"started 1 a\npiece 1: do 1.x\ndisk fault\n";
    let rack = expect_on(&rt, alloc, &["session"], &lines, rack, 10, answers);
    let shown =
        b"conflicts\nadd take\ntake take\nnote note\nbook book\nhistory\nstart 1 a\ncompletion\nend 1\n\
        ends\n1 a active\ncauses\ntrace\nserial\n";
    let rack = expect_on(&rt, alloc, &["show"], b"", rack, 0, shown);
    drop(rack);
}

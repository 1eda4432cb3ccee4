// The command `verify`.
use crate::expected::expect;

const REPORT: &[u8] = b"conflicts
add take
take take
note note
book book
history
start 1 a
start 2 b
do 1.x add
do 2.u add
do 2.v ship
do 1.y pay
end 2
end 1
completion
ends
1 a path x y
2 b path u v
causes
trace
move 2 1
move 3 2
serial
do 2.u add
do 2.v ship
do 1.x add
do 1.y pay
";

#[test]
fn a_report_is_accepted(rt: HostRuntime) {
    expect(&rt, rt.alloc(), &["verify"], REPORT, 0, b"accepted\n");
}

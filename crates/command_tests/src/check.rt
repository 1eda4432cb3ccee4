// The command `check`.
use crate::calls::{Call, empty};
use crate::expected::{expect, expect_call, must};

const TEXT: &[u8] = b"process a c x add 1 5 end";

const FAULTS: [(Call<'static>, u8, &[u8]); 2] = [
    (
        Call {
            words: &["check"],
            text: TEXT,
            reads: &[0],
            writes: &[],
        },
        8,
        b"read fault\n",
    ),
    (
        Call {
            words: &["check"],
            text: TEXT,
            reads: &[],
            writes: &[0],
        },
        9,
        b"",
    ),
];

#[test]
fn a_text_is_checked_and_faults_are_told(rt: HostRuntime) {
    let alloc = rt.alloc();
    expect(&rt, alloc, &["check"], TEXT, 0, b"a: well-formed\n");
    for (call, status, output) in &FAULTS {
        let rack = must(&rt, empty(alloc, &[]));
        drop(expect_call(&rt, alloc, *call, rack, *status, output));
    }
}

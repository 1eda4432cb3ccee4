// The commands `help` and `version`.
use crate::calls::{Call, empty};
use crate::expected::{expect, expect_call, must};

const ON_GEN: &[u8] = b"usage: tps gen NUMBER COUNT

Prints a scenario of COUNT processes (1 to 256) that are drawn by NUMBER, a
whole number below 2^64. The same numbers give the same text.

exit status: 0 printed
";

#[test]
fn help_and_the_version_are_printed_and_a_fault_is_told(rt: HostRuntime) {
    let alloc = rt.alloc();
    expect(&rt, alloc, &["help", "gen"], b"no text", 0, ON_GEN);
    for words in &[&["version"], &["--version"]] {
        expect(&rt, alloc, *words, b"no text", 0, b"tps 1.0.0\n");
    }
    let call = Call {
        words: &["help", "gen"],
        text: b"",
        reads: &[0],
        writes: &[0],
    };
    let rack = must(&rt, empty(alloc, &[]));
    drop(expect_call(&rt, alloc, call, rack, 9, b""));
}

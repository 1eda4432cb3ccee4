// What no clause of `hold_tables` says: two processes of one step each, whose steps conflict, and what they hold call by call.
ghost use Rattle.std.specs.Prelude.{◌≡◌};
ghost use Rattle.process_tree.specs.Conflicts.{no_conflicts, with_mode};
ghost use Rattle.hold_tables.specs.Changes.{none_open, opened};

use crate::plans::{entry, one_conflict, one_step};
use hold_tables::Holds;
use process_tree::Mode;
use std::alloc::Global;
use std::process::Abort;

/// Processes 1 and 2 are open, whose steps conflict in this mode.
fn both_open<H: Abort>(rt: &H, alloc: Global, mode: Mode) -> Holds
    ensures { result ≡ opened 2 1 (opened 1 1 (none_open (with_mode (no_conflicts 1) 0 0 mode))) }
{
    let conflicts = one_conflict(rt, alloc, mode);
    let plan = one_step(rt, alloc);
    let Ok(mut holds) = Holds::new(alloc, &conflicts) else {
        panic!(rt; "no memory");
    };
    let Ok(()) = holds.open(1, &plan) else {
        panic!(rt; "no memory");
    };
    let Ok(()) = holds.open(2, &plan) else {
        panic!(rt; "no memory");
    };
    holds
}

#[test]
fn what_is_held_stands_against_the_other_process(rt: HostRuntime) {
    let mut holds = both_open(&rt, rt.alloc(), Mode::Always);
    holds.run(entry(1, 0, 0, 0));
    holds.take_effect(1);
    holds.reserve(2, &[(0, 0, 0)]);
    for (process, holder) in [(1, Some((2, 0))), (2, Some((1, 0))), (3, Some((1, 0)))] {
        assert_eq!(rt; holds.holder_against(process, 0, 0), holder);
    }
    holds.run(entry(2, 0, 0, 0));
    for (from, to, reached) in [(1, 2, true), (2, 1, false), (1, 1, false)] {
        assert_eq!(rt; holds.reaches(from, to), reached);
    }
}

#[test]
fn what_is_held_on_another_key_stands_only_against_what_conflicts_always(rt: HostRuntime) {
    for (mode, on_another_key) in [(Mode::Key, None), (Mode::Always, Some((2, 0)))] {
        let mut holds = both_open(&rt, rt.alloc(), mode);
        holds.reserve(2, &[(0, 0, 7)]);
        assert_eq!(rt; holds.holder_against(1, 0, 7), Some((2, 0)));
        assert_eq!(rt; holds.holder_against(1, 0, 8), on_another_key);
    }
}

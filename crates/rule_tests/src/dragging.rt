// What no clause of `cascade` says: three processes of one step each, whose steps conflict; the first two did theirs, and the third
// has it under way.
ghost use Rattle.std.specs.Prelude.{◌≡◌};
ghost use Rattle.process_tree.specs.Conflicts.{no_conflicts, with_mode};
ghost use Rattle.hold_tables.specs.Changes.{none_open, opened};

use crate::plans::{entry, one_conflict, one_step};
use cascade::{Members, closure, undo_ready};
use hold_tables::{Admitted, Blocked, Holds, Rule};
use process_tree::Mode;
use std::alloc::Global;
use std::process::Abort;

/// The three are open.
fn all_open<H: Abort>(rt: &H, alloc: Global) -> Holds
    ensures { result ≡ opened 3 1 (opened 2 1 (opened 1 1 (none_open (with_mode (no_conflicts 1) 0 0 Mode.Always)))) }
{
    let conflicts = one_conflict(rt, alloc, Mode::Always);
    let plan = one_step(rt, alloc);
    let Ok(mut holds) = Holds::new(alloc, &conflicts) else {
        panic!(rt; "no memory");
    };
    let Ok(()) = holds.open(1, &plan) else {
        panic!(rt; "no memory");
    };
    let Ok(()) = holds.open(2, &plan) else {
        panic!(rt; "no memory");
    };
    let Ok(()) = holds.open(3, &plan) else {
        panic!(rt; "no memory");
    };
    holds
}

#[test]
fn whoever_has_built_on_it_goes_back(rt: HostRuntime) {
    let Ok(mut members) = Members::new(rt.alloc(), 3) else {
        panic!(&rt; "no memory");
    };
    let mut holds = all_open(&rt, rt.alloc());
    holds.run(entry(1, 0, 0, 0));
    holds.take_effect(1);
    holds.run(entry(2, 0, 0, 0));
    holds.take_effect(2);
    holds.run(entry(3, 0, 0, 0));
    holds.pend(1, 1);
    holds.pend(2, 1);
    for (root, count, first, second, third) in [
        (1, 1, true, true, true),
        (2, 1, false, true, true),
        (1, 0, true, false, false),
        (3, 0, false, false, true),
    ] {
        closure(&holds, root, count, &mut members);
        assert_eq!(rt;
            (members.has(1), members.has(2), members.has(3)),
            (first, second, third)
        );
    }
    let block = Blocked {
        on: 2,
        other: 0,
        own: 0,
        rule: Rule::A5,
    };
    assert_eq!(rt; undo_ready(&holds, 1, 0), Admitted::Blocked(block));
    assert_eq!(rt; undo_ready(&holds, 2, 0), Admitted::Free);
}

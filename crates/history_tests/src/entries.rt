// What no clause of `schedule_rules` says: where memory is found, entries and steps are.
use crate::journals::must;
use process_tree::Entry;
use schedule_rules::{of_process, steps_of};

fn entry(process: u32, step: u16) -> Entry {
    Entry {
        process,
        step,
        op: 0,
        key: 0,
        undo: false,
    }
}

#[test]
fn the_entries_of_one_process_are_found_with_their_steps(rt: HostRuntime) {
    let alloc = rt.alloc();
    let entries = [entry(1, 0), entry(2, 3), entry(1, 7), entry(3, 1)];
    let own = must(&rt, of_process(alloc, &entries, 1));
    assert!(rt; own.as_slice() == [entry(1, 0), entry(1, 7)].as_slice());
    let steps = must(&rt, steps_of(alloc, &own));
    assert!(rt; steps.as_slice() == [0, 7].as_slice());
}

#[test]
fn a_process_that_did_nothing_has_no_entries(rt: HostRuntime) {
    let alloc = rt.alloc();
    let own = must(&rt, of_process(alloc, &[entry(1, 0)], 4));
    assert!(rt; own.is_empty());
    let steps = must(&rt, steps_of(alloc, &own));
    assert!(rt; steps.is_empty());
}

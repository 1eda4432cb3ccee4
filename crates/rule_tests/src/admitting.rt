// What no clause of `admission` says: two processes of two steps each, over the operations add, take, pay and note, of which adding
// conflicts with taking, and a note with a note; whatever their keys are, but for the last test.
ghost use Rattle.std.specs.Prelude.{◌≡◌, ◌<◌, ◌∷◌, [], length};
ghost use Rattle.process_tree.specs.Blocks.{outline};
ghost use Rattle.process_tree.specs.Conflicts.{no_conflicts, with_mode};
ghost use Rattle.process_tree.specs.Order.{Each};
ghost use Rattle.hold_tables.specs.Changes.{none_open, opened};

use crate::plans::{entry, plan};
use admission::{Admitted, Blocked, Rule, Todo, admit, victim};
use hold_tables::Holds;
use process_tree::{Conflicts, Mode, Plan, StepKind};
use std::alloc::Global;
use std::process::Abort;

const ADD: u16 = 0;

const TAKE: u16 = 1;

const PAY: u16 = 2;

const NOTE: u16 = 3;

/// A plan of two steps of these kinds, with these operations on this key.
fn two_steps_on(
    rt: &impl Abort,
    alloc: Global,
    key: u32,
    kinds: [StepKind; 2],
    ops: [u16; 2],
) -> Plan
    ensures ops { result.ops ≡ ops }
    ensures steps { length (outline result.tree).steps ≡ 2 }
{
    let [first, second] = ops;
    let Ok(ops) = vec![in alloc; first, second] else {
        panic!(rt; "no memory");
    };
    plan(rt, alloc, &kinds, ops, key)
}

/// The same on key 0.
fn two_steps(rt: &impl Abort, alloc: Global, kinds: [StepKind; 2], ops: [u16; 2]) -> Plan
    ensures ops { result.ops ≡ ops }
    ensures steps { length (outline result.tree).steps ≡ 2 }
{
    two_steps_on(rt, alloc, 0, kinds, ops)
}

fn conflicts(rt: &impl Abort, alloc: Global, mode: Mode) -> Conflicts
    ensures { result ≡ with_mode (with_mode (no_conflicts 4) 0 1 mode) 3 3 mode }
{
    let Ok(mut conflicts) = Conflicts::new(alloc, 4) else {
        panic!(rt; "no memory");
    };
    conflicts.set(ADD, TAKE, mode);
    conflicts.set(NOTE, NOTE, mode);
    conflicts
}

/// The tables of no process, over conflicts in this mode.
fn tables(rt: &impl Abort, alloc: Global, mode: Mode) -> Holds
    ensures { result ≡ none_open (with_mode (with_mode (no_conflicts 4) 0 1 mode) 3 3 mode) }
{
    let conflicts = conflicts(rt, alloc, mode);
    let Ok(holds) = Holds::new(alloc, &conflicts) else {
        panic!(rt; "no memory");
    };
    holds
}

/// Processes 1 and 2 are open, over conflicts in this mode.
fn open_in<H: Abort>(rt: &H, alloc: Global, mode: Mode, a: &Plan, b: &Plan) -> Holds
    requires steps_a { length (outline a.now.tree).steps ≡ 2 }
    requires steps_b { length (outline b.now.tree).steps ≡ 2 }
    requires ops_a { Each (λ op. op < 4) a.now.ops }
    requires ops_b { Each (λ op. op < 4) b.now.ops }
    ensures { result ≡ opened 2 2 (opened 1 2 (none_open (with_mode (with_mode (no_conflicts 4) 0 1 mode) 3 3 mode))) }
{
    let mut holds = tables(rt, alloc, mode);
    let Ok(()) = holds.open(1, a) else {
        panic!(rt; "no memory");
    };
    let Ok(()) = holds.open(2, b) else {
        panic!(rt; "no memory");
    };
    holds
}

/// They are open over conflicts whatever the keys are.
fn both_open<H: Abort>(rt: &H, alloc: Global, a: &Plan, b: &Plan) -> Holds
    requires steps_a { length (outline a.now.tree).steps ≡ 2 }
    requires steps_b { length (outline b.now.tree).steps ≡ 2 }
    requires ops_a { Each (λ op. op < 4) a.now.ops }
    requires ops_b { Each (λ op. op < 4) b.now.ops }
    ensures { result ≡ opened 2 2
        (opened 1 2 (none_open (with_mode (with_mode (no_conflicts 4) 0 1 Mode.Always) 3 3 Mode.Always))) }
{
    open_in(rt, alloc, Mode::Always, a, b)
}

// Tables and plans are dropped here alone: a function that drops them where it ends is dear to prove.
fn let_go(_holds: Holds, _a: Plan, _b: Plan) {}

fn blocked(on: u32, other: u16, own: u16, rule: Rule) -> Admitted {
    Admitted::Blocked(Blocked {
        on,
        other,
        own,
        rule,
    })
}

/// A purchase has added and a sale has taken; each would pay for good, the sale would end, or the adding would be undone.
fn sale_behind_a_purchase<H: Abort>(rt: &H, alloc: Global) -> [Admitted; 4] {
    let purchase = two_steps(rt, alloc, [StepKind::C, StepKind::P], [ADD, PAY]);
    let sale = two_steps(rt, alloc, [StepKind::C, StepKind::P], [TAKE, PAY]);
    let mut holds = both_open(rt, alloc, &purchase, &sale);
    holds.run(entry(1, 0, ADD, 0));
    holds.take_effect(1);
    holds.run(entry(2, 0, TAKE, 0));
    holds.take_effect(2);
    let answers = [
        admit(&holds, &purchase, 1, Todo::Forward(1)),
        admit(&holds, &sale, 2, Todo::Forward(1)),
        admit(&holds, &sale, 2, Todo::End),
        admit(&holds, &purchase, 1, Todo::Undo(0)),
    ];
    let_go(holds, purchase, sale);
    answers
}

/// A payment is under way that will owe a taking, and something would be added; and again once the payment is refused.
fn added_before_a_taking_is_owed<H: Abort>(rt: &H, alloc: Global) -> [Admitted; 2] {
    let prepaid = two_steps(rt, alloc, [StepKind::P, StepKind::R], [PAY, TAKE]);
    let addition = two_steps(rt, alloc, [StepKind::C, StepKind::C], [ADD, PAY]);
    let mut holds = both_open(rt, alloc, &prepaid, &addition);
    holds.run(entry(1, 0, PAY, 0));
    holds.reserve(1, &[(1, TAKE, 0)]);
    let while_paid = admit(&holds, &addition, 2, Todo::Forward(0));
    holds.stop(1);
    holds.reserve(1, &[]);
    let once_refused = admit(&holds, &addition, 2, Todo::Forward(0));
    let_go(holds, prepaid, addition);
    [while_paid, once_refused]
}

/// One has added and would end with a note for good, the other began with a note and would take for good.
fn each_waits_for_the_other<H: Abort>(rt: &H, alloc: Global) -> [Admitted; 2] {
    let purchase = two_steps(rt, alloc, [StepKind::C, StepKind::P], [ADD, NOTE]);
    let sale = two_steps(rt, alloc, [StepKind::C, StepKind::P], [NOTE, TAKE]);
    let mut holds = both_open(rt, alloc, &purchase, &sale);
    holds.run(entry(1, 0, ADD, 0));
    holds.take_effect(1);
    holds.run(entry(2, 0, NOTE, 0));
    holds.take_effect(2);
    let answers = [
        admit(&holds, &purchase, 1, Todo::Forward(1)),
        admit(&holds, &sale, 2, Todo::Forward(1)),
    ];
    let_go(holds, purchase, sale);
    answers
}

/// The same where all can be undone, and the taking is under way: the note would close a circle. Something is added elsewhere
/// meanwhile.
fn a_circle<H: Abort>(rt: &H, alloc: Global) -> [Admitted; 2] {
    let purchase = two_steps(rt, alloc, [StepKind::C, StepKind::C], [ADD, NOTE]);
    let sale = two_steps(rt, alloc, [StepKind::C, StepKind::C], [NOTE, TAKE]);
    let mut holds = both_open(rt, alloc, &purchase, &sale);
    holds.run(entry(1, 0, ADD, 0));
    holds.take_effect(1);
    holds.run(entry(2, 0, NOTE, 0));
    holds.take_effect(2);
    let before = admit(&holds, &purchase, 1, Todo::Forward(1));
    holds.run(entry(2, 1, TAKE, 0));
    let under_way = admit(&holds, &purchase, 1, Todo::Forward(1));
    let_go(holds, purchase, sale);
    [before, under_way]
}

/// Something is added, and a taking is asked for; then a payment that would owe a taking.
fn taken_or_owed_behind_an_addition<H: Abort>(rt: &H, alloc: Global) -> [Admitted; 2] {
    let prepaid = two_steps(rt, alloc, [StepKind::P, StepKind::R], [PAY, TAKE]);
    let addition = two_steps(rt, alloc, [StepKind::C, StepKind::C], [ADD, PAY]);
    let mut holds = both_open(rt, alloc, &prepaid, &addition);
    holds.run(entry(2, 0, ADD, 0));
    let under_way = admit(&holds, &prepaid, 1, Todo::Forward(1));
    holds.take_effect(2);
    let owed = admit(&holds, &prepaid, 1, Todo::Forward(0));
    let_go(holds, prepaid, addition);
    [under_way, owed]
}

#[test]
fn a_piece_waits_for_the_least_of_what_stands_against_it(rt: HostRuntime) {
    let alloc = rt.alloc();
    assert_eq!(rt;
        sale_behind_a_purchase(&rt, alloc),
        [
            Admitted::Free,
            blocked(1, 0, 0, Rule::A3),
            blocked(1, 0, 0, Rule::A3),
            blocked(2, 0, 0, Rule::A5),
        ]
    );
    assert_eq!(rt;
        added_before_a_taking_is_owed(&rt, alloc),
        [blocked(1, 1, 0, Rule::A1), Admitted::Free]
    );
    assert_eq!(rt;
        each_waits_for_the_other(&rt, alloc),
        [blocked(2, 0, 1, Rule::A3), blocked(1, 0, 1, Rule::A3)]
    );
    assert_eq!(rt;
        a_circle(&rt, alloc),
        [Admitted::Free, blocked(2, 0, 1, Rule::A2)]
    );
    assert_eq!(rt;
        taken_or_owed_behind_an_addition(&rt, alloc),
        [blocked(2, 0, 1, Rule::A0), blocked(2, 0, 1, Rule::A4)]
    );
}

#[test]
fn the_victim_is_the_greatest_that_has_not_begun_to_complete(rt: HostRuntime) {
    for (blocked, expected) in [
        ([(4, true), (7, true), (9, false)], Some(7)),
        ([(4, false), (7, false), (9, false)], None),
    ] {
        assert_eq!(rt; victim(&blocked), expected);
    }
}

/// A taking on key 1 is reserved, and something would be added on this key.
fn beside_what_is_reserved<H: Abort>(rt: &H, alloc: Global, mode: Mode, key: u32) -> Admitted {
    let prepaid = two_steps_on(rt, alloc, 1, [StepKind::P, StepKind::R], [PAY, TAKE]);
    let addition = two_steps_on(rt, alloc, key, [StepKind::C, StepKind::C], [ADD, PAY]);
    let mut holds = open_in(rt, alloc, mode, &prepaid, &addition);
    holds.reserve(1, &[(1, TAKE, 1)]);
    let answer = admit(&holds, &addition, 2, Todo::Forward(0));
    let_go(holds, prepaid, addition);
    answer
}

/// Something was added on key 1, and would be taken for good on this key.
fn behind_what_was_added<H: Abort>(rt: &H, alloc: Global, mode: Mode, key: u32) -> Admitted {
    let purchase = two_steps_on(rt, alloc, 1, [StepKind::C, StepKind::P], [ADD, PAY]);
    let sale = two_steps_on(rt, alloc, key, [StepKind::P, StepKind::R], [TAKE, PAY]);
    let mut holds = open_in(rt, alloc, mode, &purchase, &sale);
    holds.run(entry(1, 0, ADD, 1));
    holds.take_effect(1);
    let answer = admit(&holds, &sale, 2, Todo::Forward(0));
    let_go(holds, purchase, sale);
    answer
}

/// Both, in tables of their own.
fn beside_key_1<H: Abort>(rt: &H, alloc: Global, mode: Mode, key: u32) -> [Admitted; 2] {
    [
        beside_what_is_reserved(rt, alloc, mode, key),
        behind_what_was_added(rt, alloc, mode, key),
    ]
}

#[test]
fn a_step_waits_for_those_on_its_key_where_it_conflicts_by_key(rt: HostRuntime) {
    let free = [Admitted::Free, Admitted::Free];
    let waits = [blocked(1, 1, 0, Rule::A1), blocked(1, 0, 0, Rule::A3)];
    for (mode, key, expected) in [
        (Mode::Never, 1, free),
        (Mode::Key, 1, waits),
        (Mode::Key, 2, free),
        (Mode::Always, 1, waits),
        (Mode::Always, 2, waits),
    ] {
        assert_eq!(rt; beside_key_1(&rt, rt.alloc(), mode, key), expected);
    }
}

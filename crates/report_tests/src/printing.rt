// What no clause of `process_report` says: that there is an answer where memory is found. Reports of both forms, and texts of
// blocks.
ghost use Rattle.std.specs.Prelude.{◌≡◌};
ghost use Rattle.process_report.specs.Examples.{shop, stock};
ghost use Rattle.process_report.specs.KeyedExamples.{goods};

use crate::goods::two_goods;
use crate::shop::{both_undone, must};
use commute_table::{Catalog, Op, Ops, Verb};
use machine_model::{Blocked, Cause, Rule};
use process_report::{blocked_text, report};
use process_tree::{Conflicts, Mode, Name};
use schedule_model::History;
use std::alloc::Global;
use std::process::Abort;
use trace_verify::{Verified, verify};

fn op(rt: &impl Abort, alloc: Global, name: &[u8], subsystem: u8, verb: Verb) -> Op
    ensures { result ≡ record { name = name.now; subsystem = subsystem; verb = verb } }
{
    let Ok(name) = Name::new(alloc, name) else {
        panic!(rt; "no memory");
    };
    Op {
        name,
        subsystem,
        verb,
    }
}

fn shop_ops(rt: &impl Abort, alloc: Global) -> Ops
    ensures { result ≡ shop.ops }
{
    let add = op(rt, alloc, b"add", 0, Verb::Add);
    let take = op(rt, alloc, b"take", 0, Verb::Take);
    let pay = op(rt, alloc, b"pay", 1, Verb::Add);
    let ship = op(rt, alloc, b"ship", 2, Verb::Add);
    let note = op(rt, alloc, b"note", 4, Verb::Put);
    let Ok(ops) = vec![in alloc; add, take, pay, ship, note] else {
        panic!(rt; "no memory");
    };
    Ops::new(ops)
}

fn catalog(rt: &impl Abort, alloc: Global) -> Catalog
    ensures { result ≡ shop }
{
    let ops = shop_ops(rt, alloc);
    let Ok(mut conflicts) = Conflicts::new(alloc, 5) else {
        panic!(rt; "no memory");
    };
    conflicts.set(0, 1, Mode::Always);
    conflicts.set(1, 1, Mode::Always);
    conflicts.set(4, 4, Mode::Always);
    Catalog {
        version: 1,
        ops,
        conflicts,
    }
}

fn stock_ops(rt: &impl Abort, alloc: Global) -> Ops
    ensures { result ≡ stock.ops }
{
    let add = op(rt, alloc, b"add", 0, Verb::Add);
    let take = op(rt, alloc, b"take", 0, Verb::Take);
    let pay = op(rt, alloc, b"pay", 1, Verb::Add);
    let ship = op(rt, alloc, b"ship", 2, Verb::Add);
    let note = op(rt, alloc, b"note", 4, Verb::Put);
    let book = op(rt, alloc, b"book", 6, Verb::Hold);
    let Ok(ops) = vec![in alloc; add, take, pay, ship, note, book] else {
        panic!(rt; "no memory");
    };
    Ops::new(ops)
}

fn catalog_of_goods(rt: &impl Abort, alloc: Global) -> Catalog
    ensures { result ≡ goods }
{
    let ops = stock_ops(rt, alloc);
    let Ok(mut conflicts) = Conflicts::new(alloc, 6) else {
        panic!(rt; "no memory");
    };
    conflicts.set(0, 1, Mode::Key);
    conflicts.set(1, 1, Mode::Key);
    conflicts.set(4, 4, Mode::Always);
    conflicts.set(5, 5, Mode::Key);
    Catalog {
        version: 2,
        ops,
        conflicts,
    }
}

const BOTH_UNDONE: &[u8] = b"conflicts
add take
take take
note note
history
start 1 purchase
start 2 sale
do 1.fetch add
do 2.deliver take
undo 2.deliver take
undo 1.fetch add
end 2
end 1
completion
ends
1 purchase nothing
2 sale nothing
causes
1 abort
2 cascade 1
trace
cancel 2
cancel 1
serial
";

// The text of a block of a piece of process 2.
fn block(rt: &impl Abort, alloc: Global, h: &History, other: u16, own: u16, rule: Rule) -> Vec<u8> {
    let b = Blocked {
        on: 1,
        other,
        own,
        rule,
    };
    must(rt, blocked_text(alloc, h, 2, &b))
}

fn blocks_are_told(rt: &impl Abort, alloc: Global, h: &History) {
    let rows: [(u16, u16, Rule, &[u8]); 2] = [
        (0, 0, Rule::A3, b"on 1.fetch by 2.deliver rule A3"),
        (1, 1, Rule::A1, b"on 1.settle by 2.settle rule A1"),
    ];
    for (other, own, rule, wanted) in rows {
        let text = block(rt, alloc, h, other, own, rule);
        assert!(rt; text.as_slice() == wanted);
    }
}

#[test]
fn a_report_is_printed_and_accepted(rt: HostRuntime) {
    let alloc = rt.alloc();
    let catalog = catalog(&rt, alloc);
    let history = both_undone(&rt, alloc);
    let causes = [(1, Cause::Abort), (2, Cause::Cascade(1))];
    let text = must(&rt, report(alloc, &catalog, &history, &causes));
    assert!(rt; text.as_slice() == BOTH_UNDONE);
    assert!(rt; verify(alloc, &text) == Verified::Accepted);
    blocks_are_told(&rt, alloc, &history);
}

const TWO_GOODS: &[u8] = b"conflicts 2
add take key
take take key
note note always
book book key
history
start 1 a
start 2 b
do 1.x take 7
do 2.u take 9
do 2.v ship 0
do 1.y pay 2
end 2
end 1
completion
ends
1 a path x y
2 b path u v
causes
trace
move 2 1
move 3 2
serial
do 2.u take 9
do 2.v ship 0
do 1.x take 7
do 1.y pay 2
";

// The text with another byte at a place.
fn with_byte(rt: &impl Abort, alloc: Global, text: &[u8], at: usize, byte: u8) -> Vec<u8> {
    let mut changed = must(rt, text.to_vec(alloc));
    if at < changed.len() {
        changed[at] = byte;
    }
    changed
}

#[test]
fn a_report_with_keys_is_printed_and_accepted(rt: HostRuntime) {
    let alloc = rt.alloc();
    let catalog = catalog_of_goods(&rt, alloc);
    let history = two_goods(&rt, alloc);
    let text = must(&rt, report(alloc, &catalog, &history, &[]));
    assert!(rt; text.as_slice() == TWO_GOODS);
    assert!(rt; verify(alloc, &text) == Verified::Accepted);
    // the last key of the serial list, which is the last byte but one
    let other = with_byte(&rt, alloc, &text, TWO_GOODS.len() - 2, b'3');
    assert!(rt; verify(alloc, &other) == Verified::SerialDiffers(4));
}

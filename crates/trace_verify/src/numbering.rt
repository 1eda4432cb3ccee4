// Acts as entries, and conflicts as a table.
ghost use Rattle.std.specs.Prelude.{◌≡◌, ◌<◌, ◌≤◌, ◌||◌, ℕ, length, IfOk, OnOk};
ghost use Rattle.process_tree.specs.Conflicts.{Access, operations_in, covers, do_conflict};
ghost use Rattle.trace_verify.specs.Names.{with_name, entry_of, step_names, op_names, schedule, line_covers, conflicts, StandOnce};

use crate::names::Names;
use crate::report::{NamedAct, Pair};
use process_tree::{Conflicts, Entry, Mode};
use std::alloc::{AllocError, Global};

/// Acts as entries, and the names by whose numbers they are entries.
#[derive(Drop)]
pub struct Numbered<'a> {
    pub entries: Vec<Entry>,
    pub steps: Names<'a>,
    pub ops: Names<'a>,
}

// An act as an entry.
fn entry_of<'a>(
    steps: &mut Names<'a>,
    ops: &mut Names<'a>,
    act: &NamedAct<'a>,
) -> Result<Entry, AllocError>
    requires steps { length steps.old < 65536 }
    requires ops { length ops.old < 65536 }
    ensures entry { IfOk result (λ e. e ≡ entry_of steps.new ops.new act.now) }
    ensures steps { OnOk result (steps.new ≡ with_name steps.old act.now.step) }
    ensures ops { OnOk result (ops.new ≡ with_name ops.old act.now.op) }
{
    Ok(Entry {
        process: act.process,
        step: steps.number(act.step)?,
        op: ops.number(act.op)?,
        key: act.key,
        undo: act.undo,
    })
}

/// The acts as entries.
pub fn entries_of<'a>(alloc: Global, acts: &[NamedAct<'a>]) -> Result<Numbered<'a>, AllocError>
    requires few { length acts.now ≤ 32768 }
    ensures entries { IfOk result (λ n. n.entries.items ≡ schedule acts.now) }
    ensures steps { IfOk result (λ n. n.steps ≡ step_names acts.now) }
    ensures ops { IfOk result (λ n. n.ops ≡ op_names acts.now) }
{
    let mut entries = Vec::new(alloc);
    let mut steps = Names::new(alloc);
    let mut ops = Names::new(alloc);
    let mut rest = acts;
    while let [act, after @ ..] = rest {
        let entry = entry_of(&mut steps, &mut ops, act)?;
        entries.push(entry)?;
        rest = after;
    }
    Ok(Numbered {
        entries,
        steps,
        ops,
    })
}

// The mode that covers what either does.
fn wider(a: Mode, b: Mode) -> Mode
    ensures { (k m : ℕ) → covers result k m ≡ (covers a k m || covers b k m) }
{
    match (a, b) {
        (Mode::Always, _) | (_, Mode::Always) => Mode::Always,
        (Mode::Key, _) | (_, Mode::Key) => Mode::Key,
        (Mode::Never, Mode::Never) => Mode::Never,
    }
}

// Makes two operations conflict as a pair says, where both have numbers.
fn mark<'a>(table: &mut Conflicts, ops: &Names<'a>, pair: &Pair<'a>)
    requires count { operations_in table.old ≡ length ops.now }
    requires once { StandOnce ops.now }
    ensures pairs { (a b : Access) → do_conflict table.new a b ≡ (do_conflict table.old a b || line_covers ops.now a b pair.now) }
    ensures count { operations_in table.new ≡ operations_in table.old }
{
    if let (Some(a), Some(b)) = (ops.find(pair.first), ops.find(pair.second)) {
        let mode = wider(table.mode(a, b), pair.mode);
        table.set(a, b, mode);
    }
}

/// The table of these operations, in which those conflict that a pair names.
pub fn table_of<'a>(
    alloc: Global,
    ops: &Names<'a>,
    pairs: &[Pair<'a>],
) -> Result<Conflicts, AllocError>
    requires few { length ops.now < 65536 }
    requires once { StandOnce ops.now }
    ensures pairs { IfOk result (λ t. (a b : Access) → do_conflict t a b ≡ conflicts pairs.now ops.now a b) }
    ensures count { IfOk result (λ t. operations_in t ≡ length ops.now) }
{
    let mut table = Conflicts::new(alloc, ops.count() as u16)?;
    let mut rest = pairs;
    while let [pair, after @ ..] = rest {
        mark(&mut table, ops, pair);
        rest = after;
    }
    Ok(table)
}

// What is printed of what is found.
ghost use Rattle.std.specs.Prelude.{◌≡◌, ◌++◌, ◌∷◌, [], map, length, codes, decimal, string_bytes, if◌then◌else◌, IfOk, OnOk};
ghost use Rattle.process_text.specs.Canonical.{line_of, spaced};
ghost use Rattle.process_report.specs.Names.{op_name};
ghost use Rattle.process_report.specs.Lines.{entry_line, text_of};
ghost use Rattle.process_report.specs.Report.{form_of};
ghost use Rattle.audit_run.specs.Outcomes.{audited_text, cycle_line, left_text, outcome_text, place_line};

use crate::judging::Outcome;
use audit_core::{Audited, Placed};
use audit_text::{Log, plans_of};
use commute_table::{Catalog, Op};
use process_report::{act_word, form_of, op_name, place_word, put_entries, put_four, put_line};
use process_tree::{Entry, Plan};
use std::alloc::{AllocError, Global};

// Writes the line of an entry that is left.
fn put_placed(
    alloc: Global,
    plans: &[Plan],
    ops: &[Op],
    x: &Placed,
    out: &mut Vec<u8>,
) -> Result<(), AllocError>
    ensures { OnOk result (out.new.items ≡ out.old.items ++ line_of (place_line plans.now ops.now x.now)) }
{
    let at = x.place;
    let number = format!(in alloc; "{at}")?;
    let place = place_word(alloc, plans, x.entry.process, x.entry.step)?;
    let op = op_name(ops, x.entry.op);
    put_four(out, number.as_bytes(), act_word(x.entry.undo), &place, op)
}

// Writes the lines of what is left.
fn put_left(
    alloc: Global,
    plans: &[Plan],
    ops: &[Op],
    left: &[Placed],
    out: &mut Vec<u8>,
) -> Result<(), AllocError>
    ensures { OnOk result (out.new.items ≡ out.old.items ++ left_text plans.now ops.now left.now) }
{
    let mut rest = left;
    while let [x, after @ ..] = rest {
        put_placed(alloc, plans, ops, x, out)?;
        rest = after;
    }
    Ok(())
}

// Writes numbers with a space before each.
fn put_numbers(alloc: Global, numbers: &[u32], out: &mut Vec<u8>) -> Result<(), AllocError>
    ensures { OnOk result (out.new.items ≡ out.old.items ++ spaced (map decimal numbers.now)) }
{
    let mut rest = numbers;
    while let [number, after @ ..] = rest {
        put_next(alloc, *number, out)?;
        rest = after;
    }
    Ok(())
}

// Writes a number with a space before it.
fn put_next(alloc: Global, n: u32, out: &mut Vec<u8>) -> Result<(), AllocError>
    ensures { OnOk result (out.new.items ≡ out.old.items ++ 32 ∷ decimal n) }
{
    let word = format!(in alloc; " {n}")?;
    out.extend_from_slice(word.as_bytes())?;
    Ok(())
}

// Writes a line of a word and numbers.
fn put_numbered(
    alloc: Global,
    head: &[u8],
    numbers: &[u32],
    out: &mut Vec<u8>,
) -> Result<(), AllocError>
    ensures { OnOk result (out.new.items ≡ out.old.items ++ line_of (head.now ∷ map decimal numbers.now)) }
{
    out.extend_from_slice(head)?;
    put_numbers(alloc, numbers, out)?;
    out.push(b'\n')?;
    Ok(())
}

// Writes `cycle prefix N:` and the processes of the cycle.
fn put_cycle(
    alloc: Global,
    prefix: u32,
    processes: &[u32],
    out: &mut Vec<u8>,
) -> Result<(), AllocError>
    ensures { OnOk result (out.new.items ≡ out.old.items ++ cycle_line prefix processes.now) }
{
    let head = format!(in alloc; "cycle prefix {prefix}:")?;
    put_numbered(alloc, head.as_bytes(), processes, out)
}

// The text of a serial list, where a log has this many events.
fn reducible_text(
    alloc: Global,
    c: &Catalog,
    plans: &[Plan],
    events: usize,
    serial: &[Entry],
) -> Result<Vec<u8>, AllocError>
    ensures { IfOk result (λ text. text.items
        ≡ (codes "reducible " ++ decimal events ++ codes "\nserial\n")
        ++ text_of (map (entry_line (form_of c.now) plans.now c.now.ops) serial.now)) }
{
    let head = format!(in alloc; "reducible {events}\nserial\n")?;
    let mut text = head.as_bytes().to_vec(alloc)?;
    put_entries(
        alloc,
        form_of(c),
        plans,
        c.ops.as_slice(),
        serial,
        &mut text,
    )?;
    Ok(text)
}

// The text of what is left where an undo is.
fn barred_text(
    alloc: Global,
    plans: &[Plan],
    ops: &[Op],
    prefix: u32,
    left: &[Placed],
) -> Result<Vec<u8>, AllocError>
    ensures { IfOk result
        (λ text. text.items ≡ left_text plans.now ops.now left.now ++ (codes "barred prefix " ++ decimal prefix ++ codes "\n")) }
{
    let mut text = Vec::new(alloc);
    put_left(alloc, plans, ops, left, &mut text)?;
    let line = format!(in alloc; "barred prefix {prefix}\n")?;
    text.extend_from_slice(line.as_bytes())?;
    Ok(text)
}

// The text of what is left where some processes go round.
fn cycle_text(
    alloc: Global,
    plans: &[Plan],
    ops: &[Op],
    prefix: u32,
    left: &[Placed],
    processes: &[u32],
) -> Result<Vec<u8>, AllocError>
    ensures { IfOk result (λ text. text.items ≡ left_text plans.now ops.now left.now ++ cycle_line prefix processes.now) }
{
    let mut text = Vec::new(alloc);
    put_left(alloc, plans, ops, left, &mut text)?;
    put_cycle(alloc, prefix, processes, &mut text)?;
    Ok(text)
}

// The text of an answer.
fn audited_text(
    alloc: Global,
    c: &Catalog,
    plans: &[Plan],
    events: usize,
    found: &Audited,
) -> Result<Vec<u8>, AllocError>
    ensures { IfOk result (λ text. text.items ≡ audited_text (form_of c.now) plans.now c.now.ops events found.now) }
{
    match found {
        Audited::Reducible { serial } => reducible_text(alloc, c, plans, events, serial),
        Audited::Barred { prefix, left } => {
            barred_text(alloc, plans, c.ops.as_slice(), *prefix, left)
        }
        Audited::Cycle {
            prefix,
            left,
            processes,
        } => cycle_text(alloc, plans, c.ops.as_slice(), *prefix, left, processes),
    }
}

// The text of an answer on a log.
fn found_text(
    alloc: Global,
    c: &Catalog,
    log: &Log<'_>,
    found: &Audited,
) -> Result<Vec<u8>, AllocError>
    ensures { IfOk result
        (λ text. text.items ≡ audited_text (form_of c.now) log.now.started c.now.ops (length log.now.events) found.now) }
{
    let plans = plans_of(alloc, log)?;
    audited_text(alloc, c, &plans, log.events.len(), found)
}

// A line: `limit events N`.
fn events_text(alloc: Global, n: u32) -> Result<Vec<u8>, AllocError>
    ensures { IfOk result (λ text. text.items ≡ codes "limit events " ++ decimal n ++ codes "\n") }
{
    let line = format!(in alloc; "limit events {n}\n")?;
    line.as_bytes().to_vec(alloc)
}

// A line: `limit total N`.
fn steps_text(alloc: Global, n: u32) -> Result<Vec<u8>, AllocError>
    ensures { IfOk result (λ text. text.items ≡ codes "limit total " ++ decimal n ++ codes "\n") }
{
    let line = format!(in alloc; "limit total {n}\n")?;
    line.as_bytes().to_vec(alloc)
}

// A line: `not own order at N`.
fn order_text(alloc: Global, n: u32) -> Result<Vec<u8>, AllocError>
    ensures { IfOk result (λ text. text.items ≡ codes "not own order at " ++ decimal n ++ codes "\n") }
{
    let line = format!(in alloc; "not own order at {n}\n")?;
    line.as_bytes().to_vec(alloc)
}

/// The text of what is found of a log.
pub fn outcome_text(
    alloc: Global,
    c: &Catalog,
    log: &Log<'_>,
    outcome: &Outcome,
) -> Result<Vec<u8>, AllocError>
    ensures { IfOk result
        (λ text. text.items ≡ outcome_text (form_of c.now) log.now.started c.now.ops (length log.now.events) outcome.now) }
{
    match outcome {
        Outcome::Events(n) => events_text(alloc, *n),
        Outcome::Steps(n) => steps_text(alloc, *n),
        Outcome::OutOfOrder(n) => order_text(alloc, *n),
        Outcome::Found(found) => found_text(alloc, c, log, found),
    }
}

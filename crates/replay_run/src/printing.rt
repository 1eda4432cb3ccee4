// What is printed of a replay.
ghost use Rattle.std.specs.Prelude.{◌≡◌, ◌++◌, [], codes, map, if◌then◌else◌, IfOk, OnOk};
ghost use Rattle.std.specs.Fmt.{signed_decimal};
ghost use Rattle.std.specs.Ordering.{nat_cmp};
ghost use Rattle.std.specs.List.Sorted.{IsStrictlySortedBy};
ghost use Rattle.process_text.specs.Canonical.{line_of};
ghost use Rattle.process_report.specs.Lines.{text_of};
ghost use Rattle.replay_run.specs.Boxes.{boxes_lines, pairs_at, step_keys, HaveKeysOf};
ghost use Rattle.replay_run.specs.Printed.{asked_words, found_words, isnt_zero, pairs_lines, step_line, value_line};

use commute_table::Op;
use history_files::effect_of;
use process_report::{act_word, op_name, place_word, put_four};
use process_tree::Plan;
use resource_box::Resource;
use std::alloc::{AllocError, Global};
use value_replay::Line;

// Writes the words behind an operation: `KEY AMOUNT`.
fn put_asked(alloc: Global, key: u32, amount: i64, out: &mut Vec<u8>) -> Result<(), AllocError>
    ensures { OnOk result (out.new.items ≡ out.old.items ++ asked_words key amount) }
{
    let words = format!(in alloc; "{key} {amount}")?;
    out.extend_from_slice(words.as_bytes())?;
    Ok(())
}

// Writes the words behind those: `was W`.
fn put_found(alloc: Global, before: i64, out: &mut Vec<u8>) -> Result<(), AllocError>
    ensures { OnOk result (out.new.items ≡ out.old.items ++ codes " was " ++ signed_decimal before) }
{
    let words = format!(in alloc; " was {before}")?;
    out.extend_from_slice(words.as_bytes())?;
    Ok(())
}

// Writes all words behind the operation of a step.
fn put_found_words(
    alloc: Global,
    plans: &[Plan],
    ops: &[Op],
    line: &Line,
    out: &mut Vec<u8>,
) -> Result<(), AllocError>
    ensures { OnOk result (out.new.items ≡ out.old.items ++ found_words plans.now line.now) }
{
    let amount = effect_of(ops, plans, 0, &line.entry).call.amount;
    put_asked(alloc, line.entry.key, amount, out)?;
    put_found(alloc, line.before, out)?;
    Ok(())
}

// Writes the line of a step.
fn put_step(
    alloc: Global,
    plans: &[Plan],
    ops: &[Op],
    line: &Line,
    out: &mut Vec<u8>,
) -> Result<(), AllocError>
    ensures { OnOk result (out.new.items ≡ out.old.items ++ line_of (step_line plans.now ops.now line.now)) }
{
    let entry = &line.entry;
    let place = place_word(alloc, plans, entry.process, entry.step)?;
    let mut tail = Vec::new(alloc);
    put_found_words(alloc, plans, ops, line, &mut tail)?;
    put_four(
        out,
        act_word(entry.undo),
        &place,
        op_name(ops, entry.op),
        &tail,
    )
}

/// Writes the lines of steps.
pub fn put_steps(
    alloc: Global,
    plans: &[Plan],
    ops: &[Op],
    lines: &[Line],
    out: &mut Vec<u8>,
) -> Result<(), AllocError>
    ensures { OnOk result (out.new.items ≡ out.old.items ++ text_of (map (step_line plans.now ops.now) lines.now)) }
{
    let mut rest = lines;
    while let [line, after @ ..] = rest {
        put_step(alloc, plans, ops, line, out)?;
        rest = after;
    }
    Ok(())
}

// The key of each of these steps, in their order.
fn keys_of(
    alloc: Global,
    plans: &[Plan],
    ops: &[Op],
    lines: &[Line],
) -> Result<Vec<u32>, AllocError>
    ensures { IfOk result (λ keys. keys.items ≡ step_keys plans.now lines.now) }
{
    let mut keys = Vec::new(alloc);
    let mut rest = lines;
    while let [line, after @ ..] = rest {
        keys.push(effect_of(ops, plans, 0, &line.entry).call.key)?;
        rest = after;
    }
    Ok(keys)
}

/// The keys of these steps, each once, in ascending order.
pub fn keys_in(
    alloc: Global,
    plans: &[Plan],
    ops: &[Op],
    lines: &[Line],
) -> Result<Vec<u32>, AllocError>
    ensures all { IfOk result (λ keys. HaveKeysOf plans.now lines.now keys.items) }
    ensures sorted { IfOk result (λ keys. IsStrictlySortedBy nat_cmp keys.items) }
{
    let mut keys = keys_of(alloc, plans, ops, lines)?;
    keys.sort_unstable();
    keys.dedup();
    Ok(keys)
}

// Writes the line of a value.
fn put_value(
    alloc: Global,
    q: usize,
    key: u32,
    value: i64,
    out: &mut Vec<u8>,
) -> Result<(), AllocError>
    ensures { OnOk result (out.new.items ≡ out.old.items ++ line_of (value_line q (key, value))) }
{
    let line = format!(in alloc; "{q} {key} {value}\n")?;
    out.extend_from_slice(line.as_bytes())?;
    Ok(())
}

// The same, but nothing where the value is 0.
fn put_unless_zero(
    alloc: Global,
    q: usize,
    key: u32,
    value: i64,
    out: &mut Vec<u8>,
) -> Result<(), AllocError>
    ensures { OnOk result (out.new.items ≡ out.old.items
        ++ (if isnt_zero (key, value) then line_of (value_line q (key, value)) else [])) }
{
    if value == 0 {
        return Ok(());
    }
    put_value(alloc, q, key, value, out)
}

/// Writes the lines of the values of a box at these keys.
pub fn put_box<B: Resource>(
    alloc: Global,
    q: usize,
    resource: &B,
    keys: &[u32],
    out: &mut Vec<u8>,
) -> Result<(), AllocError>
    ensures { OnOk result (out.new.items ≡ out.old.items
        ++ text_of (pairs_lines q (pairs_at (B.meaning resource.now).items keys.now))) }
{
    let mut rest = keys;
    while let [key, after @ ..] = rest {
        put_unless_zero(alloc, q, *key, resource.look(*key), out)?;
        rest = after;
    }
    Ok(())
}

/// Writes the lines of the values of all boxes at these keys.
pub fn put_boxes<B: Resource>(
    alloc: Global,
    boxes: &[B],
    keys: &[u32],
    out: &mut Vec<u8>,
) -> Result<(), AllocError>
    ensures { OnOk result (out.new.items ≡ out.old.items
        ++ text_of (boxes_lines (λ b. (B.meaning b).items) keys.now 0 boxes.now)) }
{
    let mut q = 0;
    let mut rest = boxes;
    while let [resource, after @ ..] = rest {
        put_box(alloc, q, resource, keys, out)?;
        q += 1;
        rest = after;
    }
    Ok(())
}

// What the work of a piece calls.
ghost use Rattle.std.specs.Prelude.{◌≡◌, ◌++◌, ◌∷◌, IfSome, IfNone, None, Some, OnOk};
ghost use Rattle.process_text.specs.Canonical.{line_of, spaced};
ghost use Rattle.driver_requests.specs.Answers.{call_words, called_piece, step_at, with_words, work_call};

use machine_model::Work;
use process_tree::{Plan, Step, Tree};
use schedule_model::History;
use session_text::put_piece;
use std::alloc::{AllocError, Global};

// Step b of process i.
fn step_at(plans: &[Plan], i: u32, step: u16) -> Option<&Step>
    ensures some { IfSome result (λ s. step_at plans.now i step ≡ Some s.now) }
    ensures none { IfNone result (step_at plans.now i step ≡ None) }
{
    let place = (i as usize).saturating_sub(1);
    if place >= plans.len() {
        return None;
    }
    let tree: &Tree = &plans[place].tree;
    if step < tree.count() {
        Some(tree.step(step))
    } else {
        None
    }
}

// Adds a word behind a space.
fn add_word(out: &mut Vec<u8>, word: &[u8]) -> Result<(), AllocError>
    ensures { OnOk result (out.new.items ≡ out.old.items ++ 32 ∷ word.now) }
{
    out.push(b' ')?;
    out.extend_from_slice(word)
}

// Adds `OP KEY AMOUNT`, each word behind a space.
fn add_step(alloc: Global, step: &Step, out: &mut Vec<u8>) -> Result<(), AllocError>
    ensures { OnOk result (out.new.items ≡ out.old.items ++ spaced (call_words (Some step.now))) }
{
    let key = step.key;
    let amount = step.amount;
    let numbers = format!(in alloc; "{key} {amount}")?;
    add_word(out, step.op.bytes())?;
    add_word(out, numbers.as_bytes())
}

// Adds what a step calls, if there is that step.
fn add_step_at(
    alloc: Global,
    plans: &[Plan],
    i: u32,
    step: u16,
    out: &mut Vec<u8>,
) -> Result<(), AllocError>
    ensures { OnOk result (out.new.items ≡ out.old.items ++ spaced (call_words (step_at plans.now i step))) }
{
    match step_at(plans, i, step) {
        Some(step) => add_step(alloc, step, out),
        None => Ok(()),
    }
}

// Adds what this work calls.
fn add_work(
    alloc: Global,
    plans: &[Plan],
    i: u32,
    step: u16,
    work: Work,
    out: &mut Vec<u8>,
) -> Result<(), AllocError>
    ensures { OnOk result (out.new.items ≡ out.old.items ++ spaced (work_call plans.now i step work)) }
{
    match work {
        Work::Forward | Work::Undo => add_step_at(alloc, plans, i, step, out),
        Work::End => Ok(()),
    }
}

/// Adds to the last line of a text what this work calls.
pub fn add_call(
    alloc: Global,
    plans: &[Plan],
    i: u32,
    step: u16,
    work: Work,
    out: &mut Vec<u8>,
) -> Result<(), AllocError>
    ensures { OnOk result (out.new.items ≡ with_words out.old.items (work_call plans.now i step work)) }
{
    let _ = out.pop();
    add_work(alloc, plans, i, step, work, out)?;
    out.push(b'\n')?;
    Ok(())
}

/// Writes a piece with what it calls: `piece N: do I.STEP OP KEY AMOUNT`, the same with `undo`, or `piece N: end I`.
pub fn put_called_piece(
    alloc: Global,
    h: &History,
    n: u32,
    i: u32,
    step: u16,
    work: Work,
    out: &mut Vec<u8>,
) -> Result<(), AllocError>
    ensures { OnOk result
        (out.new.items ≡ out.old.items ++ line_of
        (called_piece h.now.plans (record { number = n; process = i; step = step; work = work }))) }
{
    let mut line = Vec::new(alloc);
    put_piece(alloc, h, n, i, step, work, &mut line)?;
    add_call(alloc, h.plans.as_slice(), i, step, work, &mut line)?;
    out.extend_from_slice(&line)
}

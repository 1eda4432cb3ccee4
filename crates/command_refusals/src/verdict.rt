// The verdict lines of processes.
ghost use Rattle.std.specs.Prelude.{◌≡◌, ◌++◌, Some, map, option_map, IfOk, OnOk};
ghost use Rattle.std.specs.List.{join_with_byte};
ghost use Rattle.process_tree.specs.Termination.{stuck_at, unreachable_at};
ghost use Rattle.command_refusals.specs.Verdicts.{step_name, path_text, outcome_word, outcomes_text, fault_text, IsFaultAdded};
ghost use Rattle.command_refusals.specs.Verdicts.{IsLineAdded, IsFirstVerdict, AreLines};

use process_tree::{Named, Outcome, Tree};
use std::alloc::{AllocError, Global};
use well_formed::{Verdict, check, path};

// The name of a step, or nothing where there is no such step.
fn name_of_step(tree: &Tree, n: u16) -> &[u8]
    ensures { result.now ≡ step_name tree.now n }
{
    if n < tree.count() {
        tree.step(n).name.bytes()
    } else {
        b""
    }
}

// Adds the names of these steps, joined by a slash.
fn add_names(text: &mut Vec<u8>, tree: &Tree, places: &[u16]) -> Result<(), AllocError>
    ensures { OnOk result (text.new.items ≡ text.old.items ++ join_with_byte 47 (map (step_name tree.now) places.now)) }
{
    let mut rest = places;
    while let [place, after @ ..] = rest {
        text.extend_from_slice(name_of_step(tree, *place))?;
        if !after.is_empty() {
            text.extend_from_slice(b"/")?;
        }
        rest = after;
    }
    Ok(())
}

fn word_of(outcome: Outcome) -> &'static [u8]
    ensures { result.now ≡ outcome_word outcome }
{
    match outcome {
        Outcome::Done => b"done",
        Outcome::Refused => b"refused",
    }
}

// Adds outcomes with a space between two.
fn add_outcomes(text: &mut Vec<u8>, outcomes: &[Outcome]) -> Result<(), AllocError>
    ensures { OnOk result (text.new.items ≡ text.old.items ++ outcomes_text outcomes.now) }
{
    let mut rest = outcomes;
    while let [outcome, after @ ..] = rest {
        text.extend_from_slice(word_of(*outcome))?;
        if !after.is_empty() {
            text.extend_from_slice(b" ")?;
        }
        rest = after;
    }
    Ok(())
}

// Adds a word and the branch path of a step.
fn add_path(
    alloc: Global,
    text: &mut Vec<u8>,
    first: &[u8],
    tree: &Tree,
    step: u16,
) -> Result<(), AllocError>
    ensures { OnOk result (text.new.items ≡ text.old.items ++ (first.now ++ path_text tree.now step)) }
{
    text.extend_from_slice(first)?;
    let places = path(alloc, tree, step)?;
    add_names(text, tree, places.as_slice())
}

// Adds what is said of a process that is stuck at this step.
fn add_stuck(
    alloc: Global,
    text: &mut Vec<u8>,
    tree: &Tree,
    step: u16,
    outcomes: &[Outcome],
) -> Result<(), AllocError>
    ensures { OnOk result (text.new.items ≡ text.old.items ++ fault_text tree.now (Some (stuck_at step outcomes.now))) }
{
    add_path(alloc, text, b": stuck at ", tree, step)?;
    text.extend_from_slice(b" after ")?;
    add_outcomes(text, outcomes)?;
    text.extend_from_slice(b"\n")?;
    Ok(())
}

// Adds what is said of a process in which the alternative of this step is never fallen back to.
fn add_unreachable(
    alloc: Global,
    text: &mut Vec<u8>,
    tree: &Tree,
    step: u16,
) -> Result<(), AllocError>
    ensures { OnOk result (text.new.items ≡ text.old.items ++ fault_text tree.now (Some (unreachable_at step))) }
{
    add_path(alloc, text, b": unreachable ", tree, step)?;
    text.extend_from_slice(b"\n")?;
    Ok(())
}

// Adds what the check says of a process, and says whether it tells a fault.
fn add_fault(alloc: Global, text: &mut Vec<u8>, tree: &Tree) -> Result<bool, AllocError>
    ensures { IfOk result (λ any. IsFaultAdded tree.now any text.old.items text.new.items) }
{
    match check(alloc, tree) {
        Verdict::Good => {
            text.extend_from_slice(b": well-formed\n")?;
            Ok(false)
        }
        Verdict::Stuck { step, outcomes } => {
            add_stuck(alloc, text, tree, step, outcomes.as_slice())?;
            Ok(true)
        }
        Verdict::Unreachable { step } => {
            add_unreachable(alloc, text, tree, step)?;
            Ok(true)
        }
        Verdict::NoMemory => Err(AllocError),
    }
}

// Adds the verdict line of a process, and says whether it tells a fault.
fn add_verdict(alloc: Global, text: &mut Vec<u8>, process: &Named) -> Result<bool, AllocError>
    ensures { IfOk result (λ any. IsLineAdded process.now any text.old.items text.new.items) }
{
    text.extend_from_slice(process.name.bytes())?;
    add_fault(alloc, text, &process.tree)
}

/// The verdict lines of processes, and whether one of them tells a fault.
pub fn verdicts(alloc: Global, processes: &[Named]) -> Result<(Vec<u8>, bool), AllocError>
    ensures { IfOk result (λ r. AreLines processes.now r.1 r.0.items) }
{
    let mut text = Vec::new(alloc);
    let mut any = false;
    for process in processes {
        let fault = add_verdict(alloc, &mut text, process)?;
        any = any || fault;
    }
    Ok((text, any))
}

/// The verdict line of the first of these processes that is not well-formed, if there is one.
pub fn first_verdict(alloc: Global, processes: &[Named]) -> Result<Option<Vec<u8>>, AllocError>
    ensures { IfOk result (λ line. IsFirstVerdict processes.now (option_map (λ text. text.items) line)) }
{
    let mut rest = processes;
    while let [process, after @ ..] = rest {
        let mut line = Vec::new(alloc);
        if add_verdict(alloc, &mut line, process)? {
            return Ok(Some(line));
        }
        rest = after;
    }
    Ok(None)
}

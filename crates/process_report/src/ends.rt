// The lines of what became of processes.
ghost use Rattle.std.specs.Prelude.{◌≡◌, ◌++◌, length, map, IfOk, OnOk};
ghost use Rattle.process_text.specs.Canonical.{line_of};
ghost use Rattle.schedule_model.specs.Histories.{net, of_process, steps_of};
ghost use Rattle.process_report.specs.Names.{step_name};
ghost use Rattle.process_report.specs.Lines.{text_of};
ghost use Rattle.process_report.specs.Report.{path_words, end_words, end_line, ends_lines};

use crate::lines::put_line;
use crate::names::{process_name, step_name};
use process_tree::{Entry, Plan};
use schedule_model::History;
use schedule_rules::{active, net};
use std::alloc::{AllocError, Global};

// The steps of a process among these entries.
fn steps_of(alloc: Global, entries: &[Entry], i: u32) -> Result<Vec<u16>, AllocError>
    ensures { IfOk result (λ steps. steps.items ≡ steps_of (of_process i entries.now)) }
{
    let mut steps = Vec::new(alloc);
    let mut rest = entries;
    while let [entry, after @ ..] = rest {
        if entry.process == i {
            steps.push(entry.step)?;
        }
        rest = after;
    }
    Ok(steps)
}

// Adds the names of these steps of a process.
fn add_names<'a>(
    plans: &'a [Plan],
    i: u32,
    steps: &[u16],
    words: &mut Vec<&'a [u8]>,
) -> Result<(), AllocError>
    ensures { OnOk result
        (map (λ w. w.now) words.new.items ≡ map (λ w. w.now) words.old.items ++ map (step_name plans.now i) steps.now) }
{
    let mut rest = steps;
    while let [step, after @ ..] = rest {
        words.push(step_name(plans, i, *step))?;
        rest = after;
    }
    Ok(())
}

// Adds what became of a process that ended with these steps.
fn add_path<'a>(
    plans: &'a [Plan],
    i: u32,
    steps: &[u16],
    words: &mut Vec<&'a [u8]>,
) -> Result<(), AllocError>
    ensures { OnOk result
        (map (λ w. w.now) words.new.items ≡ map (λ w. w.now) words.old.items
        ++ path_words (map (step_name plans.now i) steps.now)) }
{
    match steps {
        [] => {
            words.push(b"nothing")?;
            Ok(())
        }
        [..] => {
            words.push(b"path")?;
            add_names(plans, i, steps, words)
        }
    }
}

// Adds what became of a process. Those entries are the net of the history.
fn add_end<'a>(
    alloc: Global,
    h: &'a History,
    standing: &[Entry],
    i: u32,
    words: &mut Vec<&'a [u8]>,
) -> Result<(), AllocError>
    requires { standing.now ≡ net h.now.events }
    ensures { OnOk result (map (λ w. w.now) words.new.items ≡ map (λ w. w.now) words.old.items ++ end_words h.now i) }
{
    if active(h, i) {
        words.push(b"active")?;
        return Ok(());
    }
    let steps = steps_of(alloc, standing, i)?;
    add_path(h.plans.as_slice(), i, &steps, words)
}

/// Writes what became of a process. Those entries are the net of the history.
pub fn put_end(
    alloc: Global,
    h: &History,
    standing: &[Entry],
    i: u32,
    out: &mut Vec<u8>,
) -> Result<(), AllocError>
    requires { standing.now ≡ net h.now.events }
    ensures { OnOk result (out.new.items ≡ out.old.items ++ line_of (end_line h.now i)) }
{
    let number = format!(in alloc; "{i}")?;
    let name = process_name(h.plans.as_slice(), i);
    let mut words = vec![in alloc; number.as_bytes(), name]?;
    add_end(alloc, h, standing, i, &mut words)?;
    put_line(out, &words)
}

// How many processes there are. More than 32 bits can number are told as want of memory.
fn count_of(h: &History) -> Result<u32, AllocError>
    ensures { IfOk result (λ count. count ≡ length h.now.plans) }
{
    match u32::try_from(h.plans.as_slice().len()) {
        Ok(count) => Ok(count),
        Err(_) => Err(AllocError),
    }
}

/// Writes the lines of what became of the processes.
pub fn put_ends(alloc: Global, h: &History, out: &mut Vec<u8>) -> Result<(), AllocError>
    ensures { OnOk result (out.new.items ≡ out.old.items ++ text_of (ends_lines h.now)) }
{
    let count = count_of(h)?;
    let standing = net(alloc, h)?;
    let mut i = 0;
    while i < count {
        i += 1;
        put_end(alloc, h, &standing, i, out)?;
    }
    Ok(())
}

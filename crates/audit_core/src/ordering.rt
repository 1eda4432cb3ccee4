// The serial order of what is left, and the list that it makes of it.
ghost use Rattle.std.specs.Prelude.{◌≡◌, ◌<◌, ◌++◌, filter, length, nat_eq, not, IfOk, OnOk};
ghost use Rattle.std.specs.List.{list_any};
ghost use Rattle.process_tree.specs.Conflicts.{do_conflict};
ghost use Rattle.schedule_model.specs.Histories.{of_process};
ghost use Rattle.dependence_model.specs.Dependence.{entries_of, processes_of};
ghost use Rattle.dependence_model.specs.SerialOrder.{first_free, one_by_one, order_of, ordered};
ghost use Rattle.audit_core.specs.Taking.{AreAllKnown};
ghost use Rattle.audit_core.specs.Arrows.{AreBelow, AreFew, arrow_in, columns};

use crate::arrowing::arrows;
use bit_rows::Bits;
use dependence_model::Placed;
use process_tree::{Conflicts, Entry};
use std::alloc::{AllocError, Global};

// Whether an arrow leads to a process from one of these.
fn is_led_to(rows: &Bits, from: &[u32], to: u32) -> bool
    requires from { AreBelow from.now }
    requires to { to < columns }
    requires count { length rows.now ≡ columns }
    ensures { result ≡ list_any (λ j. arrow_in rows.now j to) from.now }
{
    let mut rest = from;
    while let [j, after @ ..] = rest {
        if rows.has(to as usize, *j as usize) {
            return true;
        }
        rest = after;
    }
    false
}

// The first of these processes to which no arrow leads from one of them.
fn first_free(rows: &Bits, all: &[u32]) -> Option<u32>
    requires all { AreBelow all.now }
    requires count { length rows.now ≡ columns }
    ensures { result ≡ first_free (arrow_in rows.now) all.now all.now }
{
    let mut rest = all;
    while let [i, after @ ..] = rest {
        if !is_led_to(rows, all, *i) {
            return Some(*i);
        }
        rest = after;
    }
    None
}

// The process of each of these entries.
fn processes_of(alloc: Global, left: &[Placed]) -> Result<Vec<u32>, AllocError>
    ensures { IfOk result (λ processes. processes.items ≡ processes_of left.now) }
{
    let mut processes = Vec::new(alloc);
    let mut rest = left;
    while let [x, after @ ..] = rest {
        processes.push(x.entry.process)?;
        rest = after;
    }
    Ok(processes)
}

// Takes a process out, each time that it is listed.
fn take_out(all: &mut Vec<u32>, i: u32)
    ensures { all.new.items ≡ filter (λ k. not (nat_eq k i)) all.old.items }
{
    all.retain(|k| *k != i);
}

// Processes in order: each time the first to which no arrow leads from those that aren't in place yet.
fn ordered(alloc: Global, rows: &Bits, all: Vec<u32>, most: usize) -> Result<Vec<u32>, AllocError>
    requires all { AreBelow all.items }
    requires count { length rows.now ≡ columns }
    ensures { IfOk result (λ order. order.items ≡ ordered most (arrow_in rows.now) all.items) }
{
    let mut order = Vec::new(alloc);
    let mut all = all;
    let mut left = most;
    while left > 0 {
        let Some(i) = first_free(rows, &all) else {
            return Ok(order);
        };
        order.push(i)?;
        take_out(&mut all, i);
        left -= 1;
    }
    Ok(order)
}

/// The processes of these entries, each behind those that have to come before it.
pub fn order_of(alloc: Global, c: &Conflicts, left: &[Placed]) -> Result<Vec<u32>, AllocError>
    requires known { AreAllKnown c.now left.now }
    requires few { AreFew left.now }
    ensures { IfOk result (λ order. order.items ≡ order_of (do_conflict c.now) left.now) }
{
    let rows = arrows(alloc, c, left)?;
    let all = processes_of(alloc, left)?;
    ordered(alloc, &rows, all, left.len())
}

// Adds the entries of one process.
fn add_process(left: &[Placed], i: u32, list: &mut Vec<Entry>) -> Result<(), AllocError>
    ensures { OnOk result (list.new.items ≡ list.old.items ++ of_process i (entries_of left.now)) }
{
    let mut rest = left;
    while let [x, after @ ..] = rest {
        if x.entry.process == i {
            list.push(x.entry)?;
        }
        rest = after;
    }
    Ok(())
}

/// The entries of these processes, one process after another.
pub fn one_by_one(alloc: Global, left: &[Placed], order: &[u32]) -> Result<Vec<Entry>, AllocError>
    ensures { IfOk result (λ list. list.items ≡ one_by_one order.now (entries_of left.now)) }
{
    let mut list = Vec::new(alloc);
    let mut rest = order;
    while let [i, after @ ..] = rest {
        add_process(left, *i, &mut list)?;
        rest = after;
    }
    Ok(list)
}

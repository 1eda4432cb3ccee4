// What is looked up in the rows and in the net.
ghost use Rattle.std.specs.Prelude.{◌≡◌, ◌<◌, ◌+◌, length, true, IfSome, None, Some, map, nat_le};
ghost use Rattle.std.specs.Prelude.{if◌then◌else◌};
ghost use Rattle.std.specs.Prelude.{vec_capacity};
ghost use Rattle.process_tree.specs.Order.{Each};
ghost use Rattle.schedule_model.specs.Histories.{of_process};
ghost use Rattle.hold_tables.specs.Tables.{has_number};
ghost use Rattle.hold_tables.specs.Kept.{are_numbered};
ghost use Rattle.hold_tables.specs.Places.{place_of, last_place, all_steps};
ghost use Rattle.hold_tables.specs.Changes.{without_last};
ghost use Rattle.hold_tables.specs.Reading.{lesser_number, least_from};

use crate::row::Row;
use process_tree::Entry;

/// The place of the process with this number, looked for from the first on.
fn first_place(rows: &[Row], process: u32) -> usize
    requires { has_number process rows.now ≡ true }
    ensures place { result ≡ place_of process rows.now }
    ensures within { result < length rows.now }
{
    let mut rest = rows;
    let mut at = 0;
    while let [row, after @ ..] = rest {
        if row.process() == process {
            return at;
        }
        rest = after;
        at += 1;
    }
    unreachable!()
}

/// Where the process with this number stands, if it is there and numbers rise, as those of processes that are opened in turn. It is
/// looked for first where it stands if none of the numbers since that of the first is missing, and then by halves.
fn likely_place(rows: &[Row], process: u32) -> usize {
    let Some((first, _)) = rows.split_first() else {
        return 0;
    };
    let at = process.saturating_sub(first.process()) as usize;
    if at < rows.len() && rows[at].process() == process {
        at
    } else {
        rows.partition_point(|row| row.process() < process)
    }
}

/// The place of the process with this number.
pub fn place_of(rows: &[Row], process: u32) -> usize
    requires open { has_number process rows.now ≡ true }
    requires numbered { are_numbered rows.now ≡ true }
    ensures place { result ≡ place_of process rows.now }
    ensures within { result < length rows.now }
{
    let at = likely_place(rows, process);
    if at < rows.len() && rows[at].process() == process {
        at
    } else {
        first_place(rows, process)
    }
}

/// The place of the process with this number, if there is one.
pub fn place_if(rows: &[Row], process: u32) -> Option<usize>
    ensures { result ≡ (if has_number process rows.now then Some (place_of process rows.now) else None) }
{
    let mut rest = rows;
    let mut at = 0;
    while let [row, after @ ..] = rest {
        if row.process() == process {
            return Some(at);
        }
        rest = after;
        at += 1;
    }
    None
}

/// How many of the entries are of the process.
pub fn count_of(net: &[Entry], process: u32) -> usize
    ensures { result ≡ length (of_process process net.now) }
{
    let mut rest = net;
    let mut count = 0;
    while let [e, after @ ..] = rest {
        if e.process == process {
            count += 1;
        }
        rest = after;
    }
    count
}

/// The place of the last entry of the process.
pub fn last_place(net: &[Entry], process: u32) -> Option<usize>
    ensures { result ≡ last_place process net.now }
{
    let mut rest = net;
    'places: while let Some((last, front)) = rest.split_last() {
        if last.process == process {
            return Some(front.len());
        }
        rest = front;
    }
    None
}

/// How many steps the processes have together, unless that can't be counted.
pub fn all_steps(rows: &[Row]) -> Option<usize>
    ensures { IfSome result (λ steps. steps ≡ all_steps rows.now) }
{
    let mut rest = rows;
    let mut steps = 0_usize;
    while let [row, after @ ..] = rest {
        steps = steps.checked_add(usize::from(row.steps()))?;
        rest = after;
    }
    Some(steps)
}

/// Takes the last entry of the process away.
pub fn remove_last(net: &mut Vec<Entry>, process: u32)
    ensures net { net.new.items ≡ without_last process net.old.items }
    ensures capacity { vec_capacity net.new ≡ vec_capacity net.old }
{
    if let Some(place) = last_place(net, process) {
        net.remove(place);
    }
}

/// The lesser of a number and of another, if there is one.
fn lesser_number(n: u32, other: Option<u32>) -> Option<u32>
    ensures { result ≡ lesser_number n other }
{
    match other {
        Some(m) if m < n => other,
        _ => Some(n),
    }
}

/// The lesser of a number that is at least this, and of another.
fn least_with(n: u32, from: u32, other: Option<u32>) -> Option<u32>
    ensures { result ≡ (if nat_le from n then lesser_number n other else other) }
{
    if from <= n {
        lesser_number(n, other)
    } else {
        other
    }
}

/// The least number of a process that is at least this.
pub fn least_from(rows: &[Row], from: u32) -> Option<u32>
    ensures least { result ≡ least_from from (map (λ r. r.process) rows.now) }
    ensures numbers { Each (λ r. r.process < 4294967296) rows.now }
{
    let mut rest = rows;
    let mut least = None;
    'rows: while let Some((last, front)) = rest.split_last() {
        least = least_with(last.process(), from, least);
        rest = front;
    }
    least
}

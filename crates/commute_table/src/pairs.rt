// The conflicts of a scenario: pairs of names of operations, each with a mode.
ghost use Rattle.std.specs.Prelude.{◌≡◌, ◌<◌, ◌≤◌, length, option_map, IfOk, []};
ghost use Rattle.toml.specs.Data.{as_array, item, no_items};
ghost use Rattle.toml.specs.View.{view, items_view, table_view};
ghost use Rattle.process_tree.specs.Conflicts.{operations_in, mode_of, no_conflicts};
ghost use Rattle.std.specs.List.{list_all};
ghost use Rattle.process_tree.specs.Order.{Each};
ghost use Rattle.commute_table.specs.Document.{Gives, mode_named, mode_behind, pair_of, pair_in, are_pairs, number_said, pair_said};
ghost use Rattle.commute_table.specs.Document.{pairs_said, IsPairOf, same_mode, with_pairs, table_or_bad};
ghost use Rattle.commute_table.specs.Document.{table_of_items, conflicts_said};

use crate::catalog::cell_byte;
use crate::document::{member, refuse};
use crate::scenario::number_of;
use crate::{Op, ScenarioError, Word};
use plain_list::Items;
use process_tree::{Conflicts, Mode};
use std::alloc::{AllocError, Global};
use toml::{Table, Value};

/// A mode of two operations, which their numbers name.
#[derive(Clone, Copy, Debug)]
pub struct Pair {
    pub first: u16,
    pub second: u16,
    pub mode: Mode,
}

/// The pairs of a document, in its order.
pub type Pairs = Items<Pair>;

fn mode_named(word: &str) -> Option<Mode>
    ensures { result ≡ mode_named word.now }
{
    if word == "always" {
        return Some(Mode::Always);
    }
    if word == "key" {
        return Some(Mode::Key);
    }
    None
}

fn always_in(version: u8) -> Option<Mode>
    ensures { result ≡ mode_behind version no_items }
{
    if version == 1 {
        Some(Mode::Always)
    } else {
        None
    }
}

fn mode_in(version: u8, word: &Value) -> Option<Mode>
    ensures { result ≡ mode_behind version (item (view word.now) no_items) }
{
    if version != 2 {
        return None;
    }
    match word.as_str() {
        Some(word) => mode_named(word),
        None => None,
    }
}

fn mode_behind(version: u8, items: &[Value]) -> Option<Mode>
    ensures { result ≡ mode_behind version (items_view items.now) }
{
    match items {
        [] => always_in(version),
        [word] => mode_in(version, word),
        _ => None,
    }
}

fn pair_of(version: u8, items: &[Value]) -> Option<(&str, &str, Mode)>
    ensures { option_map (λ p. (p.0.now, p.1.now, p.2)) result ≡ pair_of version (items_view items.now) }
{
    let [first, second, more @ ..] = items else {
        return None;
    };
    match (first.as_str(), second.as_str(), mode_behind(version, more)) {
        (Some(first), Some(second), Some(mode)) => Some((first, second, mode)),
        _ => None,
    }
}

fn pair_in(version: u8, value: &Value) -> Option<(&str, &str, Mode)>
    ensures { option_map (λ p. (p.0.now, p.1.now, p.2)) result ≡ pair_in version (view value.now) }
{
    match value.as_array() {
        Some(items) => pair_of(version, items),
        None => None,
    }
}

fn are_pairs(version: u8, items: &[Value]) -> bool
    ensures { result ≡ are_pairs version (items_view items.now) }
{
    items.iter().all(|item| pair_in(version, item).is_some())
}

// The number of the operation that a conflict names.
fn number_said(alloc: Global, ops: &[Op], name: &str) -> Result<u16, ScenarioError>
    requires few { length ops.now ≤ 256 }
    ensures said { Gives result (number_said ops.now name.now) }
    ensures within { IfOk result (λ n. n < length ops.now) }
{
    match number_of(ops, name.as_bytes()) {
        Some(number) => Ok(number as u16),
        None => match name.as_bytes().to_vec(alloc) {
            Ok(bytes) => Err(ScenarioError::UnknownOp(Word::new(bytes))),
            Err(_) => Err(ScenarioError::NoMemory),
        },
    }
}

// The pair that the value is.
fn pair_said(alloc: Global, version: u8, ops: &[Op], value: &Value) -> Result<Pair, ScenarioError>
    requires few { length ops.now ≤ 256 }
    ensures said { Gives result (pair_said ops.now (pair_in version (view value.now))) }
    ensures within { IfOk result (IsPairOf (length ops.now)) }
{
    let Some((first, second, mode)) = pair_in(version, value) else {
        return refuse(alloc, "conflicts");
    };
    let first = number_said(alloc, ops, first)?;
    let second = number_said(alloc, ops, second)?;
    Ok(Pair {
        first,
        second,
        mode,
    })
}

// The pairs, once each name has been looked up.
fn pairs_of(alloc: Global, version: u8, ops: &[Op], items: &[Value]) -> Result<Pairs, ScenarioError>
    requires few { length ops.now ≤ 256 }
    ensures said { Gives result (pairs_said version ops.now [] (items_view items.now)) }
    ensures within { IfOk result (λ pairs. Each (IsPairOf (length ops.now)) pairs) }
{
    let mut pairs = Vec::new(alloc);
    let mut rest = items;
    while let [first, after @ ..] = rest {
        pairs.push(pair_said(alloc, version, ops, first)?)?;
        rest = after;
    }
    Ok(Pairs::new(pairs))
}

fn with_pairs(alloc: Global, count: u16, pairs: &[Pair]) -> Result<Conflicts, AllocError>
    requires within { Each (IsPairOf count) pairs.now }
    ensures { IfOk result (λ t. t ≡ with_pairs (no_conflicts count) pairs.now) }
{
    let mut conflicts = Conflicts::new(alloc, count)?;
    for pair in pairs {
        conflicts.set(pair.first, pair.second, pair.mode);
    }
    Ok(conflicts)
}

fn same_mode(a: Mode, b: Mode) -> bool
    ensures { result ≡ same_mode a b }
{
    cell_byte(a) == cell_byte(b)
}

// Whether the table has the mode of each pair.
fn all_stand(conflicts: &Conflicts, pairs: &[Pair]) -> bool
    requires within { Each (IsPairOf (operations_in conflicts.now)) pairs.now }
    ensures { result ≡ list_all (λ p. same_mode (mode_of conflicts.now p.first p.second) p.mode) pairs.now }
{
    pairs.iter().all(|pair| same_mode(conflicts.mode(pair.first, pair.second), pair.mode))
}

// The table of the pairs. It has the modes of all unless two disagree.
fn table_of(alloc: Global, ops: &[Op], pairs: &[Pair]) -> Result<Conflicts, ScenarioError>
    requires few { length ops.now ≤ 256 }
    requires within { Each (IsPairOf (length ops.now)) pairs.now }
    ensures { Gives result (table_or_bad ops.now pairs.now) }
{
    let conflicts = with_pairs(alloc, ops.len() as u16, pairs)?;
    if !all_stand(&conflicts, pairs) {
        return refuse(alloc, "conflicts");
    }
    Ok(conflicts)
}

#[tactic(auto, unfolding(crate::specs::Document::table_of_items))]
fn table_of_items(
    alloc: Global,
    version: u8,
    ops: &[Op],
    items: &[Value],
) -> Result<Conflicts, ScenarioError>
    requires few { length ops.now ≤ 256 }
    ensures { Gives result (table_of_items version ops.now (items_view items.now)) }
{
    let pairs = pairs_of(alloc, version, ops, items)?;
    table_of(alloc, ops, pairs.as_slice())
}

/// The table of a document's conflicts.
#[tactic(auto, unfolding(crate::specs::Document::conflicts_said))]
pub fn conflicts_of(
    alloc: Global,
    version: u8,
    ops: &[Op],
    table: &Table,
) -> Result<Conflicts, ScenarioError>
    requires few { length ops.now ≤ 256 }
    ensures { Gives result (conflicts_said version ops.now (table_view table.now)) }
{
    let Some(value) = member(table, "conflicts") else {
        return Ok(Conflicts::new(alloc, ops.len() as u16)?);
    };
    let Some(items) = value.as_array() else {
        return refuse(alloc, "conflicts");
    };
    if !are_pairs(version, items) {
        return refuse(alloc, "conflicts");
    }
    table_of_items(alloc, version, ops, items)
}

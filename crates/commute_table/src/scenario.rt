// Scenarios: a catalog and the text of processes, read from a TOML document.
ghost use Rattle.std.specs.Prelude.{◌≡◌, ◌<◌, length, IfOk, IfSome, []};
ghost use Rattle.toml.specs.Data.{as_array, as_table};
ghost use Rattle.toml.specs.View.{items_view, table_view};
ghost use Rattle.commute_table.specs.Operations.{IsCatalog};
ghost use Rattle.commute_table.specs.Document.{Gives, IsAnswer, name_said, subsystem_said, verb_named, verb_said, op_said};
ghost use Rattle.commute_table.specs.Document.{are_tables, ops_said, few_said, operations_said, number_of, processes_said};
ghost use Rattle.commute_table.specs.Document.{catalog_said, scenario_said};

use crate::document::{Keys, known_keys, member, number_at, refuse, text_at, version_of};
use crate::pairs::conflicts_of;
use crate::reading::{has_name, takes};
use crate::{Catalog, MOST_OPERATIONS, Op, Ops, ScenarioError, Text, Verb};
use process_tree::{Name, NameError};
use std::alloc::Global;
use toml::{Table, Value};

/// What a document says.
#[derive(Drop)]
pub struct Scenario {
    pub catalog: Catalog,
    pub processes: Text,
}

fn name_of(alloc: Global, table: &Table) -> Result<Name, ScenarioError>
    ensures { Gives result (name_said (table_view table.now)) }
{
    let Some(text) = text_at(table, "name") else {
        return refuse(alloc, "name");
    };
    match Name::new(alloc, text.as_bytes()) {
        Ok(name) => Ok(name),
        Err(NameError::BadName) => refuse(alloc, "name"),
        Err(NameError::NoMemory) => Err(ScenarioError::NoMemory),
    }
}

fn subsystem_of(alloc: Global, table: &Table) -> Result<u8, ScenarioError>
    ensures { Gives result (subsystem_said (table_view table.now)) }
{
    match number_at(table, "subsystem") {
        Some(subsystem) if subsystem < 8 => Ok(subsystem as u8),
        _ => refuse(alloc, "subsystem"),
    }
}

fn verb_named(word: &str) -> Option<Verb>
    ensures { result ≡ verb_named word.now }
{
    if word == "add" {
        return Some(Verb::Add);
    }
    if word == "take" {
        return Some(Verb::Take);
    }
    if word == "look" {
        return Some(Verb::Look);
    }
    if word == "put" {
        return Some(Verb::Put);
    }
    if word == "hold" {
        return Some(Verb::Hold);
    }
    if word == "free" {
        return Some(Verb::Free);
    }
    None
}

fn verb_of(alloc: Global, subsystem: u8, table: &Table) -> Result<Verb, ScenarioError>
    ensures { Gives result (verb_said subsystem (table_view table.now)) }
{
    let Some(word) = text_at(table, "verb") else {
        return refuse(alloc, "verb");
    };
    match verb_named(word) {
        Some(verb) if takes(subsystem, verb) => Ok(verb),
        _ => refuse(alloc, "verb"),
    }
}

#[tactic(auto, unfolding(crate::specs::Document::op_said))]
fn op_of(alloc: Global, earlier: &[Op], table: &Table) -> Result<Op, ScenarioError>
    ensures { Gives result (op_said earlier.now (table_view table.now)) }
{
    known_keys(alloc, Keys::OfOperation, table)?;
    let name = name_of(alloc, table)?;
    let subsystem = subsystem_of(alloc, table)?;
    let verb = verb_of(alloc, subsystem, table)?;
    if has_name(earlier, name.bytes()) {
        return Err(ScenarioError::SameOp(name));
    }
    Ok(Op {
        name,
        subsystem,
        verb,
    })
}

fn are_tables(items: &[Value]) -> bool
    ensures { result ≡ are_tables (items_view items.now) }
{
    items.iter().all(|item| item.is_table())
}

fn ops_of(alloc: Global, items: &[Value]) -> Result<Ops, ScenarioError>
    ensures { Gives result (ops_said [] (items_view items.now)) }
{
    let mut ops = Vec::new(alloc);
    let mut rest = items;
    while let [first, after @ ..] = rest {
        let Some(table) = first.as_table() else {
            return refuse(alloc, "op");
        };
        let op = op_of(alloc, &ops, table)?;
        ops.push(op)?;
        rest = after;
    }
    Ok(Ops::new(ops))
}

fn few_of(alloc: Global, items: &[Value]) -> Result<Ops, ScenarioError>
    ensures { Gives result (few_said (items_view items.now)) }
{
    let count = items.len();
    if count <= MOST_OPERATIONS {
        return ops_of(alloc, items);
    }
    // A number that is too large for its type is want of memory.
    match u32::try_from(count) {
        Ok(count) => Err(ScenarioError::Ops(count)),
        Err(_) => Err(ScenarioError::NoMemory),
    }
}

#[tactic(auto, unfolding(crate::specs::Document::operations_said))]
fn operations_of(alloc: Global, table: &Table) -> Result<Ops, ScenarioError>
    ensures { Gives result (operations_said (table_view table.now)) }
{
    let Some(value) = member(table, "op") else {
        return Ok(Ops::new(Vec::new(alloc)));
    };
    let Some(items) = value.as_array() else {
        return refuse(alloc, "op");
    };
    if !are_tables(items) {
        return refuse(alloc, "op");
    }
    few_of(alloc, items)
}

/// The number of the first operation with this name.
pub fn number_of(ops: &[Op], name: &[u8]) -> Option<usize>
    ensures number { result ≡ number_of ops.now name.now }
    ensures within { IfSome result (λ n. n < length ops.now) }
{
    ops.iter().position(|op| op.name.bytes() == name)
}

#[tactic(auto, unfolding(crate::specs::Document::processes_said))]
fn processes_of(alloc: Global, table: &Table) -> Result<Text, ScenarioError>
    ensures { Gives result (processes_said (table_view table.now)) }
{
    let Some(value) = member(table, "processes") else {
        return Ok(Text::new(Vec::new(alloc)));
    };
    let Some(text) = value.as_str() else {
        return refuse(alloc, "processes");
    };
    Ok(Text::new(text.as_bytes().to_vec(alloc)?))
}

#[tactic(auto, unfolding(crate::specs::Document::catalog_said))]
fn catalog_of(alloc: Global, table: &Table) -> Result<Catalog, ScenarioError>
    ensures { Gives result (catalog_said (table_view table.now)) }
{
    known_keys(alloc, Keys::OfDocument, table)?;
    let version = version_of(alloc, table)?;
    let ops = operations_of(alloc, table)?;
    let conflicts = conflicts_of(alloc, version, ops.as_slice(), table)?;
    Ok(Catalog {
        version,
        ops,
        conflicts,
    })
}

#[tactic(auto, unfolding(crate::specs::Document::scenario_said))]
fn scenario_of(alloc: Global, table: &Table) -> Result<Scenario, ScenarioError>
    ensures { Gives result (scenario_said (table_view table.now)) }
{
    let catalog = catalog_of(alloc, table)?;
    let processes = processes_of(alloc, table)?;
    Ok(Scenario { catalog, processes })
}

/// The scenario that a TOML document is.
pub fn read_scenario(alloc: Global, bytes: &[u8]) -> Result<Scenario, ScenarioError>
    // It is what the document says, and a refusal is the first in the order of refusals.
    ensures answer { IsAnswer bytes.now result }
    ensures valid { IfOk result (λ s. IsCatalog s.catalog) }
{
    match toml::table_from_slice(alloc, bytes) {
        Ok(table) => scenario_of(alloc, &table),
        Err(error) => {
            if error.is_memory() {
                Err(ScenarioError::NoMemory)
            } else {
                Err(ScenarioError::BadToml)
            }
        }
    }
}

// The fields of a TOML table: what is known, what is missing, and what is of another type.
ghost use Rattle.std.specs.Prelude.{◌≡◌, Ok, Err, option_map};
ghost use Rattle.toml.specs.Data.{get_member};
ghost use Rattle.toml.specs.View.{view, table_view};
ghost use Rattle.commute_table.specs.Document.{Gives, is_known, least_unknown, known_keys, text_at, natural, number_at};
ghost use Rattle.commute_table.specs.Document.{version_said};
ghost use Rattle.commute_table.specs.declared.errors.ScenarioError.TheVariants.{BadKey};

use crate::{ScenarioError, Word};
use std::alloc::Global;
use toml::{Table, Value};

/// Which keys a table may have.
#[derive(Clone, Copy, Debug, PartialEq, Eq)]
pub enum Keys {
    OfDocument,
    OfOperation,
}

/// The refusal of a key.
pub fn refuse<T: Drop>(alloc: Global, key: &str) -> Result<T, ScenarioError>
    ensures { Gives result (Err (BadKey key.now)) }
{
    match key.as_bytes().to_vec(alloc) {
        Ok(bytes) => Err(ScenarioError::BadKey(Word::new(bytes))),
        Err(_) => Err(ScenarioError::NoMemory),
    }
}

fn is_known(keys: Keys, key: &str) -> bool
    ensures { result ≡ is_known keys key.now }
{
    match keys {
        Keys::OfDocument => {
            key == "version" || key == "conflicts" || key == "processes" || key == "op"
        }
        Keys::OfOperation => key == "name" || key == "subsystem" || key == "verb",
    }
}

// The keys of a table come in their order.
fn least_unknown(keys: Keys, table: &Table) -> Option<&str>
    ensures { option_map (λ k. k.now) result ≡ least_unknown keys (table_view table.now) }
{
    for (key, _) in table.iter() {
        if !is_known(keys, key.as_str()) {
            return Some(key.as_str());
        }
    }
    None
}

/// A key that is unknown is refused, the least one in byte order.
pub fn known_keys(alloc: Global, keys: Keys, table: &Table) -> Result<(), ScenarioError>
    ensures { Gives result (known_keys keys (table_view table.now)) }
{
    match least_unknown(keys, table) {
        None => Ok(()),
        Some(key) => refuse(alloc, key),
    }
}

/// The value at a key.
pub fn member<'a>(table: &'a Table, key: &str) -> Option<&'a Value>
    ensures { option_map (λ x. view x.now) result ≡ get_member key.now (table_view table.now) }
{
    table.get(key)
}

/// The string at a key.
pub fn text_at<'a>(table: &'a Table, key: &str) -> Option<&'a str>
    ensures { option_map (λ s. s.now) result ≡ text_at key.now (table_view table.now) }
{
    match member(table, key) {
        Some(value) => value.as_str(),
        None => None,
    }
}

fn natural(number: i64) -> Option<u64>
    ensures { result ≡ natural number }
{
    if number < 0 {
        None
    } else {
        Some(number as u64)
    }
}

/// The number at a key, unless it is negative.
pub fn number_at(table: &Table, key: &str) -> Option<u64>
    ensures { result ≡ number_at key.now (table_view table.now) }
{
    match member(table, key) {
        Some(value) => match value.as_integer() {
            Some(number) => natural(number),
            None => None,
        },
        None => None,
    }
}

/// The version is the whole number 1 or 2.
pub fn version_of(alloc: Global, table: &Table) -> Result<u8, ScenarioError>
    ensures { Gives result (version_said (table_view table.now)) }
{
    match number_at(table, "version") {
        Some(version) if version == 1 || version == 2 => Ok(version as u8),
        _ => refuse(alloc, "version"),
    }
}

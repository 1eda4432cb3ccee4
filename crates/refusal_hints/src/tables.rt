// Which table of an operation is meant.
ghost use Rattle.std.specs.Prelude.{◌≡◌, ◌<◌, length, is_some, option_map, IfSome};
ghost use Rattle.toml.specs.Data.{get_member};
ghost use Rattle.toml.specs.View.{view, items_view, table_view};
ghost use Rattle.commute_table.specs.Document.{text_at, natural, number_at};
ghost use Rattle.refusal_hints.specs.Tables.{has_good_name, has_good_subsystem, is_verb_of, has_verb_of, has_good_verb};
ghost use Rattle.refusal_hints.specs.Tables.{has_fault_at, has_this_name, is_meant, table_from, tables_of, is_of_document};

use process_tree::is_name;
use toml::{Table, Value};

// The value at a key.
fn member<'a>(table: &'a Table, key: &str) -> Option<&'a Value>
    ensures { option_map (λ x. view x.now) result ≡ get_member key.now (table_view table.now) }
{
    table.get(key)
}

/// The string at a key.
pub(crate) fn text_at<'a>(table: &'a Table, key: &str) -> Option<&'a str>
    ensures { option_map (λ s. s.now) result ≡ text_at key.now (table_view table.now) }
{
    match member(table, key) {
        Some(value) => value.as_str(),
        None => None,
    }
}

// A number that isn't negative.
fn natural(number: i64) -> Option<u64>
    ensures { result ≡ natural number }
{
    if number < 0 {
        None
    } else {
        Some(number as u64)
    }
}

// The number at a key, unless it is negative.
fn number_at(table: &Table, key: &str) -> Option<u64>
    ensures { result ≡ number_at key.now (table_view table.now) }
{
    match member(table, key) {
        Some(value) => match value.as_integer() {
            Some(number) => natural(number),
            None => None,
        },
        None => None,
    }
}

// Whether there is something at a key.
fn has_key(table: &Table, key: &str) -> bool
    ensures { result ≡ is_some (get_member key.now (table_view table.now)) }
{
    match member(table, key) {
        Some(_) => true,
        None => false,
    }
}

fn has_good_name(table: &Table) -> bool
    ensures { result ≡ has_good_name (table_view table.now) }
{
    match text_at(table, "name") {
        Some(name) => is_name(name.as_bytes()),
        None => false,
    }
}

fn has_good_subsystem(table: &Table) -> bool
    ensures { result ≡ has_good_subsystem (table_view table.now) }
{
    match number_at(table, "subsystem") {
        Some(subsystem) => subsystem < 8,
        None => false,
    }
}

// Whether the word is a verb of this subsystem.
fn is_verb_of(subsystem: u64, word: &str) -> bool
    ensures { result ≡ is_verb_of subsystem word.now }
{
    if word == "look" {
        subsystem < 8
    } else if word == "add" || word == "take" {
        subsystem < 4
    } else if word == "put" {
        4 <= subsystem && subsystem < 6
    } else if word == "hold" || word == "free" {
        6 <= subsystem && subsystem < 8
    } else {
        false
    }
}

fn has_verb_of(table: &Table, subsystem: u64) -> bool
    ensures { result ≡ has_verb_of (table_view table.now) subsystem }
{
    match text_at(table, "verb") {
        Some(verb) => is_verb_of(subsystem, verb),
        None => false,
    }
}

fn has_good_verb(table: &Table) -> bool
    ensures { result ≡ has_good_verb (table_view table.now) }
{
    match number_at(table, "subsystem") {
        Some(subsystem) => has_verb_of(table, subsystem),
        None => true,
    }
}

// Whether the table has a fault at this key.
fn has_fault_at(key: &str, table: &Table) -> bool
    ensures { result ≡ has_fault_at key.now (table_view table.now) }
{
    if key == "name" {
        !has_good_name(table)
    } else if key == "subsystem" {
        !has_good_subsystem(table)
    } else if key == "verb" {
        !has_good_verb(table)
    } else {
        has_key(table, key)
    }
}

fn has_this_name(name: &str, table: &Table) -> bool
    ensures { result ≡ has_this_name name.now (table_view table.now) }
{
    match text_at(table, "name") {
        Some(other) => name == other,
        None => false,
    }
}

// Whether the table has this name, or a fault at this key.
fn is_meant(named: bool, word: &str, table: &Table) -> bool
    ensures { result ≡ is_meant named word.now (table_view table.now) }
{
    if named {
        has_this_name(word, table)
    } else {
        has_fault_at(word, table)
    }
}

/// The number, counted from 1, of the table that is meant and has k such tables in front of it.
pub(crate) fn nth_table(named: bool, word: &str, k: usize, tables: &[Value]) -> Option<usize>
    ensures { result ≡ table_from named word.now k 1 (items_view tables.now) }
{
    let mut rest = tables;
    let mut n = 1;
    let mut left = k;
    while let [first, after @ ..] = rest {
        match first.as_table() {
            Some(table) if is_meant(named, word, table) => {
                if left == 0 {
                    return Some(n);
                }
                left -= 1;
            }
            _ => {}
        }
        n += 1;
        rest = after;
    }
    None
}

/// The tables of the operations of a document.
pub(crate) fn tables_of(table: &Table) -> &[Value]
    ensures { items_view result.now ≡ tables_of (table_view table.now) }
{
    match member(table, "op") {
        Some(value) => match value.as_array() {
            Some(items) => items,
            None => &[],
        },
        None => &[],
    }
}

/// Whether a key is one of the document itself: one that documents have, or that stands in it.
pub(crate) fn is_of_document(key: &str, table: &Table) -> bool
    ensures { result ≡ is_of_document key.now (table_view table.now) }
{
    key == "version"
        || key == "conflicts"
        || key == "processes"
        || key == "op"
        || has_key(table, key)
}

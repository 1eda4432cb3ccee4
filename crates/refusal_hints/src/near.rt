// Names that are most likely meant.
ghost use Rattle.std.specs.Prelude.{◌≡◌, drop, option_map};
ghost use Rattle.toml.specs.View.{view, items_view};
ghost use Rattle.refusal_hints.specs.Near.{is_exchange, differs_at_first, is_near, name_in, nearest};

use crate::tables::text_at;
use toml::Value;

// What stands behind the first byte.
fn behind_first(text: &[u8]) -> &[u8]
    ensures { result.now ≡ drop 1 text.now }
{
    match text {
        [_, rest @ ..] => rest,
        [] => text,
    }
}

// Whether the first two bytes are those of the other the other way round, and the rest is the same.
fn is_exchange(a: &[u8], b: &[u8]) -> bool
    ensures { result ≡ is_exchange a.now b.now }
{
    match (a, b) {
        ([x, y, a @ ..], [z, w, b @ ..]) => *x == *w && *y == *z && a == b,
        _ => false,
    }
}

// Whether the first byte is another, or stands in one of them alone, or the first two are exchanged.
fn differs_at_first(a: &[u8], b: &[u8]) -> bool
    ensures { result ≡ differs_at_first a.now b.now }
{
    let (x, y) = (behind_first(a), behind_first(b));
    x == y || x == b || a == y || is_exchange(a, b)
}

// Whether they differ in one byte, or in two neighbours that are exchanged.
fn is_near(name: &[u8], other: &[u8]) -> bool
    ensures { result ≡ is_near name.now other.now }
{
    let mut a = name;
    let mut b = other;
    while let [x, a_after @ ..] = a {
        let [y, b_after @ ..] = b else {
            break;
        };
        if *x != *y {
            break;
        }
        a = a_after;
        b = b_after;
    }
    differs_at_first(a, b)
}

/// The name that a table of an operation has.
pub(crate) fn name_in(value: &Value) -> Option<&str>
    ensures { option_map (λ s. s.now) result ≡ name_in (view value.now) }
{
    match value.as_table() {
        Some(table) => text_at(table, "name"),
        None => None,
    }
}

/// The name of the first of these tables that has one near to this.
pub(crate) fn nearest<'a>(name: &[u8], tables: &'a [Value]) -> Option<&'a str>
    ensures { option_map (λ s. s.now) result ≡ nearest name.now (items_view tables.now) }
{
    let mut rest = tables;
    while let [first, after @ ..] = rest {
        match name_in(first) {
            Some(other) if is_near(name, other.as_bytes()) => return Some(other),
            _ => {}
        }
        rest = after;
    }
    None
}

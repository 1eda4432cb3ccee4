// Who holds something against an access.
ghost use Rattle.std.specs.Prelude.{◌≡◌, ◌<◌, None, filter, map, flat_map, if◌then◌else◌};
ghost use Rattle.std.specs.Option.{option_to_list};
ghost use Rattle.process_tree.specs.Conflicts.{operations_in};
ghost use Rattle.process_tree.specs.Order.{Each};
ghost use Rattle.hold_tables.specs.Tables.{reserved_entry, reserved_of, running_of};
ghost use Rattle.hold_tables.specs.Kept.{IsKnown, IsKnownRunning, AreKnown};
ghost use Rattle.hold_tables.specs.Reading.{access_sought, is_against, lesser, least_step};

use crate::row::Row;
use process_tree::{Conflicts, Entry};

/// An operation on a key, and the process that asks who else holds something against it.
#[derive(Clone, Copy)]
pub struct Sought {
    pub process: u32,
    pub op: u16,
    pub key: u32,
}

/// Whether an entry is of another process and against what is sought.
fn is_against(c: &Conflicts, sought: Sought, e: Entry) -> bool
    requires op { sought.op < operations_in c.now }
    requires known { IsKnown c.now e }
    ensures { result ≡ is_against c.now sought.process (access_sought sought) e }
{
    e.process != sought.process && c.holds(sought.op, sought.key, e.op, e.key)
}

/// The lesser of a step and of another, if there is one.
fn lesser(a: (u32, u16), other: Option<(u32, u16)>) -> Option<(u32, u16)>
    ensures { result ≡ lesser a other }
{
    match other {
        Some(b) if b.0 < a.0 || (b.0 == a.0 && b.1 < a.1) => other,
        _ => Some(a),
    }
}

/// The least of an entry, where it is against what is sought, and of another.
fn least_with(
    c: &Conflicts,
    sought: Sought,
    e: Entry,
    other: Option<(u32, u16)>,
) -> Option<(u32, u16)>
    requires op { sought.op < operations_in c.now }
    requires known { IsKnown c.now e }
    ensures { result ≡ (if is_against c.now sought.process (access_sought sought) e then lesser (e.process, e.step) other
        else other) }
{
    if is_against(c, sought, e) {
        lesser((e.process, e.step), other)
    } else {
        other
    }
}

/// The least of these that are against what is sought, and of another.
pub fn least_of(
    c: &Conflicts,
    sought: Sought,
    entries: &[Entry],
    other: Option<(u32, u16)>,
) -> Option<(u32, u16)>
    requires op { sought.op < operations_in c.now }
    requires known { Each (IsKnown c.now) entries.now }
    ensures { result ≡ least_step other (filter (is_against c.now sought.process (access_sought sought)) entries.now) }
{
    let mut rest = entries;
    let mut least = other;
    'entries: while let Some((last, front)) = rest.split_last() {
        least = least_with(c, sought, *last, least);
        rest = front;
    }
    least
}

/// The same of the reserved steps of one process.
fn least_of_steps(
    c: &Conflicts,
    sought: Sought,
    process: u32,
    steps: &[(u16, u16, u32)],
    other: Option<(u32, u16)>,
) -> Option<(u32, u16)>
    requires op { sought.op < operations_in c.now }
    requires known { AreKnown c.now steps.now }
    ensures { result ≡ least_step other
        (filter (is_against c.now sought.process (access_sought sought)) (map (reserved_entry process) steps.now)) }
{
    let mut rest = steps;
    let mut least = other;
    'steps: while let Some((last, front)) = rest.split_last() {
        let e = Entry {
            process,
            step: last.0,
            op: last.1,
            key: last.2,
            undo: false,
        };
        least = least_with(c, sought, e, least);
        rest = front;
    }
    least
}

/// The least reserved step of these processes that is against what is sought.
pub fn least_reserved(c: &Conflicts, sought: Sought, rows: &[Row]) -> Option<(u32, u16)>
    requires op { sought.op < operations_in c.now }
    requires known { Each (λ r. AreKnown c.now r.reserved) rows.now }
    ensures { result ≡ least_step None
        (filter (is_against c.now sought.process (access_sought sought)) (flat_map reserved_of rows.now)) }
{
    let mut rest = rows;
    let mut least = None;
    'rows: while let Some((last, front)) = rest.split_last() {
        least = least_of_steps(c, sought, last.process(), last.reserved(), least);
        rest = front;
    }
    least
}

/// The least of what is under way in a process, where it is against what is sought, and of another.
fn least_with_running(
    c: &Conflicts,
    sought: Sought,
    running: Option<Entry>,
    other: Option<(u32, u16)>,
) -> Option<(u32, u16)>
    requires op { sought.op < operations_in c.now }
    requires known { IsKnownRunning c.now running }
    ensures { result ≡ least_step other (filter (is_against c.now sought.process (access_sought sought)) (option_to_list running)) }
{
    match running {
        Some(e) => least_with(c, sought, e, other),
        None => other,
    }
}

/// The least of what is under way in these processes and is against what is sought, and of another.
pub fn least_running(
    c: &Conflicts,
    sought: Sought,
    rows: &[Row],
    other: Option<(u32, u16)>,
) -> Option<(u32, u16)>
    requires op { sought.op < operations_in c.now }
    requires known { Each (λ r. IsKnownRunning c.now r.running) rows.now }
    ensures { result ≡ least_step other
        (filter (is_against c.now sought.process (access_sought sought)) (flat_map running_of rows.now)) }
{
    let mut rest = rows;
    let mut least = other;
    'rows: while let Some((last, front)) = rest.split_last() {
        least = least_with_running(c, sought, last.running(), least);
        rest = front;
    }
    least
}

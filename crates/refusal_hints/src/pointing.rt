// What the hint of a refusal points at.
ghost use Rattle.std.specs.Prelude.{◌≡◌, ◌≤◌, Some, IfOk, IfSome, length, option_map, option_and_then};
ghost use Rattle.std.specs.Option.{option_map_or};
ghost use Rattle.toml.specs.Data.{get_item};
ghost use Rattle.toml.specs.View.{items_view, table_view};
ghost use Rattle.command_refusals.specs.Shown.{shown_word};
ghost use Rattle.refusal_hints.specs.Near.{name_in};
ghost use Rattle.refusal_hints.specs.Places.{moved, place_of};
ghost use Rattle.refusal_hints.specs.Pointing.{at_offset, by_table, byte_point, found_at, key_point, moved_point, name_point, near_about};
ghost use Rattle.refusal_hints.specs.Pointing.{nowhere, op_name, text_point, operation_point, part_point, table_name, unknown_point};
ghost use Rattle.refusal_hints.specs.Pointing.{IsByTable, IsCatalogPoint, IsErrorPoint, IsFirstAlone, IsInScenario, IsPoint, IsTextPoint, IsTomlPoint};
ghost use Rattle.refusal_hints.specs.Pointing.{IsUnknownPoint, point, position};

use crate::about::{About, Point};
use crate::documents::{InputForm, scenario_in, table_in, toml_fault};
use crate::found::word_at;
use crate::lines::{key_of_table, nth_line};
use crate::near::{name_in, nearest};
use crate::parts::{Part, part_at};
use crate::places::{moved, place_of};
use crate::tables::{is_of_document, nth_table, tables_of};
use crate::words::first_alone;
use command_refusals::{Refusal, ReportFault, ScenarioFault, ShownWord};
use commute_table::{Op, Scenario};
use memchr::memmem;
use process_text::TextError;
use process_tree::Name;
use std::alloc::{AllocError, Global};
use text_words::Position;
use toml::{Table, Value};

// Nothing is known of a place.
fn nowhere() -> Point
    ensures { result ≡ nowhere }
{
    Point {
        at: None,
        about: About::Nothing,
    }
}

// The place of the byte in front of which so many stand.
fn at_offset(input: &[u8], n: Option<usize>) -> Option<Position>
    requires { IfSome n (λ n. n ≤ length input.now) }
    ensures { result ≡ at_offset input.now n }
{
    match n {
        Some(n) => Some(place_of(input, n)),
        None => None,
    }
}

// The word at a line and a column of a text, or nothing.
fn found_at(
    alloc: Global,
    tells: bool,
    line: u32,
    column: u32,
    text: &[u8],
) -> Result<About, AllocError>
    ensures { IfOk result (λ about. about ≡ found_at tells line column text.now) }
{
    if !tells {
        return Ok(About::Nothing);
    }
    let word = ShownWord::new(alloc, word_at(line as usize, column as usize, text))?;
    Ok(About::Found(word))
}

// Where a line and a column of a text are in the input, if the text stands there as it is.
fn moved_place(input: &[u8], n: Option<usize>, line: u32, column: u32) -> Option<Position>
    requires { IfSome n (λ n. n ≤ length input.now) }
    ensures { result ≡ option_map (λ n. moved (place_of input.now n) (position line column)) n }
{
    match n {
        Some(n) => Some(moved(place_of(input, n), line, column)),
        None => None,
    }
}

// A line and a column of the text of processes of a scenario.
fn point_in_scenario(
    alloc: Global,
    input: &[u8],
    scenario: &Scenario,
    tells: bool,
    line: u32,
    column: u32,
) -> Result<Point, AllocError>
    ensures { IfOk result (IsInScenario tells line column input.now (Some scenario.now)) }
{
    let text = scenario.processes.bytes();
    let about = found_at(alloc, tells, line, column, text)?;
    let n = memmem::find(input, text);
    let at = moved_place(input, n, line, column);
    Ok(Point { at, about })
}

// A line and a column of a text of processes.
fn point_in_text(
    alloc: Global,
    input: &[u8],
    tells: bool,
    line: u32,
    column: u32,
) -> Result<Point, AllocError>
    ensures { IfOk result (λ p. p ≡ text_point tells line column input.now) }
{
    let about = found_at(alloc, tells, line, column, input)?;
    Ok(Point {
        at: Some(Position {
            line: line as usize,
            column: column as usize,
        }),
        about,
    })
}

// A line and a column of the text of processes, by the form of the input.
fn text_point(
    alloc: Global,
    form: InputForm,
    input: &[u8],
    tells: bool,
    line: u32,
    column: u32,
) -> Result<Point, AllocError>
    ensures { IfOk result (IsTextPoint form input.now tells line column) }
{
    match form {
        InputForm::Processes => point_in_text(alloc, input, tells, line, column),
        InputForm::Scenario => match scenario_in(alloc, input)? {
            Some(scenario) => point_in_scenario(alloc, input, &scenario, tells, line, column),
            None => Ok(nowhere()),
        },
    }
}

// What is wrong with a text of processes.
fn error_point(
    alloc: Global,
    form: InputForm,
    input: &[u8],
    error: &TextError,
) -> Result<Point, AllocError>
    ensures { IfOk result (IsErrorPoint form input.now error.now) }
{
    match error {
        TextError::BadText(line, column, _) => text_point(alloc, form, input, true, *line, *column),
        TextError::SameName(line, _) => text_point(alloc, form, input, false, *line, 1),
        TextError::Limit(_, _) | TextError::NoMemory => Ok(nowhere()),
    }
}

// The name of table k, counted from 0.
fn nth_name(k: usize, tables: &[Value]) -> Option<&str>
    ensures { option_map (λ s. s.now) result ≡ option_and_then name_in (get_item k (items_view tables.now)) }
{
    if k < tables.len() {
        name_in(&tables[k])
    } else {
        None
    }
}

// The name of table k, as it is shown.
fn table_name(alloc: Global, k: usize, tables: &[Value]) -> Result<ShownWord, AllocError>
    ensures { IfOk result (λ name. name ≡ table_name k (items_view tables.now)) }
{
    match nth_name(k, tables) {
        Some(name) => ShownWord::new(alloc, name.as_bytes()),
        None => ShownWord::new(alloc, b""),
    }
}

// A table, at a key.
fn operation_point(
    alloc: Global,
    input: &[u8],
    key: &[u8],
    tables: &[Value],
    k: Option<usize>,
) -> Result<Point, AllocError>
    ensures { IfOk result (λ p. p ≡ operation_point input.now key.now (items_view tables.now) k) }
{
    let Some(k) = k else {
        return Ok(nowhere());
    };
    let name = table_name(alloc, k.saturating_sub(1), tables)?;
    Ok(Point {
        at: at_offset(input, key_of_table(k.saturating_sub(1), key, input)),
        about: About::Operation(k, name),
    })
}

// The line of a key of the document, or the first table with a fault at the key.
fn key_point(alloc: Global, input: &[u8], key: &str, table: &Table) -> Result<Point, AllocError>
    ensures { IfOk result (λ p. p ≡ key_point input.now key.now (table_view table.now)) }
{
    if is_of_document(key, table) {
        return Ok(Point {
            at: at_offset(input, nth_line(0, key.as_bytes(), input)),
            about: About::Nothing,
        });
    }
    let tables = tables_of(table);
    operation_point(
        alloc,
        input,
        key.as_bytes(),
        tables,
        nth_table(false, key, 0, tables),
    )
}

// So where there is a table.
fn bad_key_point(alloc: Global, input: &[u8], key: &ShownWord) -> Result<Point, AllocError>
    ensures { IfOk result (IsByTable input.now (key_point input.now key.now)) }
{
    let key = format!(in alloc; "{key}")?;
    match table_in(alloc, input)? {
        Some(table) => key_point(alloc, input, key.as_str(), &table),
        None => Ok(nowhere()),
    }
}

// The second table with a name.
fn name_point(alloc: Global, input: &[u8], name: &str, table: &Table) -> Result<Point, AllocError>
    ensures { IfOk result (λ p. p ≡ name_point input.now name.now (table_view table.now)) }
{
    let tables = tables_of(table);
    operation_point(
        alloc,
        input,
        b"name",
        tables,
        nth_table(true, name, 1, tables),
    )
}

// So where there is a table.
fn same_name_point(alloc: Global, input: &[u8], name: &Name) -> Result<Point, AllocError>
    ensures { IfOk result (IsByTable input.now (name_point input.now name.now)) }
{
    let name = format!(in alloc; "{name}")?;
    match table_in(alloc, input)? {
        Some(table) => name_point(alloc, input, name.as_str(), &table),
        None => Ok(nowhere()),
    }
}

// A name that may be meant.
fn near_about(alloc: Global, name: Option<&str>) -> Result<About, AllocError>
    ensures { IfOk result (λ about. about ≡ near_about (option_map (λ s. s.now) name.entry)) }
{
    match name {
        Some(name) => {
            let name = ShownWord::new(alloc, name.as_bytes())?;
            Ok(About::Near(name))
        }
        None => Ok(About::Nothing),
    }
}

// A place, and the name of an operation that is near to this one.
fn near_point(
    alloc: Global,
    input: &[u8],
    name: &str,
    n: Option<usize>,
    table: &Table,
) -> Result<Point, AllocError>
    requires { IfSome n (λ n. n ≤ length input.now) }
    ensures { IfOk result (λ p. p ≡ unknown_point input.now name.now n (table_view table.now)) }
{
    let about = near_about(alloc, nearest(name.as_bytes(), tables_of(table)))?;
    Ok(Point {
        at: at_offset(input, n),
        about,
    })
}

// An operation that there isn't.
fn unknown_point(alloc: Global, input: &[u8], name: &ShownWord) -> Result<Point, AllocError>
    ensures { IfOk result (IsUnknownPoint input.now name.now) }
{
    let name = format!(in alloc; "{name}")?;
    let n = first_alone(input, name.as_bytes());
    match table_in(alloc, input)? {
        Some(table) => near_point(alloc, input, name.as_str(), n, &table),
        None => Ok(nowhere()),
    }
}

// Where the document stops being TOML.
fn toml_point(alloc: Global, input: &[u8]) -> Result<Point, AllocError>
    ensures { IfOk result (IsTomlPoint input.now) }
{
    let n = toml_fault(alloc, input)?;
    Ok(Point {
        at: at_offset(input, n),
        about: About::Nothing,
    })
}

// What is wrong with a scenario.
fn scenario_point(alloc: Global, input: &[u8], fault: &ScenarioFault) -> Result<Point, AllocError>
    ensures { IfOk result (IsPoint InputForm.Scenario input.now (Refusal.Scenario fault.now)) }
{
    match fault {
        ScenarioFault::BadToml => toml_point(alloc, input),
        ScenarioFault::BadKey(key) => bad_key_point(alloc, input, key),
        ScenarioFault::UnknownOperation(name) => unknown_point(alloc, input, name),
        ScenarioFault::SameOperation(name) => same_name_point(alloc, input, name),
    }
}

// The name of operation k, counted from 1.
fn op_name(alloc: Global, ops: &[Op], k: usize) -> Result<ShownWord, AllocError>
    ensures { IfOk result (λ name. name ≡ op_name ops.now k) }
{
    match ops.get(k.saturating_sub(1)) {
        Some(op) => ShownWord::new(alloc, op.name.bytes()),
        None => ShownWord::new(alloc, b""),
    }
}

// A part of a catalog, as it stands in the document.
fn part_point(alloc: Global, input: &[u8], ops: &[Op], part: Part) -> Result<Point, AllocError>
    ensures { IfOk result (λ p. p ≡ part_point input.now ops.now part) }
{
    match part {
        Part::Front => Ok(Point {
            at: None,
            about: About::Front,
        }),
        Part::Operation(k) => {
            let name = op_name(alloc, ops, k)?;
            Ok(Point {
                at: at_offset(input, key_of_table(k.saturating_sub(1), b"name", input)),
                about: About::Operation(k, name),
            })
        }
        Part::Pair(a, b) => {
            let (a, b) = (op_name(alloc, ops, a)?, op_name(alloc, ops, b)?);
            Ok(Point {
                at: at_offset(input, nth_line(0, b"conflicts", input)),
                about: About::Pair(a, b),
            })
        }
        Part::Behind => Ok(nowhere()),
    }
}

// The part of the scenario's catalog that has byte n, if there is a scenario.
fn byte_point(alloc: Global, input: &[u8], n: u32) -> Result<Point, AllocError>
    ensures { IfOk result (IsCatalogPoint input.now n) }
{
    match scenario_in(alloc, input)? {
        Some(scenario) => {
            let ops = scenario.catalog.ops.as_slice();
            part_point(alloc, input, ops, part_at(n as usize, ops))
        }
        None => Ok(nowhere()),
    }
}

// A line of the input.
fn line_point(n: u32) -> Point
    ensures { result ≡ point (Some (position n 1)) About.Nothing }
{
    Point {
        at: Some(Position {
            line: n as usize,
            column: 1,
        }),
        about: About::Nothing,
    }
}

/// What the hint of a refusal of this input points at.
pub(crate) fn point(
    alloc: Global,
    form: InputForm,
    input: &[u8],
    refusal: &Refusal,
) -> Result<Point, AllocError>
    ensures { IfOk result (IsPoint form input.now refusal.now) }
{
    match refusal {
        Refusal::Text(error) => error_point(alloc, form, input, error),
        Refusal::Scenario(fault) => scenario_point(alloc, input, fault),
        Refusal::CatalogDiffers(n) => byte_point(alloc, input, *n),
        Refusal::BadLine(n) => Ok(line_point(*n)),
        Refusal::Report(ReportFault::BadText(n)) => Ok(line_point(*n)),
        _ => Ok(nowhere()),
    }
}

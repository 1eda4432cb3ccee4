// The lines of operations that conflict.
ghost use Rattle.std.specs.Prelude.{◌≡◌, ◌<◌, ◌++◌, ◌∷◌, [], length, map, if◌then◌else◌, OnOk};
ghost use Rattle.process_tree.specs.Conflicts.{mode_of};
ghost use Rattle.process_text.specs.Canonical.{line_of};
ghost use Rattle.commute_table.specs.Operations.{IsCatalog};
ghost use Rattle.process_report.specs.Lines.{text_of};
ghost use Rattle.process_report.specs.Report.{form_of, may_conflict, mode_word, mode_words, pair_line, conflicting};
ghost use Rattle.process_report.specs.Report.{conflicts_lines};

use crate::lines::{put_line, put_three};
use crate::names::op_name;
use commute_table::Catalog;
use process_tree::Mode;
use std::alloc::AllocError;
use trace_verify::Form;

/// The form of a catalog's reports.
pub fn form_of(c: &Catalog) -> Form
    ensures { result ≡ form_of c.now }
{
    if c.version == 2 {
        Form::Keyed
    } else {
        Form::Plain
    }
}

// How many operations there are.
fn count_of(c: &Catalog) -> u16
    requires { IsCatalog c.now }
    ensures { result ≡ length c.now.ops }
{
    c.ops.as_slice().len() as u16
}

// Whether operations with this mode conflict on some keys at least.
fn may_conflict(mode: Mode) -> bool
    ensures { result ≡ may_conflict mode }
{
    match mode {
        Mode::Never => false,
        Mode::Key | Mode::Always => true,
    }
}

fn mode_word(mode: Mode) -> &'static [u8]
    ensures { result.now ≡ mode_word mode }
{
    match mode {
        Mode::Never => b"never",
        Mode::Key => b"key",
        Mode::Always => b"always",
    }
}

// Writes the line of two operations with this mode.
fn put_named_pair<'a>(
    form: Form,
    first: &'a [u8],
    second: &'a [u8],
    mode: Mode,
    out: &mut Vec<u8>,
) -> Result<(), AllocError>
    ensures { OnOk result (out.new.items ≡ out.old.items ++ line_of (first.now ∷ second.now ∷ mode_words form mode)) }
{
    match form {
        Form::Plain => put_line(out, &[first, second]),
        Form::Keyed => put_three(out, first, second, mode_word(mode)),
    }
}

// Writes the line of two operations, if they may conflict.
fn put_pair(c: &Catalog, a: u16, b: u16, out: &mut Vec<u8>) -> Result<(), AllocError>
    requires catalog { IsCatalog c.now }
    requires a { a < length c.now.ops }
    requires b { b < length c.now.ops }
    ensures { OnOk result
        (out.new.items ≡ out.old.items ++ text_of
        (if may_conflict (mode_of c.now.conflicts a b) then pair_line c.now a b ∷ [] else [])) }
{
    let mode = c.conflicts.mode(a, b);
    if !may_conflict(mode) {
        return Ok(());
    }
    let ops = c.ops.as_slice();
    put_named_pair(form_of(c), op_name(ops, a), op_name(ops, b), mode, out)
}

// Writes the lines of an operation with itself and the later ones.
fn put_conflicting(c: &Catalog, a: u16, out: &mut Vec<u8>) -> Result<(), AllocError>
    requires catalog { IsCatalog c.now }
    requires a { a < length c.now.ops }
    ensures { OnOk result (out.new.items ≡ out.old.items ++ text_of (map (pair_line c.now a) (conflicting c.now a))) }
{
    let count = count_of(c);
    let mut b = a;
    while b < count {
        put_pair(c, a, b, out)?;
        b += 1;
    }
    Ok(())
}

/// Writes the lines of the operations that may conflict.
pub fn put_conflicts(c: &Catalog, out: &mut Vec<u8>) -> Result<(), AllocError>
    requires catalog { IsCatalog c.now }
    ensures { OnOk result (out.new.items ≡ out.old.items ++ text_of (conflicts_lines c.now)) }
{
    let count = count_of(c);
    let mut a = 0;
    while a < count {
        put_conflicting(c, a, out)?;
        a += 1;
    }
    Ok(())
}

// Which operations are held, so that what nobody holds is found at once.
ghost use Rattle.std.specs.Prelude.{◌≡◌, ◌<◌, ◌&&◌, ◌||◌, [], ℕ, List, length, min, true, false, slice_index_or, IfOk};
ghost use Rattle.std.specs.List.{list_any};
ghost use Rattle.process_tree.specs.Conflicts.{operations_in};
ghost use Rattle.bit_rows.specs.Cells.{cell};
ghost use Rattle.hold_tables.specs.Operations.{AreHolders, AreKnownRows, AreRowsOf, HasRows, IsClearOf, IsProcessTaken, KeepOps};
ghost use Rattle.hold_tables.specs.Operations.{TellBeside, is_held_at, is_row_against, may_conflict};

use crate::row::MOST;
use crate::slots::{ROWS, take_place};
use bit_rows::{BitRow, Bits};
use process_tree::{Conflicts, Mode};
use std::alloc::{AllocError, Global};

/// Which operations are under way, to be undone and reserved: a row for each operation, and a column for the place of each process.
#[derive(Drop)]
pub struct Beside {
    pub running: Bits,
    pub pending: Bits,
    pub reserved: Bits,
}

/// Tells no more of the process at a place, and of each behind it at the place before.
pub fn tell_dropped(beside: &mut Beside, place: usize)
    requires { place < 256 }
    ensures { IsProcessTaken place beside.old beside.new }
{
    take_place(&mut beside.running, place);
    take_place(&mut beside.pending, place);
    take_place(&mut beside.reserved, place);
}

/// Nothing is held, with room for all.
pub fn nothing_beside(alloc: Global) -> Result<Beside, AllocError>
    ensures { IfOk result (λ beside. TellBeside [] [] beside) }
{
    Ok(Beside {
        running: Bits::with_rows(alloc, ROWS)?,
        pending: Bits::with_rows(alloc, ROWS)?,
        reserved: Bits::with_rows(alloc, ROWS)?,
    })
}

/// Whether steps of two operations may conflict.
fn may_conflict(c: &Conflicts, a: u16, b: u16) -> bool
    requires a { a < operations_in c.now }
    requires b { b < operations_in c.now }
    ensures { result ≡ may_conflict c.now a b }
{
    match c.mode(a, b) {
        Mode::Never => false,
        Mode::Key | Mode::Always => true,
    }
}

/// Whether the operations of a row may be against this one.
fn is_row_against(c: &Conflicts, op: u16, row: usize) -> bool
    requires row { row < 257 }
    requires op { op < operations_in c.now }
    requires known { row < operations_in c.now }
    ensures { result ≡ is_row_against c.now op row }
{
    row == MOST || may_conflict(c, op, row as u16)
}

/// How many rows can have something: those of the operations of the table.
fn rows_of(c: &Conflicts) -> usize
    ensures { result ≡ min (operations_in c.now) 257 }
{
    c.operations().min(ROWS)
}

/// Whether a row has nothing, or may not be against this operation.
fn is_row_clear(c: &Conflicts, bits: &Bits, op: u16, row: usize) -> bool
    requires rows { length bits.now ≡ 257 }
    requires row { row < 257 }
    requires op { op < operations_in c.now }
    requires known { row < operations_in c.now }
    ensures { result ≡ true → (p : ℕ) → cell bits.now row p ≡ true → is_row_against c.now op row ≡ false }
{
    bits.is_row_empty(row) || !is_row_against(c, op, row)
}

/// Whether no row with something may be against this operation.
fn is_clear(c: &Conflicts, bits: &Bits, op: u16) -> bool
    requires rows { length bits.now ≡ 257 }
    requires op { op < operations_in c.now }
    requires known { AreRowsOf c.now bits.now }
    ensures { result ≡ true → IsClearOf c.now op bits.now }
{
    for row in 0..rows_of(c) {
        if !is_row_clear(c, bits, op, row) {
            return false;
        }
    }
    true
}

/// Whether none of these operations, which have something in their rows, may conflict with this one.
pub fn is_clear_of(c: &Conflicts, bits: &Bits, op: u16) -> bool
    requires op { op < operations_in c.now }
    requires rows { length bits.now ≡ 257 }
    requires known { AreRowsOf c.now bits.now }
    ensures { (ops : List ℕ) → KeepOps c.now ops bits.now → result ≡ true → list_any (may_conflict c.now op) ops ≡ false }
{
    is_clear(c, bits, op)
}

/// Adds the places where something in a row is held.
fn add_held(who: &mut BitRow, beside: &Beside, row: usize)
    requires rows { HasRows beside.now }
    requires row { row < 257 }
    ensures { (p : ℕ) → slice_index_or who.new p false ≡ (is_held_at beside.now row p || slice_index_or who.old p false) }
{
    who.add(beside.reserved.row(row));
    who.add(beside.pending.row(row));
    who.add(beside.running.row(row));
}

/// Adds the places where something in a row is held, if it may be against the operation.
fn add_row(who: &mut BitRow, c: &Conflicts, beside: &Beside, op: u16, row: usize)
    requires rows { HasRows beside.now }
    requires row { row < 257 }
    requires op { op < operations_in c.now }
    requires known { row < operations_in c.now }
    ensures { (p : ℕ) → slice_index_or who.new p false
        ≡ ((is_held_at beside.now row p && is_row_against c.now op row) || slice_index_or who.old p false) }
{
    if is_row_against(c, op, row) {
        add_held(who, beside, row);
    }
}

/// The places where something is held that may be against the operation.
pub fn who_may_hold(c: &Conflicts, beside: &Beside, op: u16) -> BitRow
    requires rows { HasRows beside.now }
    requires op { op < operations_in c.now }
    requires known { AreKnownRows c.now beside.now }
    ensures { AreHolders c.now beside.now op result }
{
    let mut who = BitRow::new();
    for row in 0..rows_of(c) {
        add_row(&mut who, c, beside, op, row);
    }
    who
}

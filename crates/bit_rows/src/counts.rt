// Counts in rows and columns, with a bit for each that isn't 0.
ghost use Rattle.std.specs.Prelude.{◌≡◌, ◌<◌, ◌≤◌, ◌+◌, [], ℕ, false, true, length, nat_eq, slice_index_or, IfOk};
ghost use Rattle.bit_rows.specs.Cells.{AreMarked, IsCleared, IsOneRow, IsPlaceTaken, cell_or, one_if};

use crate::bits::Bits;
use crate::place_rows::{add_place, take_place};
use crate::words::COLUMNS;
use std::alloc::{AllocError, Global};
use std::marker::Model;

/// A number for each column.
type CountRow = [u32; COLUMNS];

/// Rows of counts, at most 256.
#[derive(Drop)]
pub struct Counts {
    rows: Vec<CountRow>,
    bits: Bits,
}

impl Model for Counts {
    ghost use Rattle.std.specs.Prelude.{◌≡◌, ◌≤◌, ℕ, List, length, vec_capacity};
    ghost use Rattle.bit_rows.specs.Cells.{AreMarked};

    ghost Value = { List (List ℕ) };

    ghost view = { λ c. c.rows.items };

    ghost invariant = { λ c. (256 ≤ vec_capacity c.rows) × AreMarked c.rows.items c.bits };
}

/// Counts one more at a place.
fn count_more(row: &mut CountRow, place: usize)
    requires within { place < 256 }
    requires room { slice_index_or row.old place 0 < 4294967295 }
    ensures { (b : ℕ) → slice_index_or row.new b 0 ≡ slice_index_or row.old b 0 + one_if (nat_eq place b) }
{
    row[place] += 1;
}

/// Counts one less at a place: whether it was the last.
fn count_less(row: &mut CountRow, place: usize) -> bool
    requires within { place < 256 }
    requires some { 0 < slice_index_or row.old place 0 }
    ensures less { (b : ℕ) → slice_index_or row.old b 0 ≡ slice_index_or row.new b 0 + one_if (nat_eq place b) }
    ensures last { result ≡ true → slice_index_or row.new place 0 ≡ 0 }
    ensures more { result ≡ false → 0 < slice_index_or row.new place 0 }
{
    row[place] -= 1;
    row[place] == 0
}

impl Counts {
    /// No rows, with room for 256.
    pub fn new(alloc: Global) -> Result<Counts, AllocError>
        ensures { IfOk result (λ counts. counts ≡ []) }
    {
        Ok(Counts {
            rows: Vec::with_capacity(alloc, COLUMNS)?,
            bits: Bits::new(alloc)?,
        })
    }

    /// Which counts aren't 0.
    pub fn bits(&self) -> &Bits
        ensures { AreMarked self.now result.now }
    {
        &self.bits
    }

    /// Counts one more.
    pub fn more(&mut self, row: usize, column: usize)
        requires row { row < length self.old }
        requires column { column < 256 }
        requires room { cell_or 0 self.old row column < 4294967295 }
        ensures own { (d : ℕ) → cell_or 0 self.new row d ≡ cell_or 0 self.old row d + one_if (nat_eq column d) }
        ensures others { IsOneRow row self.old self.new }
    {
        count_more(&mut self.rows[row], column);
        self.bits.set(row, column);
    }

    /// Counts one less: whether it was the last.
    pub fn less(&mut self, row: usize, column: usize) -> bool
        requires row { row < length self.old }
        requires column { column < 256 }
        requires some { 0 < cell_or 0 self.old row column }
        ensures own { (d : ℕ) → cell_or 0 self.old row d ≡ cell_or 0 self.new row d + one_if (nat_eq column d) }
        ensures others { IsOneRow row self.old self.new }
        ensures more { result ≡ false → 0 < cell_or 0 self.new row column }
    {
        let gone = count_less(&mut self.rows[row], column);
        if gone {
            self.bits.clear(row, column);
        }
        gone
    }

    /// Adds a row and a column, where nothing is counted.
    pub fn add_place(&mut self)
        requires few { length self.old < 256 }
        ensures cells { IsCleared 0 (length self.old) self.old self.new }
        ensures count { length self.new ≡ length self.old + 1 }
    {
        add_place(&mut self.rows, 0);
        self.bits.add_place();
    }

    /// Takes a row and the column of the same place out, and moves up those behind them.
    pub fn take_place(&mut self, place: usize)
        requires within { place < length self.old }
        requires few { length self.old ≤ 256 }
        ensures cells { IsPlaceTaken 0 place self.old self.new }
        ensures count { length self.new + 1 ≡ length self.old }
    {
        take_place(&mut self.rows, place, 0);
        self.bits.take_place(place);
    }
}

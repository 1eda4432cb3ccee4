// Bits in rows and columns.
ghost use Rattle.std.specs.Prelude.{◌≡◌, ◌<◌, ◌≤◌, ◌+◌, ◌||◌, [], ℕ, false, true, length, nat_eq, slice_index_or, IfOk};
ghost use Rattle.std.specs.Prelude.{if◌then◌else◌};
ghost use Rattle.bit_rows.specs.Cells.{IsCleared, IsJoined, IsOneRow, IsPassed, IsPlaceTaken, IsTakenOut, cell};

use crate::row::BitRow;
use crate::rows::{clear_all, copy_all, is_nowhere, join, pass, take_out_all};
use crate::words::COLUMNS;
use std::alloc::{AllocError, Global};
use std::marker::Model;

/// Rows of bits: one for each place, at most 256, or as many as were asked for.
#[derive(Drop)]
pub struct Bits {
    rows: Vec<BitRow>,
}

impl Model for Bits {
    ghost use Rattle.std.specs.Prelude.{◌≤◌, Bool, List, vec_capacity};

    ghost Value = { List (List Bool) };

    ghost view = { λ b. b.rows.items };

    ghost invariant = { λ b. 256 ≤ vec_capacity b.rows };
}

impl Bits {
    /// No rows, with room for 256.
    pub fn new(alloc: Global) -> Result<Bits, AllocError>
        ensures { IfOk result (λ bits. bits ≡ []) }
    {
        Ok(Bits {
            rows: Vec::with_capacity(alloc, COLUMNS)?,
        })
    }

    /// So many rows, without a bit.
    pub fn with_rows(alloc: Global, count: usize) -> Result<Bits, AllocError>
        ensures { IfOk result (λ bits. (length bits ≡ count) × ((a b : ℕ) → cell bits a b ≡ false)) }
    {
        let mut rows = Vec::with_capacity(alloc, count.max(COLUMNS))?;
        for _ in 0..count {
            rows.push_reserved(BitRow::new());
        }
        Ok(Bits { rows })
    }

    /// A row.
    pub fn row(&self, row: usize) -> &BitRow
        requires { row < length self.now }
        ensures { result.now ≡ slice_index_or self.now row [] }
    {
        &self.rows[row]
    }

    /// Whether the row has the column; a row that isn't there has none.
    pub fn at(&self, row: u16, column: u16) -> bool
        requires row { row < 256 }
        requires column { column < 256 }
        ensures { result ≡ cell self.now row column }
    {
        let at = usize::from(row);
        at < self.rows.len() && self.rows[at].has(usize::from(column))
    }

    /// Whether the row has the column.
    pub fn has(&self, row: usize, column: usize) -> bool
        requires row { row < length self.now }
        requires column { column < 256 }
        ensures { result ≡ cell self.now row column }
    {
        self.rows[row].has(column)
    }

    /// Sets a column of a row.
    pub fn set(&mut self, row: usize, column: usize)
        requires row { row < length self.old }
        requires column { column < 256 }
        ensures own { (d : ℕ) → cell self.new row d ≡ (nat_eq d column || cell self.old row d) }
        ensures others { IsOneRow row self.old self.new }
    {
        self.rows[row].set(column);
    }

    /// Clears a column of a row.
    pub fn clear(&mut self, row: usize, column: usize)
        requires row { row < length self.old }
        requires column { column < 256 }
        ensures own { (d : ℕ) → cell self.new row d ≡ (if nat_eq d column then false else cell self.old row d) }
        ensures others { IsOneRow row self.old self.new }
    {
        self.rows[row].clear(column);
    }

    /// Adds a row that has no column.
    fn push(&mut self)
        requires few { length self.old < 256 }
        ensures cells { (a b : ℕ) → cell self.new a b ≡ cell self.old a b }
        ensures count { length self.new ≡ length self.old + 1 }
    {
        self.rows.push_reserved(BitRow::new());
    }

    /// Adds a row and a column, without a bit.
    pub fn add_place(&mut self)
        requires few { length self.old < 256 }
        ensures cells { IsCleared false (length self.old) self.old self.new }
        ensures count { length self.new ≡ length self.old + 1 }
    {
        let place = self.rows.len();
        clear_all(&mut self.rows, place);
        self.push();
    }

    /// Takes a row and the column of the same place out, and moves up those behind them.
    pub fn take_place(&mut self, place: usize)
        requires within { place < length self.old }
        requires few { length self.old ≤ 256 }
        ensures cells { IsPlaceTaken false place self.old self.new }
        ensures count { length self.new + 1 ≡ length self.old }
    {
        self.rows.remove(place);
        take_out_all(&mut self.rows, place);
    }

    /// Clears a column of all rows.
    pub fn clear_column(&mut self, column: usize)
        requires { column < 256 }
        ensures cells { IsCleared false column self.old self.new }
        ensures count { length self.new ≡ length self.old }
    {
        clear_all(&mut self.rows, column);
    }

    /// Takes a column out of all rows; those behind it move up.
    pub fn take_column(&mut self, column: usize)
        requires { column < 256 }
        ensures cells { IsTakenOut false column self.old self.new }
        ensures count { length self.new ≡ length self.old }
    {
        take_out_all(&mut self.rows, column);
    }

    /// Sets, in each row that has the place, whatever the row of the place has.
    pub fn pass(&mut self, place: usize)
        requires place { place < length self.old }
        requires few { length self.old ≤ 256 }
        ensures { IsPassed place self.old self.new }
    {
        pass(&mut self.rows, place);
    }

    /// Adds an arrow, and each walk over it.
    pub fn join(&mut self, a: usize, b: usize)
        requires from { a < length self.old }
        requires to { b < length self.old }
        requires few { length self.old ≤ 256 }
        ensures { IsJoined a b self.old self.new }
    {
        join(&mut self.rows, a, b);
    }

    /// Makes these bits equal to others of as many rows.
    pub fn copy_from(&mut self, others: &Bits)
        requires { length self.old ≡ length others.now }
        ensures { self.new ≡ others.now }
    {
        copy_all(&mut self.rows, &others.rows);
    }

    /// How many rows there are.
    pub fn len(&self) -> usize
        ensures { result ≡ length self.now }
    {
        self.rows.len()
    }

    /// Whether the row has no column.
    pub fn is_row_empty(&self, row: usize) -> bool
        requires { row < length self.now }
        ensures none { result ≡ true → (b : ℕ) → cell self.now row b ≡ false }
        ensures some { result ≡ false → (b : ℕ) × (b < 256) × (cell self.now row b ≡ true) }
    {
        self.rows[row].is_empty()
    }

    /// Whether no row has the column.
    pub fn is_column_empty(&self, column: usize) -> bool
        requires { column < 256 }
        ensures none { result ≡ true → (a : ℕ) → cell self.now a column ≡ false }
        ensures some { result ≡ false → (a : ℕ) × (cell self.now a column ≡ true) }
    {
        is_nowhere(&self.rows, column)
    }
}

// A row of bits.
ghost use Rattle.std.specs.Prelude.{◌≡◌, ◌<◌, ◌||◌, ℕ, false, nat_eq, slice_index_or, true, if◌then◌else◌};
ghost use Rattle.bit_rows.specs.Cells.{place_before};

use crate::taking::take_out;
use crate::words::{Words, add, clear, has, is_zero, set};
use std::marker::Model;

/// Which of 256 columns are set.
#[derive(Drop)]
pub struct BitRow {
    words: Words,
}

impl Model for BitRow {
    ghost use Rattle.std.specs.Prelude.{Bool, List};
    ghost use Rattle.bit_rows.specs.Rows.{row_of};

    ghost Value = { List Bool };

    ghost view = { λ r. row_of r.words };
}

impl BitRow {
    /// No column is set.
    pub fn new() -> BitRow
        ensures { (k : ℕ) → slice_index_or result k false ≡ false }
    {
        BitRow { words: [0; 4] }
    }

    /// The same row once more.
    pub fn copy(&self) -> BitRow
        ensures { result ≡ self.now }
    {
        BitRow { words: self.words }
    }

    /// Whether a column is set.
    pub fn has(&self, column: usize) -> bool
        requires { column < 256 }
        ensures { result ≡ slice_index_or self.now column false }
    {
        has(&self.words, column)
    }

    /// Sets a column.
    pub fn set(&mut self, column: usize)
        requires { column < 256 }
        ensures { (k : ℕ) → slice_index_or self.new k false ≡ (nat_eq k column || slice_index_or self.old k false) }
    {
        set(&mut self.words, column);
    }

    /// Clears a column.
    pub fn clear(&mut self, column: usize)
        requires { column < 256 }
        ensures { (k : ℕ) → slice_index_or self.new k false ≡ (if nat_eq k column then false else slice_index_or self.old k false) }
    {
        clear(&mut self.words, column);
    }

    /// Sets what the other sets.
    pub fn add(&mut self, other: &BitRow)
        ensures { (k : ℕ) → slice_index_or self.new k false
            ≡ (slice_index_or self.old k false || slice_index_or other.now k false) }
    {
        add(&mut self.words, &other.words);
    }

    /// Takes a column out; those behind it move up.
    pub fn take_out(&mut self, column: usize)
        requires { column < 256 }
        ensures { (k : ℕ) → slice_index_or self.new k false ≡ slice_index_or self.old (place_before column k) false }
    {
        take_out(&mut self.words, column);
    }

    /// Whether no column is set.
    pub fn is_empty(&self) -> bool
        ensures none { result ≡ true → (k : ℕ) → slice_index_or self.now k false ≡ false }
        ensures some { result ≡ false → (k : ℕ) × (k < 256) × (slice_index_or self.now k false ≡ true) }
    {
        is_zero(&self.words)
    }
}

// A column is taken out of the words of a row, and those behind it move up.
ghost use Rattle.std.specs.Prelude.{◌≡◌, ◌<◌, ◌≤◌, ◌+◌, ◌*◌, ◌/◌, ◌%◌, ◌==◌, ℕ, nat_lt, if◌then◌else◌};
ghost use Rattle.std.specs.Int.{bit_at};
ghost use Rattle.bit_rows.specs.Cells.{place_before};
ghost use Rattle.bit_rows.specs.Rows.{has_column};

use crate::words::Words;

/// Ones at the columns of a word that are before this one, which isn't in a later word.
fn low_mask(k: usize, column: usize) -> u64
    requires { column / 64 ≤ k }
    ensures { (j : ℕ) → j < 64 → bit_at result j ≡ (if nat_lt (k * 64 + j) column then 1 else 0) }
{
    if column / 64 == k {
        (1 << (column % 64)) - 1
    } else {
        0
    }
}

/// A word without its first column, with the first column of the next.
fn moved(word: u64, next: u64) -> u64
    ensures own { (j : ℕ) → j < 63 → bit_at result j ≡ bit_at word (j + 1) }
    ensures last { bit_at result 63 ≡ bit_at next 0 }
{
    next % 2 * (1 << 63) + word / 2
}

/// The word at a place, once the column is taken out, which isn't in a later word.
fn word_taken(words: &Words, k: usize, column: usize) -> u64
    requires within { k < 4 }
    requires column { column / 64 ≤ k }
    ensures { (m : ℕ) → m / 64 ≡ k → (bit_at result (m % 64) == 1) ≡ has_column words.now (place_before column m) }
{
    let next = if k < 3 { words[k + 1] } else { 0 };
    let low = low_mask(k, column);
    (moved(words[k], next) & !low) | (words[k] & low)
}

/// Takes a column out.
pub fn take_out(words: &mut Words, column: usize)
    requires { column < 256 }
    ensures { (m : ℕ) → has_column words.new m ≡ has_column words.old (place_before column m) }
{
    for k in column / 64..4 {
        words[k] = word_taken(words, k, column);
    }
}

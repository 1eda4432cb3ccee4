// The words of a row of bits.
ghost use Rattle.std.specs.Prelude.{◌≡◌, ◌<◌, ◌||◌, ℕ, false, true, nat_eq, not, ◌&&◌};
ghost use Rattle.std.specs.Int.{bit_at};
ghost use Rattle.bit_rows.specs.Rows.{has_column};

/// How many columns a row has.
pub const COLUMNS: usize = 256;

/// The columns of a row, 64 in each word.
pub type Words = [u64; 4];

/// Whether a column is set.
pub fn has(words: &Words, column: usize) -> bool
    requires { column < 256 }
    ensures { result ≡ has_column words.now column }
{
    (words[column / 64] >> (column % 64)) & 1 == 1
}

/// Sets a column.
pub fn set(words: &mut Words, column: usize)
    requires { column < 256 }
    ensures { (k : ℕ) → has_column words.new k ≡ (nat_eq k column || has_column words.old k) }
{
    words[column / 64] |= 1 << (column % 64);
}

/// Clears a column.
pub fn clear(words: &mut Words, column: usize)
    requires { column < 256 }
    ensures { (k : ℕ) → has_column words.new k ≡ (not (nat_eq k column) && has_column words.old k) }
{
    words[column / 64] &= !(1 << (column % 64));
}

/// Sets what the others set.
pub fn add(words: &mut Words, others: &Words)
    ensures { (k : ℕ) → has_column words.new k ≡ (has_column words.old k || has_column others.now k) }
{
    for k in 0..4 {
        words[k] |= others[k];
    }
}

/// Whether a word has no one.
fn has_none(word: u64) -> bool
    ensures none { result ≡ true → word ≡ 0 }
    ensures some { result ≡ false → (t : ℕ) × (t < 64) × (bit_at word t ≡ 1) }
{
    word == 0
}

/// Whether no column is set.
pub fn is_zero(words: &Words) -> bool
    ensures none { result ≡ true → (k : ℕ) → has_column words.now k ≡ false }
    ensures some { result ≡ false → (k : ℕ) × (k < 256) × (has_column words.now k ≡ true) }
{
    words.iter().all(|word| has_none(*word))
}

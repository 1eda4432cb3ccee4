// Rows of bits as a table of places.
ghost use Rattle.std.specs.Prelude.{◌≡◌, ◌<◌, ◌≤◌, ℕ, false, true, length};
ghost use Rattle.bit_rows.specs.Cells.{IsCleared, IsJoined, IsPassed, IsTakenOut, cell};

use crate::row::BitRow;

/// Clears a place in all rows.
pub fn clear_all(rows: &mut [BitRow], place: usize)
    requires { place < 256 }
    ensures { IsCleared false place rows.old rows.new }
{
    for row in rows.iter_mut() {
        row.clear(place);
    }
}

/// Takes a place out of all rows.
pub fn take_out_all(rows: &mut [BitRow], place: usize)
    requires { place < 256 }
    ensures { IsTakenOut false place rows.old rows.new }
{
    for row in rows.iter_mut() {
        row.take_out(place);
    }
}

/// Sets, in each row that has the place, whatever the row of the place has.
pub fn pass(rows: &mut [BitRow], place: usize)
    requires place { place < length rows.old }
    requires few { length rows.old ≤ 256 }
    ensures { IsPassed place rows.old rows.new }
{
    let beyond = rows[place].copy();
    for row in rows.iter_mut() {
        if row.has(place) {
            row.add(&beyond);
        }
    }
}

/// Adds an arrow, and each walk over it.
pub fn join(rows: &mut [BitRow], a: usize, b: usize)
    requires from { a < length rows.old }
    requires to { b < length rows.old }
    requires few { length rows.old ≤ 256 }
    ensures { IsJoined a b rows.old rows.new }
{
    let mut beyond = rows[b].copy();
    beyond.set(b);
    let mut row = rows[a].copy();
    row.add(&beyond);
    for other in rows.iter_mut() {
        if other.has(a) {
            other.add(&beyond);
        }
    }
    rows[a] = row;
}

/// Makes these rows equal to the others.
pub fn copy_all(rows: &mut [BitRow], others: &[BitRow])
    requires { length rows.old ≡ length others.now }
    ensures { rows.new ≡ others.now }
{
    for place in 0..rows.len() {
        rows[place] = others[place].copy();
    }
}

/// Whether no row has the place.
pub fn is_nowhere(rows: &[BitRow], place: usize) -> bool
    requires { place < 256 }
    ensures none { result ≡ true → (a : ℕ) → cell rows.now a place ≡ false }
    ensures some { result ≡ false → (a : ℕ) × (cell rows.now a place ≡ true) }
{
    rows.iter().all(|row| !row.has(place))
}

// Rows with something for each place of a process: a place is added, or taken out.
ghost use Rattle.std.specs.Prelude.{◌≡◌, ◌<◌, ◌≤◌, ◌+◌, ℕ, length, nat_eq, slice_index_or, if◌then◌else◌, vec_capacity, vec_len};
ghost use Rattle.bit_rows.specs.Cells.{IsCleared, IsPlaceTaken, IsTakenOut, place_before};

use crate::words::COLUMNS;

/// Puts nothing at a place.
fn clear<T: Copy>(row: &mut [T; COLUMNS], place: usize, none: T)
    requires { place < 256 }
    ensures { (b : ℕ) → slice_index_or row.new b none ≡ (if nat_eq b place then none else slice_index_or row.old b none) }
{
    row[place] = none;
}

/// The same in all rows.
fn clear_all<T: Copy>(rows: &mut [[T; COLUMNS]], place: usize, none: T)
    requires { place < 256 }
    ensures { IsCleared none place rows.old rows.new }
{
    for row in rows.iter_mut() {
        clear(row, place, none);
    }
}

/// The same of the rows that are kept.
fn clear_place<T: Copy>(rows: &mut Vec<[T; COLUMNS]>, place: usize, none: T)
    requires { place < 256 }
    ensures cells { IsCleared none place rows.old.items rows.new.items }
    ensures count { length rows.new.items ≡ length rows.old.items }
    ensures capacity { vec_capacity rows.new ≡ vec_capacity rows.old }
{
    clear_all(rows, place, none);
}

/// Adds a row and a place, where there is nothing.
pub fn add_place<T: Copy>(rows: &mut Vec<[T; COLUMNS]>, none: T)
    requires few { length rows.old.items < 256 }
    requires room { vec_len rows.old < vec_capacity rows.old }
    ensures cells { IsCleared none (length rows.old.items) rows.old.items rows.new.items }
    ensures count { length rows.new.items ≡ length rows.old.items + 1 }
    ensures capacity { vec_capacity rows.new ≡ vec_capacity rows.old }
{
    clear_place(rows, rows.len(), none);
    rows.push_reserved([none; COLUMNS]);
}

/// Takes out what stands at a place, and moves up what stands behind it.
fn take_out<T: Copy>(row: &mut [T; COLUMNS], place: usize, none: T)
    requires { place < 256 }
    ensures { (b : ℕ) → slice_index_or row.new b none ≡ slice_index_or row.old (place_before place b) none }
{
    for to in place..COLUMNS - 1 {
        row[to] = row[to + 1];
    }
    row[COLUMNS - 1] = none;
}

/// The same in all rows.
fn take_out_all<T: Copy>(rows: &mut [[T; COLUMNS]], place: usize, none: T)
    requires { place < 256 }
    ensures { IsTakenOut none place rows.old rows.new }
{
    for row in rows.iter_mut() {
        take_out(row, place, none);
    }
}

/// The same of the rows that are kept.
fn take_out_place<T: Copy>(rows: &mut Vec<[T; COLUMNS]>, place: usize, none: T)
    requires { place < 256 }
    ensures cells { IsTakenOut none place rows.old.items rows.new.items }
    ensures count { length rows.new.items ≡ length rows.old.items }
    ensures capacity { vec_capacity rows.new ≡ vec_capacity rows.old }
{
    take_out_all(rows, place, none);
}

/// Takes a place out: its row, and what stands there in each other row.
pub fn take_place<T: Copy>(rows: &mut Vec<[T; COLUMNS]>, place: usize, none: T)
    requires within { place < length rows.old.items }
    requires few { length rows.old.items ≤ 256 }
    ensures cells { IsPlaceTaken none place rows.old.items rows.new.items }
    ensures count { length rows.new.items + 1 ≡ length rows.old.items }
    ensures capacity { vec_capacity rows.new ≡ vec_capacity rows.old }
{
    rows.remove(place);
    take_out_place(rows, place, none);
}

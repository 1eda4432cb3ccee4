//! Rows of bits, each of 256 columns.
//!
//! A `BitRow` is seen as a list of truth values, and `Bits` as a list of such rows (`specs/Rows`, `specs/Cells`). A row has four
//! words, so what is asked or changed of all its columns is a few operations of words. `Bits` takes the room of 256 rows when it
//! is made, and no memory later.
#![tactic(auto)]

mod bits;
mod counts;
mod place_rows;
mod row;
mod rows;
mod taking;
mod words;

pub use bits::Bits;
pub use counts::Counts;
pub use row::BitRow;
pub use words::COLUMNS;

// What is asked of a resource.
use commute_table::Verb;

/// What the values of a resource are.
#[derive(Clone, Copy, Debug, PartialEq, Eq)]
pub enum Kind {
    Counters,
    Cells,
    Seats,
}

/// A verb at a key, with an amount.
#[derive(Clone, Copy, Debug, PartialEq, Eq)]
pub struct Call {
    pub verb: Verb,
    pub key: u32,
    pub amount: i64,
}

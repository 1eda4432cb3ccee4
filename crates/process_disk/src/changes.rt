// What a rack in memory keeps of its calls.
use crate::files::Bytes;

/// A write, whatever it answered.
#[derive(Drop)]
pub struct Write {
    pub file: u8,
    pub at: u64,
    pub bytes: Bytes,
}

#[derive(Drop)]
pub enum Change {
    Written(Write),
    /// A sync that was finished.
    Synced,
}

/// A change with the number of the call that made it.
#[derive(Drop)]
pub struct Recorded {
    pub number: u64,
    pub change: Change,
}

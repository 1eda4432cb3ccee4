// What a record holds.
use plain_list::Items;

/// A list of bytes.
pub type Body = Items<u8>;

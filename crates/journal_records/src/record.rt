// What records say.
use plain_list::Items;
use process_tree::Entry;

/// A list of bytes.
pub type Body = Items<u8>;

/// What a record of a journal says.
#[derive(Drop)]
pub enum Record {
    /// The bytes of the catalog, in the first record.
    Setup(Body),
    /// This process started, with its canonical text.
    Start(u32, Body),
    /// A step took effect, or its undo did. Its operation and its key are not among the bytes: they are the plan's.
    Act(Entry),
    /// This process ended.
    End(u32),
}

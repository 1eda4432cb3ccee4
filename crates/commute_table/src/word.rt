// Words of a document, as they stand there.
use plain_list::Items;

/// A key or a name, of any bytes.
pub type Word = Items<u8>;

/// The text of processes, as it stands in a scenario.
pub type Text = Items<u8>;

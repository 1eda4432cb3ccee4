// The words of a text, as an expansion sees them.

/// What a word is to an expansion.
#[derive(Clone, Copy, Debug, PartialEq, Eq)]
pub enum Role {
    /// `process`
    Begins,
    /// `end`
    Ends,
    /// `choose`
    Opens,
    /// `or`
    Divides,
    /// `done`
    Closes,
    /// `then`
    Follows,
    /// The kind of a step, its first word.
    Kind,
    /// The name of a step.
    Name,
    Other,
}

/// A word of a text: what it is, and how many words stand before it in the text.
#[derive(Clone, Copy, Debug, PartialEq, Eq)]
pub struct Token {
    pub role: Role,
    pub number: usize,
}

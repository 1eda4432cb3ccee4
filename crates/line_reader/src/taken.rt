// What comes of a line that is asked for.
ghost use Rattle.std.specs.Prelude.{◌≡◌};
ghost use Rattle.line_reader.specs.declared.taken.TakeError.TheVariants.{NoMemory};

use std::alloc::AllocError;

/// What was taken of a source.
#[derive(Drop)]
pub enum Taken {
    /// A line, without its line feed.
    Line(Vec<u8>),
    /// A line of more bytes than were asked for. It was taken to its end, and is gone.
    LongLine,
    /// The source is at its end. These bytes stand behind the last line feed.
    End(Vec<u8>),
    /// The same, where these are more bytes than were asked for. They are gone.
    LongEnd,
}

/// Why nothing was taken. The bytes that came meanwhile are gone.
#[derive(Clone, Copy, Debug, PartialEq, Eq)]
pub enum TakeError {
    /// A call of the source failed.
    ReadFault,
    NoMemory,
}

impl From<AllocError> for TakeError {
    ghost from_gives = { λ _ e. e ≡ NoMemory };

    fn from(_: AllocError) -> Self {
        TakeError::NoMemory
    }
}

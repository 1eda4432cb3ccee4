// Lines of a session.
ghost use Rattle.std.specs.Prelude.{◌≡◌};
ghost use Rattle.session_text.specs.declared.line.LinesError.TheVariants.{NoMemory};

use process_tree::{Name, Outcome};
use std::alloc::{AllocError, AllocFailed};

/// What a line of a session asks for.
#[derive(Drop)]
pub enum Line {
    /// The start of a process of this name.
    Start(Name),
    /// The next piece of this process.
    Admit(u32),
    /// The next piece of any process.
    Next,
    /// The end of this piece.
    Finish(u32, Outcome),
    /// That this piece takes effect with the next flush, if its work is done.
    Queue(u32, Outcome),
    /// That the queued pieces take effect.
    Flush,
    /// That this process completes.
    Abort(u32),
    /// The report of this moment.
    Show,
    /// The end of the session.
    Stop,
}

/// Why lines were not read.
#[derive(Clone, Copy, Debug, PartialEq, Eq)]
pub enum LinesError {
    /// The first line that has no form, counted from 1.
    BadLine(u32),
    NoMemory,
}

impl From<AllocError> for LinesError {
    ghost from_gives = { λ _ e. e ≡ NoMemory };

    fn from(_: AllocError) -> Self {
        LinesError::NoMemory
    }
}

impl<T: Drop> From<AllocFailed<T>> for LinesError {
    ghost from_gives = { λ _ e. e ≡ NoMemory };

    fn from(_: AllocFailed<T>) -> Self {
        LinesError::NoMemory
    }
}

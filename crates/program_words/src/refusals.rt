//! Why words are refused.
ghost use Rattle.std.specs.Prelude.{◌≡◌, ◌↔◌};
ghost use Rattle.clap.specs.Values.{kind_of};
ghost use Rattle.clap.specs.declared.error.kind.ErrorKind.TheVariants as kind;

use clap::Error;
use clap::error::ErrorKind;

/// Why words gave no command.
#[derive(Clone, Copy, Debug, PartialEq, Eq, Drop)]
pub enum WordsError {
    /// The words name no command, or the command doesn't take those after its name.
    BadWords,
    /// Memory is wanting.
    NoMemory,
}

/// Why `clap` failed: memory is wanting, or it refused the words.
pub(crate) fn cause_of(error: &Error) -> WordsError
    ensures { (result ≡ WordsError.NoMemory) ↔ (kind_of error.now ≡ kind.OutOfMemory) }
{
    match error.kind() {
        ErrorKind::OutOfMemory => WordsError::NoMemory,
        _ => WordsError::BadWords,
    }
}

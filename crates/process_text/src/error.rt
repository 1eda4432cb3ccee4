// Why a text wasn't read.
ghost use Rattle.std.specs.Prelude.{◌≡◌, Some};
ghost use Rattle.process_text.specs.Texts.{error_text};
ghost use Rattle.process_text.specs.declared.error.TextError.TheVariants.{NoMemory};

use crate::What;
use process_tree::Name;
use std::alloc::{AllocError, AllocFailed};
use std::error::Error;
use std::fmt;
use text_words::Expected;

/// Why a text gave no processes: its first fault, or want of memory.
#[derive(Drop)]
pub enum TextError {
    /// The line and the column of a word that doesn't fit, or of the place just behind the last byte where a word is missing,
    /// both from 1, and what was expected there.
    BadText(u32, u32, Expected),
    /// A limit that is passed, and the number that passes it.
    Limit(What, u32),
    /// The line of a name that is taken, and the name.
    SameName(u32, Name),
    NoMemory,
}

impl fmt::Display for TextError {
    ghost output = { λ e. Some (error_text e) };

    fn fmt<W: fmt::Write>(&self, f: &mut fmt::Formatter<W>) -> fmt::Result {
        match self {
            TextError::BadText(line, column, expected) => write!(
                f,
                "bad text at line {line} column {column}: expected {expected}"
            ),
            TextError::Limit(what, n) => write!(f, "limit {what} {n}"),
            TextError::SameName(line, name) => write!(f, "same name at line {line}: {name}"),
            TextError::NoMemory => f.write_str("no memory"),
        }
    }
}

impl fmt::Debug for TextError {
    ghost debug_output = { λ e. Some (error_text e) };

    fn fmt<W: fmt::Write>(&self, f: &mut fmt::Formatter<W>) -> fmt::Result {
        fmt::Display::fmt(self, f)
    }
}

impl Error for TextError {}

impl From<AllocError> for TextError {
    ghost from_gives = { λ _ e. e ≡ NoMemory };

    fn from(_: AllocError) -> Self {
        TextError::NoMemory
    }
}

impl<T: Drop> From<AllocFailed<T>> for TextError {
    ghost from_gives = { λ _ e. e ≡ NoMemory };

    fn from(_: AllocFailed<T>) -> Self {
        TextError::NoMemory
    }
}

// What may be wrong with a text.
ghost use Rattle.std.specs.Prelude.{◌≡◌, Some};
ghost use Rattle.process_text.specs.declared.fault.Fault.TheVariants.{NoMemory};
ghost use Rattle.process_text.specs.Texts.{what_word};

use process_tree::Name;
use std::alloc::{AllocError, AllocFailed};
use std::fmt;
use text_words::Expected;

/// What there is too much of.
#[derive(Clone, Copy, Debug, PartialEq, Eq)]
pub enum What {
    Processes,
    Steps,
    Nesting,
    Alternatives,
}

impl fmt::Display for What {
    ghost output = { λ w. Some (what_word w) };

    fn fmt<W: fmt::Write>(&self, f: &mut fmt::Formatter<W>) -> fmt::Result {
        f.write_str(match self {
            What::Processes => "processes",
            What::Steps => "steps",
            What::Nesting => "nesting",
            What::Alternatives => "alternatives",
        })
    }
}

/// A fault, at the word that was taken last.
#[derive(Drop)]
pub enum Fault {
    /// The text ends.
    Missing(Expected),
    /// The word doesn't fit.
    Misfit(Expected),
    /// The word passes a limit.
    Limit(What),
    /// The word is a name that is taken.
    SameName(Name),
    NoMemory,
}

impl From<AllocError> for Fault {
    ghost from_gives = { λ _ e. e ≡ NoMemory };

    fn from(_: AllocError) -> Self {
        Fault::NoMemory
    }
}

impl<T: Drop> From<AllocFailed<T>> for Fault {
    ghost from_gives = { λ _ e. e ≡ NoMemory };

    fn from(_: AllocFailed<T>) -> Self {
        Fault::NoMemory
    }
}

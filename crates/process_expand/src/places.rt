// Faults of a text, and where they stand.
ghost use Rattle.std.specs.Prelude.{◌≡◌, ◌⊎◌, ◌<◌, ◌+◌, ◌-◌, length};
ghost use Rattle.text_words.specs.Words.{words_of};
ghost use Rattle.process_text.specs.Places.{error_at, passing};
ghost use Rattle.process_expand.specs.Reader.{text_fault};
ghost use Rattle.process_expand.specs.declared.places.Fault.TheVariants as faults;

use process_text::{Expected, TextError, What};
use process_tree::Name;
use std::alloc::{AllocError, AllocFailed};
use text_words::{Position, nth_place};

/// What is wrong with a word, or at the end of a text.
#[derive(Drop)]
pub enum Fault {
    Missing(Expected),
    Misfit(Expected),
    Limit(What),
    SameName(Name),
    NoMemory,
}

impl From<AllocError> for Fault {
    ghost from_gives = { λ _ f. f ≡ faults.NoMemory };

    fn from(_: AllocError) -> Self {
        Fault::NoMemory
    }
}

impl<T: Drop> From<AllocFailed<T>> for Fault {
    ghost from_gives = { λ _ f. f ≡ faults.NoMemory };

    fn from(_: AllocFailed<T>) -> Self {
        Fault::NoMemory
    }
}

// What is answered of a fault at a place.
fn bad_text(at: Position, expected: Expected) -> TextError
    ensures { (result ≡ TextError.NoMemory) ⊎ (result ≡ TextError.BadText at.line at.column expected) }
{
    match (u32::try_from(at.line), u32::try_from(at.column)) {
        (Ok(line), Ok(column)) => TextError::BadText(line, column, expected),
        _ => TextError::NoMemory,
    }
}

// What is answered of a name that is taken.
fn same_name(at: Position, name: Name) -> TextError
    ensures { (result ≡ TextError.NoMemory) ⊎ (result ≡ TextError.SameName at.line name) }
{
    match u32::try_from(at.line) {
        Ok(line) => TextError::SameName(line, name),
        Err(_) => TextError::NoMemory,
    }
}

// The number that passes a limit.
fn passing(what: What) -> u32
    ensures { result ≡ passing what }
{
    match what {
        What::Processes | What::Steps => 257,
        What::Nesting => 17,
        What::Alternatives => 9,
    }
}

/// What is answered of a text with this fault, at the word of this number, or at its end.
pub fn error_at(bytes: &[u8], total: usize, number: usize, fault: Fault) -> TextError
    requires total { total ≡ length (words_of bytes.now) }
    requires number { number < total }
    ensures { (result ≡ TextError.NoMemory) ⊎ (result ≡ error_at bytes.now (total - (number + 1)) (text_fault fault)) }
{
    match fault {
        Fault::Missing(expected) => bad_text(nth_place(bytes, total), expected),
        Fault::Misfit(expected) => bad_text(nth_place(bytes, number), expected),
        Fault::Limit(what) => TextError::Limit(what, passing(what)),
        Fault::SameName(name) => same_name(nth_place(bytes, number), name),
        Fault::NoMemory => TextError::NoMemory,
    }
}

/// What is answered of a text that ends where something is expected.
pub fn error_at_end(bytes: &[u8], total: usize, expected: Expected) -> TextError
    requires { total ≡ length (words_of bytes.now) }
    ensures { (result ≡ TextError.NoMemory) ⊎ (result ≡ error_at bytes.now 0 (text_fault (faults.Missing expected))) }
{
    bad_text(nth_place(bytes, total), expected)
}

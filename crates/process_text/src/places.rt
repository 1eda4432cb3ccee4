// What is answered of a text with a fault.
ghost use Rattle.std.specs.Prelude.{◌≡◌, ◌⊎◌};
ghost use Rattle.process_text.specs.Places.{passing, error_at};

use crate::{Fault, TextError, What};
use process_tree::Name;
use text_words::{Expected, Position, Words, nth_place};

// What is answered of a fault at a place.
fn bad_text(at: Position, expected: Expected) -> TextError
    ensures { (result ≡ TextError.NoMemory) ⊎ (result ≡ TextError.BadText at.line at.column expected) }
{
    match (u32::try_from(at.line), u32::try_from(at.column)) {
        (Ok(line), Ok(column)) => TextError::BadText(line, column, expected),
        _ => TextError::NoMemory,
    }
}

// What is answered of a name that is taken.
fn same_name(at: Position, name: Name) -> TextError
    ensures { (result ≡ TextError.NoMemory) ⊎ (result ≡ TextError.SameName at.line name) }
{
    match u32::try_from(at.line) {
        Ok(line) => TextError::SameName(line, name),
        Err(_) => TextError::NoMemory,
    }
}

// The number that passes a limit.
fn passing(what: What) -> u32
    ensures { result ≡ passing what }
{
    match what {
        What::Processes | What::Steps => 257,
        What::Nesting => 17,
        What::Alternatives => 9,
    }
}

/// What is answered where a text has this fault, and as many words are left.
pub fn error_at(text: &[u8], left: usize, fault: Fault) -> TextError
    ensures { (result ≡ TextError.NoMemory) ⊎ (result ≡ error_at text.now left fault) }
{
    let total = Words::new(text).count();
    match fault {
        Fault::Missing(expected) => bad_text(nth_place(text, total), expected),
        Fault::Misfit(expected) => {
            bad_text(
                nth_place(text, total.saturating_sub(left).saturating_sub(1)),
                expected,
            )
        }
        Fault::Limit(what) => TextError::Limit(what, passing(what)),
        Fault::SameName(name) => {
            same_name(
                nth_place(text, total.saturating_sub(left).saturating_sub(1)),
                name,
            )
        }
        Fault::NoMemory => TextError::NoMemory,
    }
}

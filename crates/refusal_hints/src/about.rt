// What a hint points at, and how that reads.
ghost use Rattle.std.specs.Prelude.{◌≡◌, ◌++◌, IfOk, OnOk};
ghost use Rattle.refusal_hints.specs.Hints.{number_text, between, is_empty, found_front, name_front, operation_front, pair_front};
ghost use Rattle.refusal_hints.specs.Hints.{front_of, back_of};
ghost use Rattle.refusal_hints.specs.Remedies.{found_in, next_remedy, error_remedy};

use crate::keys::word_remedy;
use crate::remedies::{MEMORY, NEXT, SAME_NAME, expected_remedy, what_remedy};
use command_refusals::ShownWord;
use process_text::{Expected, TextError};
use std::alloc::{AllocError, Global};
use text_words::Position;

/// What there is to say of what stands at a place.
#[derive(Drop)]
pub enum About {
    Nothing,
    /// The word that stands there; none where the text ends.
    Found(ShownWord),
    /// The version of a catalog, or how many operations it has.
    Front,
    /// An operation by its number, counted from 1, and its name; none where it has none.
    Operation(usize, ShownWord),
    /// Whether two operations of these names conflict.
    Pair(ShownWord, ShownWord),
    /// A name that may be meant.
    Near(ShownWord),
}

/// What a hint points at: the place, where one is known, and what there is to say of it.
#[derive(Drop)]
pub struct Point {
    pub at: Option<Position>,
    pub about: About,
}

/// Adds words and a number.
pub(crate) fn add_number(
    alloc: Global,
    words: &str,
    n: usize,
    out: &mut Vec<u8>,
) -> Result<(), AllocError>
    ensures { OnOk result (out.new.items ≡ out.old.items ++ number_text words.now n) }
{
    let text = format!(in alloc; "{words}{n}")?;
    out.extend_from_slice(text.as_bytes())
}

// Adds a word between these.
#[tactic(auto, unfolding(crate::specs::Hints::between))]
fn add_between(
    alloc: Global,
    front: &str,
    word: &ShownWord,
    back: &str,
    out: &mut Vec<u8>,
) -> Result<(), AllocError>
    ensures { OnOk result (out.new.items ≡ out.old.items ++ between front.now word.now back.now) }
{
    let text = format!(in alloc; "{front}{word}{back}")?;
    out.extend_from_slice(text.as_bytes())
}

fn is_empty(alloc: Global, word: &ShownWord) -> Result<bool, AllocError>
    ensures { IfOk result (λ empty. empty ≡ is_empty word.now) }
{
    let text = format!(in alloc; "{word}")?;
    Ok(text.len() == 0)
}

// The word that stands at the place.
fn add_found(alloc: Global, word: &ShownWord, out: &mut Vec<u8>) -> Result<(), AllocError>
    ensures { OnOk result (out.new.items ≡ out.old.items ++ found_front word.now) }
{
    if is_empty(alloc, word)? {
        out.extend_from_slice(b"the text ends here; ")
    } else {
        add_between(alloc, "'", word, "' stands here; ", out)
    }
}

// The name of an operation, if it has one.
fn add_name(alloc: Global, name: &ShownWord, out: &mut Vec<u8>) -> Result<(), AllocError>
    ensures { OnOk result (out.new.items ≡ out.old.items ++ name_front name.now) }
{
    if is_empty(alloc, name)? {
        out.extend_from_slice(b": ")
    } else {
        add_between(alloc, " '", name, "': ", out)
    }
}

// An operation.
fn add_operation(
    alloc: Global,
    k: usize,
    name: &ShownWord,
    out: &mut Vec<u8>,
) -> Result<(), AllocError>
    ensures { OnOk result (out.new.items ≡ out.old.items ++ operation_front k name.now) }
{
    add_number(alloc, "operation ", k, out)?;
    add_name(alloc, name, out)
}

// Two operations.
fn add_pair(
    alloc: Global,
    a: &ShownWord,
    b: &ShownWord,
    out: &mut Vec<u8>,
) -> Result<(), AllocError>
    ensures { OnOk result (out.new.items ≡ out.old.items ++ pair_front a.now b.now) }
{
    add_between(alloc, "operations '", a, "' and ", out)?;
    add_between(alloc, "'", b, "': ", out)
}

/// Adds what stands at the place.
pub(crate) fn add_front(alloc: Global, about: &About, out: &mut Vec<u8>) -> Result<(), AllocError>
    ensures { OnOk result (out.new.items ≡ out.old.items ++ front_of about.now) }
{
    match about {
        About::Nothing | About::Near(_) => Ok(()),
        About::Found(word) => add_found(alloc, word, out),
        About::Front => out.extend_from_slice(b"the version, or the number of operations: "),
        About::Operation(k, name) => add_operation(alloc, *k, name, out),
        About::Pair(a, b) => add_pair(alloc, a, b, out),
    }
}

/// Adds what may be meant.
pub(crate) fn add_back(alloc: Global, about: &About, out: &mut Vec<u8>) -> Result<(), AllocError>
    ensures { OnOk result (out.new.items ≡ out.old.items ++ back_of about.now) }
{
    match about {
        About::Near(name) => add_between(alloc, "; did you mean '", name, "'?", out),
        _ => Ok(()),
    }
}

// What to do where another word was expected than that which stands at the place.
fn next_remedy(alloc: Global, about: &About) -> Result<&'static str, AllocError>
    ensures { IfOk result (λ text. text.now ≡ next_remedy (found_in about.now)) }
{
    match about {
        About::Found(word) => {
            let word = format!(in alloc; "{word}")?;
            Ok(word_remedy(word.as_str()))
        }
        _ => Ok(NEXT),
    }
}

/// What to do about a text of processes, by what stands at the place.
pub(crate) fn error_remedy(
    alloc: Global,
    about: &About,
    error: &TextError,
) -> Result<&'static str, AllocError>
    ensures { IfOk result (λ text. text.now ≡ error_remedy about.now error.now) }
{
    match error {
        TextError::BadText(_, _, Expected::Next) => next_remedy(alloc, about),
        TextError::BadText(_, _, expected) => Ok(expected_remedy(*expected)),
        TextError::Limit(what, _) => Ok(what_remedy(*what)),
        TextError::SameName(_, _) => Ok(SAME_NAME),
        TextError::NoMemory => Ok(MEMORY),
    }
}

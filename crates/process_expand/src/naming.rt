// The names of copies.
ghost use Rattle.std.specs.Prelude.{◌≡◌, ◌++◌, ◌+◌, map, take, IfOk};
ghost use Rattle.std.specs.List.{list_any};
ghost use Rattle.process_tree.specs.Making.{same_text};
ghost use Rattle.process_expand.specs.Naming.{first_free, is_taken, name_given, names_in, numbered, word_at};

use crate::tokens::{Role, Token};
use std::alloc::{AllocError, Global};
use text_words::{Names, is_word};

// The most bytes of a name.
const MOST_BYTES: usize = 32;

/// The word of this number, or nothing.
pub fn word_at<'a>(words: &[&'a [u8]], number: usize) -> &'a [u8]
    ensures { result.now ≡ word_at (map (λ w. w.now) words.now) number }
{
    match words.get(number) {
        Some(word) => *word,
        None => b"",
    }
}

/// The names of steps among these tokens.
pub fn names_in<'a>(
    alloc: Global,
    words: &[&'a [u8]],
    tokens: &[Token],
) -> Result<Names<'a>, AllocError>
    ensures { IfOk result (λ names. names ≡ names_in (map (λ w. w.now) words.now) tokens.now) }
{
    let mut names = Names::new(alloc);
    for token in tokens {
        if token.role == Role::Name {
            names.add(word_at(words, token.number))?;
        }
    }
    Ok(names)
}

/// Whether a name is among these.
pub fn is_given(given: &[Vec<u8>], name: &[u8]) -> bool
    ensures { result ≡ list_any (same_text name.now) (map (λ g. g.items) given.now) }
{
    for taken in given {
        if is_word(name, taken) {
            return true;
        }
    }
    false
}

// Whether a name is one of the text, or was given.
fn is_taken(all: &Names<'_>, given: &[Vec<u8>], name: &[u8]) -> bool
    ensures { result ≡ is_taken all.now (map (λ g. g.items) given.now) name.now }
{
    all.has(name) || is_given(given, name)
}

// The first so many bytes of a word.
fn front(word: &[u8], most: usize) -> &[u8]
    ensures { result.now ≡ take most word.now }
{
    if word.len() <= most {
        return word;
    }
    let (front, _) = word.split_at(most);
    front
}

// A name with a number.
fn numbered(alloc: Global, name: &[u8], n: u32) -> Result<Vec<u8>, AllocError>
    ensures { IfOk result (λ text. text.items ≡ numbered name.now n) }
{
    let ending = format!(in alloc; "_{n}")?;
    let mut text = front(name, MOST_BYTES.saturating_sub(ending.as_bytes().len())).to_vec(alloc)?;
    text.extend_from_slice(ending.as_bytes())?;
    Ok(text)
}

// A name with the first number that makes it a new one.
#[tactic(auto, using(crate::proofs::Steps::free_here, crate::proofs::Steps::free_later, crate::proofs::Steps::free_nowhere))]
fn first_free(
    alloc: Global,
    all: &Names<'_>,
    given: &[Vec<u8>],
    name: &[u8],
) -> Result<Vec<u8>, AllocError>
    ensures { IfOk result (λ text. text.items ≡ first_free all.now (map (λ g. g.items) given.now) name.now 256 2) }
{
    let mut n: u32 = 2;
    while n < 258 {
        let text = numbered(alloc, name, n)?;
        if !is_taken(all, given, &text) {
            return Ok(text);
        }
        n += 1;
    }
    name.to_vec(alloc)
}

/// The name that a step has behind those to which these names were given.
pub fn name_given(
    alloc: Global,
    all: &Names<'_>,
    given: &[Vec<u8>],
    name: &[u8],
) -> Result<Vec<u8>, AllocError>
    ensures { IfOk result (λ text. text.items ≡ name_given all.now (map (λ g. g.items) given.now) name.now) }
{
    if is_given(given, name) {
        first_free(alloc, all, given, name)
    } else {
        name.to_vec(alloc)
    }
}

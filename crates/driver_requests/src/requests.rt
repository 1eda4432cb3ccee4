// Lines of a driver by their forms.
ghost use Rattle.std.specs.Prelude.{◌≡◌, IfOk};
ghost use Rattle.driver_requests.specs.Requests.{happened_of, is_spelled, more_words, one_word, request_of, started_of};

use crate::Request;
use process_text::is_word;
use process_tree::{Name, NameError};
use session_text::line_of;
use std::alloc::{AllocError, Global};
use trace_verify::{cut, number_of};

// `I.STEP`
fn happened_of(alloc: Global, text: &[u8]) -> Result<Option<Request>, AllocError>
    ensures { IfOk result (λ found. found ≡ happened_of text.now) }
{
    let Some((process, step)) = cut(text, b'.') else {
        return Ok(None);
    };
    let Some(process) = number_of(process) else {
        return Ok(None);
    };
    match Name::new(alloc, step) {
        Ok(step) => Ok(Some(Request::Happened(process, step))),
        Err(NameError::BadName) => Ok(None),
        Err(NameError::NoMemory) => Err(AllocError),
    }
}

// `NAME`
fn started_of(alloc: Global, text: &[u8]) -> Result<Option<Request>, AllocError>
    ensures { IfOk result (λ found. found ≡ started_of text.now) }
{
    match Name::new(alloc, text) {
        Ok(name) => Ok(Some(Request::Started(name))),
        Err(NameError::BadName) => Ok(None),
        Err(NameError::NoMemory) => Err(AllocError),
    }
}

// Whether a text begins with the word `process` and has more words.
fn is_spelled(text: &[u8]) -> bool
    ensures { result ≡ is_spelled text.now }
{
    match cut(text, b' ') {
        Some((word, _)) => is_word(word, b"process"),
        None => false,
    }
}

// A line of more words than one, by its first word and the rest.
fn more_words(alloc: Global, word: &[u8], rest: &[u8]) -> Result<Option<Request>, AllocError>
    ensures { IfOk result (λ found. found ≡ more_words word.now rest.now) }
{
    if is_word(word, b"done") {
        return happened_of(alloc, rest);
    }
    if is_word(word, b"started") {
        return started_of(alloc, rest);
    }
    if is_word(word, b"start") && is_spelled(rest) {
        return Ok(Some(Request::StartSpelled));
    }
    Ok(None)
}

// A line of one word.
fn one_word(word: &[u8]) -> Option<Request>
    ensures { result ≡ one_word word.now }
{
    if is_word(word, b"pieces") {
        return Some(Request::Pieces);
    }
    if is_word(word, b"waits") {
        return Some(Request::Waits);
    }
    None
}

/// What a line of a driver asks for, if it has a form.
pub fn request_of(alloc: Global, line: &[u8]) -> Result<Option<Request>, AllocError>
    ensures { IfOk result (λ found. found ≡ request_of line.now) }
{
    if let Some(line) = line_of(alloc, line)? {
        return Ok(Some(Request::Session(line)));
    }
    match cut(line, b' ') {
        Some((word, rest)) => more_words(alloc, word, rest),
        None => Ok(one_word(line)),
    }
}

// Lines by their forms.
ghost use Rattle.std.specs.Prelude.{◌≡◌, IfOk};
ghost use Rattle.std.specs.Option.{option_map};
ghost use Rattle.trace_verify.specs.Forms.{number_of};
ghost use Rattle.session_text.specs.declared.line.Line.TheVariants.{Admit, Abort};
ghost use Rattle.session_text.specs.Forms.{one_word, outcome_of, end_of, finish_of, queue_of, start_of, more_words, line_of};

use crate::Line;
use process_text::is_word;
use process_tree::{Name, NameError, Outcome};
use std::alloc::{AllocError, Global};
use trace_verify::{cut, number_of};

// `next`, `flush`, `show` or `stop`
fn one_word(word: &[u8]) -> Option<Line>
    ensures { result ≡ one_word word.now }
{
    if is_word(word, b"next") {
        Some(Line::Next)
    } else if is_word(word, b"flush") {
        Some(Line::Flush)
    } else if is_word(word, b"show") {
        Some(Line::Show)
    } else if is_word(word, b"stop") {
        Some(Line::Stop)
    } else {
        None
    }
}

// `done` or `refused`
fn outcome_of(word: &[u8]) -> Option<Outcome>
    ensures { result ≡ outcome_of word.now }
{
    if is_word(word, b"done") {
        Some(Outcome::Done)
    } else if is_word(word, b"refused") {
        Some(Outcome::Refused)
    } else {
        None
    }
}

// `N done` or `N refused`
fn end_of(text: &[u8]) -> Option<(u32, Outcome)>
    ensures { result ≡ end_of text.now }
{
    match cut(text, b' ') {
        Some((n, outcome)) => match (number_of(n), outcome_of(outcome)) {
            (Some(n), Some(outcome)) => Some((n, outcome)),
            _ => None,
        },
        None => None,
    }
}

// `finish N done` or `finish N refused`
fn finish_of(text: &[u8]) -> Option<Line>
    ensures { result ≡ finish_of text.now }
{
    match end_of(text) {
        Some((n, outcome)) => Some(Line::Finish(n, outcome)),
        None => None,
    }
}

// `queue N done` or `queue N refused`
fn queue_of(text: &[u8]) -> Option<Line>
    ensures { result ≡ queue_of text.now }
{
    match end_of(text) {
        Some((n, outcome)) => Some(Line::Queue(n, outcome)),
        None => None,
    }
}

// `admit I`
fn admit_of(text: &[u8]) -> Option<Line>
    ensures { result ≡ option_map Admit (number_of text.now) }
{
    match number_of(text) {
        Some(i) => Some(Line::Admit(i)),
        None => None,
    }
}

// `abort I`
fn abort_of(text: &[u8]) -> Option<Line>
    ensures { result ≡ option_map Abort (number_of text.now) }
{
    match number_of(text) {
        Some(i) => Some(Line::Abort(i)),
        None => None,
    }
}

// A name.
fn start_of(alloc: Global, name: &[u8]) -> Result<Option<Line>, AllocError>
    ensures { IfOk result (λ line. line ≡ start_of name.now) }
{
    match Name::new(alloc, name) {
        Ok(name) => Ok(Some(Line::Start(name))),
        Err(NameError::BadName) => Ok(None),
        Err(NameError::NoMemory) => Err(AllocError),
    }
}

// A line of more words than one, by its first word and the rest.
fn more_words(alloc: Global, word: &[u8], rest: &[u8]) -> Result<Option<Line>, AllocError>
    ensures { IfOk result (λ line. line ≡ more_words word.now rest.now) }
{
    if is_word(word, b"start") {
        return start_of(alloc, rest);
    }
    Ok(if is_word(word, b"admit") {
        admit_of(rest)
    } else if is_word(word, b"abort") {
        abort_of(rest)
    } else if is_word(word, b"finish") {
        finish_of(rest)
    } else if is_word(word, b"queue") {
        queue_of(rest)
    } else {
        None
    })
}

/// What a line asks for, if it has a form.
pub fn line_of(alloc: Global, line: &[u8]) -> Result<Option<Line>, AllocError>
    ensures { IfOk result (λ found. found ≡ line_of line.now) }
{
    match cut(line, b' ') {
        Some((word, rest)) => more_words(alloc, word, rest),
        None => Ok(one_word(line)),
    }
}

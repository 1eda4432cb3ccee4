// The plain text of a text.
ghost use Rattle.std.specs.Prelude.{◌≡◌, ◌⊎◌, None, Some, IfErr, IfOk, OnOk, map};
ghost use Rattle.text_words.specs.Words.{words_of};
ghost use Rattle.process_text.specs.Again.{HasReading};
ghost use Rattle.process_text.specs.Places.{text_error};
ghost use Rattle.process_text.specs.declared.fault.What.TheVariants.{Steps};
ghost use Rattle.process_expand.specs.Reading.{fault_of, tokens_of};
ghost use Rattle.process_expand.specs.Expand.{expansion, IsNoPlain, IsUnwritable};

use crate::expansion::{Unwritten, expanded};
use crate::naming::{names_in, word_at};
use crate::places::{error_at, error_at_end};
use crate::reader::Reader;
use crate::tokens::Token;
use crate::words::words;
use crate::writing::printed;
use process_text::{TextError, What, read};
use std::alloc::Global;

// The tokens of a text, or its first fault.
fn tokens_of(alloc: Global, bytes: &[u8], words: &[&[u8]]) -> Result<Vec<Token>, TextError>
    requires { map (λ w. w.now) words.now ≡ words_of bytes.now }
    ensures tokens { IfOk result (λ tokens. tokens.items ≡ tokens_of (words_of bytes.now)) }
    ensures good { OnOk result (fault_of bytes.now ≡ None) }
    ensures fault { IfErr result (λ e. (e ≡ TextError.NoMemory) ⊎ (fault_of bytes.now ≡ Some e)) }
{
    let mut reader = Reader::new(alloc);
    let mut tokens = Vec::new(alloc);
    for number in 0..words.len() {
        match reader.read(alloc, word_at(words, number)) {
            Ok(role) => tokens.push(Token { role, number })?,
            Err(fault) => return Err(error_at(bytes, words.len(), number, fault)),
        }
    }
    match reader.expected() {
        Some(expected) => Err(error_at_end(bytes, words.len(), expected)),
        None => Ok(tokens),
    }
}

// The plain text of these words, which may still have too many steps or choices.
fn plain_text(
    alloc: Global,
    bytes: &[u8],
    words: &[&[u8]],
    tokens: &[Token],
) -> Result<Vec<u8>, TextError>
    requires words { map (λ w. w.now) words.now ≡ words_of bytes.now }
    requires tokens { tokens.now ≡ tokens_of (words_of bytes.now) }
    ensures text { IfOk result (λ text. text.items ≡ expansion bytes.now) }
    ensures refused { IfErr result (λ e. (e ≡ TextError.NoMemory) ⊎ IsUnwritable bytes.now e) }
{
    let _ = bytes;
    let text = match expanded(alloc, tokens) {
        Ok(text) => text,
        Err(Unwritten::TooLong) => return Err(TextError::Limit(What::Steps, 257)),
        Err(Unwritten::NoMemory) => return Err(TextError::NoMemory),
    };
    let names = names_in(alloc, words, tokens)?;
    let out = printed(alloc, words, &names, &text)?;
    Ok(out)
}

// A text that is one of processes.
fn read_again(alloc: Global, text: Vec<u8>) -> Result<Vec<u8>, TextError>
    ensures same { IfOk result (λ same. same ≡ text) }
    ensures plain { OnOk result (HasReading text.items) }
    ensures fault { IfErr result (λ e. (e ≡ TextError.NoMemory) ⊎ (text_error text.items ≡ Some e)) }
{
    match read(alloc, &text) {
        Ok(_) => Ok(text),
        Err(error) => Err(error),
    }
}

/// Writes out what follows a choice: the plain text of a text in which `then` may stand behind a `done`.
pub fn expand(alloc: Global, bytes: &[u8]) -> Result<Vec<u8>, TextError>
    // At `Ok` it is what the definition writes, and a text of processes.
    ensures text { IfOk result (λ text. text.items ≡ expansion bytes.now) }
    ensures plain { IfOk result (λ text. HasReading text.items) }
    // Then the text had no fault.
    ensures good { OnOk result (fault_of bytes.now ≡ None) }
    // An error is the first fault of the text, with its place; or it has none, and too much is to be written.
    ensures refused { IfErr result (IsNoPlain bytes.now) }
{
    let words = words(alloc, bytes)?;
    let tokens = tokens_of(alloc, bytes, &words)?;
    let text = plain_text(alloc, bytes, &words, &tokens)?;
    read_again(alloc, text)
}

// Words of a text.
ghost use Rattle.std.specs.Prelude.{◌≡◌, [], ◌∷◌, ◌≤◌, ◌<◌, length, MatchOption, IfNone};
ghost use Rattle.process_tree.specs.Making.{same_text};
ghost use Rattle.text_words.specs.Words.{is_blank, words_of, word_size, begins};

use std::marker::Model;

/// Whether a byte stands between words.
#[tactic(auto, unfolding(crate::specs::Words::is_blank))]
pub fn is_blank(byte: u8) -> bool
    ensures { result ≡ is_blank byte }
{
    byte == b' ' || byte == b'\t' || byte == b'\n' || byte == b'\r'
}

// The text from its first word on.
fn skip_blanks(text: &[u8]) -> &[u8]
    ensures same { words_of result.now ≡ words_of text.now }
    ensures word { 0 < length result.now → 0 < word_size result.now }
{
    let mut rest = text;
    while let [first, after @ ..] = rest {
        if !is_blank(*first) {
            break;
        }
        rest = after;
    }
    rest
}

// How many bytes stand before the first blank.
fn word_size(text: &[u8]) -> usize
    ensures size { result ≡ word_size text.now }
    ensures within { result ≤ length text.now }
{
    let mut size = 0;
    let mut rest = text;
    while let [first, after @ ..] = rest {
        if is_blank(*first) {
            break;
        }
        size += 1;
        rest = after;
    }
    size
}

// The first word and what stands behind it.
fn split_word(text: &[u8]) -> Option<(&[u8], &[u8])>
    ensures { MatchOption result (words_of text.now ≡ []) (λ r. words_of text.now ≡ r.0.now ∷ words_of r.1.now) }
{
    let rest = skip_blanks(text);
    if rest.is_empty() {
        return None;
    }
    Some(rest.split_at(word_size(rest)))
}

// How many words a text has.
fn count(text: &[u8]) -> usize
    ensures { result ≡ length (words_of text.now) }
{
    let mut words = Words::new(text);
    let mut number = 0;
    while words.next_word().is_some() {
        number += 1;
    }
    number
}

/// The words of a text that are left to read.
#[derive(Drop)]
pub struct Words<'a> {
    rest: &'a [u8],
}

impl<'a> Model for Words<'a> {
    ghost use Rattle.std.specs.Prelude.{List, ℕ};
    ghost use Rattle.text_words.specs.Words.{words_of};

    ghost Value = { List (List ℕ) };

    ghost view = { λ w. words_of w.rest.now };
}

impl<'a> Words<'a> {
    pub fn new(text: &'a [u8]) -> Self
        ensures { result ≡ words_of text.now }
    {
        Words { rest: text }
    }

    /// How many they are.
    pub fn count(&self) -> usize
        ensures { result ≡ length self.now }
    {
        count(self.rest)
    }

    /// Whether the next word is this one.
    pub fn begins_with(&self, word: &[u8]) -> bool
        ensures { result ≡ begins (λ w. same_text w word.now) self.now }
    {
        match split_word(self.rest) {
            Some((next, _)) => is_word(next, word),
            None => false,
        }
    }

    /// Takes the next word.
    pub fn next_word(&mut self) -> Option<&'a [u8]>
        ensures word { MatchOption result (self.old ≡ []) (λ word. self.old ≡ word.now ∷ self.new) }
        ensures end { IfNone result (self.new ≡ []) }
    {
        match split_word(self.rest) {
            Some((word, rest)) => {
                self.rest = rest;
                Some(word)
            }
            None => None,
        }
    }
}

/// Whether a word is that one.
pub fn is_word(word: &[u8], wanted: &[u8]) -> bool
    ensures { result ≡ same_text word.now wanted.now }
{
    word == wanted
}

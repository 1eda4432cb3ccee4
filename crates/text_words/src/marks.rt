// The words of a process that are no step's, and what words mean in a block.
ghost use Rattle.std.specs.Prelude.{◌≡◌, true, IfSome};
ghost use Rattle.text_words.specs.Marks.{kind_word, kind_of_word, mark_word, setting_word, default_of, opening};
ghost use Rattle.text_words.specs.Marks.{closing, closes, mark_or, meaning, IsWordOf, expected_at};

use crate::{Expected, is_word};
use process_tree::{DEFAULT_TRIES, StepKind};

/// A word that opens, divides or closes a block.
#[derive(Clone, Copy, Debug, PartialEq, Eq)]
pub enum Mark {
    /// `choose`
    Choose,
    /// `or`
    Or,
    /// `done`
    Done,
    /// `end`
    End,
}

/// An option of a step.
#[derive(Clone, Copy, Debug, PartialEq, Eq)]
pub enum Setting {
    Tries,
    Undo,
    Refuse,
    UndoRefuse,
}

/// A place in a block.
#[derive(Clone, Copy, Debug, PartialEq, Eq)]
pub enum At {
    Begin,
    BehindStep,
    BehindChoice,
}

/// What a word is at a place in a block.
#[derive(Clone, Copy, Debug, PartialEq, Eq)]
pub enum Next {
    Step(StepKind),
    Mark(Mark),
    Misfit(Expected),
}

impl Setting {
    /// The word of the option.
    pub fn word(self) -> &'static [u8]
        ensures { result.now ≡ setting_word self }
    {
        match self {
            Setting::Tries => b"tries",
            Setting::Undo => b"undo",
            Setting::Refuse => b"refuse",
            Setting::UndoRefuse => b"undorefuse",
        }
    }

    /// The number that holds where the option is left out.
    pub fn default_number(self) -> u8
        ensures { result ≡ default_of self }
    {
        match self {
            Setting::Tries | Setting::Undo => DEFAULT_TRIES,
            Setting::Refuse | Setting::UndoRefuse => 0,
        }
    }
}

/// The kind that a word names.
pub fn kind_of_word(word: &[u8]) -> Option<StepKind>
    ensures kind { result ≡ kind_of_word word.now }
    ensures word { IfSome result (λ k. word.now ≡ kind_word k) }
{
    if is_word(word, b"c") {
        Some(StepKind::C)
    } else if is_word(word, b"p") {
        Some(StepKind::P)
    } else if is_word(word, b"r") {
        Some(StepKind::R)
    } else if is_word(word, b"cr") {
        Some(StepKind::Cr)
    } else {
        None
    }
}

// What a word is that may begin a step or a choice.
fn opening(begun: usize, word: &[u8]) -> Option<Next>
    ensures next { result ≡ opening word.now }
    ensures word { IfSome result (λ n. IsWordOf begun n word.now) }
{
    if is_word(word, b"choose") {
        return Some(Next::Mark(Mark::Choose));
    }
    match kind_of_word(word) {
        Some(kind) => Some(Next::Step(kind)),
        None => None,
    }
}

/// The word that closes a block, `begun` alternatives being begun in the choice around it.
pub fn closing(begun: usize, word: &[u8]) -> Option<Mark>
    ensures mark { result ≡ closing begun word.now }
    ensures word { IfSome result (λ m. word.now ≡ mark_word m) }
    ensures closes { IfSome result (λ m. closes begun m ≡ true) }
{
    if begun == 0 {
        if is_word(word, b"end") {
            return Some(Mark::End);
        }
        return None;
    }
    if is_word(word, b"or") {
        Some(Mark::Or)
    } else if is_word(word, b"done") {
        Some(Mark::Done)
    } else {
        None
    }
}

/// What is expected at a place.
pub fn expected_at(at: At) -> Expected
    ensures { result ≡ expected_at at }
{
    match at {
        At::Begin => Expected::Step,
        At::BehindStep => Expected::Next,
        At::BehindChoice => Expected::Close,
    }
}

// What a word is that may close a block, or what is expected.
fn mark_or(begun: usize, word: &[u8], expected: Expected) -> Next
    ensures next { result ≡ mark_or (closing begun word.now) (Next.Misfit expected) }
    ensures word { IsWordOf begun result word.now }
{
    match closing(begun, word) {
        Some(mark) => Next::Mark(mark),
        None => Next::Misfit(expected),
    }
}

/// What a word is at a place in a block, `begun` alternatives being begun in the choice around it.
pub fn meaning(at: At, begun: usize, word: &[u8]) -> Next
    ensures next { result ≡ meaning at begun word.now }
    ensures word { IsWordOf begun result word.now }
{
    match at {
        At::Begin => match opening(begun, word) {
            Some(next) => next,
            None => Next::Misfit(Expected::Step),
        },
        At::BehindStep => match opening(begun, word) {
            Some(next) => next,
            None => mark_or(begun, word, Expected::Next),
        },
        At::BehindChoice => mark_or(begun, word, Expected::Close),
    }
}

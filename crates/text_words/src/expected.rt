// What a word was expected to be.
ghost use Rattle.std.specs.Prelude.{Some};
ghost use Rattle.text_words.specs.Expected.{expected_word};

use std::fmt;

/// What was expected where a word doesn't fit.
#[derive(Clone, Copy, Debug, PartialEq, Eq)]
pub enum Expected {
    /// Between processes.
    Process,
    /// For the name of a process or a step.
    Name,
    /// At the beginning of a block: a kind or `choose`.
    Step,
    Operation,
    Key,
    Amount,
    /// After the word of an option.
    Number,
    /// After a step: a later option of its kind, a kind, `choose`, or the word that closes its block.
    Next,
    /// After `done`: the word that closes the block around it.
    Close,
    /// At a `done` that would close a choice with one alternative.
    Or,
}

impl fmt::Display for Expected {
    ghost output = { λ e. Some (expected_word e) };

    fn fmt<W: fmt::Write>(&self, f: &mut fmt::Formatter<W>) -> fmt::Result {
        f.write_str(match self {
            Expected::Process => "process",
            Expected::Name => "name",
            Expected::Step => "step",
            Expected::Operation => "operation",
            Expected::Key => "key",
            Expected::Amount => "amount",
            Expected::Number => "number",
            Expected::Next => "next",
            Expected::Close => "close",
            Expected::Or => "or",
        })
    }
}

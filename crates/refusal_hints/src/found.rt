// The word at a place of a text.
ghost use Rattle.std.specs.Prelude.{◌≡◌};
ghost use Rattle.text_words.specs.Places.{start};
ghost use Rattle.text_words.specs.Words.{words_of};
ghost use Rattle.refusal_hints.specs.Found.{rest_from, first_of, word_at};

use text_words::{Position, Words};

// What stands from a line and a column on.
fn rest_from(line: usize, column: usize, text: &[u8]) -> &[u8]
    ensures { result.now ≡ rest_from line column start text.now }
{
    let mut rest = text;
    let mut at = Position { line: 1, column: 1 };
    while let [byte, after @ ..] = rest {
        if at.line == line && at.column == column {
            break;
        }
        at = if *byte == b'\n' {
            Position {
                line: at.line + 1,
                column: 1,
            }
        } else {
            Position {
                line: at.line,
                column: at.column + 1,
            }
        };
        rest = after;
    }
    rest
}

// The first word of a text, if it has one.
fn first_word(text: &[u8]) -> &[u8]
    ensures { result.now ≡ first_of (words_of text.now) }
{
    match Words::new(text).next_word() {
        Some(word) => word,
        None => b"",
    }
}

/// The word at a line and a column; none at the end of the text.
pub(crate) fn word_at(line: usize, column: usize, text: &[u8]) -> &[u8]
    ensures { result.now ≡ word_at line column text.now }
{
    first_word(rest_from(line, column, text))
}

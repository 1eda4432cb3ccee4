// Where words stand.
ghost use Rattle.std.specs.Prelude.{◌≡◌, ◌+◌, ◌<◌, ◌^◌, false};
ghost use Rattle.text_words.specs.Places.{start, behind, places, nth_place};

use crate::is_blank;

/// A place in a text. Lines and columns count from 1.
#[derive(Clone, Copy, Debug, PartialEq, Eq)]
pub struct Position {
    pub line: usize,
    /// In bytes.
    pub column: usize,
}

const START: Position = Position { line: 1, column: 1 };

// The place behind a byte.
fn behind(byte: u8, at: Position) -> Position
    requires line { at.line < 2 ^ 63 }
    requires column { at.column < 2 ^ 63 }
    ensures { result ≡ behind byte at }
{
    if byte == b'\n' {
        Position {
            line: at.line + 1,
            column: 1,
        }
    } else {
        Position {
            line: at.line,
            column: at.column + 1,
        }
    }
}

/// The place of the word before which n stand, or just behind the last byte where the text has n words. Of a text with fewer it
/// is the beginning.
pub fn nth_place(text: &[u8], n: usize) -> Position
    ensures { result ≡ nth_place n (places false start text.now) }
{
    let mut rest = text;
    let mut at = START;
    let mut in_word = false;
    let mut left = n;
    while let [byte, after @ ..] = rest {
        let blank = is_blank(*byte);
        if !blank && !in_word {
            if left == 0 {
                return at;
            }
            left -= 1;
        }
        in_word = !blank;
        at = behind(*byte, at);
        rest = after;
    }
    if left == 0 { at } else { START }
}

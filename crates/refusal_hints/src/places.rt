// Places in an input.
ghost use Rattle.std.specs.Prelude.{◌≡◌, ◌+◌, ◌<◌, ◌≤◌, ◌^◌, length};
ghost use Rattle.text_words.specs.Places.{start};
ghost use Rattle.refusal_hints.specs.Places.{behind_all, moved, place_of, ArePlacesMoved};

use text_words::Position;

// The place behind these bytes, which begin at a text's beginning.
fn behind_all(text: &[u8]) -> Position
    ensures place { result ≡ behind_all start text.now }
    ensures line { result.line ≤ length text.now + 1 }
    ensures column { result.column ≤ length text.now + 1 }
{
    let mut rest = text;
    let mut at = Position { line: 1, column: 1 };
    while let [byte, after @ ..] = rest {
        at = if *byte == b'\n' {
            Position {
                line: at.line + 1,
                column: 1,
            }
        } else {
            Position {
                line: at.line,
                column: at.column + 1,
            }
        };
        rest = after;
    }
    at
}

/// The place of the byte in front of which n stand.
pub(crate) fn place_of(text: &[u8], n: usize) -> Position
    requires { n ≤ length text.now }
    ensures place { result ≡ place_of text.now n }
    ensures line { result.line < 2 ^ 63 + 1 }
    ensures column { result.column < 2 ^ 63 + 1 }
{
    behind_all(&text[..n])
}

/// The place in a whole text of a place in a part of it that begins at `base`.
pub(crate) fn moved(base: Position, line: u32, column: u32) -> Position
    requires line { base.line < 2 ^ 63 + 1 }
    requires column { base.column < 2 ^ 63 + 1 }
    ensures { result ≡ moved base (record { line = line; column = column }) }
{
    let line = line as usize;
    let column = column as usize;
    Position {
        line: base.line + line.saturating_sub(1),
        column: if line <= 1 {
            base.column + column.saturating_sub(1)
        } else {
            column
        },
    }
}

/// A place in a part of a text, moved to where the part begins, is its place in the whole text.
pub fn places_of_parts_are_places()
    ensures { ArePlacesMoved }
{}

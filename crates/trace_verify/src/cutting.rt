// Texts cut at a byte.
ghost use Rattle.std.specs.Prelude.{◌≡◌, ◌≤◌, MatchOption, Some, None, length};
ghost use Rattle.std.specs.List.{list_all};
ghost use Rattle.process_tree.specs.Name.{is_name};
ghost use Rattle.trace_verify.specs.Lines.{cut, parts, size_before};

use process_tree::is_name;

// How many bytes stand before the first such byte.
fn size_before(text: &[u8], byte: u8) -> usize
    ensures size { result ≡ size_before byte text.now }
    ensures within { result ≤ length text.now }
{
    let mut size = 0;
    let mut rest = text;
    while let [first, after @ ..] = rest {
        if *first == byte {
            break;
        }
        size += 1;
        rest = after;
    }
    size
}

/// What stands before the first such byte, and what behind it.
pub fn cut(text: &[u8], byte: u8) -> Option<(&[u8], &[u8])>
    ensures { MatchOption result (cut byte text.now ≡ None) (λ r. cut byte text.now ≡ Some (r.0.now, r.1.now)) }
{
    let (front, behind) = text.split_at(size_before(text, byte));
    match behind {
        [_, after @ ..] => Some((front, after)),
        [] => None,
    }
}

/// Whether the words of a text are names, one space standing between two.
pub fn are_names(text: &[u8]) -> bool
    ensures { result ≡ list_all is_name (parts 32 text.now) }
{
    let mut rest = text;
    while let Some((word, behind)) = cut(rest, b' ') {
        if !is_name(word) {
            return false;
        }
        rest = behind;
    }
    is_name(rest)
}

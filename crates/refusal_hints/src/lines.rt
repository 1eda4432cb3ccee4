// Lines of an input that begin with a word.
ghost use Rattle.std.specs.Prelude.{◌≡◌, ◌+◌, ◌<◌, ◌≤◌, length, IfSome};
ghost use Rattle.refusal_hints.specs.Lines.{begins_with, line_from, nth_line, table_size, key_in_table, key_of_table};

use crate::words::is_name_byte_at;

// With which the table of an operation begins.
const HEADER: &[u8] = b"[[op]]";

// Whether a text begins with a word, and with no longer one.
fn begins_with(text: &[u8], word: &[u8]) -> bool
    ensures { result ≡ begins_with text.now word.now }
{
    text.starts_with(word) && !is_name_byte_at(text, word.len())
}

/// Where the line begins that begins with the word and has k such lines in front of it.
pub(crate) fn nth_line(k: usize, word: &[u8], text: &[u8]) -> Option<usize>
    ensures place { result ≡ nth_line k word.now text.now }
    ensures within { IfSome result (λ n. n < length text.now) }
{
    let mut rest = text;
    let mut begins = true;
    let mut n = 0;
    let mut left = k;
    while let [byte, after @ ..] = rest {
        if begins && begins_with(rest, word) {
            if left == 0 {
                return Some(n);
            }
            left -= 1;
        }
        begins = *byte == b'\n';
        n += 1;
        rest = after;
    }
    None
}

// How far the first table of this text goes.
fn table_size(text: &[u8]) -> usize
    ensures size { result ≡ table_size text.now }
    ensures within { result ≤ length text.now }
{
    match nth_line(1, HEADER, text) {
        Some(n) => n,
        None => text.len(),
    }
}

// Where the first table of this text has the key, and else its beginning.
fn key_in_table(key: &[u8], text: &[u8]) -> usize
    ensures place { result ≡ key_in_table key.now text.now }
    ensures within { result ≤ length text.now }
{
    let (table, _) = text.split_at(table_size(text));
    match nth_line(0, key, table) {
        Some(n) => n,
        None => 0,
    }
}

/// Where the table of operation k has the key, and else the beginning of the table.
pub(crate) fn key_of_table(k: usize, key: &[u8], text: &[u8]) -> Option<usize>
    ensures place { result ≡ key_of_table k key.now text.now }
    ensures within { IfSome result (λ n. n ≤ length text.now) }
{
    match nth_line(k, HEADER, text) {
        Some(n) => Some(n + key_in_table(key, text.split_at(n).1)),
        None => None,
    }
}

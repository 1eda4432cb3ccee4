// Answers of several lines.
ghost use Rattle.std.specs.Prelude.{◌≡◌, IfOk};
ghost use Rattle.driver_requests.specs.Answers.{framed, lines_in, numbered_lines};

use std::alloc::{AllocError, Global};

// How many lines a text has.
fn lines_in(text: &[u8]) -> usize
    ensures { result ≡ lines_in text.now }
{
    let mut count = 0;
    let mut rest = text;
    while let [byte, after @ ..] = rest {
        if *byte == b'\n' {
            count += 1;
        }
        rest = after;
    }
    count
}

// A text behind the number of its lines.
fn numbered_lines(alloc: Global, count: usize, text: &[u8]) -> Result<Vec<u8>, AllocError>
    requires { count ≡ lines_in text.now }
    ensures { IfOk result (λ whole. whole.items ≡ numbered_lines text.now) }
{
    let first = format!(in alloc; "lines {count}\n")?;
    let mut whole = first.as_bytes().to_vec(alloc)?;
    whole.extend_from_slice(text)?;
    Ok(whole)
}

/// An answer as a driver reads it: a text of one line as it is, unless it is one that may have any number of lines; any other
/// behind the number of its lines.
pub fn framed(alloc: Global, always: bool, text: Vec<u8>) -> Result<Vec<u8>, AllocError>
    ensures { IfOk result (λ whole. whole.items ≡ framed always text.items) }
{
    let count = lines_in(&text);
    if !always && count == 1 {
        return Ok(text);
    }
    numbered_lines(alloc, count, &text)
}

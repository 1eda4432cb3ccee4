// What a text says to a session.
ghost use Rattle.std.specs.Prelude.{◌≡◌, ◌⊎◌, ◌≤◌, ◌<◌, ◌+◌, ◌^◌, ℕ, Some, Ok, Err, length, IfOk, IfErr, if◌then◌else◌};
ghost use Rattle.trace_verify.specs.Lines.{parts};
ghost use Rattle.session_text.specs.declared.line.LinesError.TheVariants.{BadLine, NoMemory};
ghost use Rattle.session_text.specs.Sessions.{after, line_then, said, said_from, scenario_of, unless_empty, Answers, Said};

use crate::forms::line_of;
use crate::{Line, LinesError};
use process_text::is_word;
use std::alloc::{AllocError, Global};
use trace_verify::cut;

/// A text divided at its first line that is `%%`.
#[derive(Clone, Copy)]
pub struct Divided<'a> {
    pub scenario: &'a [u8],
    /// What stands behind that line.
    pub lines: &'a [u8],
    /// The number of the first line behind it, counted from 1.
    pub first: usize,
}

/// Divides a text at its first line that is `%%`. Without one it is a scenario without lines.
pub fn divide(text: &[u8]) -> Divided<'_>
    ensures scenario { result.scenario.now ≡ scenario_of text.now }
    ensures lines { said_from result.first (parts 10 result.lines.now) ≡ said text.now }
    ensures within { result.first + length result.lines.now ≤ length text.now + 2 }
{
    let mut rest = text;
    let mut first = 1;
    while let Some((line, behind)) = cut(rest, b'\n') {
        first += 1;
        if is_word(line, b"%%") {
            let scenario = &text[..text.len() - rest.len()];
            return Divided {
                scenario,
                lines: behind,
                first,
            };
        }
        rest = behind;
    }
    let scenario = if is_word(rest, b"%%") {
        &text[..text.len() - rest.len()]
    } else {
        text
    };
    Divided {
        scenario,
        lines: b"",
        first,
    }
}

// A bad line.
fn bad_line(n: usize) -> LinesError
    ensures { (result ≡ NoMemory) ⊎ (result ≡ BadLine n) }
{
    match u32::try_from(n) {
        Ok(n) => LinesError::BadLine(n),
        Err(_) => LinesError::NoMemory,
    }
}

// Adds a line, and says whether another is looked at.
fn add_line(lines: &mut Vec<Line>, line: Line) -> Result<bool, AllocError>
    ensures { IfOk result
        (λ on. (n : ℕ) (rest : Said) → after lines.old.items (line_then n rest (Some line))
        ≡ (if on then after lines.new.items rest else Ok lines.new.items)) }
{
    if let Line::Stop = line {
        return Ok(false);
    }
    lines.push(line)?;
    Ok(true)
}

// Reads line n, and says whether another is looked at.
fn read_line(
    alloc: Global,
    lines: &mut Vec<Line>,
    line: &[u8],
    n: usize,
) -> Result<bool, LinesError>
    ensures on { IfOk result
        (λ on. (rest : Said) → after lines.old.items (unless_empty line.now n rest)
        ≡ (if on then after lines.new.items rest else Ok lines.new.items)) }
    ensures bad { IfErr result (λ e. (e ≡ NoMemory) ⊎ ((e ≡ BadLine n) × ((rest : Said) → unless_empty line.now n rest ≡ Err n))) }
{
    if line.is_empty() {
        return Ok(true);
    }
    match line_of(alloc, line)? {
        Some(line) => Ok(add_line(lines, line)?),
        None => Err(bad_line(n)),
    }
}

/// What lines say, of which the first has this number, up to `stop`; or the first of them that has no form.
pub fn read_lines(alloc: Global, text: &[u8], first: usize) -> Result<Vec<Line>, LinesError>
    requires { first + length text.now < 2 ^ 64 }
    ensures { Answers (said_from first (parts 10 text.now)) result }
{
    let mut lines = Vec::new(alloc);
    let mut rest = text;
    let mut number = first;
    while let Some((line, behind)) = cut(rest, b'\n') {
        if !read_line(alloc, &mut lines, line, number)? {
            return Ok(lines);
        }
        rest = behind;
        number += 1;
    }
    read_line(alloc, &mut lines, rest, number)?;
    Ok(lines)
}

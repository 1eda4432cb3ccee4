// The lines of answers.
ghost use Rattle.std.specs.Prelude.{◌≡◌, ◌++◌, ◌∷◌, [], codes, decimal, OnOk};
ghost use Rattle.process_text.specs.Canonical.{line_of};
ghost use Rattle.process_report.specs.Lines.{place_word};
ghost use Rattle.process_report.specs.Blocks.{block_words};
ghost use Rattle.session_text.specs.Answers.{exhausted_words, numbered, piece_words};

use machine_model::{Blocked, Work};
use process_report::{blocked_text, place_word, put_line, step_name};
use schedule_model::History;
use std::alloc::{AllocError, Global};

/// Writes a word and a number.
pub fn put_number(alloc: Global, word: &[u8], n: u32, out: &mut Vec<u8>) -> Result<(), AllocError>
    ensures { OnOk result (out.new.items ≡ out.old.items ++ line_of (numbered word.now n)) }
{
    let number = format!(in alloc; "{n}")?;
    put_line(out, &[word, number.as_bytes()])
}

// Writes `piece N: WORD I.STEP`.
fn put_step(
    alloc: Global,
    h: &History,
    n: u32,
    word: &[u8],
    i: u32,
    step: u16,
    out: &mut Vec<u8>,
) -> Result<(), AllocError>
    ensures { OnOk result (out.new.items ≡ out.old.items
        ++ line_of (codes "piece" ∷ (decimal n ++ codes ":") ∷ word.now ∷ place_word h.now.plans i step ∷ [])) }
{
    let number = format!(in alloc; "{n}:")?;
    let place = place_word(alloc, h.plans.as_slice(), i, step)?;
    put_line(out, &[b"piece", number.as_bytes(), word, &place])
}

// Writes `piece N: end I`.
fn put_end(alloc: Global, n: u32, i: u32, out: &mut Vec<u8>) -> Result<(), AllocError>
    ensures { OnOk result (out.new.items ≡ out.old.items
        ++ line_of (codes "piece" ∷ (decimal n ++ codes ":") ∷ numbered (codes "end") i)) }
{
    let number = format!(in alloc; "{n}:")?;
    let process = format!(in alloc; "{i}")?;
    put_line(
        out,
        &[b"piece", number.as_bytes(), b"end", process.as_bytes()],
    )
}

/// Writes `piece N: do I.STEP`, `piece N: undo I.STEP` or `piece N: end I`.
pub fn put_piece(
    alloc: Global,
    h: &History,
    n: u32,
    i: u32,
    step: u16,
    work: Work,
    out: &mut Vec<u8>,
) -> Result<(), AllocError>
    ensures { OnOk result
        (out.new.items ≡ out.old.items ++ line_of
        (piece_words h.now.plans (record { number = n; process = i; step = step; work = work }))) }
{
    match work {
        Work::Forward => put_step(alloc, h, n, b"do", i, step, out),
        Work::Undo => put_step(alloc, h, n, b"undo", i, step, out),
        Work::End => put_end(alloc, n, i, out),
    }
}

/// Writes this word, and what process i waits on.
pub fn put_block(
    alloc: Global,
    h: &History,
    word: &[u8],
    i: u32,
    b: &Blocked,
    out: &mut Vec<u8>,
) -> Result<(), AllocError>
    ensures { OnOk result (out.new.items ≡ out.old.items ++ line_of (word.now ∷ block_words h.now.plans i b.now)) }
{
    let text = blocked_text(alloc, h, i, b)?;
    put_line(out, &[word, &text])
}

/// Writes `exhausted I STEP`.
pub fn put_exhausted(
    alloc: Global,
    h: &History,
    i: u32,
    step: u16,
    out: &mut Vec<u8>,
) -> Result<(), AllocError>
    ensures { OnOk result (out.new.items ≡ out.old.items ++ line_of (exhausted_words h.now.plans i step)) }
{
    let number = format!(in alloc; "{i}")?;
    put_line(
        out,
        &[
            b"exhausted",
            number.as_bytes(),
            step_name(h.plans.as_slice(), i, step),
        ],
    )
}

// The lines of `next` where no piece is free, and of the end of pieces.
ghost use Rattle.std.specs.Prelude.{◌≡◌, ◌++◌, OnOk};
ghost use Rattle.process_text.specs.Canonical.{line_of};
ghost use Rattle.session_text.specs.Answers.{all_ended_words, group_open_words, no_piece_words, no_refusal_words};
ghost use Rattle.session_text.specs.Answers.{nothing_queued_words, refusal_words, waiting_words};

use crate::answers::{put_exhausted, put_number};
use crate::requests::put_counted;
use machine_model::Refusal;
use process_report::put_line;
use schedule_model::History;
use std::alloc::{AllocError, Global};

/// Writes `wait`, where nothing is blocked.
pub fn put_waiting(out: &mut Vec<u8>) -> Result<(), AllocError>
    ensures { OnOk result (out.new.items ≡ out.old.items ++ line_of waiting_words) }
{
    put_line(out, &[b"wait"])
}

/// Writes `all ended`.
pub fn put_all_ended(out: &mut Vec<u8>) -> Result<(), AllocError>
    ensures { OnOk result (out.new.items ≡ out.old.items ++ line_of all_ended_words) }
{
    put_line(out, &[b"all", b"ended"])
}

/// Writes what became of a piece of this step that was refused: `retry T`, `failed` or `exhausted I STEP`.
pub fn put_refusal(
    alloc: Global,
    h: &History,
    i: u32,
    step: u16,
    refusal: Refusal,
    out: &mut Vec<u8>,
) -> Result<(), AllocError>
    ensures { OnOk result (out.new.items ≡ out.old.items ++ line_of (refusal_words h.now.plans i step refusal)) }
{
    match refusal {
        Refusal::Retry(tries) => put_number(alloc, b"retry", u32::from(tries), out),
        Refusal::Alternative | Refusal::RollBack => put_line(out, &[b"failed"]),
        Refusal::Exhausted => put_exhausted(alloc, h, i, step, out),
    }
}

/// Writes `no piece N`.
pub fn put_no_piece(alloc: Global, n: u32, out: &mut Vec<u8>) -> Result<(), AllocError>
    ensures { OnOk result (out.new.items ≡ out.old.items ++ line_of (no_piece_words n)) }
{
    put_counted(alloc, b"no", b"piece", n, out)
}

/// Writes `end is not refused N`.
pub fn put_no_refusal(alloc: Global, n: u32, out: &mut Vec<u8>) -> Result<(), AllocError>
    ensures { OnOk result (out.new.items ≡ out.old.items ++ line_of (no_refusal_words n)) }
{
    let number = format!(in alloc; "{n}")?;
    put_line(out, &[b"end", b"is", b"not", b"refused", number.as_bytes()])
}

/// Writes `group open`: something is queued.
pub fn put_group_open(out: &mut Vec<u8>) -> Result<(), AllocError>
    ensures { OnOk result (out.new.items ≡ out.old.items ++ line_of group_open_words) }
{
    put_line(out, &[b"group", b"open"])
}

/// Writes `nothing queued`.
pub fn put_nothing_queued(out: &mut Vec<u8>) -> Result<(), AllocError>
    ensures { OnOk result (out.new.items ≡ out.old.items ++ line_of nothing_queued_words) }
{
    put_line(out, &[b"nothing", b"queued"])
}

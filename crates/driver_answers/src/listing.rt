// Pieces as a driver reads them.
ghost use Rattle.std.specs.Prelude.{◌≡◌, ◌++◌, IfOk, OnOk};
ghost use Rattle.driver_requests.specs.Answers.{numbered_lines};
ghost use Rattle.driver_answers.specs.Serving.{listed, with_call};

use driver_requests::{add_call, framed, put_called_piece};
use process_core::Piece;
use schedule_model::History;
use std::alloc::{AllocError, Global};

/// Adds to the last line of a text what the first of these pieces calls, if there is one.
pub fn add_handed(
    alloc: Global,
    h: &History,
    pieces: &[Piece],
    text: &mut Vec<u8>,
) -> Result<(), AllocError>
    ensures { OnOk result (text.new.items ≡ with_call h.now.plans pieces.now text.old.items) }
{
    match pieces {
        [] => Ok(()),
        [piece, ..] => add_call(
            alloc,
            h.plans.as_slice(),
            piece.process(),
            piece.step(),
            piece.work(),
            text,
        ),
    }
}

// Writes the lines of pieces.
fn put_pieces(
    alloc: Global,
    h: &History,
    pieces: &[Piece],
    out: &mut Vec<u8>,
) -> Result<(), AllocError>
    ensures { OnOk result (out.new.items ≡ out.old.items ++ listed h.now.plans pieces.now) }
{
    let mut rest = pieces;
    while let [piece, after @ ..] = rest {
        put_called_piece(
            alloc,
            h,
            piece.number(),
            piece.process(),
            piece.step(),
            piece.work(),
            out,
        )?;
        rest = after;
    }
    Ok(())
}

/// The lines of these pieces, behind their number.
pub fn pieces_text(alloc: Global, h: &History, pieces: &[Piece]) -> Result<Vec<u8>, AllocError>
    ensures { IfOk result (λ text. text.items ≡ numbered_lines (listed h.now.plans pieces.now)) }
{
    let mut text = Vec::new(alloc);
    put_pieces(alloc, h, pieces, &mut text)?;
    framed(alloc, true, text)
}

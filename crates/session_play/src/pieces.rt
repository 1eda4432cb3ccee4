// Pieces that a line may still finish.
ghost use Rattle.std.specs.Prelude.{◌≡◌, ◌++◌, map, IfErr, OnOk};
ghost use Rattle.std.specs.Option.{option_to_list};
ghost use Rattle.session_play.specs.Pieces.{admitted_pieces, chosen_pieces, full_of, number_of, place_in};
ghost use Rattle.session_play.specs.declared.cut.Cut.TheVariants.{NoMemory};

use crate::Cut;
use process_core::{Admit, Next, Piece};
use process_engine::Queue;

/// The place of the piece of this number.
pub fn place_of(pieces: &[Piece], number: u32) -> Option<usize>
    ensures { result ≡ place_in number (map number_of pieces.now) }
{
    let mut place = 0;
    let mut rest = pieces;
    while let [piece, after @ ..] = rest {
        if piece.number() == number {
            return Some(place);
        }
        place += 1;
        rest = after;
    }
    None
}

/// Keeps the piece that a request for one of a process is answered with, if it is.
pub fn keep_admitted(pieces: &mut Vec<Piece>, reply: Admit) -> Result<(), Cut>
    ensures kept { OnOk result (pieces.new.items ≡ pieces.old.items ++ admitted_pieces reply) }
    ensures cut { IfErr result (λ cut. cut ≡ NoMemory) }
{
    match reply {
        Admit::Piece(piece) => Ok(pieces.push(piece)?),
        Admit::Blocked(_) | Admit::Running | Admit::Unknown | Admit::Ended | Admit::Exhausted(_) =>
            Ok(()),
    }
}

/// Keeps the piece that a request for any is answered with, if it is.
pub fn keep_chosen(pieces: &mut Vec<Piece>, reply: Next) -> Result<(), Cut>
    ensures kept { OnOk result (pieces.new.items ≡ pieces.old.items ++ chosen_pieces reply) }
    ensures cut { IfErr result (λ cut. cut ≡ NoMemory) }
{
    match reply {
        Next::Piece(piece) => Ok(pieces.push(piece)?),
        Next::Wait(_) | Next::AllEnded | Next::Stuck(_) => Ok(()),
    }
}

/// The piece for which the group is full, if it is.
pub fn full_of(reply: Queue) -> Option<Piece>
    ensures { result ≡ full_of reply }
{
    match reply {
        Queue::Full(piece) => Some(piece),
        _ => None,
    }
}

/// Keeps a piece for which the group is full.
pub fn keep_full(pieces: &mut Vec<Piece>, full: Option<Piece>) -> Result<(), Cut>
    ensures kept { OnOk result (pieces.new.items ≡ pieces.old.items ++ option_to_list full) }
    ensures cut { IfErr result (λ cut. cut ≡ NoMemory) }
{
    match full {
        Some(piece) => Ok(pieces.push(piece)?),
        None => Ok(()),
    }
}

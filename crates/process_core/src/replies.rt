// What is answered to requests for pieces.
ghost use Rattle.std.specs.Prelude.{◌≡◌, is_none};
ghost use Rattle.process_core.specs.Rotation.{piece_found};

use crate::pieces::Piece;
use machine_model::Blocked;

/// A process that is blocked, and by what.
#[derive(Clone, Copy, Debug, PartialEq, Eq)]
pub struct Waiting {
    pub process: u32,
    pub block: Blocked,
}

/// What a request for a piece of one process answers.
#[derive(Drop)]
pub enum Admit {
    /// The next piece of the process.
    Piece(Piece),
    Blocked(Blocked),
    /// It has a running piece.
    Running,
    /// There is no such process.
    Unknown,
    Ended,
    /// This step, or its undo, was refused as often as it may be tried.
    Exhausted(u16),
}

/// What is found among processes that are asked one after another.
#[derive(Drop)]
pub enum Found {
    /// The first free piece.
    Piece(Piece),
    /// Nothing is free. The first process that is blocked, if any is.
    Waiting(Option<Waiting>),
}

impl Found {
    /// Whether nothing is free.
    pub(crate) fn has_none(&self) -> bool
        ensures { result ≡ is_none (piece_found self.now) }
    {
        match self {
            Found::Piece(_) => false,
            Found::Waiting(_) => true,
        }
    }
}

/// What a request for any piece answers.
#[derive(Drop)]
pub enum Next {
    /// The first free piece.
    Piece(Piece),
    /// Nothing is free, and a piece runs. The first in rotation that is blocked, if any is.
    Wait(Option<Waiting>),
    AllEnded,
    /// Nothing is free and nothing runs. The least process that is exhausted.
    Stuck(u32),
}

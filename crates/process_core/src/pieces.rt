// Pieces as they are handed out.
ghost use Rattle.std.specs.Prelude.{◌≡◌};

use machine_model::Work;
use std::marker::Model;

/// One try of a step, of its undo, or the end of a process.
#[derive(Drop)]
pub struct Piece {
    pub(crate) number: u32,
    pub(crate) process: u32,
    pub(crate) step: u16,
    pub(crate) work: Work,
    pub(crate) tried: u8,
    pub(crate) refuse: u8,
}

impl Model for Piece {
    ghost use Rattle.machine_model.specs.Replies.{Handed};

    ghost Value = { Handed };

    ghost view = { λ p. record {
      piece = record { number = p.number; process = p.process; step = p.step; work = p.work };
      tried = p.tried;
      refuse = p.refuse;
    } };
}

impl Piece {
    /// Pieces are numbered from 1 in the order in which they are handed out.
    pub fn number(&self) -> u32
        ensures { result ≡ self.now.piece.number }
    {
        self.number
    }

    pub fn process(&self) -> u32
        ensures { result ≡ self.now.piece.process }
    {
        self.process
    }

    /// The step that is done or undone, and 0 for an end.
    pub fn step(&self) -> u16
        ensures { result ≡ self.now.piece.step }
    {
        self.step
    }

    pub fn work(&self) -> Work
        ensures { result ≡ self.now.piece.work }
    {
        self.work
    }

    /// How often this was refused before.
    pub fn tried(&self) -> u8
        ensures { result ≡ self.now.tried }
    {
        self.tried
    }

    /// How many tries the plain gate refuses.
    pub fn refuse(&self) -> u8
        ensures { result ≡ self.now.refuse }
    {
        self.refuse
    }
}

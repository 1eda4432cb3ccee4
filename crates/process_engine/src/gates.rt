// Gates: who does the work of pieces.
ghost use Rattle.std.specs.Prelude.{◌≡◌, ◌≤◌, ◌+◌, ◌-◌, ◌^◌, min, IfSome};
ghost use Rattle.process_flow.specs.Causes.{Rose};

use process_core::Piece;

/// What came of the work of a piece.
#[derive(Clone, Copy, Debug, PartialEq, Eq)]
pub enum Answer {
    Done,
    Refused,
}

/// Does the work of pieces, or refuses it. It is asked for forward steps and their undos, and for no end of a process.
pub trait Gate {
    ghost use Rattle.std.specs.Prelude.{ℕ};
    ghost use Rattle.std.specs.declared.option.Option.{Option};
    ghost use Rattle.machine_model.specs.Replies.{Handed};
    ghost use Rattle.process_engine.specs.declared.gates.Answer.{Answer};

    /// What gates of this type answer to a piece, where they tell it.
    ghost answers: { Handed → Option Answer };

    /// How many pieces it was asked to work on, or the last number of a counter.
    ghost asked: { Self → ℕ };

    /// How many of them it has refused, or the last number of a counter.
    ghost refusals: { Self → ℕ };

    /// Does the work of a piece, or refuses it.
    fn work(&mut self, piece: &Piece) -> Answer
        ensures told { IfSome (answers piece.now) (λ answer. result ≡ answer) }
        ensures asked { asked self.new ≡ min (asked self.old + 1) (2 ^ 64 - 1) }
        ensures later { refusals self.old ≤ refusals self.new }
        ensures counted { result ≡ Answer.Refused → Rose (refusals self.old) (refusals self.new) }
        ensures uncounted { result ≡ Answer.Done → refusals self.new ≡ refusals self.old };
}

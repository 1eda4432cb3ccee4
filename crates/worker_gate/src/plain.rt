// The plain gate.
ghost use Rattle.std.specs.Prelude.{◌≡◌, ◌≤◌, ◌+◌, ◌-◌, ◌^◌, min};
ghost use Rattle.worker_gate.specs.Gates.{plain_answer};

use process_core::Piece;
use process_engine::{Answer, Gate};
use std::marker::Model;

/// Refuses each piece as often as its step says, and does it then.
#[derive(Drop)]
pub struct PlainGate {
    calls: u64,
    refusals: u64,
}

impl Model for PlainGate {
    ghost use Rattle.worker_gate.specs.Gates.{PlainState};

    ghost Value = { PlainState };

    ghost view = { λ g. record { calls = g.calls; refusals = g.refusals } };
}

impl PlainGate {
    pub fn new() -> Self
        ensures { result ≡ record { calls = 0; refusals = 0 } }
    {
        PlainGate {
            calls: 0,
            refusals: 0,
        }
    }
}

impl Gate for PlainGate {
    ghost use Rattle.std.specs.Prelude.{Some};
    ghost use Rattle.worker_gate.specs.Gates.{plain_answer};

    ghost answers = { λ p. Some (plain_answer p) };

    ghost asked = { λ g. g.calls };

    ghost refusals = { λ g. g.refusals };

    fn work(&mut self, piece: &Piece) -> Answer
        ensures told { result ≡ plain_answer piece.now }
        ensures asked { self.new.calls ≡ min (self.old.calls + 1) (2 ^ 64 - 1) }
        ensures later { self.old.refusals ≤ self.new.refusals }
        ensures counted { result ≡ Answer.Refused → self.new.refusals ≡ min (self.old.refusals + 1) (2 ^ 64 - 1) }
        ensures uncounted { result ≡ Answer.Done → self.new.refusals ≡ self.old.refusals }
    {
        self.calls = self.calls.saturating_add(1);
        if piece.tried() < piece.refuse() {
            self.refusals = self.refusals.saturating_add(1);
            Answer::Refused
        } else {
            Answer::Done
        }
    }
}

// A gate that refuses the calls that it is told.
ghost use Rattle.std.specs.Prelude.{◌≡◌, ◌≤◌, ◌+◌, ◌-◌, ◌^◌, ◌↔◌, Contains, min};

use process_core::Piece;
use process_engine::{Answer, Gate};
use process_flow::is_listed;
use std::marker::Model;

/// Refuses the calls of the listed numbers, which count from 0, and does the work of all others.
#[derive(Drop)]
pub struct ScriptGate {
    refuse: Vec<u32>,
    calls: u64,
    refusals: u64,
}

impl Model for ScriptGate {
    ghost use Rattle.worker_gate.specs.Gates.{ScriptState};

    ghost Value = { ScriptState };

    ghost view = { λ g. record { refuse = g.refuse.items; calls = g.calls; refusals = g.refusals } };
}

impl ScriptGate {
    pub fn new(refuse: Vec<u32>) -> Self
        ensures { result ≡ record { refuse = refuse.items; calls = 0; refusals = 0 } }
    {
        ScriptGate {
            refuse,
            calls: 0,
            refusals: 0,
        }
    }
}

impl Gate for ScriptGate {
    ghost use Rattle.std.specs.Prelude.{None};

    ghost answers = { λ p. None };

    ghost asked = { λ g. g.calls };

    ghost refusals = { λ g. g.refusals };

    fn work(&mut self, piece: &Piece) -> Answer
        ensures refused { (result ≡ Answer.Refused) ↔ Contains self.old.refuse self.old.calls }
        ensures list { self.new.refuse ≡ self.old.refuse }
        ensures asked { self.new.calls ≡ min (self.old.calls + 1) (2 ^ 64 - 1) }
        ensures later { self.old.refusals ≤ self.new.refusals }
        ensures counted { result ≡ Answer.Refused → self.new.refusals ≡ min (self.old.refusals + 1) (2 ^ 64 - 1) }
        ensures uncounted { result ≡ Answer.Done → self.new.refusals ≡ self.old.refusals }
    {
        let _ = piece;
        let call = self.calls;
        self.calls = call.saturating_add(1);
        if is_listed(&self.refuse, call) {
            self.refusals = self.refusals.saturating_add(1);
            Answer::Refused
        } else {
            Answer::Done
        }
    }
}

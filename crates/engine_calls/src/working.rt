// Gates work on the pieces of a settled engine.
ghost use Rattle.std.specs.Prelude.{◌≡◌, ◌≢◌, ◌≤◌, ◌+◌, ◌-◌, ◌^◌, min, IfSome};
ghost use Rattle.process_flow.specs.Causes.{Rose};
ghost use Rattle.machine_model.specs.declared.kept.Work.TheVariants.{End};
ghost use Rattle.history_files.specs.Standing.{EachFits};
ghost use Rattle.engine_steps.specs.declared.engines.Phase.TheVariants as phase;
ghost use Rattle.engine_calls.specs.GateAnswers.{IsByGate, IsHandedAs, asked};
ghost use Rattle.engine_calls.specs.Runs.{EndsPiece, GoesOnAlone, IsReady};

use crate::finish;
use process_core::{Piece, Work};
use process_disk::Rack;
use process_engine::{Answer, Engine, Finish, Gate};
use resource_box::Resource;

/// What a gate answers to a piece; the end of a process asks no gate.
fn answer_of<G: Gate>(gate: &mut G, piece: &Piece) -> Answer
    ensures end { piece.now.piece.work ≡ End → result ≡ Answer.Done }
    ensures told { piece.now.piece.work ≢ End → IfSome (G.answers piece.now) (λ answer. result ≡ answer) }
    ensures unasked { piece.now.piece.work ≡ End → gate.new ≡ gate.old }
    ensures asked { piece.now.piece.work ≢ End → G.asked gate.new ≡ min (G.asked gate.old + 1) (2 ^ 64 - 1) }
    ensures later { G.refusals gate.old ≤ G.refusals gate.new }
    ensures counted { result ≡ Answer.Refused → Rose (G.refusals gate.old) (G.refusals gate.new) }
    ensures uncounted { result ≡ Answer.Done → G.refusals gate.new ≡ G.refusals gate.old }
{
    if let Work::End = piece.work() {
        return Answer::Done;
    }
    gate.work(piece)
}

/// A gate does the work of a piece, or refuses it, and the piece ends so. The end of a process asks no gate. After a fault of the
/// rack the engine is closed.
pub fn work<R: Rack + Drop, B: Resource, G: Gate>(
    engine: &mut Engine<R, B>,
    gate: &mut G,
    piece: Piece,
) -> Finish
    requires ready { IsReady B.Resource engine.old }
    requires handed { IsHandedAs engine.old.core piece }
    ensures ends { EndsPiece R.disk engine.old engine.new piece result }
    ensures fault { result ≡ Finish.DiskFault → Rose (R.faults engine.old.files.rack) (R.faults engine.new.files.rack) }
    ensures goes { GoesOnAlone R.Rack engine.old engine.new }
    ensures ready { result ≢ Finish.DiskFault → IsReady B.Resource engine.new }
    ensures fits { EachFits B.Resource engine.new.files.stores }
    ensures gate { IsByGate (asked G.Gate gate.old gate.new) engine.old.catalog engine.old.core engine.new.core }
    ensures unasked { piece.piece.work ≡ End → gate.new ≡ gate.old }
    ensures asked { piece.piece.work ≢ End → G.asked gate.new ≡ min (G.asked gate.old + 1) (2 ^ 64 - 1) }
{
    let answer = answer_of(gate, &piece);
    finish(engine, piece, answer)
}

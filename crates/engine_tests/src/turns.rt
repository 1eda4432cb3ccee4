// Turns: a piece is asked for, a gate does its work or refuses it, and the piece is finished.
ghost use Rattle.std.specs.Prelude.{◌≡◌, IfOk};
ghost use Rattle.machine_model.specs.declared.kept.Work.TheVariants.{End};
ghost use Rattle.process_core.specs.Cores.{IsHandedBy};
ghost use Rattle.engine_tests.specs.Ready.{IsReady};

use process_core::{Next, Piece, Work};
use process_disk::Rack;
use process_engine::{Closed, Engine, Finish, finish_piece};
use resource_box::Resource;
use worker_gate::{Answer, Gate};

/// What a turn comes to.
#[derive(Clone, Copy, Debug, PartialEq, Eq)]
pub enum Turn {
    /// The history has so many events then.
    Effected(u32),
    /// A piece was refused, and may be tried again; it was refused so often.
    Retry(u8),
    Failed,
    Exhausted,
    Over,
    Dropped(u32),
    DiskFault,
    NoMemory,
    Closed(u32),
    Wait,
    AllEnded,
    Stuck(u32),
}

fn turn_of(finish: &Finish) -> Turn {
    match finish {
        Finish::Effected(place) => Turn::Effected(*place),
        Finish::Retry(count) => Turn::Retry(*count),
        Finish::Failed => Turn::Failed,
        Finish::Exhausted => Turn::Exhausted,
        Finish::Over => Turn::Over,
        Finish::Dropped(event) => Turn::Dropped(*event),
        Finish::DiskFault => Turn::DiskFault,
        Finish::NoMemory(_) => Turn::NoMemory,
        Finish::Closed(count) => Turn::Closed(*count),
    }
}

// The work of a piece; an end asks no gate.
fn work<G: Gate>(gate: &mut G, piece: &Piece) -> Answer
    ensures { piece.now.piece.work ≡ End → result ≡ Answer.Done }
{
    match piece.work() {
        Work::End => Answer::Done,
        Work::Forward | Work::Undo => gate.work(piece),
    }
}

/// The next piece, or what a turn without one comes to.
pub fn next_piece<R: Rack + Drop, B: Resource>(engine: &mut Engine<R, B>) -> Result<Piece, Turn>
    requires ready { IsReady B.Resource engine.old }
    ensures ready { IsReady B.Resource engine.new }
    ensures handed { IfOk result (λ piece. IsHandedBy engine.new.core piece.piece) }
{
    let reply = engine.next();
    engine.invariant_holds();
    match reply {
        Ok(Next::Piece(piece)) => Ok(piece),
        Ok(Next::Wait(_)) => Err(Turn::Wait),
        Ok(Next::AllEnded) => Err(Turn::AllEnded),
        Ok(Next::Stuck(process)) => Err(Turn::Stuck(process)),
        Err(Closed(count)) => Err(Turn::Closed(count)),
    }
}

/// A gate works on a piece, which is finished then.
pub fn finish<R: Rack + Drop, B: Resource, G: Gate>(
    engine: &mut Engine<R, B>,
    gate: &mut G,
    piece: Piece,
) -> Turn
    requires ready { IsReady B.Resource engine.old }
    requires handed { IsHandedBy engine.old.core piece.piece }
    ensures { IsReady B.Resource engine.new }
{
    let answer = work(gate, &piece);
    turn_of(&finish_piece(engine, piece, answer))
}

/// One turn.
pub fn take_turn<R: Rack + Drop, B: Resource, G: Gate>(
    engine: &mut Engine<R, B>,
    gate: &mut G,
) -> Turn
    requires { IsReady B.Resource engine.old }
    ensures { IsReady B.Resource engine.new }
{
    match next_piece(engine) {
        Ok(piece) => finish(engine, gate, piece),
        Err(turn) => turn,
    }
}

/// Turns until all processes have ended, or so many at most.
pub fn take_turns<R: Rack + Drop, B: Resource, G: Gate>(
    engine: &mut Engine<R, B>,
    gate: &mut G,
    most: u32,
) -> Turn
    requires { IsReady B.Resource engine.old }
    ensures { IsReady B.Resource engine.new }
{
    for _ in 0..most {
        if let Turn::AllEnded = take_turn(engine, gate) {
            return Turn::AllEnded;
        }
    }
    Turn::Wait
}

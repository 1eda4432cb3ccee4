// Calls of a core by the numbers of processes and pieces.
ghost use Rattle.std.specs.Prelude.{◌≡◌, ◌<◌, length, IfSome};
ghost use Rattle.machine_model.specs.declared.replies.PieceState.TheVariants.{Out};
ghost use Rattle.machine_model.specs.Pieces.{state_of};
ghost use Rattle.process_core.specs.Cores.{IsHandedBy, moment_of};
ghost use Rattle.core_tests.specs.Pieces.{AreHandedBy, StayHanded};

use machine_model::{Blocked, Rule};
use process_core::{Aborted, Admit, Core, Next, Piece, PieceState, Refusal, Waiting, Work};
use std::process::Abort;

/// A call of a core.
#[derive(Clone, Copy, Debug, PartialEq, Eq)]
pub enum Call {
    /// A piece of this process is asked for.
    Admit(u32),
    /// Any piece is asked for.
    Next,
    /// This piece took effect.
    Done(u32),
    /// This piece was refused.
    Refused(u32),
    /// This process is asked to complete.
    Abort(u32),
    /// All are.
    CompleteAll,
}

/// What blocks a piece: a step of this process, that step, the piece's own, and the rule.
type Block = (u32, u16, u16, Rule);

/// What it answers.
#[derive(Clone, Copy, Debug, PartialEq, Eq)]
pub enum Answer {
    /// This piece: its number, its process, its step, and what it does.
    Piece(u32, u32, u16, Work),
    /// The same of a piece that was refused before, and how often.
    Again(u32, u32, u16, Work, u8),
    Blocked(u32, u16, u16, Rule),
    Running,
    Unknown,
    Ended,
    Exhausted(u16),
    /// Nothing is free while a piece runs, and nothing is blocked.
    Wait,
    /// The same, and this process is the first in rotation that is blocked.
    WaitFor(u32, Block),
    AllEnded,
    /// Nothing is free and nothing runs. The least process that is exhausted.
    Stuck(u32),
    /// The history has so many events then.
    Effected(u32),
    Refused(Refusal),
    /// An end isn't refused.
    NoRefusal,
    /// The piece was dropped at this kept event.
    Dropped(u32),
    Over,
    /// No such piece was handed out, or it came back before.
    NoPiece,
    Aborted(Aborted),
    AllComplete,
}

fn answer_of(piece: &Piece) -> Answer {
    let (number, process, step, work) = (
        piece.number(),
        piece.process(),
        piece.step(),
        piece.work(),
    );
    match piece.tried() {
        0 => Answer::Piece(number, process, step, work),
        tried => Answer::Again(number, process, step, work, tried),
    }
}

fn block_of(blocked: Blocked) -> Block {
    (blocked.on, blocked.other, blocked.own, blocked.rule)
}

fn blocked_by(blocked: Blocked) -> Answer {
    let (on, other, own, rule) = block_of(blocked);
    Answer::Blocked(on, other, own, rule)
}

fn wait_of(waiting: Option<Waiting>) -> Answer {
    match waiting {
        None => Answer::Wait,
        Some(first) => Answer::WaitFor(first.process, block_of(first.block)),
    }
}

// Asks for a piece of a process, and keeps it.
fn admitted(rt: &impl Abort, core: &mut Core, pieces: &mut Vec<Piece>, i: u32) -> Answer
    requires { AreHandedBy core.old pieces.old.items }
    ensures pieces { AreHandedBy core.new pieces.new.items }
    ensures conflicts { core.new.conflicts ≡ core.old.conflicts }
{
    let reply = core.admit(i);
    core.run_holds();
    match reply {
        Admit::Piece(piece) => {
            let answer = answer_of(&piece);
            let Ok(()) = pieces.push(piece) else {
                panic!(rt; "no memory");
            };
            answer
        }
        Admit::Blocked(block) => blocked_by(block),
        Admit::Running => Answer::Running,
        Admit::Unknown => Answer::Unknown,
        Admit::Ended => Answer::Ended,
        Admit::Exhausted(step) => Answer::Exhausted(step),
    }
}

// Asks for any piece, and keeps it.
fn chosen(rt: &impl Abort, core: &mut Core, pieces: &mut Vec<Piece>) -> Answer
    requires { AreHandedBy core.old pieces.old.items }
    ensures pieces { AreHandedBy core.new pieces.new.items }
    ensures conflicts { core.new.conflicts ≡ core.old.conflicts }
{
    let reply = core.next();
    core.run_holds();
    match reply {
        Next::Piece(piece) => {
            let answer = answer_of(&piece);
            let Ok(()) = pieces.push(piece) else {
                panic!(rt; "no memory");
            };
            answer
        }
        Next::Wait(waiting) => wait_of(waiting),
        Next::AllEnded => Answer::AllEnded,
        Next::Stuck(i) => Answer::Stuck(i),
    }
}

// The place of the piece of a number.
fn place_of(pieces: &[Piece], number: u32) -> Option<usize>
    ensures { IfSome result (λ place. place < length pieces.now) }
{
    for place in 0..pieces.len() {
        if pieces[place].number() == number {
            return Some(place);
        }
    }
    None
}

// The piece of a number comes back.
fn take_back(core: &Core, pieces: &mut Vec<Piece>, number: u32) -> Option<Piece>
    requires { AreHandedBy core.now pieces.old.items }
    ensures piece { IfSome result (λ piece. IsHandedBy core.now piece.piece) }
    ensures pieces { AreHandedBy core.now pieces.new.items }
{
    let place = place_of(pieces, number)?;
    Some(pieces.remove(place))
}

// A piece is refused, if it is no end.
fn refused(core: &mut Core, piece: Piece) -> Answer
    requires handed { IsHandedBy core.old piece.piece }
    requires out { state_of (moment_of core.old) piece.piece.number ≡ Out }
    ensures pieces { StayHanded core.old core.new }
    ensures conflicts { core.new.conflicts ≡ core.old.conflicts }
{
    match piece.work() {
        Work::End => Answer::NoRefusal,
        Work::Forward | Work::Undo => Answer::Refused(core.refused(piece)),
    }
}

// A piece takes effect or is refused, if it is out.
fn finished(core: &mut Core, pieces: &mut Vec<Piece>, number: u32, is_done: bool) -> Answer
    requires { AreHandedBy core.old pieces.old.items }
    ensures pieces { AreHandedBy core.new pieces.new.items }
    ensures conflicts { core.new.conflicts ≡ core.old.conflicts }
{
    let Some(piece) = take_back(core, pieces, number) else {
        return Answer::NoPiece;
    };
    match core.state(&piece) {
        PieceState::Out if is_done => Answer::Effected(core.effected(piece)),
        PieceState::Out => refused(core, piece),
        PieceState::Dropped(event) => Answer::Dropped(event),
        PieceState::Over => Answer::Over,
    }
}

/// What a call answers.
pub fn reply_to(rt: &impl Abort, core: &mut Core, pieces: &mut Vec<Piece>, call: Call) -> Answer
    requires { AreHandedBy core.old pieces.old.items }
    ensures pieces { AreHandedBy core.new pieces.new.items }
    ensures conflicts { core.new.conflicts ≡ core.old.conflicts }
{
    match call {
        Call::Admit(i) => admitted(rt, core, pieces, i),
        Call::Next => chosen(rt, core, pieces),
        Call::Done(number) => finished(core, pieces, number, true),
        Call::Refused(number) => finished(core, pieces, number, false),
        Call::Abort(i) => Answer::Aborted(core.abort(i)),
        Call::CompleteAll => {
            core.complete_all();
            Answer::AllComplete
        }
    }
}

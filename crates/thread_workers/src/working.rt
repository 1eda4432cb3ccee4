// A worker's piece: its gate works on it outside of any turn, and a turn queues it.
ghost use Rattle.std.specs.Prelude.{◌≡◌, ℕ, IfErr, IfOk, IfSome, Option};
ghost use Rattle.machine_model.specs.declared.kept.Work.TheVariants.{End};
ghost use Rattle.machine_model.specs.Replies.{Handed};
ghost use Rattle.process_engine.specs.declared.gates.Answer.{Answer as Answer'};
ghost use Rattle.engine_calls.specs.GateAnswers.{GateCounts, counts_of};
ghost use Rattle.history_lock.specs.Seats.{IsOf, opening, places, share};
ghost use Rattle.shared_engine.specs.declared.entries.TurnEntry.TheVariants as entry;
ghost use Rattle.shared_engine.specs.Entries.{flush_said};
ghost use Rattle.shared_engine.specs.Outcomes.{HandsBack, queue_entry};
ghost use Rattle.shared_engine.specs.Seats.{HasOpened, knowledge};
ghost use Rattle.shared_engine.specs.Tallies.{IsAnswerTo};
ghost use Rattle.thread_workers.specs.Workers.{HasAnswered, HasGot, HasStopped, Stops, WorkerKnows, asks_for};

use history_lock::{Desk, Seat};
use process_core::{Piece, Work};
use process_disk::Rack;
use process_engine::{Answer, Flush, Gate, Queue};
use resource_box::Resource;
use shared_engine::{QueueTurn, SharedEngine, hand_in, hand_in_again};
use std::sync::Wait;
use worker_gate::RunOutcome;

// What came of the work of a piece; the end of a process asks no gate.
fn answer_to<G: Gate>(gate: &mut G, piece: &Piece) -> Answer
    ensures told { IsAnswerTo G.answers piece.now result }
    ensures counts { HasAnswered piece.now result (counts_of G.Gate gate.old) (counts_of G.Gate gate.new) }
{
    if let Work::End = piece.work() {
        return Answer::Done;
    }
    gate.work(piece)
}

// Why a worker stops after the queueing of a piece, if it does. A piece that found no memory is let go, and stays out.
fn failure(reply: &Queue, starved: bool) -> Option<RunOutcome>
    ensures { (n : ℕ) (a : Answer') → IfSome result (λ o. Stops o (queue_entry n a reply.now)) }
{
    match reply {
        Queue::Closed(_) => Some(RunOutcome::DiskFault),
        Queue::NoMemory(_) => Some(RunOutcome::NoMemory),
        _ => if starved {
            Some(RunOutcome::NoMemory)
        } else {
            None
        },
    }
}

/// Why a worker stops after a flush, if it does.
pub fn flush_failure(reply: &Flush) -> Option<RunOutcome>
    ensures { IfSome result (λ o. Stops o (entry.Flush (flush_said reply.now))) }
{
    match reply {
        Flush::Flushed(_) => None,
        Flush::DiskFault | Flush::Closed(_) => Some(RunOutcome::DiskFault),
    }
}

// A piece whose work is done, and that found the group full, is queued again: after a flush, if one is due. Says whether the worker
// stops, where that flush failed.
fn try_again<H: Wait, R: Rack + Drop, B: Resource>(
    rt: &H,
    desk: &Desk<SharedEngine<R, B>>,
    seat: Seat<SharedEngine<R, B>>,
    piece: Piece,
) -> (Seat<SharedEngine<R, B>>, Result<Queue, RunOutcome>)
    requires desk { IsOf desk.now seat }
    requires opened { HasOpened R.disk B.Resource (knowledge seat) }
    requires handed { HasGot piece (knowledge seat) }
    ensures desk { IsOf desk.now result.0 }
    ensures keeps { (opening result.0 ≡ opening seat) × (share result.0 ≡ share seat) }
    ensures handed { HasGot piece (knowledge result.0) }
    ensures knows { (answers : Handed → Option Answer') → IsAnswerTo answers piece Answer.Done → (begun now : GateCounts)
        → WorkerKnows R.disk B.Resource answers 0 begun now (knowledge seat)
        → WorkerKnows R.disk B.Resource answers 0 begun now (knowledge result.0) }
    ensures back { IfOk result.1 (HandsBack piece Answer.Done) }
    ensures queued { IfOk result.1 (λ reply. (o : RunOutcome) → Stops o (queue_entry piece.piece.number Answer.Done reply)
        → HasStopped o (places result.0)) }
    ensures stopped { IfErr result.1 (λ o. HasStopped o (places result.0)) }
{
    let (seat, reply) = hand_in_again(rt, desk, seat, piece);
    match reply {
        QueueTurn::Answered(reply) => (seat, Ok(reply)),
        QueueTurn::Flushed(reply, piece) => match flush_failure(&reply) {
            Some(outcome) => (seat, Err(outcome)),
            None => {
                let (seat, reply) = hand_in(rt, desk, seat, piece, Answer::Done);
                (seat, Ok(reply))
            }
        },
    }
}

// A piece whose work is done, and that found the group full, is queued as soon as it has a place. Says whether the worker stops
// then.
fn hand_in_late<H: Wait, R: Rack + Drop, B: Resource>(
    rt: &H,
    desk: &Desk<SharedEngine<R, B>>,
    seat: Seat<SharedEngine<R, B>>,
    piece: Piece,
    starved: bool,
) -> (Seat<SharedEngine<R, B>>, Option<RunOutcome>)
    requires desk { IsOf desk.now seat }
    requires opened { HasOpened R.disk B.Resource (knowledge seat) }
    requires handed { HasGot piece (knowledge seat) }
    ensures desk { IsOf desk.now result.0 }
    ensures keeps { (opening result.0 ≡ opening seat) × (share result.0 ≡ share seat) }
    ensures knows { (answers : Handed → Option Answer') → IsAnswerTo answers piece Answer.Done → (begun now : GateCounts)
        → WorkerKnows R.disk B.Resource answers 0 begun now (knowledge seat)
        → WorkerKnows R.disk B.Resource answers 0 begun now (knowledge result.0) }
    ensures stopped { IfSome result.1 (λ o. HasStopped o (places result.0)) }
{
    let mut seat = seat;
    let mut piece = piece;
    for _ in rt.forever() {
        let (after, reply) = try_again(rt, desk, seat, piece);
        seat = after;
        match reply {
            Ok(Queue::Full(back)) => piece = back,
            Ok(reply) => return (seat, failure(&reply, starved)),
            Err(outcome) => return (seat, Some(outcome)),
        }
    }
    unreachable!()
}

/// A gate works on a piece, or refuses it, and the piece is queued so. Says whether the worker stops then, as it does too where
/// memory was lacking before.
pub fn work<H: Wait, R: Rack + Drop, B: Resource, G: Gate>(
    rt: &H,
    desk: &Desk<SharedEngine<R, B>>,
    seat: Seat<SharedEngine<R, B>>,
    gate: &mut G,
    piece: Piece,
    starved: bool,
) -> (Seat<SharedEngine<R, B>>, Option<RunOutcome>)
    requires desk { IsOf desk.now seat }
    requires opened { HasOpened R.disk B.Resource (knowledge seat) }
    requires handed { HasGot piece (knowledge seat) }
    ensures desk { IsOf desk.now result.0 }
    ensures keeps { (opening result.0 ≡ opening seat) × (share result.0 ≡ share seat) }
    ensures knows { (begun : GateCounts)
        → WorkerKnows R.disk B.Resource G.answers (asks_for piece) begun (counts_of G.Gate gate.old) (knowledge seat)
        → WorkerKnows R.disk B.Resource G.answers 0 begun (counts_of G.Gate gate.new) (knowledge result.0) }
    ensures stopped { IfSome result.1 (λ o. HasStopped o (places result.0)) }
{
    let answer = answer_to(gate, &piece);
    let (seat, reply) = hand_in(rt, desk, seat, piece, answer);
    match reply {
        Queue::Full(piece) => hand_in_late(rt, desk, seat, piece, starved),
        reply => (seat, failure(&reply, starved)),
    }
}

// The rounds of one worker.
ghost use Rattle.std.specs.Prelude.{◌≡◌, IfSome};
ghost use Rattle.engine_calls.specs.GateAnswers.{GateCounts, counts_of};
ghost use Rattle.history_lock.specs.Seats.{IsOf, opening, places, share};
ghost use Rattle.shared_engine.specs.Seats.{HasOpened, knowledge};
ghost use Rattle.thread_workers.specs.Workers.{HasStopped, WorkerKnows};

use crate::working::{flush_failure, work};
use history_lock::{Desk, Seat};
use process_core::Next;
use process_disk::Rack;
use process_engine::{Closed, Gate};
use resource_box::Resource;
use shared_engine::{NextTurn, Pause, SharedEngine, ask};
use std::sync::Wait;
use worker_gate::RunOutcome;

// Sleeps until there is a change, unless a flush is due; or stops where memory was lacking.
fn rest<H: Wait, R: Rack + Drop, B: Resource>(
    rt: &H,
    desk: &Desk<SharedEngine<R, B>>,
    pause: Pause,
) -> Option<RunOutcome>
    ensures { IfSome result (λ o. o ≡ RunOutcome.NoMemory) }
{
    if pause.starved {
        return Some(RunOutcome::NoMemory);
    }
    if !pause.due {
        desk.wait_for_change(rt, pause.changes);
    }
    None
}

// One round, and why it was the last, if it was; and whether the worker was told to wait, as it may have been in the round before.
fn round<H: Wait, R: Rack + Drop, B: Resource, G: Gate>(
    rt: &H,
    desk: &Desk<SharedEngine<R, B>>,
    seat: Seat<SharedEngine<R, B>>,
    gate: &mut G,
    waited: bool,
) -> (Seat<SharedEngine<R, B>>, Option<RunOutcome>, bool)
    requires desk { IsOf desk.now seat }
    requires opened { HasOpened R.disk B.Resource (knowledge seat) }
    ensures desk { IsOf desk.now result.0 }
    ensures keeps { (opening result.0 ≡ opening seat) × (share result.0 ≡ share seat) }
    ensures knows { (begun : GateCounts)
        → WorkerKnows R.disk B.Resource G.answers 0 begun (counts_of G.Gate gate.old) (knowledge seat)
        → WorkerKnows R.disk B.Resource G.answers 0 begun (counts_of G.Gate gate.new) (knowledge result.0) }
    ensures stopped { IfSome result.1 (λ o. HasStopped o (places result.0)) }
{
    let (seat, reply, pause) = ask(rt, desk, seat, waited);
    match reply {
        NextTurn::Flushed(reply) => (seat, flush_failure(&reply), false),
        NextTurn::Answered(Ok(Next::Piece(piece))) => {
            let (seat, ended) = work(rt, desk, seat, gate, piece, pause.starved);
            (seat, ended, false)
        }
        NextTurn::Answered(Ok(Next::Wait(_))) => (seat, rest(rt, desk, pause), true),
        NextTurn::Answered(Ok(Next::AllEnded)) => (seat, Some(RunOutcome::AllEnded), false),
        NextTurn::Answered(Ok(Next::Stuck(process))) => (
            seat,
            Some(RunOutcome::Stuck(process)),
            false,
        ),
        NextTurn::Answered(Err(Closed(_))) => (seat, Some(RunOutcome::DiskFault), false),
    }
}

/// Rounds until the last, and why that was the last.
pub fn rounds<H: Wait, R: Rack + Drop, B: Resource, G: Gate>(
    rt: &H,
    desk: &Desk<SharedEngine<R, B>>,
    seat: Seat<SharedEngine<R, B>>,
    gate: &mut G,
) -> (Seat<SharedEngine<R, B>>, RunOutcome)
    requires desk { IsOf desk.now seat }
    requires knows { WorkerKnows R.disk B.Resource G.answers 0 (counts_of G.Gate gate.old) (counts_of G.Gate gate.old)
        (knowledge seat) }
    ensures desk { IsOf desk.now result.0 }
    ensures keeps { (opening result.0 ≡ opening seat) × (share result.0 ≡ share seat) }
    ensures knows { WorkerKnows R.disk B.Resource G.answers 0 (counts_of G.Gate gate.old) (counts_of G.Gate gate.new)
        (knowledge result.0) }
    ensures stopped { HasStopped result.1 (places result.0) }
{
    let mut seat = seat;
    let mut waited = false;
    for _ in rt.forever() {
        let (after, ended, waits) = round(rt, desk, seat, gate, waited);
        seat = after;
        waited = waits;
        if let Some(outcome) = ended {
            return (seat, outcome);
        }
    }
    unreachable!()
}

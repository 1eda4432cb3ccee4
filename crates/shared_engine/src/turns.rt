// The turns of a thread at a shared engine.
ghost use Rattle.std.specs.Prelude.{◌≡◌, ◌+◌, [], ◌∷◌, ◌++◌, length, Some, IfSome};
ghost use Rattle.machine_model.specs.declared.kept.Work.TheVariants.{End};
ghost use Rattle.history_lock.specs.Seats.{IsOf, desk_of, opening, places, seen, share};
ghost use Rattle.history_lock.specs.Turns.{desk_at, history, opening_at, places_at, share_at, state_at};
ghost use Rattle.engine_calls.specs.GateAnswers.{IsHandedAs};
ghost use Rattle.shared_engine.specs.Outcomes.{HandsBack, HandsBackAgain, IsGivenBy, next_entry, queue_entry, queue_entry_again};
ghost use Rattle.shared_engine.specs.Seats.{HasAdded, HasOpened, core_at, knowledge};
ghost use Rattle.shared_engine.specs.Shared.{IsOpening};

use crate::outcomes::{NextTurn, QueueTurn, queue_entry};
use crate::shared::SharedEngine;
use history_lock::{Desk, Held, Seat, Turn};
use process_core::Piece;
use process_disk::Rack;
use process_engine::{Answer, Queue};
use resource_box::Resource;
use std::sync::Wait;

/// What a thread goes by that is told to wait.
#[derive(Clone, Copy)]
pub struct Pause {
    /// How many changes were announced at the desk before this turn.
    pub changes: u64,
    /// A flush is due: whoever is told to wait makes it, and doesn't wait.
    pub due: bool,
    /// The queueing of a piece has found no memory: nobody is to wait any more.
    pub starved: bool,
}

// Ends a turn with its entry. Where it may have changed what comes next, whoever waits at the desk for a change is woken.
fn end<'a, S: Held>(turn: Turn<'a, S>, entry: S::Entry, changes: bool) -> Seat<S>
    requires { IfSome (opening_at turn) (λ o. S.stands_for o (history turn ++ entry ∷ []) (state_at turn)) }
    ensures desk { desk_of result ≡ desk_at turn.entry }
    ensures keeps { (opening result ≡ opening_at turn.entry) × (share result ≡ share_at turn.entry) }
    ensures seen { seen result ≡ history turn.entry ++ entry ∷ [] }
    ensures places { places result ≡ places_at turn.entry ++ (length (history turn.entry) + 1, entry) ∷ [] }
{
    if changes {
        turn.done_with_change(entry)
    } else {
        turn.done(entry)
    }
}

/// A turn for a request for any piece. Where the thread was told to wait in its last turn, a flush that is due is made in its
/// place, and whoever waits at the desk for a change is woken.
pub fn ask<H: Wait, R: Rack + Drop, B: Resource>(
    rt: &H,
    desk: &Desk<SharedEngine<R, B>>,
    seat: Seat<SharedEngine<R, B>>,
    waited: bool,
) -> (Seat<SharedEngine<R, B>>, NextTurn, Pause)
    requires desk { IsOf desk.now seat }
    requires opened { HasOpened R.disk B.Resource (knowledge seat) }
    ensures desk { IsOf desk.now result.0 }
    ensures turn { HasAdded (next_entry result.1) (knowledge seat) (knowledge result.0) }
    ensures given { (o : SharedEngine R B) → opening seat ≡ Some o → IsOpening R.disk B.Resource o
        → IsGivenBy (core_at o.engine (seen result.0)) result.1 }
{
    let mut turn = desk.turn(rt, seat);
    let changes = turn.changes();
    let (reply, due, starved) = turn.state().ask(waited);
    let entry = reply.entry();
    let flushed = reply.is_flush();
    let pause = Pause {
        changes,
        due,
        starved,
    };
    (end(turn, entry, flushed), reply, pause)
}

/// A turn for the queueing of a piece that was handed out in an earlier turn, by what came of its work. Where it may have changed
/// what comes next, whoever waits at the desk for a change is woken.
pub fn hand_in<H: Wait, R: Rack + Drop, B: Resource>(
    rt: &H,
    desk: &Desk<SharedEngine<R, B>>,
    seat: Seat<SharedEngine<R, B>>,
    piece: Piece,
    answer: Answer,
) -> (Seat<SharedEngine<R, B>>, Queue)
    requires desk { IsOf desk.now seat }
    requires opened { HasOpened R.disk B.Resource (knowledge seat) }
    requires handed { (o : SharedEngine R B) → opening seat ≡ Some o → IsHandedAs (core_at o.engine (seen seat)) piece }
    requires end { piece.piece.work ≡ End → answer ≡ Answer.Done }
    ensures desk { IsOf desk.now result.0 }
    ensures turn { HasAdded (queue_entry piece.piece.number answer result.1) (knowledge seat) (knowledge result.0) }
    ensures back { HandsBack piece answer result.1 }
{
    let number = piece.number();
    let mut turn = desk.turn(rt, seat);
    let reply = turn.state().hand_in(piece, answer);
    let entry = queue_entry(number, answer, &reply);
    let changes = changes_what_comes(&reply);
    (end(turn, entry, changes), reply)
}

/// The same for a piece whose work is done, and for which the group was full in the thread's last turn. A flush that is due is made
/// in its place.
pub fn hand_in_again<H: Wait, R: Rack + Drop, B: Resource>(
    rt: &H,
    desk: &Desk<SharedEngine<R, B>>,
    seat: Seat<SharedEngine<R, B>>,
    piece: Piece,
) -> (Seat<SharedEngine<R, B>>, QueueTurn)
    requires desk { IsOf desk.now seat }
    requires opened { HasOpened R.disk B.Resource (knowledge seat) }
    requires handed { (o : SharedEngine R B) → opening seat ≡ Some o → IsHandedAs (core_at o.engine (seen seat)) piece }
    ensures desk { IsOf desk.now result.0 }
    ensures turn { HasAdded (queue_entry_again piece.piece.number result.1) (knowledge seat) (knowledge result.0) }
    ensures back { HandsBackAgain piece result.1 }
{
    let number = piece.number();
    let mut turn = desk.turn(rt, seat);
    let reply = turn.state().hand_in_again(piece);
    let entry = reply.entry(number);
    let changes = match &reply {
        QueueTurn::Flushed(_, _) => true,
        QueueTurn::Answered(reply) => changes_what_comes(reply),
    };
    (end(turn, entry, changes), reply)
}

// Whether the queueing of a piece may have changed what comes next, or found no memory. A piece that is queued still runs, and
// whoever found the group full makes the next turn.
fn changes_what_comes(reply: &Queue) -> bool {
    !matches!(reply, Queue::Queued | Queue::Full(_))
}

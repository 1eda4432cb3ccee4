// Plays: calls of a core on which processes have started, and what comes of them.
ghost use Rattle.std.specs.Prelude.{◌≡◌};
ghost use Rattle.core_tests.specs.Pieces.{AreHandedBy};

use crate::calls::{Answer, Call, reply_to};
use crate::starts::{catalog, started};
use process_core::{Began, Cause, Core, Piece, Work};
use process_tree::Entry;
use schedule_model::Event;
use std::alloc::Global;
use std::process::Abort;

/// What happens in a play.
#[derive(Clone, Copy, Debug, PartialEq, Eq)]
pub enum Happens {
    Start(u32),
    /// This process does this step, which has this operation and this key.
    Do(u32, u16, u16, u32),
    /// It undoes it.
    Undo(u32, u16, u16, u32),
    End(u32),
}

pub struct Play {
    pub name: &'static str,
    /// The processes that start, in this order.
    pub texts: &'static [&'static [u8]],
    /// The first calls, each with its answer.
    pub opening: &'static [(Call, Answer)],
    /// Those after it.
    pub turns: &'static [(Call, Answer)],
    /// The history after these.
    pub events: &'static [Happens],
    /// At which kept event and why these processes began to complete, if they did.
    pub began: &'static [(u32, Option<(u32, Cause)>)],
}

/// An opening: each of two processes does its first step.
pub const FIRST_STEPS: &[(Call, Answer)] = &[
    (Call::Admit(1), Answer::Piece(1, 1, 0, Work::Forward)),
    (Call::Done(1), Answer::Effected(3)),
    (Call::Admit(2), Answer::Piece(2, 2, 0, Work::Forward)),
    (Call::Done(2), Answer::Effected(4)),
];

fn act(process: u32, step: u16, op: u16, key: u32, undo: bool) -> Event {
    Event::Act(Entry {
        process,
        step,
        op,
        key,
        undo,
    })
}

fn event_of(happens: Happens) -> Event {
    match happens {
        Happens::Start(i) => Event::Start(i),
        Happens::Do(i, step, op, key) => act(i, step, op, key, false),
        Happens::Undo(i, step, op, key) => act(i, step, op, key, true),
        Happens::End(i) => Event::End(i),
    }
}

// Each call has its answer, with these pieces out.
fn expect_turns<H: Abort>(
    rt: &H,
    core: &mut Core,
    pieces: &mut Vec<Piece>,
    name: &str,
    turns: &[(Call, Answer)],
)
    requires { AreHandedBy core.old pieces.old.items }
    ensures pieces { AreHandedBy core.new pieces.new.items }
    ensures conflicts { core.new.conflicts ≡ core.old.conflicts }
{
    for (turn, (call, wanted)) in turns.iter().enumerate() {
        let answered = reply_to(rt, core, pieces, *call);
        assert_eq!(rt; answered, *wanted, "{name}, turn {turn}: {call:?}");
    }
}

/// Each call has its answer, those of an opening and then these.
pub fn expect_answers<H: Abort>(
    rt: &H,
    alloc: Global,
    core: &mut Core,
    name: &str,
    opening: &[(Call, Answer)],
    turns: &[(Call, Answer)],
)
    ensures { core.new.conflicts ≡ core.old.conflicts }
{
    let mut pieces = Vec::new(alloc);
    expect_turns(rt, core, &mut pieces, name, opening);
    expect_turns(rt, core, &mut pieces, name, turns);
}

fn expect_history<H: Abort>(rt: &H, core: &Core, play: &Play) {
    let events = core.history().events.as_slice();
    assert_eq!(rt; events.len(), play.events.len(), "{}", play.name);
    for (event, wanted) in events.iter().zip(play.events) {
        assert_eq!(rt; *event, event_of(*wanted), "{}", play.name);
    }
}

fn beginning_of(began: Option<Began>) -> Option<(u32, Cause)> {
    let Began { event, cause } = began?;
    Some((event, cause))
}

fn expect_beginnings<H: Abort>(rt: &H, core: &Core, play: &Play) {
    for (i, wanted) in play.began {
        let began = beginning_of(core.began(*i));
        assert_eq!(rt; began, *wanted, "{}", play.name);
    }
}

// The play goes as it should.
fn expect_play<H: Abort>(rt: &H, alloc: Global, play: &Play) {
    let catalog = catalog(rt, alloc);
    let mut core = started(rt, alloc, &catalog, play.texts);
    expect_answers(rt, alloc, &mut core, play.name, play.opening, play.turns);
    expect_history(rt, &core, play);
    expect_beginnings(rt, &core, play);
}

/// So do all of these.
pub fn expect_plays<H: Abort>(rt: &H, alloc: Global, plays: &[Play]) {
    for play in plays {
        expect_play(rt, alloc, play);
    }
}

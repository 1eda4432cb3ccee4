// Pieces that are queued and take effect together: what each queueing and flush says, and stops within each device call of a flush.
ghost use Rattle.std.specs.Prelude.{◌≡◌, []};
ghost use Rattle.history_files.specs.Boxes.{AreBoxes};
ghost use Rattle.engine_calls.specs.GateAnswers.{IsGiven};
ghost use Rattle.engine_calls.specs.Runs.{IsReady as IsReadyToRun};
ghost use Rattle.engine_tests.specs.Ready.{IsReady, MayQueue};

use crate::beginnings::{created, start_all};
use crate::flush_rows::{GROUPS, IDLE, Line, Row, Said};
use crate::stops::{Around, Whole, expect_calls, short, whole_of};
use crate::turns::take_turn;
use engine_calls::{abort, flush, next, queue};
use process_core::{Aborted, Next};
use process_disk::{MemoryRack, Rack};
use process_engine::{Answer, Engine, Flush, Group, GroupEnd, Parts, Queue, Queued};
use resource_box::Resource;
use std::alloc::Global;
use std::process::Abort;
use worker_gate::PlainGate;

fn said_of(reply: &Queue) -> Said {
    match reply {
        Queue::Queued => Said::Queued,
        Queue::Full(piece) => Said::Full(piece.number()),
        _ => Said::Else,
    }
}

// Any piece is asked for.
fn ask<R: Rack + Drop, B: Resource>(engine: &mut Engine<R, B>, queued: &Queued) -> Next
    requires { MayQueue B.Resource engine.old queued.now }
    ensures queue { MayQueue B.Resource engine.new queued.now }
    ensures given { IsGiven engine.new.core result }
{
    let reply = next(engine);
    reply
}

// The next piece is done and queued, which keeps nothing.
fn queue_next<H: Abort, R: Rack + Drop, B: Resource>(
    rt: &H,
    engine: &mut Engine<R, B>,
    queued: &mut Queued,
) -> Said
    requires { MayQueue B.Resource engine.old queued.old }
    ensures { MayQueue B.Resource engine.new queued.new }
{
    let Next::Piece(piece) = ask(engine, queued) else {
        panic!(rt; "no piece");
    };
    let kept = engine.kept().len();
    let reply = queue(engine, queued, piece, Answer::Done);
    assert_eq!(rt; engine.kept().len(), kept);
    said_of(&reply)
}

// A process is asked to complete.
fn complete<H: Abort, R: Rack + Drop, B: Resource>(
    rt: &H,
    engine: &mut Engine<R, B>,
    queued: &Queued,
    i: u32,
)
    requires { MayQueue B.Resource engine.old queued.now }
    ensures { MayQueue B.Resource engine.new queued.now }
{
    let answer = abort(engine, i);
    assert_eq!(rt; answer, Aborted::Ok);
}

fn expect_ends<H: Abort>(rt: &H, group: &Group, wanted: &[(u32, GroupEnd)], name: &str) {
    assert_eq!(rt; usize::from(group.len()), wanted.len(), "{name}");
    for n in 0..group.len() {
        assert_eq!(rt; Some(&group.at(n)), wanted.get(usize::from(n)), "{name}");
    }
}

// What is queued takes effect.
fn expect_flush<H: Abort, R: Rack + Drop, B: Resource>(
    rt: &H,
    engine: &mut Engine<R, B>,
    queued: &mut Queued,
    wanted: &[(u32, GroupEnd)],
    name: &str,
)
    requires { MayQueue B.Resource engine.old queued.old }
    ensures { MayQueue B.Resource engine.new queued.new }
{
    let Flush::Flushed(group) = flush(engine, queued) else {
        panic!(rt; "not flushed");
    };
    expect_ends(rt, &group, wanted, name);
}

fn expect_line<H: Abort, R: Rack + Drop, B: Resource>(
    rt: &H,
    engine: &mut Engine<R, B>,
    queued: &mut Queued,
    line: &Line,
    name: &str,
)
    requires { MayQueue B.Resource engine.old queued.old }
    ensures { MayQueue B.Resource engine.new queued.new }
{
    match line {
        Line::Queue(wanted) => {
            let said = queue_next(rt, engine, queued);
            assert_eq!(rt; said, *wanted, "{name}");
        }
        Line::Abort(i) => complete(rt, engine, queued, *i),
        Line::Flush(ends) => expect_flush(rt, engine, queued, ends, name),
    }
}

// The engine isn't closed.
fn expect_open<H: Abort, R: Rack + Drop, B: Resource>(rt: &H, engine: &Engine<R, B>)
    requires { IsReady B.Resource engine.now }
    ensures { IsReadyToRun B.Resource engine.now }
{
    let Ok(()) = engine.not_closed() else {
        panic!(rt; "closed");
    };
}

// So many turns.
fn after_turns<R: Rack + Drop, B: Resource>(engine: Engine<R, B>, turns: usize) -> Engine<R, B>
    requires { IsReady B.Resource engine }
    ensures { IsReady B.Resource result }
{
    let mut engine = engine;
    for _ in 0..turns {
        take_turn(&mut engine, &mut PlainGate::new());
    }
    engine
}

// The processes of a row have started, and some have taken a turn.
fn started<H: Abort, B: Resource>(
    rt: &H,
    alloc: Global,
    row: &Row,
    resources: Vec<B>,
) -> Engine<MemoryRack, B>
    requires { AreBoxes B.sort resources.items }
    ensures { IsReady B.Resource result }
{
    let engine = created(rt, alloc, resources);
    let engine = start_all(rt, alloc, engine, row.ahead);
    let engine = after_turns(engine, row.ahead.len());
    start_all(rt, alloc, engine, row.beside)
}

// These lines are played at an engine where nothing is queued.
fn play<H: Abort, R: Rack + Drop, B: Resource>(
    rt: &H,
    engine: &mut Engine<R, B>,
    queued: &mut Queued,
    row: &Row,
    lines: &[Line],
)
    requires ready { IsReady B.Resource engine.old }
    requires none { queued.old ≡ [] }
    ensures { MayQueue B.Resource engine.new queued.new }
{
    expect_open(rt, engine);
    for line in lines {
        expect_line(rt, engine, queued, line, row.name);
    }
}

// The engine behind these lines.
fn played<H: Abort, B: Resource>(
    rt: &H,
    alloc: Global,
    row: &Row,
    lines: &[Line],
    resources: Vec<B>,
) -> Engine<MemoryRack, B>
    requires { AreBoxes B.sort resources.items }
    ensures { IsReadyToRun B.Resource result }
{
    let Ok(mut queued) = Queued::new(alloc) else {
        panic!(rt; "no memory");
    };
    let mut engine = started(rt, alloc, row, resources);
    play(rt, &mut engine, &mut queued, row, lines);
    engine
}

// How many device calls come before the last line; the boxes are handed back.
fn calls_before<H: Abort, B: Resource>(
    rt: &H,
    alloc: Global,
    row: &Row,
    resources: Vec<B>,
) -> (u32, Vec<B>)
    requires { AreBoxes B.sort resources.items }
    ensures { AreBoxes B.sort result.1.items }
{
    let Some((_, before)) = row.lines.split_last() else {
        panic!(rt; "no line");
    };
    let engine = played(rt, alloc, row, before, resources);
    let Parts { rack, resources } = engine.into_parts();
    (short(rt, rack.calls()), resources)
}

// All lines of a row; the boxes are handed back.
fn whole_row<H: Abort, B: Resource>(
    rt: &H,
    alloc: Global,
    row: &Row,
    resources: Vec<B>,
) -> (Whole, Vec<B>)
    requires { AreBoxes B.sort resources.items }
    ensures { AreBoxes B.sort result.1.items }
{
    let (made, resources) = calls_before(rt, alloc, row, resources);
    let engine = played(rt, alloc, row, row.lines, resources);
    whole_of(rt, alloc, engine, made)
}

// Stops within each device call of the last line of a row.
fn expect_row<H: Abort, B: Resource>(rt: &H, alloc: Global, row: &Row, resources: Vec<B>) -> Vec<B>
    requires { AreBoxes B.sort resources.items }
    ensures { AreBoxes B.sort result.items }
{
    let (whole, resources) = whole_row(rt, alloc, row, resources);
    let with = whole.events.len();
    let around = Around {
        before: with.wrapping_sub(row.size),
        with,
    };
    let (next, resources) = expect_calls(
        rt, alloc, &whole, whole.made, around, row.lefts, resources,
    );
    assert_eq!(rt; u64::from(next), whole.rack.calls(), "{}", row.name);
    resources
}

// Stops within each device call of the last line of these rows.
fn expect_rows<H: Abort, B: Resource>(rt: &H, alloc: Global, rows: &[Row], resources: Vec<B>)
    requires { AreBoxes B.sort resources.items }
{
    let mut resources = resources;
    for row in rows {
        resources = expect_row(rt, alloc, row, resources);
    }
}

/// A stop within any device call of a flush leaves the history before or with the whole group.
pub fn expect_groups<H: Abort, B: Resource>(rt: &H, alloc: Global, resources: Vec<B>)
    requires { AreBoxes B.sort resources.items }
{
    expect_rows(rt, alloc, &GROUPS, resources);
}

/// A piece for which the group is full, and one that is dropped, keep nothing.
pub fn expect_idle<H: Abort, B: Resource>(rt: &H, alloc: Global, resources: Vec<B>)
    requires { AreBoxes B.sort resources.items }
{
    expect_rows(rt, alloc, &IDLE, resources);
}

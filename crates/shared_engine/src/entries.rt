// What is asked and answered in a turn.
ghost use Rattle.std.specs.Prelude.{◌≡◌, ◌≤◌, if◌then◌else◌};
ghost use Rattle.shared_engine.specs.Entries.{flush_said, next_said, queue_said};
ghost use Rattle.shared_engine.specs.GroupTurns.{effects_in, took_effect};
ghost use Rattle.process_engine.specs.Ends.{end_as};

use process_core::{Next, Waiting};
use process_engine::{Answer, Closed, Flush, Group, GroupEnd, Queue};

/// What a request for any piece answers, with the number of the piece.
#[derive(Clone, Copy)]
pub enum NextSaid {
    /// This piece was handed out.
    Piece(u32),
    /// Nothing is free, and a piece runs. The first in rotation that is blocked, if any is.
    Wait(Option<Waiting>),
    AllEnded,
    /// Nothing is free and nothing runs. The least process that is exhausted.
    Stuck(u32),
    /// A call of the rack failed before, when this many events were kept.
    Closed(u32),
}

/// What the queueing of a piece answers, with the number of a piece that is handed back.
#[derive(Clone, Copy)]
pub enum QueueSaid {
    Queued,
    Full(u32),
    Retry(u8),
    Failed,
    Over,
    Dropped(u32),
    Exhausted,
    NoMemory(u32),
    Closed(u32),
}

/// What a flush answers, with the number of pieces that took effect.
#[derive(Clone, Copy)]
pub enum FlushSaid {
    Flushed(u16),
    DiskFault,
    Closed(u32),
}

/// A call of the engine, with its answer.
#[derive(Clone, Copy)]
pub enum TurnEntry {
    /// A request for any piece.
    Next(NextSaid),
    /// The queueing of the piece of this number, by what came of its work.
    Queue {
        piece: u32,
        answer: Answer,
        reply: QueueSaid,
    },
    /// The queued pieces take effect.
    Flush(FlushSaid),
}

/// What a request for any piece answered.
pub fn asked(reply: &Result<Next, Closed>) -> NextSaid
    ensures { result ≡ next_said reply.now }
{
    match reply {
        Ok(Next::Piece(piece)) => NextSaid::Piece(piece.number()),
        Ok(Next::Wait(waiting)) => NextSaid::Wait(*waiting),
        Ok(Next::AllEnded) => NextSaid::AllEnded,
        Ok(Next::Stuck(process)) => NextSaid::Stuck(*process),
        Err(Closed(count)) => NextSaid::Closed(*count),
    }
}

/// What the queueing of a piece answered.
pub fn queued(reply: &Queue) -> QueueSaid
    ensures { result ≡ queue_said reply.now }
{
    match reply {
        Queue::Queued => QueueSaid::Queued,
        Queue::Full(piece) => QueueSaid::Full(piece.number()),
        Queue::Retry(count) => QueueSaid::Retry(*count),
        Queue::Failed => QueueSaid::Failed,
        Queue::Over => QueueSaid::Over,
        Queue::Dropped(event) => QueueSaid::Dropped(*event),
        Queue::Exhausted => QueueSaid::Exhausted,
        Queue::NoMemory(piece) => QueueSaid::NoMemory(piece.number()),
        Queue::Closed(count) => QueueSaid::Closed(*count),
    }
}

// How many pieces of a group took effect.
fn effects_in(group: &Group) -> u16
    ensures { result ≡ effects_in group.now }
{
    let mut count = 0;
    let mut place = 0;
    while place < group.len() {
        count += effect_of(group.at(place).1);
        place += 1;
    }
    count
}

// 1 where a piece took effect.
fn effect_of(end: GroupEnd) -> u16
    ensures told { result ≡ (if took_effect (end_as end) then 1 else 0) }
    ensures most { result ≤ 1 }
{
    match end {
        GroupEnd::Effected(_) => 1,
        GroupEnd::Dropped(_) => 0,
    }
}

/// What a flush answered.
pub fn flushed(reply: &Flush) -> FlushSaid
    ensures { result ≡ flush_said reply.now }
{
    match reply {
        Flush::Flushed(group) => FlushSaid::Flushed(effects_in(group)),
        Flush::DiskFault => FlushSaid::DiskFault,
        Flush::Closed(count) => FlushSaid::Closed(*count),
    }
}

// What a turn comes to in which a piece is asked for, or queued once more.
ghost use Rattle.std.specs.Prelude.{◌≡◌};
ghost use Rattle.shared_engine.specs.Outcomes.{is_flush, next_entry, queue_entry, queue_entry_again};

use crate::entries::{TurnEntry, asked, flushed, queued};
use process_core::{Next, Piece};
use process_engine::{Answer, Closed, Flush, Queue};

/// What a turn for a request comes to.
#[derive(Drop)]
pub enum NextTurn {
    /// A flush was due, and was made in its place.
    Flushed(Flush),
    Answered(Result<Next, Closed>),
}

/// What a turn for a piece comes to that found the group full.
#[derive(Drop)]
pub enum QueueTurn {
    /// A flush was due, and was made in its place. The piece is handed back.
    Flushed(Flush, Piece),
    Answered(Queue),
}

impl NextTurn {
    /// The entry of the turn.
    pub fn entry(&self) -> TurnEntry
        ensures { result ≡ next_entry self.now }
    {
        match self {
            NextTurn::Flushed(reply) => TurnEntry::Flush(flushed(reply)),
            NextTurn::Answered(reply) => TurnEntry::Next(asked(reply)),
        }
    }

    /// Whether a flush was made.
    pub fn is_flush(&self) -> bool
        ensures { result ≡ is_flush self.now }
    {
        matches!(self, NextTurn::Flushed(_))
    }
}

impl QueueTurn {
    /// The entry of the turn, for a piece of this number whose work is done.
    pub fn entry(&self, number: u32) -> TurnEntry
        ensures { result ≡ queue_entry_again number self.now }
    {
        match self {
            QueueTurn::Flushed(reply, _) => TurnEntry::Flush(flushed(reply)),
            QueueTurn::Answered(reply) => queue_entry(number, Answer::Done, reply),
        }
    }
}

/// The entry of a turn in which the piece of this number was queued, by what came of its work.
pub fn queue_entry(number: u32, answer: Answer, reply: &Queue) -> TurnEntry
    ensures { result ≡ queue_entry number answer reply.now }
{
    TurnEntry::Queue {
        piece: number,
        answer,
        reply: queued(reply),
    }
}

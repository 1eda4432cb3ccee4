// Pieces that are queued at an engine.
ghost use Rattle.std.specs.Prelude.{◌≡◌, [], length, IfOk};

use process_core::Piece;
use schedule_model::{Event, MOST_ACTIVE};
use std::alloc::{AllocError, Global};
use std::marker::Model;

/// How many pieces may be queued: of each process that is active one that runs, and one that was dropped.
pub const MOST_QUEUED: usize = 2 * MOST_ACTIVE;

/// Pieces that are queued at an engine, to take effect together.
#[derive(Drop)]
pub struct Queued {
    pub(crate) pieces: Vec<Piece>,
    // has room for their events, so that a flush takes no memory
    pub(crate) events: Vec<Event>,
}

impl Model for Queued {
    ghost use Rattle.std.specs.Prelude.{◌≡◌, ◌≤◌, [], List, vec_capacity};
    ghost use Rattle.machine_model.specs.Replies.{Handed};
    ghost use Rattle.process_engine.specs.Most.{most_queued};

    ghost Value = { List Handed };

    ghost view = { λ q. q.pieces.items };

    ghost invariant = { λ q. (q.events.items ≡ []) × (most_queued ≤ vec_capacity q.events)
        × (most_queued ≤ vec_capacity q.pieces) };
}

impl Queued {
    /// Nothing is queued.
    pub fn new(alloc: Global) -> Result<Self, AllocError>
        ensures { IfOk result (λ queued. queued ≡ []) }
    {
        Ok(Queued {
            pieces: Vec::with_capacity(alloc, MOST_QUEUED)?,
            events: Vec::with_capacity(alloc, MOST_QUEUED)?,
        })
    }

    /// How many pieces are queued, those among them that were dropped since.
    pub fn count(&self) -> usize
        ensures { result ≡ length self.now }
    {
        self.pieces.len()
    }
}

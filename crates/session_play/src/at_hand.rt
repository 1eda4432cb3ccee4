// What a session has at hand.
ghost use Rattle.std.specs.Prelude.{◌≡◌, IfOk};
ghost use Rattle.session_play.specs.AtHand.{hand_of, none_at_hand};

use process_core::Piece;
use process_engine::Queued;
use std::alloc::{AllocError, Global};

/// The pieces that a line may still finish or queue, and those that are queued.
#[derive(Drop)]
pub struct AtHand {
    pub unfinished: Vec<Piece>,
    pub queued: Queued,
}

impl AtHand {
    /// No piece is at hand.
    pub fn new(alloc: Global) -> Result<Self, AllocError>
        ensures { IfOk result (λ hand. hand_of hand ≡ none_at_hand) }
    {
        Ok(AtHand {
            unfinished: Vec::new(alloc),
            queued: Queued::new(alloc)?,
        })
    }
}

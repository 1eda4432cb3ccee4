// The desk, its seats and their turns.
ghost use Rattle.std.specs.Prelude.{◌≡◌, ◌+◌, ◌^◌, ◌<◌, None};
ghost use Rattle.history_lock.specs.Plays.{IsResting, IsTurning};

use crate::held::Held;
use crate::law::Law;
use crate::view::View;
use atomic_table::Table;
use std::alloc::Global;
use std::snapshot::Snapshot;

/// A seat of the desk's table, with what it knows.
pub type Place<S> = atomic_table::Seat<Option<S>, View<S, <S as Held>::Entry>>;

/// A state and the tickets for it. It is not `Drop`: end it by `close`.
pub struct Desk<S: Held> {
    pub(crate) table: Table<Option<S>, View<S, S::Entry>, Snapshot<S>, Law<S>, Global>,
    ghost sized: { (table.shared.table_id.words ≡ 20) × (table.shared.table_id.slots ≡ 1) },
}

/// A seat between two turns. The share and the places of one that is dropped are lost, and its desk then never closes.
#[derive(Drop)]
pub struct Seat<S: Held> {
    pub(crate) place: Place<S>,
    ghost rests: { IsResting place.me },
}

/// A seat's turn, which has the state. It is not `Drop`: end it by `done`.
pub struct Turn<'a, S: Held> {
    pub(crate) desk: &'a Desk<S>,
    pub(crate) place: Place<S>,
    pub(crate) state: S,
    pub(crate) ticket: u64,
    ghost seated: { place.table_id ≡ desk.now.table.shared.table_id },
    ghost turns: { IsTurning None place.me },
    ghost numbered: { (ticket ≡ place.me.0.ticket) × (ticket < 2 ^ 63 + 2 ^ 62) },
}

/// There was no memory for a desk. The state comes back.
pub struct DeskRefused<S> {
    pub state: S,
}

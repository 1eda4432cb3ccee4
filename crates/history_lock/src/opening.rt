// How a desk is opened and closed.
ghost use Rattle.std.specs.Prelude.{◌≡◌, ◌^◌, [], ◌∷◌, Some, IfOk, IfErr};
ghost use Rattle.history_lock.specs.Rule.{IsWhole};
ghost use Rattle.history_lock.specs.Seats.{IsOf, opening, places, seen, share};

use crate::desk::{Desk, DeskRefused, Seat};
use crate::held::Held;
use atomic_table::{Refused, Table};
use std::alloc::{AllocFailed, Global};
use std::snapshot::Snapshot;

// The state in a list of one.
fn only<S>(mut slots: Vec<Option<S>>) -> S
    requires { (x : S) × (slots.items ≡ Some x ∷ []) }
    ensures { slots.items ≡ Some result ∷ [] }
{
    match slots.pop() {
        Some(Some(state)) => {
            slots.destroy_empty();
            state
        }
        _ => unreachable!(),
    }
}

fn listed<S>(alloc: Global, state: S) -> Result<Vec<Option<S>>, S>
    ensures ok { IfOk result (λ v. v.items ≡ Some state ∷ []) }
    ensures err { IfErr result (λ s. s ≡ state) }
{
    let mut slots = Vec::new(alloc);
    match slots.push(Some(state)) {
        Ok(()) => Ok(slots),
        Err(AllocFailed { value }) => {
            slots.destroy_empty();
            match value {
                Some(state) => Err(state),
                None => unreachable!(),
            }
        }
    }
}

impl<S: Held> Desk<S> {
    /// A desk with an empty history, and its first seat, which has the whole share. Without memory the state comes back.
    pub fn new(alloc: Global, state: S) -> Result<(Desk<S>, Seat<S>), DeskRefused<S>>
        ensures desk { IfOk result (λ d. IsOf d.0 d.1) }
        ensures seat { IfOk result (λ d. (opening d.1 ≡ Some state) × (seen d.1 ≡ []) × (places d.1 ≡ []) × (share d.1 ≡ 2 ^ 62)) }
        ensures err { IfErr result (λ r. r.state ≡ state) }
    {
        let opening = Snapshot::of(&state);
        match listed(alloc, state) {
            Err(state) => Err(DeskRefused { state }),
            Ok(slots) => match Table::new(alloc, &[0; 20], slots, &opening) {
                Ok((table, place)) => Ok((Desk { table }, Seat { place })),
                Err(Refused { slots }) => Err(DeskRefused { state: only(slots) }),
            },
        }
    }

    /// Ends the desk, for the only seat that is left.
    pub fn close(self, seat: Seat<S>) -> S
        requires desk { IsOf self seat }
        requires only { share seat ≡ 2 ^ 62 }
        ensures { IsWhole S.stands_for (opening seat) (seen seat) (places seat) result }
    {
        let Desk { table } = self;
        let Seat { place } = seat;
        let mut closed = table.close_with(place);
        let state = closed.take(0);
        closed.free();
        match state {
            Some(state) => state,
            None => unreachable!(),
        }
    }
}

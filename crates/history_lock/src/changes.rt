// Changes that a turn announces, and waiting for the next one.
ghost use Rattle.std.specs.Prelude.{◌≡◌, ◌+◌, [], ◌∷◌, ◌++◌, length, IfSome};
ghost use Rattle.history_lock.specs.Seats.{desk_of, opening, places, seen, share};
ghost use Rattle.history_lock.specs.Turns.{desk_at, history, opening_at, places_at, share_at, state_at};

use crate::desk::{Desk, Seat, Turn};
use crate::held::Held;
use crate::steps::CHANGES;
use std::sync::Wait;

impl<'a, S: Held> Turn<'a, S> {
    /// How many changes were announced before this turn. One that is read in a turn was read before any later change.
    pub fn changes(&self) -> u64 {
        self.desk.table.shared.peek(CHANGES)
    }

    /// `done`, and whoever waits for a change is woken.
    pub fn done_with_change(self, entry: S::Entry) -> Seat<S>
        requires { IfSome (opening_at self) (λ o. S.stands_for o (history self ++ entry ∷ []) (state_at self)) }
        ensures desk { desk_of result ≡ desk_at self.entry }
        ensures keeps { (opening result ≡ opening_at self.entry) × (share result ≡ share_at self.entry) }
        ensures seen { seen result ≡ history self.entry ++ entry ∷ [] }
        ensures places { places result ≡ places_at self.entry ++ (length (history self.entry) + 1, entry) ∷ [] }
    {
        let Turn {
            desk,
            place,
            state,
            ticket: _,
        } = self;
        let mut place = place;
        desk.count(&mut place, entry);
        desk.announce(&mut place, CHANGES);
        desk.put(&mut place, state);
        desk.pass(&mut place);
        desk.table.shared.wake_all(CHANGES);
        Seat { place }
    }
}

impl<S: Held> Desk<S> {
    /// Waits until another change is announced than the first `changes`, by whichever turn. No seat is needed.
    pub fn wait_for_change<H: Wait>(&self, rt: &H, changes: u64) {
        for _ in rt.forever() {
            if self.table.shared.peek(CHANGES) != changes {
                return;
            }
            self.table
                .shared
                .park(rt, CHANGES, (changes % 4294967296) as u32);
        }
        unreachable!()
    }
}

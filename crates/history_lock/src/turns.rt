// A turn at a desk, from its ticket to its entry.
ghost use Rattle.std.specs.Prelude.{◌≡◌, ◌+◌, [], ◌∷◌, ◌++◌, length, List, IfSome};
ghost use Rattle.history_lock.specs.Seats.{IsOf, desk_of, opening, places, seen, share};
ghost use Rattle.history_lock.specs.Turns.{desk_at, history, opening_at, places_at, share_at, state_at};
ghost use Rattle.history_lock.specs.Weights.{AllStand};

use crate::desk::{Desk, Seat, Turn};
use crate::held::Held;
use std::sync::Wait;

impl<S: Held> Desk<S> {
    /// Waits for the seat's turn.
    pub fn turn<'a, H: Wait>(&'a self, rt: &H, seat: Seat<S>) -> Turn<'a, S>
        requires { IsOf self.now seat }
        ensures desk { desk_at result ≡ desk_of seat }
        ensures keeps { (opening_at result ≡ opening seat) × (places_at result ≡ places seat) × (share_at result ≡ share seat) }
        ensures seen { (more : List S.Entry) × (history result ≡ seen seat ++ more) }
        ensures places { AllStand (history result) (places_at result) }
        ensures stands { IfSome (opening_at result) (λ o. S.stands_for o (history result) (state_at result)) }
    {
        let Seat { place } = seat;
        let mut place = place;
        self.be_cleared(rt, &mut place);
        let ticket = self.draw(&mut place);
        self.be_served(rt, &mut place, ticket);
        let state = self.take(&mut place);
        Turn {
            desk: self,
            place,
            state,
            ticket,
        }
    }
}

impl<'a, S: Held> Turn<'a, S> {
    /// The place in the history that the entry of this turn gets.
    pub fn place(&self) -> u64
        ensures { result ≡ length (history self.now) + 1 }
    {
        self.ticket + 1
    }

    /// Ends the turn with its entry: the state goes back to the desk, and whoever waits for a turn is woken.
    pub fn done(self, entry: S::Entry) -> Seat<S>
        requires { IfSome (opening_at self) (λ o. S.stands_for o (history self ++ entry ∷ []) (state_at self)) }
        ensures desk { desk_of result ≡ desk_at self.entry }
        ensures keeps { (opening result ≡ opening_at self.entry) × (share result ≡ share_at self.entry) }
        ensures seen { seen result ≡ history self.entry ++ entry ∷ [] }
        ensures places { places result ≡ places_at self.entry ++ (length (history self.entry) + 1, entry) ∷ [] }
    {
        let Turn {
            desk,
            place,
            state,
            ticket: _,
        } = self;
        let mut place = place;
        desk.count(&mut place, entry);
        desk.put(&mut place, state);
        desk.pass(&mut place);
        Seat { place }
    }
}

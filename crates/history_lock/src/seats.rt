// Two seats out of one, and one out of two.
ghost use Rattle.std.specs.Prelude.{◌≡◌, ◌+◌, ◌-◌, ◌/◌, [], ◌++◌, ◌≤◌, length, List};
ghost use Rattle.history_lock.specs.Rule.{both, longer, shorter, NoPlaceTwice};
ghost use Rattle.history_lock.specs.Plays.{IsResting, joined, rested};
ghost use Rattle.history_lock.specs.Seats.{IsOf, desk_of, opening, places, seen, share};

use crate::desk::{Desk, Place, Seat};
use crate::held::Held;
use crate::law::{Cut, Learn};

impl<S: Held> Desk<S> {
    /// Gives half of the seat's share, rounded down, to a new seat, which has seen as much and has no place.
    pub fn split(&self, seat: Seat<S>) -> (Seat<S>, Seat<S>)
        requires desk { IsOf self.now seat }
        requires share { 2 ≤ share seat }
        ensures desk { (desk_of result.0 ≡ desk_of seat) × (desk_of result.1 ≡ desk_of seat) }
        ensures seen { (seen result.0 ≡ seen seat) × (seen result.1 ≡ seen seat) }
        ensures opening { (opening result.0 ≡ opening seat) × (opening result.1 ≡ opening seat) }
        ensures places { (places result.0 ≡ places seat) × (places result.1 ≡ []) }
        ensures share { (share result.0 ≡ share seat - share seat / 2) × (share result.1 ≡ share seat / 2) }
    {
        let Seat { place } = seat;
        let mut place = place;
        let other = self.table.shared.split_seat::<Cut>(&mut place);
        (Seat { place }, Seat { place: other })
    }

    fn join_places(&self, place: &mut Place<S>, other: Place<S>)
        requires table { (place.old.table_id ≡ self.now.table.shared.table_id) × (other.table_id ≡ self.now.table.shared.table_id) }
        requires rest { IsResting place.old.me × IsResting other.me }
        ensures table { place.new.table_id ≡ place.old.table_id }
        ensures both { place.new.me ≡ (both place.old.me.0 other.me.0, []) }
    {
        self.table.shared.join_seat::<Cut>(place, other);
    }

    // Tells what is so of the places and of the lists that were seen.
    fn learn(&self, place: &mut Place<S>)
        requires table { place.old.table_id ≡ self.now.table.shared.table_id }
        requires joined { (place.old.me ≡ joined place.old.me) × (1 ≤ place.old.me.0.share) }
        ensures table { place.new.table_id ≡ place.old.table_id }
        ensures rests { place.new.me ≡ rested place.old.me }
        ensures places { NoPlaceTwice place.old.me.0.places }
        ensures heard { length place.old.me.0.heard ≤ length place.old.me.0.seen
            → (more : List S.Entry) × (place.old.me.0.heard ++ more ≡ place.old.me.0.seen) }
    {
        self.table.shared.load::<Learn>(place, 0);
    }

    /// One seat out of two, with the places and the shares of both. It keeps the longer of the lists that they have seen; the other
    /// begins it.
    pub fn join(&self, a: Seat<S>, b: Seat<S>) -> Seat<S>
        requires desk { IsOf self.now a × IsOf self.now b }
        ensures desk { desk_of result ≡ desk_of a }
        ensures seen { seen result ≡ longer (seen a) (seen b) }
        ensures opening { opening result ≡ opening a }
        ensures places { places result ≡ places a ++ places b }
        ensures share { share result ≡ share a + share b }
        ensures apart { NoPlaceTwice (places a ++ places b) }
        ensures begins { (more : List S.Entry) × (shorter (seen a) (seen b) ++ more ≡ longer (seen a) (seen b)) }
    {
        let Seat { place } = a;
        let mut place = place;
        let Seat { place: other } = b;
        self.join_places(&mut place, other);
        self.learn(&mut place);
        Seat { place }
    }
}

// One step each on a desk's table. Its words: 0 the ticket that is served, 1 the next ticket, 2 how many entries, 3 how many
// changes, and from 4 on how often each bell was rung. A ticket's bell is rung once the ticket is served, so who has another one
// sleeps on.
ghost use Rattle.std.specs.Prelude.{◌≡◌, ◌+◌, [], ◌∷◌, ◌<◌, ◌≤◌, Some, None, IfSome};
ghost use Rattle.history_lock.specs.Rule.{Took};
ghost use Rattle.history_lock.specs.Plays.{IsResting, IsClear, IsWaiting, IsTurning, HasCounted, cleared, counting, queued, rested};

use crate::desk::{Desk, Place};
use crate::held::Held;
use crate::law::{Announce, Clear, Count, Draw, Look, Pass, Says};
use std::marker::Brand;
use std::sync::Wait;

/// The word that counts the changes.
pub(crate) const CHANGES: usize = 3;

const BELLS: u64 = 16;

// The word of a ticket's bell.
fn bell_of(ticket: u64) -> usize
    ensures { (3 ≤ result) × (result < 20) }
{
    4 + (ticket % BELLS) as usize
}

impl<S: Held> Desk<S> {
    // Waits until the seat is cleared to draw, as it is while fewer than 2^63 turns are over.
    pub(crate) fn be_cleared<H: Wait>(&self, rt: &H, place: &mut Place<S>)
        requires table { place.old.table_id ≡ self.now.table.shared.table_id }
        requires rests { IsResting place.old.me }
        ensures table { place.new.table_id ≡ place.old.table_id }
        ensures clear { place.new.me ≡ cleared place.old.me }
    {
        for _ in rt.forever() {
            let found = self.table.shared.load::<Clear>(place, 0);
            if found < 9223372036854775808 {
                return;
            }
        }
        unreachable!()
    }

    pub(crate) fn draw(&self, place: &mut Place<S>) -> u64
        requires table { place.old.table_id ≡ self.now.table.shared.table_id }
        requires clear { IsClear place.old.me }
        ensures table { place.new.table_id ≡ place.old.table_id }
        ensures waits { place.new.me ≡ queued place.old.me result }
    {
        self.table.shared.fetch_add::<Draw>(place, 1, 1)
    }

    // Waits until the ticket is served, and takes the slot.
    pub(crate) fn be_served<H: Wait>(&self, rt: &H, place: &mut Place<S>, ticket: u64)
        requires table { place.old.table_id ≡ self.now.table.shared.table_id }
        requires waits { IsWaiting place.old.me × (ticket ≡ place.old.me.0.ticket) }
        ensures table { place.new.table_id ≡ place.old.table_id }
        ensures took { Took S.stands_for place.old.me.0.opening place.old.me.0.seen place.old.me.0.places place.old.me.0.share
            ticket place.new.me }
    {
        let bell = bell_of(ticket);
        for _ in rt.forever() {
            let rings = self.table.shared.peek(bell);
            let found = self.table.shared.load::<Look<S>>(place, 0);
            if found == ticket {
                return;
            }
            self.table
                .shared
                .park(rt, bell, (rings % 4294967296) as u32);
        }
        unreachable!()
    }

    // Takes the state out of the slot that the seat holds.
    pub(crate) fn take(&self, place: &mut Place<S>) -> S
        requires table { place.old.table_id ≡ self.now.table.shared.table_id }
        requires holds { (x : S) × (place.old.me.1 ≡ (0, Some x) ∷ []) }
        ensures table { place.new.table_id ≡ place.old.table_id }
        ensures state { place.old.me.1 ≡ (0, Some result) ∷ [] }
        ensures empty { place.new.me ≡ (place.old.me.0, (0, None) ∷ []) }
    {
        match self.table.shared.exchange(place, 0, None) {
            Some(state) => state,
            None => unreachable!(),
        }
    }

    fn count_as<E: Says<S::Entry>>(&self, place: &mut Place<S>, _entry: &S::Entry)
        requires table { place.old.table_id ≡ self.now.table.shared.table_id }
        requires said { E.entries ≡ _entry.now ∷ [] }
        requires turns { IsTurning None place.old.me }
        ensures table { place.new.table_id ≡ place.old.table_id }
        ensures counted { place.new.me ≡ (counting place.old.me (_entry.now ∷ []), (0, None) ∷ []) }
    {
        self.table.shared.fetch_add::<Count<E>>(place, 2, 1);
    }

    // Counts the entry of this turn.
    pub(crate) fn count(&self, place: &mut Place<S>, entry: S::Entry)
        requires table { place.old.table_id ≡ self.now.table.shared.table_id }
        requires turns { IsTurning None place.old.me }
        ensures table { place.new.table_id ≡ place.old.table_id }
        ensures counted { place.new.me ≡ (counting place.old.me (entry ∷ []), (0, None) ∷ []) }
    {
        self.count_as::<Brand>(place, &entry)
    }

    // Puts the state back into the slot that the seat holds.
    pub(crate) fn put(&self, place: &mut Place<S>, state: S)
        requires table { place.old.table_id ≡ self.now.table.shared.table_id }
        requires empty { place.old.me.1 ≡ (0, None) ∷ [] }
        ensures table { place.new.table_id ≡ place.old.table_id }
        ensures full { place.new.me ≡ (place.old.me.0, (0, Some state) ∷ []) }
    {
        match self.table.shared.exchange(place, 0, Some(state)) {
            None => {}
            Some(_state) => unreachable!(),
        }
    }

    // The next ticket is served, and who sleeps until it is, is woken. Nobody does where it isn't drawn yet: who draws it later
    // finds it served.
    pub(crate) fn pass(&self, place: &mut Place<S>)
        requires table { place.old.table_id ≡ self.now.table.shared.table_id }
        requires stands { (x : S) × HasCounted (Some x) place.old.me
            × IfSome place.old.me.0.opening (λ o. S.stands_for o place.old.me.0.seen x) }
        ensures table { place.new.table_id ≡ place.old.table_id }
        ensures rests { place.new.me ≡ rested place.old.me }
    {
        let ticket = self.table.shared.fetch_add::<Pass>(place, 0, 1);
        let next = ticket.wrapping_add(1);
        if next < self.table.shared.peek(1) {
            let bell = bell_of(next);
            self.announce(place, bell);
            self.table.shared.wake_all(bell);
        }
    }

    // One more change, or ring of a bell.
    pub(crate) fn announce(&self, place: &mut Place<S>, count: usize)
        requires table { place.old.table_id ≡ self.now.table.shared.table_id }
        requires count { (3 ≤ count) × (count < 20) }
        ensures table { place.new.table_id ≡ place.old.table_id }
        ensures same { place.new.me ≡ place.old.me }
    {
        self.table.shared.fetch_add::<Announce>(place, count, 1);
    }
}

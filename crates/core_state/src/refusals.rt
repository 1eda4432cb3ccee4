// What the refusal of a piece makes of what is kept.
ghost use Rattle.std.specs.Prelude.{◌≡◌, true, is_some, IfSome};
ghost use Rattle.machine_model.specs.ProcessState.{todo};
ghost use Rattle.instance_state.specs.Instances.{is_piece};
ghost use Rattle.hold_tables.specs.Tables.{is_open};
ghost use Rattle.hold_tables.specs.Changes.{changed};
ghost use Rattle.core_state.specs.Beginnings.{began_refused, drags_along, refusal_of, refused_row, refused_seat};

use crate::seats::Seat;
use hold_tables::Holds;
use machine_model::{Began, Cause, Refusal};

/// When and why a process began to complete, once a refusal of its step led to this.
fn began_refused(event: u32, step: u16, refusal: Refusal, began: Option<Began>) -> Option<Began>
    ensures { result ≡ began_refused event step refusal began }
{
    match (refusal, began) {
        (Refusal::RollBack, None) => Some(Began {
            event,
            cause: Cause::Refused(step),
        }),
        _ => began,
    }
}

/// Whether others may go back with a process whose refusal led to this.
pub fn drags_along(refusal: Refusal) -> bool
    ensures { result ≡ drags_along refusal }
{
    match refusal {
        Refusal::Alternative | Refusal::RollBack => true,
        Refusal::Retry(_) | Refusal::Exhausted => false,
    }
}

/// The piece of process `i`, which is of this step, was refused at the kept event of this number; the answer is what this leads to.
pub fn refuse(seat: &mut Seat, holds: &mut Holds, i: u32, step: u16, event: u32) -> Refusal
    requires seat { is_some seat.old.instance ≡ true }
    requires piece { IfSome seat.old.instance (λ x. is_piece (todo x.course x.state) ≡ true) }
    requires open { is_open holds.old i ≡ true }
    ensures refusal { result ≡ refusal_of seat.old.instance }
    ensures seat { seat.new ≡ refused_seat event step seat.old }
    ensures holds { holds.new ≡ changed (refused_row seat.old) i holds.old }
{
    let Some(instance) = &mut seat.instance else {
        unreachable!();
    };
    let refusal = instance.refused();
    holds.stop(i);
    holds.keep_reserved(i, instance.owed());
    holds.pend(i, instance.pending());
    seat.out = None;
    seat.began = began_refused(event, step, refusal, seat.began);
    refusal
}

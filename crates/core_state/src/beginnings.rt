// Processes begin to complete.
ghost use Rattle.std.specs.Prelude.{◌≡◌, ◌≤◌, ◌+◌, ℕ, true, length, is_some};
ghost use Rattle.process_tree.specs.Conflicts.{do_conflict};
ghost use Rattle.process_tree.specs.Order.{Each};
ghost use Rattle.schedule_model.specs.Histories.{is_in, of_process};
ghost use Rattle.machine_model.specs.Cascade.{cascade};
ghost use Rattle.cascade.specs.Walking.{last_entries};
ghost use Rattle.core_state.specs.declared.beginnings.Beginners.TheVariants.{DraggedBy};
ghost use Rattle.hold_tables.specs.Tables.{holdings_of, is_open, kept_of};
ghost use Rattle.hold_tables.specs.Changes.{changed, stopped};
ghost use Rattle.core_state.specs.Beginnings.{AreOpen, begun_row, begun_seat, can_begin, cause_if, cause_of, seat_with};
ghost use Rattle.core_state.specs.Beginnings.{seats_begun, tables_begun, tables_with};

use crate::members::Cascade;
use crate::seats::Seat;
use hold_tables::Holds;
use machine_model::{Began, Cause};

/// Who begins to complete, where it is active and has not before.
#[derive(Clone, Copy)]
pub enum Beginners {
    All,
    /// Whoever goes back with this process.
    DraggedBy(u32),
}

/// Why a process begins, if it does.
fn cause_of(who: Beginners, cascade: &Cascade, i: u32) -> Option<Cause>
    ensures { result ≡ cause_of who cascade.now i }
{
    match who {
        Beginners::All => Some(Cause::Restart),
        Beginners::DraggedBy(root) => {
            if i != root && cascade.has(i) {
                Some(Cause::Cascade(root))
            } else {
                None
            }
        }
    }
}

/// Nothing is under way in a process any more. Where nothing was, the walks of the conflict graph needn't be found anew.
fn stop_running(holds: &mut Holds, i: u32)
    requires { is_open holds.old i ≡ true }
    ensures { holds.new ≡ stopped i holds.old }
{
    if holds.running(i).is_some() {
        holds.stop(i);
    }
}

/// Process `i`, which has this seat, begins to complete: its piece that is out is lost, and all that it can undo is pending.
pub fn begin(seat: &mut Seat, holds: &mut Holds, i: u32, began: Began)
    requires seat { is_some seat.old.instance ≡ true }
    requires open { is_open holds.old i ≡ true }
    ensures seat { seat.new ≡ begun_seat began seat.old }
    ensures holds { holds.new ≡ changed (begun_row seat.old) i holds.old }
{
    let Some(instance) = &mut seat.instance else {
        unreachable!();
    };
    instance.abort();
    stop_running(holds, i);
    holds.keep_reserved(i, instance.owed());
    holds.pend(i, instance.pending());
    seat.lost = seat.out;
    seat.out = None;
    seat.began = Some(began);
}

/// A process begins to complete for this cause, if it is active and has not before.
fn begin_if(seat: &mut Seat, holds: &mut Holds, i: u32, cause: Option<Cause>, event: u32)
    requires open { is_some seat.old.instance ≡ true → is_open holds.old i ≡ true }
    ensures seat { seat.new ≡ seat_with event (cause_if seat.old cause) seat.old }
    ensures holds { holds.new ≡ tables_with i seat.old (cause_if seat.old cause) holds.old }
{
    if !seat.can_begin() {
        return;
    }
    if let Some(cause) = cause {
        begin(seat, holds, i, Began { event, cause });
    }
}

/// These processes begin to complete at the kept event of this number, from 1 on: those that are active and have not before.
pub fn begin_each(
    seats: &mut Vec<Seat>,
    holds: &mut Holds,
    cascade: &Cascade,
    who: Beginners,
    event: u32,
)
    requires open { AreOpen seats.old.items holds.old }
    requires few { length seats.old.items ≤ 4096 }
    ensures seats { seats.new.items ≡ seats_begun (cause_of who cascade.now) event (length seats.old.items) seats.old.items }
    ensures holds { holds.new ≡ tables_begun (cause_of who cascade.now) seats.old.items (length seats.old.items) holds.old }
{
    for place in 0..seats.len() {
        let i = place as u32 + 1;
        let cause = cause_of(who, cascade, i);
        begin_if(&mut seats[place], holds, i, cause, event);
    }
}

/// Whoever goes back with process `root`, which takes back what it has pending, begins to complete at the kept event of this
/// number. They are in `members` then.
pub fn drag_along(
    seats: &mut Vec<Seat>,
    holds: &mut Holds,
    members: &mut Cascade,
    root: u32,
    event: u32,
)
    requires root { is_open holds.old root ≡ true }
    requires count { (kept_of holds.old root).pending + (kept_of holds.old root).fixed ≤ length (of_process root holds.old.net) }
    requires numbers { Each (λ r. r.process ≤ 4096) holds.old.processes }
    requires open { AreOpen seats.old.items holds.old }
    requires few { length seats.old.items ≤ 4096 }
    ensures cascade { (k : ℕ) → is_in k members.new ≡ is_in k
        (cascade (do_conflict holds.old.conflicts) (holdings_of holds.old) root
        (last_entries holds.old root (kept_of holds.old root).pending)) }
    ensures seats { seats.new.items ≡ seats_begun (cause_of (DraggedBy root) members.new) event
        (length seats.old.items) seats.old.items }
    ensures holds { holds.new ≡ tables_begun (cause_of (DraggedBy root) members.new) seats.old.items
        (length seats.old.items) holds.old }
{
    let count = holds.pending(root);
    members.form(holds, root, count);
    begin_each(seats, holds, members, Beginners::DraggedBy(root), event);
}

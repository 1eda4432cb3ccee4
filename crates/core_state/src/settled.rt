// How much a history has of what its limits count, as the seats tell.
ghost use Rattle.std.specs.Prelude.{◌≡◌, ◌≤◌, ◌+◌, length};
ghost use Rattle.process_tree.specs.Blocks.{outline};
ghost use Rattle.schedule_model.specs.Course.{course_of};
ghost use Rattle.schedule_model.specs.Limits.{need};
ghost use Rattle.core_state.specs.Starting.{has_active_seat, is_settled, settled_count};

use crate::seats::Seat;
use process_tree::Plan;
use schedule_model::Event;

/// How many acts and ends a process of this plan may need.
pub fn need(plan: &Plan) -> usize
    requires { length plan.now.ops ≡ length (outline plan.now.tree).steps }
    ensures need { result ≡ need (course_of plan.now) }
    ensures few { result ≤ 131071 }
{
    2 * usize::from(plan.tree.count()) + 1
}

/// Whether a process is active.
fn has_active_seat(seats: &[Seat], i: u32) -> bool
    ensures { result ≡ has_active_seat seats.now i }
{
    let place = (i as usize).saturating_sub(1);
    if place < seats.len() {
        seats[place].is_active()
    } else {
        false
    }
}

/// Whether an event is an end, or an act of a process that isn't active.
fn is_settled(seats: &[Seat], event: &Event) -> bool
    ensures { result ≡ is_settled seats.now event.now }
{
    match event {
        Event::Start(_) => false,
        Event::Act(e) => !has_active_seat(seats, e.process),
        Event::End(_) => true,
    }
}

/// How many of these events count on their own: ends, and acts of processes that are not active.
pub fn settled_count(seats: &[Seat], events: &[Event]) -> usize
    requires { length events.now ≤ 20480 }
    ensures count { result ≡ settled_count seats.now events.now }
    ensures few { result ≤ 20480 }
{
    let mut count = 0;
    let mut rest = events;
    while let [event, after @ ..] = rest {
        if is_settled(seats, event) {
            count += 1;
        }
        rest = after;
    }
    count
}

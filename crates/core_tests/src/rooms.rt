// What no clause says: that each call which wants memory succeeds where there is enough. A core opens, and a process starts in room
// that was made before.
ghost use Rattle.std.specs.Prelude.{◌≡◌, ◌<◌};
ghost use Rattle.process_tree.specs.Conflicts.{operations_in};
ghost use Rattle.process_tree.specs.Order.{Each};
ghost use Rattle.schedule_model.specs.Laws.{IsGoodPlan};
ghost use Rattle.process_core.specs.StartRoom.{IsRoomFor};

use crate::calls::{Answer, Call};
use crate::plays::expect_answers;
use crate::starts::{PURCHASE, SALE, catalog, must, opened, planned, started};
use process_core::{Aborted, Core, StartRoom, Work};
use process_tree::{Conflicts, Plan};
use schedule_model::Event;
use std::alloc::Global;
use std::process::Abort;

#[test]
fn a_core_opens_on_nothing(rt: HostRuntime) {
    let alloc = rt.alloc();
    let conflicts = must(&rt, Conflicts::new(alloc, 0));
    let mut core = opened(&rt, alloc, conflicts);
    core.complete_all();
    assert!(rt; core.abort(1) == Aborted::Unknown);
    assert!(rt; core.kept().is_empty());
    assert!(rt; core.history().events.as_slice().is_empty());
    assert!(rt; core.began(1).is_none());
    assert!(rt; core.undo_next().is_none());
}

// The room for a process of this plan.
fn room_for<H: Abort>(rt: &H, core: &Core, plan: Plan) -> StartRoom
    requires good { IsGoodPlan plan }
    requires known { Each (λ op. op < operations_in core.now.conflicts) plan.ops }
    ensures room { IsRoomFor core.now result }
    ensures plan { result.plan ≡ plan }
{
    let Ok(room) = core.make_room(plan) else {
        panic!(rt; "no room");
    };
    room
}

// The process of a plan starts in room that was made for it, given back with the plan and made again. The answer is its number.
fn start_in_room<H: Abort>(rt: &H, core: &mut Core, plan: Plan) -> u32
    requires good { IsGoodPlan plan }
    requires known { Each (λ op. op < operations_in core.old.conflicts) plan.ops }
{
    let given_back = room_for(rt, core, plan).into_plan();
    let room = room_for(rt, core, given_back);
    core.start_in(room)
}

// A core on which a purchase has started, and a sale in room that was made before, with the number of the sale.
fn sale_in_room<H: Abort>(rt: &H, alloc: Global) -> (Core, u32) {
    let catalog = catalog(rt, alloc);
    let plan = planned(rt, alloc, SALE, &catalog);
    let mut core = started(rt, alloc, &catalog, &[PURCHASE]);
    let number = start_in_room(rt, &mut core, plan);
    (core, number)
}

// Two processes have started, and nothing else happened.
fn expect_two_starts<H: Abort>(rt: &H, core: &Core) {
    let events = core.history().events.as_slice();
    assert_eq!(rt; events, [Event::Start(1), Event::Start(2)].as_slice());
}

const SOLD: &[(Call, Answer)] = &[
    (Call::Admit(2), Answer::Piece(1, 2, 0, Work::Forward)),
    (Call::Done(1), Answer::Effected(3)),
];

#[test]
fn a_process_starts_in_room_that_was_made_before(rt: HostRuntime) {
    let alloc = rt.alloc();
    let (mut core, number) = sale_in_room(&rt, alloc);
    assert_eq!(rt; number, 2);
    expect_two_starts(&rt, &core);
    expect_answers(&rt, alloc, &mut core, "started in room", &[], SOLD);
}

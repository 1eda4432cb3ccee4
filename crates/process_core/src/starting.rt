// Processes start.
ghost use Rattle.std.specs.Prelude.{◌≡◌, ◌<◌, ◌≤◌, ◌+◌, ◌⊎◌, [], Some, None, length, IfOk, IfErr, OnOk, OnErr};
ghost use Rattle.process_tree.specs.Blocks.{outline};
ghost use Rattle.process_tree.specs.Conflicts.{operations_in};
ghost use Rattle.process_tree.specs.Order.{Each};
ghost use Rattle.schedule_model.specs.Course.{course_of};
ghost use Rattle.schedule_model.specs.Laws.{IsGoodPlan};
ghost use Rattle.machine_model.specs.Calls.{start, started};
ghost use Rattle.machine_model.specs.declared.replies.StartWhy.TheVariants.{NoMemory};
ghost use Rattle.instance_state.specs.Instances.{opened};
ghost use Rattle.process_core.specs.Answers.{after_start, answer_in};
ghost use Rattle.core_state.specs.Room.{kept_for};
ghost use Rattle.process_core.specs.StartRoom.{IsRoomFor};
ghost use Rattle.hold_tables.specs.Spare.{IsRoomIn};
ghost use Rattle.process_core.specs.Moments.{refusal_in};

use crate::Core;
use crate::start_room::{StartMemory, StartRoom};
use core_state::{Seat, kept_for};
use hold_tables::{Holds, SpareCapacity};
use instance_state::Instance;
use machine_model::{Kept, StartWhy};
use process_tree::Plan;
use schedule_model::Event;
use std::alloc::{AllocError, Global};

/// Why a process didn't start, with its plan.
#[derive(Drop)]
pub struct StartRefused {
    pub plan: Plan,
    pub why: StartWhy,
}

/// Takes the room for the events that are kept once a process of this plan has started, and tells how many these are at most.
fn kept_room(
    alloc: Global,
    most: usize,
    plan: &Plan,
) -> Result<(usize, SpareCapacity<Kept>), AllocError>
    requires { length plan.now.ops ≡ length (outline plan.now.tree).steps }
    ensures most { IfOk result (λ r. r.0 ≡ most + kept_for (course_of plan.now)) }
    ensures room { IfOk result (λ r. r.0 ≤ r.1) }
{
    let most = most.checked_add(kept_for(plan)).ok_or(AllocError)?;
    let kept = SpareCapacity::new(alloc, most)?;
    Ok((most, kept))
}

/// Takes all memory that a process of this plan can need.
fn start_memory(
    alloc: Global,
    plan: &Plan,
    most: usize,
    seats: usize,
    holds: &Holds,
) -> Result<StartMemory, AllocError>
    requires operations { length plan.now.ops ≡ length (outline plan.now.tree).steps }
    requires seats { seats ≤ 4096 }
    ensures instance { IfOk result (λ m. m.instance ≡ opened plan.now []) }
    ensures most { IfOk result (λ m. m.most ≡ most + kept_for (course_of plan.now)) }
    ensures kept { IfOk result (λ m. m.most ≤ m.kept) }
    ensures seats { IfOk result (λ m. seats < m.seats) }
    ensures steps { IfOk result (λ m. m.tables.steps ≡ length (outline plan.now.tree).steps) }
    ensures tables { IfOk result (λ m. IsRoomIn holds.now m.tables) }
{
    let (most, kept) = kept_room(alloc, most, plan)?;
    Ok(StartMemory {
        instance: Instance::new(alloc, plan)?,
        most,
        kept,
        seats: SpareCapacity::new(alloc, seats + 1)?,
        tables: holds.spare(plan)?,
    })
}

impl Core {
    /// Takes all memory that a process of this plan can need, and tells why it can't start where that is so.
    pub fn make_room(&self, plan: Plan) -> Result<StartRoom, StartRefused>
        requires good { IsGoodPlan plan }
        requires known { Each (λ op. op < operations_in self.now.conflicts) plan.ops }
        ensures plan { IfOk result (λ room. room.plan ≡ plan) }
        ensures room { IfOk result (λ room. IsRoomFor self.now room) }
        ensures left { IfErr result (λ e. e.plan ≡ plan) }
        ensures why { IfErr result (λ e. (refusal_in self.now plan ≡ Some e.why)
            ⊎ ((e.why ≡ NoMemory) × (refusal_in self.now plan ≡ None))) }
    {
        if let Some(why) = self.start_refusal(&plan) {
            return Err(StartRefused { plan, why });
        }
        let Ok(memory) = start_memory(self.alloc, &plan, self.most, self.seats.len(), &self.holds)
        else {
            return Err(StartRefused {
                plan,
                why: StartWhy::NoMemory,
            });
        };
        Ok(StartRoom { plan, memory })
    }

    /// The process for which there is room starts: this takes no memory and can't fail. The answer is its number.
    pub fn start_in(&mut self, room: StartRoom) -> u32
        requires { IsRoomFor self.old room }
        ensures core { self.new ≡ after_start self.old room.plan }
        ensures reply { (answer_in self.old (start (course_of room.plan))).reply ≡ started result }
    {
        let number = self.seats.len() as u32 + 1;
        let memory = room.memory;
        memory.kept.give_to(&mut self.kept);
        memory.seats.give_to(&mut self.seats);
        self.holds.open_with(number, memory.tables);
        self.seats.push_reserved(Seat {
            instance: Some(memory.instance),
            out: None,
            lost: None,
            began: None,
        });
        self.kept.push_reserved(Kept::Start(number));
        self.most = memory.most;
        self.history.events.push(Event::Start(number));
        self.history.plans.push(room.plan);
        number
    }

    /// A process of this plan starts, and takes all memory that it can need; the answer is its number. Where it doesn't, the core
    /// is as it was.
    pub fn start(&mut self, plan: Plan) -> Result<u32, StartRefused>
        requires good { IsGoodPlan plan }
        requires known { Each (λ op. op < operations_in self.old.conflicts) plan.ops }
        ensures core { OnOk result (self.new ≡ after_start self.old plan) }
        ensures reply { IfOk result (λ i. (answer_in self.old (start (course_of plan))).reply ≡ started i) }
        ensures left { OnErr result (self.new ≡ self.old) }
        ensures plan { IfErr result (λ e. e.plan ≡ plan) }
        ensures why { IfErr result (λ e. (refusal_in self.old plan ≡ Some e.why)
            ⊎ ((e.why ≡ NoMemory) × (refusal_in self.old plan ≡ None))) }
    {
        let room = self.make_room(plan)?;
        Ok(self.start_in(room))
    }
}

// How much a history has of what its limits count.
ghost use Rattle.std.specs.Prelude.{◌≡◌, ◌≤◌, ◌+◌, length};
ghost use Rattle.std.specs.List.{sum_by};
ghost use Rattle.process_tree.specs.Blocks.{outline};
ghost use Rattle.schedule_model.specs.Course.{course};
ghost use Rattle.schedule_model.specs.Histories.{active, starts};
ghost use Rattle.schedule_model.specs.Limits.{entries, most_active, most_entries, most_processes, need};
ghost use Rattle.core_state.specs.Cores.{courses_in, history_of};
ghost use Rattle.process_core.specs.Moments.{refusal_in};

use crate::Core;
use core_state::{need, settled_count};
use machine_model::StartWhy;
use process_tree::Plan;
use schedule_model::{MOST_ACTIVE, MOST_ENTRIES, MOST_PROCESSES};

/// How many processes are active, and how many acts and ends they may need.
#[derive(Clone, Copy)]
pub struct Load {
    pub active: usize,
    pub needed: usize,
}

/// How much a history has of what its limits count.
#[derive(Clone, Copy, Debug, PartialEq, Eq)]
pub struct Counts {
    /// How many processes have started.
    pub processes: u32,
    /// How many are active.
    pub active: u32,
    /// How many acts and ends are done and reserved.
    pub entries: u32,
}

impl Core {
    /// How many processes are active, and how many acts and ends they may need.
    fn load(&self) -> Load
        ensures active { result.active ≡ length (active (history_of self.now)) }
        ensures needed { result.needed ≡ sum_by (λ i. need (course (courses_in self.now) i)) (active (history_of self.now)) }
        ensures few { result.needed ≤ 536866816 }
    {
        let mut load = Load {
            active: 0,
            needed: 0,
        };
        for place in 0..self.seats.len() {
            if self.seats[place].is_active() {
                load.active += 1;
                load.needed += need(&self.history.plans.as_slice()[place]);
            }
        }
        load
    }

    /// How much its history has of what the limits count, which is within them.
    pub fn counts(&self) -> Counts
        ensures processes { result.processes ≡ length (starts (history_of self.now)) }
        ensures active { result.active ≡ length (active (history_of self.now)) }
        ensures entries { result.entries ≡ entries (courses_in self.now) (history_of self.now) }
        ensures within { (result.processes ≤ most_processes) × (result.active ≤ most_active) × (result.entries ≤ most_entries) }
    {
        let load = self.load();
        let settled = settled_count(&self.seats, self.history.events.as_slice());
        Counts {
            processes: self.seats.len() as u32,
            active: load.active as u32,
            entries: (settled + load.needed) as u32,
        }
    }

    /// Why a process of this plan can't start, memory aside.
    pub fn start_refusal(&self, plan: &Plan) -> Option<StartWhy>
        requires { length plan.now.ops ≡ length (outline plan.now.tree).steps }
        ensures { result ≡ refusal_in self.now plan.now }
    {
        let load = self.load();
        if load.active >= MOST_ACTIVE {
            return Some(StartWhy::TooMany(MOST_ACTIVE as u32));
        }
        if self.seats.len() >= MOST_PROCESSES {
            return Some(StartWhy::TooMany(MOST_PROCESSES as u32));
        }
        let settled = settled_count(&self.seats, self.history.events.as_slice());
        let entries = settled + load.needed + need(plan);
        if entries > MOST_ENTRIES {
            return Some(StartWhy::NoRoom(entries as u32));
        }
        None
    }
}

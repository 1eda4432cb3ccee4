// The room for a process that is to start.
ghost use Rattle.std.specs.Prelude.{◌≡◌};

use core_state::Seat;
use hold_tables::{Spare, SpareCapacity};
use instance_state::Instance;
use machine_model::Kept;
use process_tree::Plan;
use std::marker::Model;

/// All memory that a process can need, taken before it starts.
#[derive(Drop)]
pub struct StartRoom {
    pub(crate) plan: Plan,
    pub(crate) memory: StartMemory,
}

/// The memory alone.
#[derive(Drop)]
pub struct StartMemory {
    pub instance: Instance,
    /// How many events are kept at most once the process has started.
    pub most: usize,
    pub kept: SpareCapacity<Kept>,
    pub seats: SpareCapacity<Seat>,
    pub tables: Spare,
}

impl Model for StartRoom {
    ghost use Rattle.std.specs.Prelude.{◌≡◌, ◌≤◌, [], length};
    ghost use Rattle.process_tree.specs.Blocks.{outline};
    ghost use Rattle.instance_state.specs.Instances.{opened};
    ghost use Rattle.process_core.specs.StartRoom.{StartRoomState};

    ghost Value = { StartRoomState };

    ghost use Rattle.process_tree.specs.contracts.block.Block as e;
    ghost use Rattle.std.specs.Coded.{codes};

    ghost coded = { Prim.hlevel (codes, e.the_row.coded) };

    ghost view = { λ r. record { plan = r.plan; kept = r.memory.most; processes = r.memory.seats; tables = r.memory.tables } };

    ghost invariant = { λ r. (r.memory.instance ≡ opened r.plan []) × (r.memory.most ≤ r.memory.kept)
        × (r.memory.tables.steps ≡ length (outline r.plan.tree).steps) };
}

impl StartRoom {
    /// The plan of the process.
    pub fn plan(&self) -> &Plan
        ensures { result.now ≡ self.now.plan }
    {
        &self.plan
    }

    /// The plan again, where the process isn't to start after all.
    pub fn into_plan(self) -> Plan
        ensures { result ≡ self.plan }
    {
        self.plan
    }
}

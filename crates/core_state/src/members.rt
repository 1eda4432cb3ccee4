// Who goes back with a process.
ghost use Rattle.std.specs.Prelude.{◌≡◌, ◌≤◌, ◌+◌, ℕ, [], true, length, IfOk};
ghost use Rattle.process_tree.specs.Conflicts.{do_conflict};
ghost use Rattle.process_tree.specs.Order.{Each};
ghost use Rattle.schedule_model.specs.Histories.{is_in, of_process};
ghost use Rattle.machine_model.specs.Cascade.{cascade};
ghost use Rattle.hold_tables.specs.Tables.{holdings_of, is_open, kept_of};
ghost use Rattle.cascade.specs.Walking.{last_entries};

use cascade::{Members, closure};
use hold_tables::Holds;
use std::alloc::{AllocError, Global};
use std::marker::Model;

/// The greatest number of a process.
const GREATEST: u32 = 4096;

/// A set of processes, with room for all that may start.
#[derive(Drop)]
pub struct Cascade {
    members: Members,
}

impl Model for Cascade {
    ghost use Rattle.std.specs.Prelude.{◌≡◌, ℕ, List};

    ghost Value = { List ℕ };

    ghost view = { λ c. c.members.members };

    ghost invariant = { λ c. c.members.most ≡ 4096 };
}

impl Cascade {
    /// Nobody, with room for all.
    pub fn new(alloc: Global) -> Result<Cascade, AllocError>
        ensures { IfOk result (λ cascade. cascade ≡ []) }
    {
        let members = Members::new(alloc, GREATEST)?;
        Ok(Cascade { members })
    }

    /// Whether a process is in.
    pub fn has(&self, i: u32) -> bool
        ensures { result ≡ is_in i self.now }
    {
        self.members.has(i)
    }

    /// Whoever goes back with a root that takes back so many of its last net entries.
    pub fn form(&mut self, holds: &Holds, root: u32, count: u16)
        requires root { is_open holds.now root ≡ true }
        requires count { count + (kept_of holds.now root).fixed ≤ length (of_process root holds.now.net) }
        requires few { Each (λ r. r.process ≤ 4096) holds.now.processes }
        ensures { (k : ℕ) → is_in k self.new ≡ is_in k
            (cascade (do_conflict holds.now.conflicts) (holdings_of holds.now) root (last_entries holds.now root count)) }
    {
        closure(holds, root, count, &mut self.members);
    }
}

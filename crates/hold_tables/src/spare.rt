// Room that is taken before it is needed.
ghost use Rattle.std.specs.Prelude.{◌≡◌, ◌≤◌, [], IfOk, vec_capacity, vec_len};

use crate::row::Row;
use process_tree::Entry;
use std::alloc::{AllocError, Global};
use std::marker::Model;

/// The room for so many items, that a list can take over.
#[derive(Drop)]
pub struct SpareCapacity<T: Drop> {
    items: Vec<T>,
}

impl<T: Drop> Model for SpareCapacity<T> {
    ghost use Rattle.std.specs.Prelude.{◌≡◌, ℕ, [], vec_capacity};

    ghost Value = { ℕ };

    ghost view = { λ s. vec_capacity s.items };

    ghost invariant = { λ s. s.items.items ≡ [] };
}

impl<T: Drop> SpareCapacity<T> {
    pub fn new(alloc: Global, count: usize) -> Result<Self, AllocError>
        ensures { IfOk result (λ spare. spare ≡ count) }
    {
        Ok(SpareCapacity {
            items: Vec::with_capacity(alloc, count)?,
        })
    }

    /// The list has this room from now on, and the same items.
    pub fn give_to(self, list: &mut Vec<T>)
        requires room { vec_len list.old ≤ self }
        ensures items { list.new.items ≡ list.old.items }
        ensures capacity { self ≤ vec_capacity list.new }
    {
        let mut items = self.items;
        let _ = items.append(list);
        *list = items;
    }

    /// An empty list with this room.
    pub fn into_list(self) -> Vec<T>
        ensures items { result.items ≡ [] }
        ensures capacity { vec_capacity result ≡ self }
    {
        self.items
    }
}

/// All memory that a process takes in the tables.
#[derive(Drop)]
pub struct Spare {
    pub(crate) steps: u16,
    pub(crate) reserved: SpareCapacity<(u16, u16, u32)>,
    pub(crate) net: SpareCapacity<Entry>,
    pub(crate) rows: SpareCapacity<Row>,
}

impl Model for Spare {
    ghost use Rattle.std.specs.Prelude.{◌≤◌};
    ghost use Rattle.hold_tables.specs.Spare.{SpareRoom};

    ghost Value = { SpareRoom };

    ghost view = { λ s. record { steps = s.steps; net = s.net; processes = s.rows } };

    ghost invariant = { λ s. s.steps ≤ s.reserved };
}

impl Spare {
    /// For a process of so many steps, with room for so many net entries and processes.
    pub fn new(alloc: Global, steps: u16, net: usize, processes: usize) -> Result<Spare, AllocError>
        ensures { IfOk result (λ spare. spare ≡ record { steps = steps; net = net; processes = processes }) }
    {
        Ok(Spare {
            steps,
            reserved: SpareCapacity::new(alloc, usize::from(steps))?,
            net: SpareCapacity::new(alloc, net)?,
            rows: SpareCapacity::new(alloc, processes)?,
        })
    }
}

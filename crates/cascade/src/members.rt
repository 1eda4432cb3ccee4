// A set of processes, whose room was taken before.
ghost use Rattle.std.specs.Prelude.{◌≡◌, [], IfOk};
ghost use Rattle.schedule_model.specs.Histories.{is_in};

use crate::marks::{Mark, is_in};
use process_tree::Entry;
use std::alloc::{AllocError, Global};
use std::marker::Model;

/// A set of processes.
#[derive(Drop)]
pub struct Members {
    pub(crate) most: u32,
    pub(crate) marks: Vec<Mark>,
    pub(crate) running: Vec<Entry>,
}

impl Model for Members {
    ghost use Rattle.std.specs.Prelude.{◌≡◌, ◌+◌, ◌<◌, length, vec_capacity};
    ghost use Rattle.cascade.specs.Sets.{Numbers, listed};

    ghost Value = { Numbers };

    ghost view = { λ m. record { most = m.most; members = listed 0 m.marks.items } };

    ghost invariant = { λ m. (length m.marks.items ≡ m.most + 1) × (m.most < vec_capacity m.running) };
}

impl Members {
    /// The empty set, with room for processes up to this number.
    pub fn new(alloc: Global, processes: u32) -> Result<Members, AllocError>
        ensures { IfOk result (λ set. set ≡ record { most = processes; members = [] }) }
    {
        let Some(room) = (processes as usize).checked_add(1) else {
            return Err(AllocError);
        };
        let mut running = Vec::new(alloc);
        running.reserve(room)?;
        Ok(Members {
            most: processes,
            marks: vec![in alloc; Mark::Out; room]?,
            running,
        })
    }

    /// Whether a process is in.
    pub fn has(&self, i: u32) -> bool
        ensures { result ≡ is_in i self.now.members }
    {
        is_in(&self.marks, i)
    }
}

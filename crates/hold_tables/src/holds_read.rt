// What the tables of holds are asked.
ghost use Rattle.std.specs.Prelude.{◌≡◌, ◌<◌, ◌≤◌, ℕ, length, true, false, slice_index_or};
ghost use Rattle.std.specs.List.{list_any};
ghost use Rattle.process_tree.specs.Conflicts.{operations_in, do_conflict};
ghost use Rattle.process_tree.specs.Order.{Each};
ghost use Rattle.process_tree.specs.declared.entry.Entry.{Entry};
ghost use Rattle.schedule_model.specs.Holdings.{reaches};
ghost use Rattle.hold_tables.specs.Tables.{OpenProcess, is_open, kept_of, holdings_of};
ghost use Rattle.hold_tables.specs.Operations.{may_conflict, ops_of};
ghost use Rattle.hold_tables.specs.Slots.{TellWho};
ghost use Rattle.hold_tables.specs.Reading.{next_open, holder_against};
ghost use Rattle.hold_tables.specs.Kept.{IsKnown, AreTidy};

use crate::against::{Sought, least_of, least_reserved, least_running};
use crate::holds::Holds;
use crate::looking::{least_from, place_of};
use crate::operations::{is_clear_of, who_may_hold};
use crate::row::Row;
use bit_rows::BitRow;
use process_tree::{Conflicts, Entry};

impl Holds {
    /// What is kept of a process.
    fn row(&self, process: u32) -> &Row
        requires open { is_open self.now process ≡ true }
        ensures { result.now ≡ kept_of self.now process }
    {
        let at = place_of(&self.rows, process);
        &self.rows[at]
    }

    /// The table of conflicts.
    pub fn conflicts(&self) -> &Conflicts
        ensures table { result.now ≡ self.now.conflicts }
        ensures tidy { AreTidy self.now }
    {
        &self.conflicts
    }

    /// The least open process whose number is at least this.
    pub fn next_open(&self, from: u32) -> Option<u32>
        ensures least { result ≡ next_open self.now from }
        ensures numbers { Each (λ r. r.process < 4294967296) self.now.processes }
        ensures tidy { AreTidy self.now }
    {
        least_from(&self.rows, from)
    }

    /// How many processes are open.
    pub fn open_len(&self) -> usize
        ensures len { result ≡ length self.now.processes }
        ensures few { result ≤ 256 }
        ensures tidy { AreTidy self.now }
    {
        self.rows.len()
    }

    /// Which processes may hold something against the operation beside their nets, or have something to be undone that may be
    /// against it, by their places.
    pub fn who_may_hold(&self, op: u16) -> BitRow
        requires op { op < operations_in self.now.conflicts }
        ensures { TellWho self.now op result }
    {
        who_may_hold(&self.conflicts, &self.beside, op)
    }

    /// Whether no net entry may conflict with the operation.
    pub fn is_clear_of_net(&self, op: u16) -> bool
        requires op { op < operations_in self.now.conflicts }
        ensures clear { result ≡ true → list_any (may_conflict self.now.conflicts op) (ops_of self.now.net) ≡ false }
    {
        is_clear_of(&self.conflicts, &self.in_net, op)
    }

    /// The open process at a place, counted from 0 in the order in which they were opened.
    pub fn open_at(&self, place: usize) -> u32
        requires place { place < length self.now.processes }
        ensures number { (d : OpenProcess) → result ≡ (slice_index_or self.now.processes place d).process }
    {
        self.rows[place].process()
    }

    /// How many net entries the open processes have.
    pub fn net_len(&self) -> usize
        ensures len { result ≡ length self.now.net }
        ensures tidy { AreTidy self.now }
    {
        self.net.len()
    }

    /// The net entry at a place in joint order, counted from 0.
    pub fn net_at(&self, place: usize) -> Entry
        requires { place < length self.now.net }
        ensures entry { (d : Entry) → result ≡ slice_index_or self.now.net place d }
        ensures known { IsKnown self.now.conflicts result }
    {
        self.net[place]
    }

    /// How many net entries of the process are fixed.
    pub fn fixed(&self, process: u32) -> u16
        requires open { is_open self.now process ≡ true }
        ensures { result ≡ (kept_of self.now process).fixed }
    {
        self.row(process).fixed()
    }

    /// The number of pending entries of the process.
    pub fn pending(&self, process: u32) -> u16
        requires open { is_open self.now process ≡ true }
        ensures { result ≡ (kept_of self.now process).pending }
    {
        self.row(process).pending()
    }

    /// What is under way in the process.
    pub fn running(&self, process: u32) -> Option<Entry>
        requires open { is_open self.now process ≡ true }
        ensures { result ≡ (kept_of self.now process).running }
    {
        self.row(process).running()
    }

    /// How many steps of the process are reserved.
    pub fn reserved_len(&self, process: u32) -> u16
        requires open { is_open self.now process ≡ true }
        ensures { result ≡ length (kept_of self.now process).reserved }
    {
        self.row(process).reserved_len()
    }

    /// A reserved step of the process, its operation and its key, places from 0.
    pub fn reserved_at(&self, process: u32, place: u16) -> (u16, u16, u32)
        requires open { is_open self.now process ≡ true }
        requires within { place < length (kept_of self.now process).reserved }
        ensures { (d : ℕ × ℕ × ℕ) → result ≡ slice_index_or (kept_of self.now process).reserved place d }
    {
        self.row(process).reserved()[usize::from(place)]
    }
}

impl Holds {
    /// Whether a walk of one or more arrows of the conflict graph leads from one process to another (`docs/ADMISSION.md`).
    pub fn reaches(&self, from: u32, to: u32) -> bool
        requires from { is_open self.now from ≡ true }
        requires to { is_open self.now to ≡ true }
        ensures { result ≡ reaches (do_conflict self.now.conflicts) (holdings_of self.now) from to }
    {
        self.graph
            .walks
            .has(place_of(&self.rows, from), place_of(&self.rows, to))
    }

    /// The least other process, and its step, that holds a net entry, has one under way, or reserves one against the operation on
    /// the key. `admission` looks place by place, and doesn't call it.
    pub fn holder_against(&self, process: u32, op: u16, key: u32) -> Option<(u32, u16)>
        requires known { op < operations_in self.now.conflicts }
        ensures { result ≡ holder_against self.now process (record { op = op; key = key }) }
    {
        let sought = Sought { process, op, key };
        let reserved = least_reserved(&self.conflicts, sought, &self.rows);
        let running = least_running(&self.conflicts, sought, &self.rows, reserved);
        least_of(&self.conflicts, sought, &self.net, running)
    }
}

// What is kept of one open process.
ghost use Rattle.std.specs.Prelude.{◌≡◌, ◌≤◌, ◌<◌, length, vec_capacity};
ghost use Rattle.hold_tables.specs.Tables.{holds_nothing};
ghost use Rattle.hold_tables.specs.Changes.{with_running, with_fixed, with_first_reserved, with_reserved, with_pending};

use crate::spare::SpareCapacity;
use process_tree::Entry;
use std::marker::Model;

/// How many processes may be open.
pub const MOST: usize = 256;

/// An open process, with room for as many reserved steps as its plan has steps.
#[derive(Drop)]
pub struct Row {
    process: u32,
    steps: u16,
    running: Option<Entry>,
    reserved: Vec<(u16, u16, u32)>,
    fixed: u16,
    pending: u16,
}

impl Model for Row {
    ghost use Rattle.std.specs.Prelude.{◌≤◌, length, vec_capacity};
    ghost use Rattle.hold_tables.specs.Tables.{OpenProcess};

    ghost Value = { OpenProcess };

    ghost view = { λ r. record {
      process = r.process;
      steps = r.steps;
      running = r.running;
      reserved = r.reserved.items;
      fixed = r.fixed;
      pending = r.pending;
    } };

    ghost invariant = { λ r. (length r.reserved.items ≤ r.steps) × (r.steps ≤ vec_capacity r.reserved) };
}

impl Row {
    /// A process that holds nothing, with this room for reserved steps.
    pub fn new(process: u32, steps: u16, reserved: SpareCapacity<(u16, u16, u32)>) -> Row
        requires { steps ≤ reserved }
        ensures row { result ≡ holds_nothing process steps }
        ensures small { steps < 65536 }
    {
        Row {
            process,
            steps,
            running: None,
            reserved: reserved.into_list(),
            fixed: 0,
            pending: 0,
        }
    }

    pub fn process(&self) -> u32
        ensures { result ≡ self.now.process }
    {
        self.process
    }

    pub fn steps(&self) -> u16
        ensures { result ≡ self.now.steps }
    {
        self.steps
    }

    pub fn running(&self) -> Option<Entry>
        ensures { result ≡ self.now.running }
    {
        self.running
    }

    pub fn fixed(&self) -> u16
        ensures { result ≡ self.now.fixed }
    {
        self.fixed
    }

    pub fn pending(&self) -> u16
        ensures { result ≡ self.now.pending }
    {
        self.pending
    }

    pub fn reserved(&self) -> &[(u16, u16, u32)]
        ensures { result.now ≡ self.now.reserved }
    {
        &self.reserved
    }

    pub fn reserved_len(&self) -> u16
        ensures { result ≡ length self.now.reserved }
    {
        let len = self.reserved.len().min(usize::from(self.steps));
        len as u16
    }

    pub fn run(&mut self, running: Option<Entry>)
        ensures { self.new ≡ with_running running self.old }
    {
        self.running = running;
    }

    pub fn fix(&mut self, fixed: u16)
        ensures { self.new ≡ with_fixed fixed self.old }
    {
        self.fixed = fixed;
    }

    pub fn pend(&mut self, pending: u16)
        ensures { self.new ≡ with_pending pending self.old }
    {
        self.pending = pending;
    }

    pub fn reserve(&mut self, steps: &[(u16, u16, u32)])
        requires { length steps.now ≤ self.old.steps }
        ensures { self.new ≡ with_reserved steps.now self.old }
    {
        replace(&mut self.reserved, steps);
    }

    pub fn keep_reserved(&mut self, count: usize)
        ensures { self.new ≡ with_first_reserved count self.old }
    {
        self.reserved.truncate(count);
    }
}

// Puts these in place of what is there.
fn replace(list: &mut Vec<(u16, u16, u32)>, items: &[(u16, u16, u32)])
    requires { length items.now ≤ vec_capacity list.old }
    ensures items { list.new.items ≡ items.now }
    ensures capacity { vec_capacity list.new ≡ vec_capacity list.old }
{
    list.clear();
    let mut rest = items;
    while let [item, after @ ..] = rest {
        list.push_reserved(*item);
        rest = after;
    }
}

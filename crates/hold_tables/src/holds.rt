// The tables of what the open processes hold.
ghost use Rattle.std.specs.Prelude.{◌≡◌, ◌<◌, ◌≤◌, ◌+◌, length, true, false, IfOk, OnOk, OnErr, None, Some, is_some};
ghost use Rattle.process_tree.specs.Blocks.{outline};
ghost use Rattle.process_tree.specs.Conflicts.{operations_in};
ghost use Rattle.process_tree.specs.Order.{Each};
ghost use Rattle.hold_tables.specs.Tables.{is_open, kept_of};
ghost use Rattle.hold_tables.specs.Changes.{none_open, opened, changed, with_pending, with_first_reserved, with_reserved, run};
ghost use Rattle.hold_tables.specs.Changes.{stopped, took_effect, all_fixed, dropped, can_run, undoes};
ghost use Rattle.hold_tables.specs.Kept.{IsKnown, AreKnown};
ghost use Rattle.hold_tables.specs.Places.{all_steps};
ghost use Rattle.hold_tables.specs.Spare.{IsRoomIn};

use crate::graph::{Graph, close_if, tell_run, tell_step};
use crate::looking::{all_steps, count_of, place_of, remove_last};
use crate::operations::{Beside, nothing_beside, tell_dropped};
use crate::reach::{leads_through, step_has_arrows};
use crate::row::{MOST, Row};
use crate::slots::{
    ROWS, clear_steps, set_op, take_place, tell_net, tell_pending, tell_reserved, tell_running,
};
use crate::spare::Spare;
use crate::uncounting::{uncount_last, uncount_running};
use bit_rows::{Bits, Counts};
use process_tree::{Conflicts, Entry, Plan};
use std::alloc::{AllocError, Global};
use std::marker::Model;

/// What the open processes hold.
#[derive(Drop)]
pub struct Holds {
    alloc: Global,
    pub(crate) conflicts: Conflicts,
    pub(crate) net: Vec<Entry>,
    pub(crate) rows: Vec<Row>,
    pub(crate) graph: Graph,
    /// What is held beside the net.
    pub(crate) beside: Beside,
    /// The operations of the net entries, at the places of their processes.
    pub(crate) in_net: Bits,
}

impl Model for Holds {
    ghost use Rattle.std.specs.Prelude.{vec_capacity};
    ghost use Rattle.hold_tables.specs.Tables.{Tables};
    ghost use Rattle.hold_tables.specs.Kept.{Stands};
    ghost use Rattle.hold_tables.specs.Arrows.{TellGraph};
    ghost use Rattle.hold_tables.specs.Operations.{TellBeside, TellRows, net_ops};

    ghost Value = { Tables };

    ghost view = { λ h. record { conflicts = h.conflicts; net = h.net.items; processes = h.rows.items } };

    ghost invariant = { λ h. Stands h.conflicts h.net.items h.rows.items (vec_capacity h.net)
        × TellGraph (record { conflicts = h.conflicts; net = h.net.items; processes = h.rows.items }) h.graph
        × TellBeside h.net.items h.rows.items h.beside × TellRows (net_ops h.net.items) h.rows.items h.in_net };
}

impl Holds {
    /// The tables of no process, over an equal table of conflicts.
    pub fn new(alloc: Global, c: &Conflicts) -> Result<Holds, AllocError>
        ensures { IfOk result (λ holds. holds ≡ none_open c.now) }
    {
        Ok(Holds {
            alloc,
            conflicts: c.copy(alloc)?,
            net: Vec::new(alloc),
            rows: Vec::new(alloc),
            graph: Graph {
                counts: Counts::new(alloc)?,
                walks: Bits::new(alloc)?,
            },
            beside: nothing_beside(alloc)?,
            in_net: Bits::with_rows(alloc, ROWS)?,
        })
    }

    /// A process begins to hold, and all room is taken that it can need.
    pub fn open(&mut self, process: u32, plan: &Plan) -> Result<(), AllocError>
        requires closed { is_open self.old process ≡ false }
        requires known { Each (λ op. op < operations_in self.old.conflicts) plan.now.ops }
        ensures opened { OnOk result (self.new ≡ opened process (length (outline plan.now.tree).steps) self.old) }
        ensures err { OnErr result (self.new ≡ self.old) }
    {
        let spare = self.spare(plan)?;
        self.open_with(process, spare);
        Ok(())
    }

    /// The room that a process of this plan needs in the tables as they are.
    pub fn spare(&self, plan: &Plan) -> Result<Spare, AllocError>
        ensures steps { IfOk result (λ spare. spare.steps ≡ length (outline plan.now.tree).steps) }
        ensures room { IfOk result (λ spare. IsRoomIn self.now spare) }
    {
        if self.rows.len() >= MOST {
            return Err(AllocError);
        }
        let steps = plan.tree.count();
        let room = room_with(&self.rows, steps)?;
        let net = self.net.len().checked_add(room).ok_or(AllocError)?;
        Spare::new(self.alloc, steps, net, self.rows.len() + 1)
    }

    /// A process begins to hold, in room that was taken for it.
    pub fn open_with(&mut self, process: u32, spare: Spare)
        requires closed { is_open self.old process ≡ false }
        requires room { IsRoomIn self.old spare }
        ensures { self.new ≡ opened process spare.steps self.old }
    {
        let row = Row::new(process, spare.steps, spare.reserved);
        spare.net.give_to(&mut self.net);
        spare.rows.give_to(&mut self.rows);
        self.rows.push_reserved(row);
        self.graph.counts.add_place();
        self.graph.walks.add_place();
    }

    /// The entry comes under way in its process.
    pub fn run(&mut self, e: Entry)
        requires open { is_open self.old e.process ≡ true }
        requires none { (kept_of self.old e.process).running ≡ None }
        requires known { IsKnown self.old.conflicts e }
        requires may { can_run self.old e ≡ true }
        ensures { self.new ≡ run e self.old }
    {
        let at = place_of(&self.rows, e.process);
        let changed = step_has_arrows(&self.conflicts, &self.net, &self.in_net, Some(e));
        self.rows[at].run(Some(e));
        tell_run(
            changed,
            &mut self.graph,
            &self.conflicts,
            &self.rows,
            &self.net,
            e,
        );
        tell_running(&mut self.beside.running, at, None, Some(e));
    }

    /// Nothing is under way in the process.
    pub fn stop(&mut self, process: u32)
        requires open { is_open self.old process ≡ true }
        ensures { self.new ≡ stopped process self.old }
    {
        let at = place_of(&self.rows, process);
        let running = self.rows[at].running();
        let gone = uncount_running(
            &mut self.graph.counts,
            &self.conflicts,
            &self.rows,
            &self.net,
            running,
        );
        self.rows[at].run(None);
        close_if(
            gone,
            &mut self.graph,
            &self.conflicts,
            &self.rows,
            &self.net,
        );
        tell_running(&mut self.beside.running, at, running, None);
    }

    /// What is under way in the process took effect.
    pub fn take_effect(&mut self, process: u32)
        requires open { is_open self.old process ≡ true }
        requires running { is_some (kept_of self.old process).running ≡ true }
        ensures { self.new ≡ took_effect process self.old }
    {
        let at = place_of(&self.rows, process);
        let Some(e) = self.rows[at].running() else {
            unreachable!();
        };
        if e.undo {
            self.undone(process);
        } else {
            self.done(process, e);
        }
    }

    // The step took effect that is under way in the process.
    fn done(&mut self, process: u32, e: Entry)
        requires open { is_open self.old process ≡ true }
        requires running { (kept_of self.old process).running ≡ Some e }
        requires step { e.undo ≡ false }
        ensures { self.new ≡ took_effect process self.old }
    {
        let at = place_of(&self.rows, process);
        self.net.push_reserved(e);
        self.rows[at].run(None);
        tell_step(&mut self.graph, &self.conflicts, &self.rows, &self.net, e);
        tell_running(&mut self.beside.running, at, Some(e), None);
        tell_pending(
            &mut self.beside.pending,
            at,
            self.rows[at].pending(),
            &self.rows[at],
            &self.net,
        );
        set_op(&mut self.in_net, at, e.op);
    }

    // The undo took effect that is under way in the process.
    fn undone(&mut self, process: u32)
        requires open { is_open self.old process ≡ true }
        requires undo { undoes (kept_of self.old process).running ≡ true }
        ensures { self.new ≡ took_effect process self.old }
    {
        let at = place_of(&self.rows, process);
        let gone = uncount_last(
            &mut self.graph.counts,
            &self.conflicts,
            &self.rows,
            &self.net,
            &self.in_net,
            process,
        );
        remove_last(&mut self.net, process);
        let running = self.rows[at].running();
        self.rows[at].run(None);
        close_if(
            gone,
            &mut self.graph,
            &self.conflicts,
            &self.rows,
            &self.net,
        );
        tell_running(&mut self.beside.running, at, running, None);
        tell_pending(
            &mut self.beside.pending,
            at,
            self.rows[at].pending(),
            &self.rows[at],
            &self.net,
        );
        tell_net(&mut self.in_net, at, process, &self.net);
    }

    /// All net entries that the process has are fixed.
    pub fn fix(&mut self, process: u32)
        requires open { is_open self.old process ≡ true }
        requires forward { undoes (kept_of self.old process).running ≡ false }
        ensures { self.new ≡ all_fixed process self.old }
    {
        let at = place_of(&self.rows, process);
        let most = usize::from(self.rows[at].steps());
        let fixed = count_of(&self.net, process).min(most);
        self.rows[at].fix(fixed as u16);
    }

    /// These, each a step with its operation and its key, are the reserved steps of the process.
    pub fn reserve(&mut self, process: u32, steps: &[(u16, u16, u32)])
        requires open { is_open self.old process ≡ true }
        requires room { length steps.now ≤ (kept_of self.old process).steps }
        requires known { AreKnown self.old.conflicts steps.now }
        ensures { self.new ≡ changed (with_reserved steps.now) process self.old }
    {
        let at = place_of(&self.rows, process);
        clear_steps(&mut self.beside.reserved, at, self.rows[at].reserved());
        self.rows[at].reserve(steps);
        tell_reserved(&mut self.beside.reserved, at, self.rows[at].reserved());
    }

    /// Only the first so many of the reserved steps of the process stay reserved.
    pub fn keep_reserved(&mut self, process: u32, count: usize)
        requires open { is_open self.old process ≡ true }
        ensures { self.new ≡ changed (with_first_reserved count) process self.old }
    {
        let at = place_of(&self.rows, process);
        clear_steps(&mut self.beside.reserved, at, self.rows[at].reserved());
        self.rows[at].keep_reserved(count);
        tell_reserved(&mut self.beside.reserved, at, self.rows[at].reserved());
    }

    /// So many of the last net entries of the process are to be undone.
    pub fn pend(&mut self, process: u32, count: u16)
        requires open { is_open self.old process ≡ true }
        ensures { self.new ≡ changed (with_pending count) process self.old }
    {
        let at = place_of(&self.rows, process);
        let before = self.rows[at].pending();
        self.rows[at].pend(count);
        tell_pending(
            &mut self.beside.pending,
            at,
            before,
            &self.rows[at],
            &self.net,
        );
    }

    /// The process holds nothing any more.
    pub fn drop_process(&mut self, process: u32)
        requires open { is_open self.old process ≡ true }
        ensures { self.new ≡ dropped process self.old }
    {
        let at = place_of(&self.rows, process);
        let linked = leads_through(&self.graph.walks, at);
        self.net.retain(|e| e.process != process);
        self.rows.retain(|row| row.process() != process);
        self.graph.counts.take_place(at);
        self.graph.walks.take_place(at);
        close_if(
            linked,
            &mut self.graph,
            &self.conflicts,
            &self.rows,
            &self.net,
        );
        tell_dropped(&mut self.beside, at);
        take_place(&mut self.in_net, at);
    }
}

/// The room that the net needs with a process of so many steps.
fn room_with(rows: &[Row], steps: u16) -> Result<usize, AllocError>
    ensures { IfOk result (λ room. room ≡ all_steps rows.now + steps) }
{
    let Some(all) = all_steps(rows) else {
        return Err(AllocError);
    };
    all.checked_add(usize::from(steps)).ok_or(AllocError)
}

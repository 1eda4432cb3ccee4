// Tables of conflicts.
ghost use Rattle.std.specs.Prelude.{◌≡◌, ◌<◌, ◌-◌, ℕ, min, max, if◌then◌else◌, IfOk, false, true};
ghost use Rattle.process_tree.specs.Conflicts.{is_table, operations_in, mode_of, covers, do_conflict, no_conflicts, with_mode};
ghost use Rattle.process_tree.specs.Conflicts.{is_same_pair};
ghost use Rattle.process_tree.specs.Entries.{conflict};

use crate::Entry;
use std::alloc::{AllocError, Global};
use std::marker::Model;

/// When steps of different processes conflict, by their operations.
#[derive(Clone, Copy, Debug, PartialEq, Eq)]
pub enum Mode {
    Never,
    /// Where their keys are equal.
    Key,
    /// Whatever their keys are.
    Always,
}

impl Mode {
    /// Whether steps with these keys conflict.
    pub fn covers(self, key_a: u32, key_b: u32) -> bool
        ensures { result ≡ covers self key_a key_b }
    {
        match self {
            Mode::Never => false,
            Mode::Key => key_a == key_b,
            Mode::Always => true,
        }
    }
}

/// A symmetric table of the modes of operations, which are numbered from 0.
#[derive(Drop)]
pub struct Conflicts {
    rows: Vec<Row>,
}

impl Model for Conflicts {
    ghost use Rattle.std.specs.Prelude.{true, ◌≡◌};
    ghost use Rattle.process_tree.specs.Conflicts.{Table, is_table};

    ghost Value = { Table };

    ghost view = { λ t. t.rows.items };

    ghost invariant = { λ t. is_table t.rows.items ≡ true };
}

// The mode of an operation with itself, with the next one, and so on.
#[derive(Drop)]
struct Row {
    cells: Vec<Mode>,
}

impl Model for Row {
    ghost use Rattle.std.specs.Prelude.{List};
    ghost use Rattle.process_tree.specs.declared.conflicts.Mode.{Mode};

    ghost Value = { List Mode };

    ghost view = { λ r. r.cells.items };
}

impl Conflicts {
    /// The table of so many operations that never conflict.
    pub fn new(alloc: Global, ops: u16) -> Result<Conflicts, AllocError>
        ensures table { IfOk result (λ t. t ≡ no_conflicts ops) }
        ensures none { IfOk result (λ t. (a b : ℕ) → mode_of t a b ≡ Mode.Never) }
    {
        let mut rows = Vec::new(alloc);
        for first in 0..ops {
            rows.push(Row {
                cells: vec![in alloc; Mode::Never; usize::from(ops - first)]?,
            })?;
        }
        Ok(Conflicts { rows })
    }
}

impl Conflicts {
    /// How many operations there are.
    pub fn operations(&self) -> usize
        ensures { result ≡ operations_in self.now }
    {
        self.rows.len()
    }

    /// The mode of two operations.
    pub fn mode(&self, a: u16, b: u16) -> Mode
        requires a_is_one { a < operations_in self.now }
        requires b_is_one { b < operations_in self.now }
        ensures mode { result ≡ mode_of self.now a b }
        ensures table { is_table self.now ≡ true }
    {
        let (at, cell) = place_of(a, b);
        let row = &self.rows[at];
        row.cells[cell]
    }

    /// Whether steps with these operations and keys conflict, where their processes differ.
    pub fn holds(&self, a: u16, key_a: u32, b: u16, key_b: u32) -> bool
        requires a_is_one { a < operations_in self.now }
        requires b_is_one { b < operations_in self.now }
        ensures { result ≡ do_conflict self.now (record { op = a; key = key_a }) (record { op = b; key = key_b }) }
    {
        self.mode(a, b).covers(key_a, key_b)
    }

    /// Whether two entries conflict.
    pub fn between(&self, a: Entry, b: Entry) -> bool
        requires a_is_one { a.op < operations_in self.now }
        requires b_is_one { b.op < operations_in self.now }
        ensures { result ≡ conflict (do_conflict self.now) a b }
    {
        a.process != b.process && self.holds(a.op, a.key, b.op, b.key)
    }

    /// Gives two operations a mode, in either order.
    pub fn set(&mut self, a: u16, b: u16, mode: Mode)
        requires a_is_one { a < operations_in self.old }
        requires b_is_one { b < operations_in self.old }
        ensures set { self.new ≡ with_mode self.old a b mode }
        ensures pairs { (c d : ℕ) → mode_of self.new c d ≡ (if is_same_pair a b c d then mode else mode_of self.old c d) }
        ensures count { operations_in self.new ≡ operations_in self.old }
    {
        let (at, cell) = place_of(a, b);
        let row = &mut self.rows[at];
        row.cells[cell] = mode;
    }

    /// An equal table.
    pub fn copy(&self, alloc: Global) -> Result<Conflicts, AllocError>
        ensures copy { IfOk result (λ t. t ≡ self.now) }
        ensures table { IfOk result (λ t. is_table t ≡ true) }
    {
        let mut rows = Vec::new(alloc);
        for row in &self.rows {
            rows.push(Row {
                cells: row.cells.as_slice().to_vec(alloc)?,
            })?;
        }
        Ok(Conflicts { rows })
    }
}

// The row and the cell of a pair.
fn place_of(a: u16, b: u16) -> (usize, usize)
    ensures row { result.0 ≡ min a b }
    ensures cell { result.1 ≡ max a b - min a b }
{
    let least = a.min(b);
    (usize::from(least), usize::from(a.max(b) - least))
}

// Lists of what entries do.
ghost use Rattle.std.specs.Prelude.{◌≡◌, ◌<◌, ◌||◌, not, [], ℕ, Bool, nat_eq, IfOk, OnOk, vec_len, vec_capacity};
ghost use Rattle.std.specs.List.{list_any};
ghost use Rattle.process_tree.specs.Conflicts as conflicts;
ghost use Rattle.process_tree.specs.Conflicts.{Table, do_conflict, mode_of, operations_in, same_access};
ghost use Rattle.process_tree.specs.Entries.{access_of};
ghost use Rattle.process_tree.specs.Order.{Each};
ghost use Rattle.history_judging.specs.Conflicting.{access_conflicts, is_always, is_never, AreOperationsOf};

use process_tree::{Conflicts, Entry, Mode};
use std::alloc::{AllocError, Global};
use std::marker::Model;

/// What an entry does: an operation, on a key.
#[derive(Drop)]
struct Access {
    op: u16,
    key: u32,
}

impl Model for Access {
    ghost use Rattle.process_tree.specs.Conflicts as conflicts;

    ghost Value = { conflicts.Access };

    ghost view = { λ a. record { op = a.op; key = a.key } };
}

impl Access {
    /// What an entry does.
    fn of(entry: &Entry) -> Access
        ensures { result ≡ access_of entry.now }
    {
        Access {
            op: entry.op,
            key: entry.key,
        }
    }
}

/// Accesses, each once. Beside them their operations are listed, each once, since most questions are answered by these alone.
#[derive(Drop)]
pub struct Accesses {
    ops: Vec<u16>,
    listed: Vec<Access>,
}

impl Model for Accesses {
    ghost use Rattle.std.specs.Prelude.{List};
    ghost use Rattle.process_tree.specs.Conflicts as conflicts;
    ghost use Rattle.history_judging.specs.Conflicting.{AreOperationsOf};

    ghost Value = { List conflicts.Access };

    ghost view = { λ a. a.listed.items };

    ghost invariant = { λ a. AreOperationsOf a.ops.items a.listed.items };
}

impl Accesses {
    /// No access.
    pub fn new(alloc: Global) -> Accesses
        ensures { result ≡ [] }
    {
        Accesses {
            ops: Vec::new(alloc),
            listed: Vec::new(alloc),
        }
    }

    /// Adds what an entry does.
    pub fn add(&mut self, entry: &Entry) -> Result<(), AllocError>
        ensures conflicts { OnOk result
            ((table : Table) (a : conflicts.Access) → access_conflicts (do_conflict table) self.new a
            ≡ (do_conflict table (access_of entry.now) a || access_conflicts (do_conflict table) self.old a)) }
        ensures known { (n : ℕ) → entry.now.op < n → Each (λ a. a.op < n) self.old → Each (λ a. a.op < n) self.new }
    {
        if !is_listed(&self.listed, entry) {
            self.ops.reserve(1)?;
            self.listed.push(Access::of(entry))?;
            list_op(&mut self.ops, entry.op);
        }
        Ok(())
    }

    /// Whether one of them conflicts with what an entry does.
    pub fn conflict(&self, c: &Conflicts, entry: &Entry) -> bool
        requires entry { entry.now.op < operations_in c.now }
        requires known { Each (λ a. a.op < operations_in c.now) self.now }
        ensures { result ≡ access_conflicts (do_conflict c.now) self.now (access_of entry.now) }
    {
        if always_conflicts(c, &self.ops, entry.op) {
            return true;
        }
        may_conflict(c, &self.ops, entry.op) && conflicts_on_key(c, &self.listed, entry)
    }
}

/// Whether what an entry does is listed.
fn is_listed(accesses: &[Access], entry: &Entry) -> bool
    ensures { result ≡ list_any (same_access (access_of entry.now)) accesses.now }
{
    accesses
        .iter()
        .any(|other| entry.op == other.op && entry.key == other.key)
}

/// Lists an operation, each once, where there is room for it.
fn list_op(ops: &mut Vec<u16>, op: u16)
    requires room { vec_len ops.old < vec_capacity ops.old }
    ensures { (p : ℕ → Bool) → list_any p ops.new.items ≡ (p op || list_any p ops.old.items) }
{
    if !has_op(ops, op) {
        ops.push_reserved(op);
    }
}

fn has_op(ops: &[u16], op: u16) -> bool
    ensures { result ≡ list_any (nat_eq op) ops.now }
{
    ops.iter().any(|other| op == *other)
}

/// Whether one of these operations conflicts with another on all keys.
fn always_conflicts(c: &Conflicts, ops: &[u16], op: u16) -> bool
    requires op { op < operations_in c.now }
    requires known { Each (λ o. o < operations_in c.now) ops.now }
    ensures { result ≡ list_any (λ o. is_always (mode_of c.now o op)) ops.now }
{
    ops.iter().any(|other| c.mode(*other, op) == Mode::Always)
}

/// Whether one of these operations conflicts with another on some keys.
fn may_conflict(c: &Conflicts, ops: &[u16], op: u16) -> bool
    requires op { op < operations_in c.now }
    requires known { Each (λ o. o < operations_in c.now) ops.now }
    ensures { result ≡ list_any (λ o. not (is_never (mode_of c.now o op))) ops.now }
{
    ops.iter().any(|other| c.mode(*other, op) != Mode::Never)
}

/// Whether one of these accesses conflicts with what an entry does.
fn conflicts_on_key(c: &Conflicts, accesses: &[Access], entry: &Entry) -> bool
    requires entry { entry.now.op < operations_in c.now }
    requires known { Each (λ a. a.op < operations_in c.now) accesses.now }
    ensures { result ≡ access_conflicts (do_conflict c.now) accesses.now (access_of entry.now) }
{
    accesses
        .iter()
        .any(|other| c.holds(other.op, other.key, entry.op, entry.key))
}

/// What these entries do.
pub fn accesses_of(alloc: Global, entries: &[Entry]) -> Result<Accesses, AllocError>
    ensures conflicts { IfOk result
        (λ accesses. (table : Table) (a : conflicts.Access)
        → access_conflicts (do_conflict table) accesses a ≡ list_any (λ e. do_conflict table (access_of e) a) entries.now) }
    ensures known { IfOk result (λ accesses. (n : ℕ) → Each (λ e. e.op < n) entries.now → Each (λ a. a.op < n) accesses) }
{
    let mut accesses = Accesses::new(alloc);
    let mut rest = entries;
    while let [entry, after @ ..] = rest {
        accesses.add(entry)?;
        rest = after;
    }
    Ok(accesses)
}

// Which processes have to come before which.
ghost use Rattle.std.specs.Prelude.{◌≡◌, ◌<◌, ◌||◌, ◌&&◌, ℕ, length, nat_eq, IfOk};
ghost use Rattle.std.specs.List.{list_any};
ghost use Rattle.process_tree.specs.Conflicts.{do_conflict, operations_in};
ghost use Rattle.schedule_model.specs.Conflict.{conflict};
ghost use Rattle.bit_rows.specs.Cells.{cell};
ghost use Rattle.dependence_model.specs.Dependence.{must_precede};
ghost use Rattle.audit_core.specs.Taking.{AreAllKnown};
ghost use Rattle.audit_core.specs.Arrows.{AreFew, HasArrows, columns};

use bit_rows::{Bits, COLUMNS};
use dependence_model::Placed;
use process_tree::{Conflicts, Entry};
use schedule_rules::conflict;
use std::alloc::{AllocError, Global};

// Sets an arrow.
fn set_arrow(rows: &mut Bits, from: u32, to: u32)
    requires count { length rows.old ≡ columns }
    requires from { from < columns }
    requires to { to < columns }
    ensures count { length rows.new ≡ columns }
    ensures at { (i j : ℕ) → cell rows.new j i ≡ (cell rows.old j i || (nat_eq from i && nat_eq to j)) }
{
    rows.set(to as usize, from as usize);
}

// Sets an arrow from the process of an entry to that of a later one, if they conflict.
fn add_arrow(c: &Conflicts, x: &Entry, y: &Entry, rows: &mut Bits)
    requires x { x.now.op < operations_in c.now }
    requires y { y.now.op < operations_in c.now }
    requires from { x.now.process < columns }
    requires to { y.now.process < columns }
    requires count { length rows.old ≡ columns }
    ensures count { length rows.new ≡ columns }
    ensures at { (i j : ℕ) → cell rows.new j i
        ≡ (cell rows.old j i || (nat_eq x.now.process i && (nat_eq y.now.process j && conflict (do_conflict c.now) x.now y.now))) }
{
    if conflict(c, x, y) {
        set_arrow(rows, x.process, y.process);
    }
}

// Sets the arrows from the process of an entry to those of the entries behind it that conflict with it.
fn add_arrows(c: &Conflicts, x: &Entry, behind: &[Placed], rows: &mut Bits)
    requires x { x.now.op < operations_in c.now }
    requires known { AreAllKnown c.now behind.now }
    requires from { x.now.process < columns }
    requires few { AreFew behind.now }
    requires count { length rows.old ≡ columns }
    ensures count { length rows.new ≡ columns }
    ensures at { (i j : ℕ) → cell rows.new j i ≡ (cell rows.old j i
        || (nat_eq x.now.process i && list_any (λ y. nat_eq y.entry.process j && conflict (do_conflict c.now) x.now y.entry) behind.now)) }
{
    let mut rest = behind;
    while let [y, after @ ..] = rest {
        add_arrow(c, x, &y.entry, rows);
        rest = after;
    }
}

/// Which processes of these entries have to come before which: row j has each that has to come before process j.
pub fn arrows(alloc: Global, c: &Conflicts, left: &[Placed]) -> Result<Bits, AllocError>
    requires known { AreAllKnown c.now left.now }
    requires few { AreFew left.now }
    ensures { IfOk result (λ rows. HasArrows (must_precede (do_conflict c.now) left.now) rows) }
{
    let mut rows = Bits::with_rows(alloc, COLUMNS)?;
    let mut rest = left;
    while let [x, after @ ..] = rest {
        add_arrows(c, &x.entry, after, &mut rows);
        rest = after;
    }
    Ok(rows)
}

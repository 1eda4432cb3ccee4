// The cycle that is told.
ghost use Rattle.std.specs.Prelude.{◌≡◌, ◌<◌, ◌≤◌, ◌+◌, ◌∷◌, ℕ, List, length, IfOk};
ghost use Rattle.process_tree.specs.Conflicts.{do_conflict};
ghost use Rattle.schedule_model.specs.Graph.{Arrow};
ghost use Rattle.dependence_model.specs.Dependence.{must_precede, processes_of};
ghost use Rattle.audit_core.specs.Taking.{AreAllKnown};
ghost use Rattle.audit_core.specs.Arrows.{AreFew, AreShortest, FindsCycle, FindsLayers, HasAll, HasArrows, IsLeastBack, IsNext, IsStepBack, columns};

use crate::arrowing::arrows;
use bit_rows::{BitRow, Bits, COLUMNS};
use dependence_model::Placed;
use process_tree::Conflicts;
use std::alloc::{AllocError, Global};

// The processes from which an arrow leads to one of these.
fn step_back(rows: &Bits, set: &BitRow) -> BitRow
    requires count { length rows.now ≡ columns }
    ensures { IsStepBack rows.now set.now result }
{
    let mut before = BitRow::new();
    for k in 0..COLUMNS {
        if set.has(k) {
            before.add(rows.row(k));
        }
    }
    before
}

// From which processes one comes back to the first by one arrow, by two, and so on, until it comes back to itself; or None, where it
// doesn't through so many others.
fn layers_of(
    alloc: Global,
    rows: &Bits,
    first: usize,
    most: usize,
) -> Result<Option<Vec<BitRow>>, AllocError>
    requires first { first < columns }
    requires count { length rows.now ≡ columns }
    ensures { IfOk result (λ found. (arrow : Arrow) → HasArrows arrow rows.now → FindsLayers arrow first most found) }
{
    let mut layers = Vec::new(alloc);
    let mut last = rows.row(first).copy();
    while layers.len() <= most && !last.is_empty() {
        let back = last.has(first);
        let next = step_back(rows, &last);
        layers.push(last)?;
        if back {
            return Ok(Some(layers));
        }
        last = next;
    }
    Ok(None)
}

// The least of these processes to which an arrow leads from process i.
fn least_next(rows: &Bits, set: &BitRow, i: usize) -> usize
    requires i { i < columns }
    requires count { length rows.now ≡ columns }
    requires some { (k : ℕ) × (k < columns) × IsNext rows.now set.now i k }
    ensures within { result < columns }
    ensures next { IsNext rows.now set.now i result }
    ensures least { (k : ℕ) → k < result → IsNext rows.now set.now i k → ⊥ }
{
    let mut k = 0;
    while !(set.has(k) && rows.has(k, i)) {
        k += 1;
    }
    k
}

// The least cycle of fewest arrows through the first, by the layers that lead back to it.
fn cycle_through(
    alloc: Global,
    rows: &Bits,
    layers: &[BitRow],
    first: usize,
) -> Result<Vec<u32>, AllocError>
    requires first { first < columns }
    requires count { length rows.now ≡ columns }
    requires layers { (arrow : Arrow) × HasArrows arrow rows.now × AreShortest arrow first layers.now }
    ensures { IfOk result (λ cycle. (arrow : Arrow) → HasArrows arrow rows.now → AreShortest arrow first layers.now
        → (others : List ℕ) × (cycle.items ≡ first ∷ others) × (length others + 1 ≡ length layers.now)
        × IsLeastBack arrow first first (length others) others) }
{
    let mut cycle = Vec::new(alloc);
    cycle.push(first as u32)?;
    let mut last = first;
    let mut left = layers.len() - 1;
    while left > 0 {
        left -= 1;
        last = least_next(rows, &layers[left], last);
        cycle.push(last as u32)?;
    }
    Ok(cycle)
}

// The told cycle of these arrows, if there is one. So many processes are looked at.
fn first_cycle(alloc: Global, rows: &Bits, most: usize) -> Result<Option<Vec<u32>>, AllocError>
    requires count { length rows.now ≡ columns }
    ensures { IfOk result (λ found. (arrow : Arrow) (all : List ℕ) → HasArrows arrow rows.now → HasAll arrow all → length all ≤ most
        → FindsCycle arrow all found) }
{
    for first in 0..COLUMNS {
        if let Some(sets) = layers_of(alloc, rows, first, most)? {
            let cycle = cycle_through(alloc, rows, &sets, first)?;
            return Ok(Some(cycle));
        }
    }
    Ok(None)
}

/// The cycle of the processes of these entries that is told, if some process has to come before itself.
pub fn told_cycle(
    alloc: Global,
    c: &Conflicts,
    left: &[Placed],
) -> Result<Option<Vec<u32>>, AllocError>
    requires known { AreAllKnown c.now left.now }
    requires few { AreFew left.now }
    ensures { IfOk result (λ found. FindsCycle (must_precede (do_conflict c.now) left.now) (processes_of left.now) found) }
{
    let rows = arrows(alloc, c, left)?;
    first_cycle(alloc, &rows, left.len())
}

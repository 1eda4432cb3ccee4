// The keys of entries.
ghost use Rattle.std.specs.Prelude.{◌≡◌, ℕ, IfOk};
ghost use Rattle.std.specs.List.{Contains};
ghost use Rattle.std.specs.List.Sorted.{IsStrictlySortedBy};
ghost use Rattle.std.specs.Ordering.{nat_cmp};
ghost use Rattle.serial_values.specs.Told.{entry_keys};

use commute_table::Op;
use history_files::effect_of;
use process_tree::{Entry, Plan};
use std::alloc::{AllocError, Global};

// The key of each of these entries, in their order.
fn keys_of(
    alloc: Global,
    ops: &[Op],
    plans: &[Plan],
    entries: &[Entry],
) -> Result<Vec<u32>, AllocError>
    ensures { IfOk result (λ keys. keys.items ≡ entry_keys plans.now entries.now) }
{
    let mut keys = Vec::new(alloc);
    let mut rest = entries;
    while let [entry, after @ ..] = rest {
        keys.push(effect_of(ops, plans, 0, entry).call.key)?;
        rest = after;
    }
    Ok(keys)
}

/// The keys of these entries, each once, in ascending order.
pub fn keys_in(
    alloc: Global,
    ops: &[Op],
    plans: &[Plan],
    entries: &[Entry],
) -> Result<Vec<u32>, AllocError>
    ensures all { IfOk result (λ keys. (k : ℕ) → Contains (entry_keys plans.now entries.now) k → Contains keys.items k) }
    ensures sorted { IfOk result (λ keys. IsStrictlySortedBy nat_cmp keys.items) }
{
    let mut keys = keys_of(alloc, ops, plans, entries)?;
    keys.sort_unstable();
    keys.dedup();
    Ok(keys)
}

// Steps applied one after another.
ghost use Rattle.std.specs.Prelude.{◌≡◌, ◌≤◌, length, true, false, Some, None, MatchOption};
ghost use Rattle.process_tree.specs.Conflicts.{do_conflict};
ghost use Rattle.schedule_model.specs.Reduction.{applied};
ghost use Rattle.schedule_rules.specs.Applying.{AreKnown};
ghost use Rattle.trace_verify.specs.Verdicts.{last_list, refused, outcome_from};

use process_tree::{Conflicts, Entry};
use schedule_model::TraceStep;
use schedule_rules::apply;

// Applies a step, and tells whether it applies.
fn has_applied(list: &mut Vec<Entry>, table: &Conflicts, step: TraceStep) -> bool
    requires known { AreKnown table.now list.old.items }
    ensures applied { result ≡ true → applied (do_conflict table.now) step list.old.items ≡ Some list.new.items }
    ensures refused { result ≡ false → applied (do_conflict table.now) step list.old.items ≡ None }
    ensures unchanged { result ≡ false → list.new.items ≡ list.old.items }
{
    apply(list, table, step).is_some()
}

/// Applies steps in turn, up to the first that doesn't apply, which is answered by its number.
pub fn apply_all(list: &mut Vec<Entry>, table: &Conflicts, steps: &[TraceStep]) -> Option<u32>
    requires known { AreKnown table.now list.old.items }
    requires few { length steps.now ≤ 65536 }
    ensures outcome { MatchOption result
        (outcome_from (do_conflict table.now) 1 steps.now list.old.items ≡ last_list list.new.items)
        (λ k. outcome_from (do_conflict table.now) 1 steps.now list.old.items ≡ refused k) }
    ensures no_longer { length list.new.items ≤ length list.old.items }
{
    let mut rest = steps;
    let mut number = 1;
    while let [step, after @ ..] = rest {
        if !has_applied(list, table, *step) {
            return Some(number);
        }
        number += 1;
        rest = after;
    }
    None
}

// Whether a catalog names each conflict in value.
ghost use Rattle.std.specs.Prelude.{◌≡◌, ◌<◌, ◌-◌, length};
ghost use Rattle.process_tree.specs.Blocks.{numbers_from};
ghost use Rattle.commute_table.specs.Operations.{IsCatalog};
ghost use Rattle.value_conflict.specs.ValueConflict.{commute, conflict_in_value, is_commuting, first_with, first_commuting};
ghost use Rattle.value_conflict.specs.Soundness.{pair_with, pair_of};

use commute_table::{Catalog, Op, Verb};
use process_tree::Mode;

/// Two operations that conflict in value, though the catalog names no conflict of them; `a` is at most `b`.
#[derive(Clone, Copy, Debug, PartialEq, Eq)]
pub struct Commuting {
    pub a: u16,
    pub b: u16,
}

/// Whether calls of these verbs may be made in either order.
fn commute(a: Verb, b: Verb) -> bool
    ensures { result ≡ commute a b }
{
    matches!(
        (a, b),
        (Verb::Look, Verb::Look) | (Verb::Add, Verb::Add) | (Verb::Take, Verb::Take)
    )
}

/// Whether two operations conflict in value.
fn conflict_in_value(a: &Op, b: &Op) -> bool
    ensures { result ≡ conflict_in_value a.now b.now }
{
    a.subsystem == b.subsystem && !commute(a.verb, b.verb)
}

/// Whether these operations conflict in value, though the catalog names no conflict of them.
pub fn is_commuting(c: &Catalog, a: u16, b: u16) -> bool
    requires catalog { IsCatalog c.now }
    requires a_is_one { a < length c.now.ops }
    requires b_is_one { b < length c.now.ops }
    ensures { result ≡ is_commuting c.now a b }
{
    let ops = c.ops.as_slice();
    conflict_in_value(&ops[usize::from(a)], &ops[usize::from(b)])
        && c.conflicts.mode(a, b) == Mode::Never
}

/// The first operation from this one on that is so with it.
fn first_with(c: &Catalog, a: u16, count: u16) -> Option<u16>
    requires catalog { IsCatalog c.now }
    requires count { count ≡ length c.now.ops }
    requires a_is_one { a < count }
    ensures { first_with c.now a (numbers_from a (count - a)) ≡ pair_with a result }
{
    for b in a..count {
        if is_commuting(c, a, b) {
            return Some(b);
        }
    }
    None
}

/// Whether a catalog names each conflict in value: if not, the least pair of operations of which it names none.
pub fn value_sound(c: &Catalog) -> Result<(), Commuting>
    requires { IsCatalog c.now }
    ensures { pair_of result ≡ first_commuting c.now }
{
    let count = c.ops.as_slice().len() as u16;
    for a in 0..count {
        if let Some(b) = first_with(c, a, count) {
            return Err(Commuting { a, b });
        }
    }
    Ok(())
}

// The order of blocks.
ghost use Rattle.std.specs.Prelude.{◌≡◌, Some, false, nat_lt, true};
ghost use Rattle.process_tree.specs.Conflicts.{do_conflict};
ghost use Rattle.hold_tables.specs.Kept.{IsKnown};
ghost use Rattle.machine_model.specs.Blocks.{is_less, lesser, less_then, rule_number};
ghost use Rattle.admission.specs.Least.{least_with, lesser_of};

use hold_tables::{Blocked, Rule};
use process_tree::{Conflicts, Entry};

fn rule_number(rule: Rule) -> u8
    ensures { result ≡ rule_number rule }
{
    match rule {
        Rule::A0 => 0,
        Rule::A1 => 1,
        Rule::A2 => 2,
        Rule::A3 => 3,
        Rule::A4 => 4,
        Rule::A5 => 5,
    }
}

/// Whether the first is less by its own step, and then by its rule.
fn is_less_within(a: Blocked, b: Blocked) -> bool
    ensures { result ≡ less_then a.own b.own (nat_lt (rule_number a.rule) (rule_number b.rule)) }
{
    a.own < b.own || (a.own == b.own && rule_number(a.rule) < rule_number(b.rule))
}

/// Whether the first is less: by the other process, its step, the own step and the rule.
fn is_less(a: Blocked, b: Blocked) -> bool
    ensures { result ≡ is_less a b }
{
    a.on < b.on
        || (a.on == b.on && (a.other < b.other || (a.other == b.other && is_less_within(a, b))))
}

/// The lesser of a block and of another, if there is one.
fn lesser(a: Blocked, other: Option<Blocked>) -> Option<Blocked>
    ensures { result ≡ lesser a other }
{
    match other {
        Some(b) if is_less(b, a) => other,
        _ => Some(a),
    }
}

/// Whether a block comes behind another, if there is one.
fn is_past(a: Blocked, other: Option<Blocked>) -> bool
    ensures past { result ≡ true → lesser a other ≡ other }
    ensures first { result ≡ false → lesser a other ≡ Some a }
{
    match other {
        Some(b) => is_less(b, a),
        None => false,
    }
}

/// The lesser of two blocks, where they are there.
pub fn lesser_of(a: Option<Blocked>, other: Option<Blocked>) -> Option<Blocked>
    ensures { result ≡ lesser_of a other }
{
    match a {
        None => other,
        Some(a) => lesser(a, other),
    }
}

/// The least of a block of one's own entry on another, where they conflict, and of what was found. Whether they conflict is asked
/// only of one that would be less.
pub fn least_with(
    c: &Conflicts,
    rule: Rule,
    own: Entry,
    other: Entry,
    least: Option<Blocked>,
) -> Option<Blocked>
    requires own { IsKnown c.now own }
    requires other { IsKnown c.now other }
    ensures { result ≡ least_with (do_conflict c.now) rule own other least }
{
    let block = Blocked {
        on: other.process,
        other: other.step,
        own: own.step,
        rule,
    };
    if is_past(block, least) {
        return least;
    }
    if c.between(own, other) {
        Some(block)
    } else {
        least
    }
}

// Whether an undo may come.
ghost use Rattle.std.specs.Prelude.{◌≡◌, ◌<◌, None, Some, true, ◌+◌, drop, filter, length};
ghost use Rattle.std.specs.Prelude.{if◌then◌else◌};
ghost use Rattle.process_tree.specs.Conflicts.{do_conflict};
ghost use Rattle.process_tree.specs.declared.entry.Entry.{Entry};
ghost use Rattle.schedule_model.specs.Conflict.{conflict};
ghost use Rattle.hold_tables.specs.Tables.{is_open};
ghost use Rattle.hold_tables.specs.Places.{last_place};
ghost use Rattle.hold_tables.specs.Kept.{AreTidy, IsKnown};
ghost use Rattle.hold_tables.specs.Reading.{least_step, lesser};
ghost use Rattle.cascade.specs.Undoing.{admitted, last_pending, step_of, undo_block};

use hold_tables::{Admitted, Blocked, Holds, Rule};
use process_tree::{Conflicts, Entry};

/// The place of the last net entry of a process.
fn last_place(holds: &Holds, process: u32) -> Option<usize>
    ensures place { result ≡ last_place process holds.now.net }
    ensures tidy { AreTidy holds.now }
{
    let mut place = holds.net_len();
    'places: while 0 < place {
        place -= 1;
        if holds.net_at(place).process == process {
            return Some(place);
        }
    }
    None
}

/// The lesser of a step and of another, if there is one.
fn lesser(a: (u32, u16), other: Option<(u32, u16)>) -> Option<(u32, u16)>
    ensures { result ≡ lesser a other }
{
    match other {
        Some(b) if b.0 < a.0 || (b.0 == a.0 && b.1 < a.1) => other,
        _ => Some(a),
    }
}

/// The lesser of the step of an entry, if it conflicts with x, and of another.
fn least_with(c: &Conflicts, x: Entry, y: Entry, other: Option<(u32, u16)>) -> Option<(u32, u16)>
    requires first { IsKnown c.now x }
    requires later { IsKnown c.now y }
    ensures { result ≡ (if conflict (do_conflict c.now) x y then lesser (y.process, y.step) other else other) }
{
    if c.between(x, y) {
        lesser((y.process, y.step), other)
    } else {
        other
    }
}

/// The least step of a net entry behind a place that conflicts with x.
fn least_behind(holds: &Holds, place: usize, x: Entry) -> Option<(u32, u16)>
    requires place { place < length holds.now.net }
    requires first { IsKnown holds.now.conflicts x }
    ensures { result ≡ least_step None (filter (conflict (do_conflict holds.now.conflicts) x) (drop (place + 1) holds.now.net)) }
{
    let conflicts = holds.conflicts();
    let mut at = holds.net_len();
    let mut least = None;
    'places: while at - place > 1 {
        at -= 1;
        least = least_with(conflicts, x, holds.net_at(at), least);
    }
    least
}

/// Whether the undo of the last pending entry of an open process may be handed out: it is blocked exactly by A5, with the least
/// block (`docs/ADMISSION.md`).
pub fn undo_ready(holds: &Holds, process: u32, step: u16) -> Admitted
    requires open { is_open holds.now process ≡ true }
    requires last { step_of (last_pending holds.now process) ≡ Some step }
    ensures { result ≡ admitted (undo_block holds.now (last_pending holds.now process)) }
{
    let Some(place) = last_place(holds, process) else {
        unreachable!();
    };
    match least_behind(holds, place, holds.net_at(place)) {
        Some((on, other)) => Admitted::Blocked(Blocked {
            on,
            other,
            own: step,
            rule: Rule::A5,
        }),
        None => Admitted::Free,
    }
}

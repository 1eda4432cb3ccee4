// Whose undo comes next.
ghost use Rattle.std.specs.Prelude.{◌≡◌};
ghost use Rattle.core_state.specs.OpenTables.{last_pending};

use hold_tables::Holds;

/// The process of the last net entry whose process has something to undo; none where nothing is pending.
pub fn last_pending(holds: &Holds) -> Option<u32>
    ensures { result ≡ last_pending holds.now holds.now.net }
{
    let mut count = holds.net_len();
    'entries: while count > 0 {
        count -= 1;
        let e = holds.net_at(count);
        if holds.pending(e.process) != 0 {
            return Some(e.process);
        }
    }
    None
}

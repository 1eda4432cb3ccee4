// Who is active in a history.
ghost use Rattle.std.specs.Prelude.{◌≡◌};
ghost use Rattle.process_tree.specs.Shape.{first_of};
ghost use Rattle.schedule_model.specs.Histories.{active};

use schedule_model::{Event, History};
use schedule_rules::active;

/// The least active process.
pub fn first_active(h: &History) -> Option<u32>
    ensures { result ≡ first_of (active h.now.events) }
{
    let mut rest = h.events.as_slice();
    while let [event, after @ ..] = rest {
        if let Event::Start(i) = event
            && active(h, *i)
        {
            return Some(*i);
        }
        rest = after;
    }
    None
}

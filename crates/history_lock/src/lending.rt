// The state of a turn, lent. Its clause names the row of `Turn`, which the file that declares `Turn` can't import.
ghost use Rattle.std.specs.Prelude.{◌≡◌, []};
ghost use types.Logic.{sem};
ghost use mir.Syntax.{named};
ghost use denote.Follow.{follows};
ghost use Rattle.history_lock.specs.contracts.desk.Turn.{the_row};
ghost use Rattle.history_lock.specs.Lent.{with_state};
ghost use Rattle.history_lock.specs.Turns.{state_at};

use crate::desk::Turn;
use crate::held::Held;

impl<'a, S: Held> Turn<'a, S> {
    /// The state, which may be changed until the turn is done.
    pub fn state(&mut self) -> &mut S
        ensures* writes_back { sem 𝓛
            (follows (the_row (record {
              mir = named 1;
              lft = [];
            }) S.row S.Entry.row S.Held) S.row self.entry.ghost_name result.ghost_name (with_state self.old)) }
        ensures value { result.now ≡ state_at self.old }
    {
        &mut self.state
    }
}

// What became of the pieces of a group.
ghost use Rattle.std.specs.Prelude.{◌≡◌, ◌<◌, length, Some};
ghost use Rattle.process_engine.specs.Ends.{ended_as};
ghost use Rattle.std.specs.List.{slice_get};

use crate::MOST_QUEUED;
use arrayvec::ArrayVec;
use std::marker::Model;

/// What became of a piece of a group.
#[derive(Clone, Copy, Debug, PartialEq, Eq)]
pub enum GroupEnd {
    /// It took effect. Its event stands at this place of the history, and a crash from now on keeps it.
    Effected(u32),
    /// Its process began to complete at this kept event, counted from 1, before the flush.
    Dropped(u32),
}

impl Default for GroupEnd {
    fn default() -> Self {
        GroupEnd::Dropped(0)
    }
}

/// What became of the pieces of a group, in the order in which they were queued: the number of each with its end.
#[derive(Drop)]
pub struct Group {
    pub(crate) ends: ArrayVec<(u32, GroupEnd), MOST_QUEUED>,
}

impl Model for Group {
    ghost use Rattle.std.specs.Prelude.{List, map};
    ghost use Rattle.process_engine.specs.Ends.{ended_as};
    ghost use Rattle.machine_model.specs.Groups.{Ended};

    ghost Value = { List Ended };

    ghost view = { λ g. map ended_as g.ends.items };
}

impl Group {
    /// How many pieces it had.
    pub fn len(&self) -> u16
        ensures { result ≡ length self.now }
    {
        self.ends.len() as u16
    }

    /// The number of a piece, and what became of it.
    pub fn at(&self, n: u16) -> (u32, GroupEnd)
        requires { n < length self.now }
        ensures { slice_get self.now n ≡ Some (ended_as result) }
    {
        self.ends.as_slice()[usize::from(n)]
    }
}

/// What a flush answers.
#[derive(Drop)]
pub enum Flush {
    /// What became of each piece that was queued.
    Flushed(Group),
    /// A call of the rack failed. The engine is closed.
    DiskFault,
    /// A call of the rack failed before, when this many events were kept.
    Closed(u32),
}

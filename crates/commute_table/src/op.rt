// Operations and their verbs.
ghost use Rattle.std.specs.Prelude.{◌≡◌};
ghost use Rattle.commute_table.specs.Bytes.{verb_code};

use plain_list::Items;
use process_tree::Name;

/// What an operation does to the value at a key.
#[derive(Clone, Copy, Debug, PartialEq, Eq)]
pub enum Verb {
    Add,
    Take,
    Look,
    Put,
    Hold,
    Free,
}

impl Verb {
    /// The number that stands for it in files.
    pub fn code(self) -> u8
        ensures { result ≡ verb_code self }
    {
        match self {
            Verb::Add => 0,
            Verb::Take => 1,
            Verb::Look => 2,
            Verb::Put => 3,
            Verb::Hold => 4,
            Verb::Free => 5,
        }
    }
}

/// A named operation: a verb on a subsystem.
#[derive(Drop)]
pub struct Op {
    pub name: Name,
    /// 0 to 3 are counters, 4 and 5 cells, 6 and 7 seats.
    pub subsystem: u8,
    pub verb: Verb,
}

/// A list of operations, which are numbered from 0.
pub type Ops = Items<Op>;

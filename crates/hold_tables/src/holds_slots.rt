// The open processes in rows of bits, by their slots.
ghost use Rattle.std.specs.Prelude.{◌≡◌, ◌<◌, ℕ, IfSome, Some, false, true};
ghost use Rattle.process_tree.specs.Conflicts.{do_conflict};
ghost use Rattle.schedule_model.specs.Holdings.{reaches};
ghost use Rattle.hold_tables.specs.Tables.{holdings_of, is_open};
ghost use Rattle.hold_tables.specs.Slots.{TellNet, TellPending, TellReach, TellReserved, TellRunning, slot};

use crate::holds::Holds;
use crate::looking::{place_if, place_of};
use bit_rows::Bits;

impl Holds {
    /// The slot of a process, if it is open: its row and column among bits.
    pub fn slot(&self, process: u32) -> Option<u16>
        ensures slot { result ≡ slot self.now process }
        ensures small { IfSome result (λ s. s < 256) }
        ensures apart { (k s : ℕ) → slot self.now process ≡ Some s → slot self.now k ≡ Some s → process ≡ k }
    {
        match place_if(&self.rows, process) {
            Some(place) => Some(place as u16),
            None => None,
        }
    }

    /// Which processes a walk of one or more arrows of the conflict graph leads to, by the slot of the one in whose row they stand.
    pub fn reach_rows(&self) -> &Bits
        ensures { TellReach self.now result.now }
    {
        &self.graph.walks
    }

    /// Whether no walk leads from a process.
    pub fn leads_nowhere(&self, process: u32) -> bool
        requires open { is_open self.now process ≡ true }
        ensures none { result ≡ true → (k : ℕ) → is_open self.now k ≡ true
            → reaches (do_conflict self.now.conflicts) (holdings_of self.now) process k ≡ false }
    {
        self.graph.walks.is_row_empty(place_of(&self.rows, process))
    }

    /// Which processes have an operation below 256 under way, in the row of the operation.
    pub fn running_rows(&self) -> &Bits
        ensures { TellRunning self.now result.now }
    {
        &self.beside.running
    }

    /// Which processes have an entry of the operation to be undone.
    pub fn pending_rows(&self) -> &Bits
        ensures { TellPending self.now result.now }
    {
        &self.beside.pending
    }

    /// Which processes have a net entry of the operation.
    pub fn net_rows(&self) -> &Bits
        ensures { TellNet self.now result.now }
    {
        &self.in_net
    }

    /// Which processes have a reserved step of the operation.
    pub fn reserved_rows(&self) -> &Bits
        ensures { TellReserved self.now result.now }
    {
        &self.beside.reserved
    }
}

// Seats.
ghost use Rattle.std.specs.Prelude.{◌≡◌, []};
ghost use Rattle.resource_box.specs.declared.call.Kind.TheVariants.{Seats as SeatsKind};

use crate::values::Values;
use crate::{Call, Kind, Resource, table};
use std::alloc::{AllocError, Global};

/// Places that one amount holds until it is freed.
#[derive(Drop)]
pub struct Seats {
    values: Values,
}

impl Seats {
    /// Holds nothing.
    pub fn new(alloc: Global) -> Self
        ensures { (⟦<Seats as Resource>⟧.meaning result).items ≡ [] }
    {
        Seats {
            values: Values::new(alloc),
        }
    }
}

impl Resource for Seats {
    ghost meaning = { λ c. record { items = c.values.map.entries; ordered = c.values.ordered } };

    ghost sort = { λ c. SeatsKind };

    fn kind(&self) -> Kind {
        Kind::Seats
    }

    fn look(&self, key: u32) -> i64 {
        self.values.at(key)
    }

    fn ready(&mut self, key: u32) -> Result<(), AllocError> {
        self.values.ready(key)
    }

    fn bars(&self, call: &Call) -> bool {
        table::bars(Kind::Seats, call, self.values.at(call.key))
    }

    fn apply(&mut self, call: &Call) -> i64 {
        self.values.apply(Kind::Seats, call)
    }

    fn revert(&mut self, call: &Call, before: i64) {
        self.values.revert(Kind::Seats, call, before);
    }

    fn clear(&mut self) {
        self.values.clear();
    }
}

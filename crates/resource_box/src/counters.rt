// Counters.
ghost use Rattle.std.specs.Prelude.{◌≡◌, []};
ghost use Rattle.resource_box.specs.declared.call.Kind.TheVariants.{Counters as CountersKind};

use crate::values::Values;
use crate::{Call, Kind, Resource, table};
use std::alloc::{AllocError, Global};

/// Numbers that are added to and taken from.
#[derive(Drop)]
pub struct Counters {
    values: Values,
}

impl Counters {
    /// Holds nothing.
    pub fn new(alloc: Global) -> Self
        ensures { (⟦<Counters as Resource>⟧.meaning result).items ≡ [] }
    {
        Counters {
            values: Values::new(alloc),
        }
    }
}

impl Resource for Counters {
    ghost meaning = { λ c. record { items = c.values.map.entries; ordered = c.values.ordered } };

    ghost sort = { λ c. CountersKind };

    fn kind(&self) -> Kind {
        Kind::Counters
    }

    fn look(&self, key: u32) -> i64 {
        self.values.at(key)
    }

    fn ready(&mut self, key: u32) -> Result<(), AllocError> {
        self.values.ready(key)
    }

    fn bars(&self, call: &Call) -> bool {
        table::bars(Kind::Counters, call, self.values.at(call.key))
    }

    fn apply(&mut self, call: &Call) -> i64 {
        self.values.apply(Kind::Counters, call)
    }

    fn revert(&mut self, call: &Call, before: i64) {
        self.values.revert(Kind::Counters, call, before);
    }

    fn clear(&mut self) {
        self.values.clear();
    }
}

// Cells.
ghost use Rattle.std.specs.Prelude.{◌≡◌, []};
ghost use Rattle.resource_box.specs.declared.call.Kind.TheVariants.{Cells as CellsKind};

use crate::values::Values;
use crate::{Call, Kind, Resource, table};
use std::alloc::{AllocError, Global};

/// Numbers that are replaced.
#[derive(Drop)]
pub struct Cells {
    values: Values,
}

impl Cells {
    /// Holds nothing.
    pub fn new(alloc: Global) -> Self
        ensures { (⟦<Cells as Resource>⟧.meaning result).items ≡ [] }
    {
        Cells {
            values: Values::new(alloc),
        }
    }
}

impl Resource for Cells {
    ghost meaning = { λ c. record { items = c.values.map.entries; ordered = c.values.ordered } };

    ghost sort = { λ c. CellsKind };

    fn kind(&self) -> Kind {
        Kind::Cells
    }

    fn look(&self, key: u32) -> i64 {
        self.values.at(key)
    }

    fn ready(&mut self, key: u32) -> Result<(), AllocError> {
        self.values.ready(key)
    }

    fn bars(&self, call: &Call) -> bool {
        table::bars(Kind::Cells, call, self.values.at(call.key))
    }

    fn apply(&mut self, call: &Call) -> i64 {
        self.values.apply(Kind::Cells, call)
    }

    fn revert(&mut self, call: &Call, before: i64) {
        self.values.revert(Kind::Cells, call, before);
    }

    fn clear(&mut self) {
        self.values.clear();
    }
}

// The boxes of eight subsystems.
ghost use Rattle.std.specs.Prelude.{◌≡◌};
ghost use Rattle.resource_box.specs.declared.call.Kind.TheVariants as kind;
ghost use Rattle.history_files.specs.Boxes.{AreBoxes};

use resource_box::{Cells, Counters, Resource, Seats};
use std::alloc::Global;
use std::process::Abort;

fn counters(rt: &impl Abort, alloc: Global) -> Box<dyn Resource + Send>
    ensures { sort result ≡ kind.Counters }
{
    let Ok(counters) = Box::new(alloc, Counters::new(alloc)) else {
        panic!(rt; "no memory");
    };
    counters as Box<dyn Resource + Send>
}

fn cells(rt: &impl Abort, alloc: Global) -> Box<dyn Resource + Send>
    ensures { sort result ≡ kind.Cells }
{
    let Ok(cells) = Box::new(alloc, Cells::new(alloc)) else {
        panic!(rt; "no memory");
    };
    cells as Box<dyn Resource + Send>
}

fn seats(rt: &impl Abort, alloc: Global) -> Box<dyn Resource + Send>
    ensures { sort result ≡ kind.Seats }
{
    let Ok(seats) = Box::new(alloc, Seats::new(alloc)) else {
        panic!(rt; "no memory");
    };
    seats as Box<dyn Resource + Send>
}

/// The empty boxes of eight subsystems.
pub fn boxes(rt: &impl Abort, alloc: Global) -> Vec<Box<dyn Resource + Send>>
    ensures { AreBoxes (λ b. sort b) result.items }
{
    let Ok(boxes) = vec![in alloc;
        counters(rt, alloc),
        counters(rt, alloc),
        counters(rt, alloc),
        counters(rt, alloc),
        cells(rt, alloc),
        cells(rt, alloc),
        seats(rt, alloc),
        seats(rt, alloc),
    ] else {
        panic!(rt; "no memory");
    };
    boxes
}

// What a call of the program brings along: the boxes of the subsystems, and gates.
ghost use Rattle.std.specs.Prelude.{◌≡◌, replicate, IfOk};
ghost use Rattle.history_files.specs.Boxes.{AreBoxes};
ghost use Rattle.process_program.specs.Own.{empty_boxes, boxes_of};

use resource_box::{Call, Cells, Counters, Kind, Resource, Seats};
use std::alloc::{AllocError, Global};
use worker_gate::PlainGate;

/// The box of a subsystem.
#[derive(Drop)]
pub enum OwnBox {
    Counters(Counters),
    Cells(Cells),
    Seats(Seats),
}

impl Resource for OwnBox {
    ghost use Rattle.process_program.specs.Boxes.{by_box};

    ghost meaning = { by_box ⟦<Counters as Resource>⟧.meaning ⟦<Cells as Resource>⟧.meaning ⟦<Seats as Resource>⟧.meaning };

    ghost sort = { by_box ⟦<Counters as Resource>⟧.sort ⟦<Cells as Resource>⟧.sort ⟦<Seats as Resource>⟧.sort };

    fn kind(&self) -> Kind {
        match self {
            OwnBox::Counters(values) => values.kind(),
            OwnBox::Cells(values) => values.kind(),
            OwnBox::Seats(values) => values.kind(),
        }
    }

    fn look(&self, key: u32) -> i64 {
        match self {
            OwnBox::Counters(values) => values.look(key),
            OwnBox::Cells(values) => values.look(key),
            OwnBox::Seats(values) => values.look(key),
        }
    }

    fn ready(&mut self, key: u32) -> Result<(), AllocError> {
        match self {
            OwnBox::Counters(values) => values.ready(key),
            OwnBox::Cells(values) => values.ready(key),
            OwnBox::Seats(values) => values.ready(key),
        }
    }

    fn bars(&self, call: &Call) -> bool {
        match self {
            OwnBox::Counters(values) => values.bars(call),
            OwnBox::Cells(values) => values.bars(call),
            OwnBox::Seats(values) => values.bars(call),
        }
    }

    fn apply(&mut self, call: &Call) -> i64 {
        match self {
            OwnBox::Counters(values) => values.apply(call),
            OwnBox::Cells(values) => values.apply(call),
            OwnBox::Seats(values) => values.apply(call),
        }
    }

    fn revert(&mut self, call: &Call, before: i64) {
        match self {
            OwnBox::Counters(values) => values.revert(call, before),
            OwnBox::Cells(values) => values.revert(call, before),
            OwnBox::Seats(values) => values.revert(call, before),
        }
    }

    fn clear(&mut self) {
        match self {
            OwnBox::Counters(values) => values.clear(),
            OwnBox::Cells(values) => values.clear(),
            OwnBox::Seats(values) => values.clear(),
        }
    }
}

/// Empty boxes of the eight subsystems.
pub fn new_boxes(alloc: Global) -> Result<Vec<OwnBox>, AllocError>
    ensures kinds { IfOk result (λ boxes. AreBoxes ⟦<OwnBox as Resource>⟧.sort boxes.items) }
    ensures empty { IfOk result
        (λ boxes. boxes_of ⟦<OwnBox as Resource>⟧.sort ⟦<OwnBox as Resource>⟧.meaning boxes.items ≡ empty_boxes) }
{
    Ok(vec![in alloc;
        OwnBox::Counters(Counters::new(alloc)),
        OwnBox::Counters(Counters::new(alloc)),
        OwnBox::Counters(Counters::new(alloc)),
        OwnBox::Counters(Counters::new(alloc)),
        OwnBox::Cells(Cells::new(alloc)),
        OwnBox::Cells(Cells::new(alloc)),
        OwnBox::Seats(Seats::new(alloc)),
        OwnBox::Seats(Seats::new(alloc)),
    ]?)
}

/// Sixteen plain gates.
pub fn new_gates(alloc: Global) -> Result<Vec<PlainGate>, AllocError>
    ensures { IfOk result (λ gates. gates.items ≡ replicate 16 (record { calls = 0; refusals = 0 })) }
{
    let mut gates = Vec::new(alloc);
    for _ in 0..16_usize {
        gates.push(PlainGate::new())?;
    }
    Ok(gates)
}

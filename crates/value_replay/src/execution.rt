// The printed serial list, executed.
ghost use Rattle.std.specs.Prelude.{◌≡◌, ◌<◌, ◌+◌, ◌++◌, [], ◌∷◌, take, length, IsTrue, IfOk, IfErr, OnErr, None};
ghost use Rattle.process_tree.specs.Conflicts.{do_conflict, operations_in};
ghost use Rattle.schedule_model.specs.Course.{courses_of};
ghost use Rattle.schedule_model.specs.Histories.{acts, active};
ghost use Rattle.schedule_model.specs.Laws.{IsPlanned};
ghost use Rattle.schedule_model.specs.Legal.{is_legal};
ghost use Rattle.commute_table.specs.Operations.{IsCatalog};
ghost use Rattle.history_files.specs.Boxes.{AreBoxes, AreEmpty};
ghost use Rattle.history_files.specs.Effects.{effects, effects_from};
ghost use Rattle.value_rules.specs.ValueConflict.{first_commuting};
ghost use Rattle.value_replay.specs.Replays.{AreSteps, ArePlaces, HaveValues, IsWhyRefused, books, lines_behind, lines_of, serial_list};

use crate::line::{Line, Lines, ReplayRefused, Replayed};
use commute_table::{Catalog, Op};
use history_files::{clear_all, effect_of, subsystem_of};
use process_tree::{Entry, Plan};
use reduction_trace::trace;
use resource_box::Resource;
use schedule_model::History;
use std::alloc::{AllocError, Global};
use value_rules::{Commuting, first_commuting_is_exact, serial_lists_keep_values, value_sound};

// Executes the step at a place of the list, behind those before it, whose values the boxes have.
fn execute<B: Resource>(
    ops: &[Op],
    plans: &[Plan],
    serial: &[Entry],
    at: usize,
    boxes: &mut Vec<B>,
) -> Result<Line, AllocError>
    requires there { at < length serial.now }
    requires steps { AreSteps serial.now }
    requires places { ArePlaces ops.now }
    requires boxes { AreBoxes B.sort boxes.old.items }
    requires values { HaveValues (λ b. (B.meaning b).items) (books ops.now plans.now (take at serial.now)) boxes.old.items }
    ensures line { IfOk result (λ l. lines_behind ops.now plans.now [] (take (at + 1) serial.now)
        ≡ lines_behind ops.now plans.now [] (take at serial.now) ++ l ∷ []) }
    ensures values { IfOk result
        (λ l. HaveValues (λ b. (B.meaning b).items) (books ops.now plans.now (take (at + 1) serial.now)) boxes.new.items) }
    ensures kinds { AreBoxes B.sort boxes.new.items }
{
    let entry = serial[at];
    let place = usize::from(subsystem_of(ops, entry.op));
    let call = effect_of(ops, plans, 0, &entry).call;
    let resource = &mut boxes[place];
    resource.ready(call.key)?;
    let before = resource.apply(&call);
    Ok(Line { entry, before })
}

// Executes these steps on empty boxes.
fn execute_all<B: Resource>(
    alloc: Global,
    ops: &[Op],
    plans: &[Plan],
    serial: &[Entry],
    boxes: &mut Vec<B>,
) -> Result<Vec<Line>, AllocError>
    requires steps { AreSteps serial.now }
    requires places { ArePlaces ops.now }
    requires boxes { AreBoxes B.sort boxes.old.items }
    requires empty { AreEmpty B.meaning boxes.old.items }
    ensures lines { IfOk result (λ ls. ls.items ≡ lines_behind ops.now plans.now [] serial.now) }
    ensures values { IfOk result
        (λ ls. HaveValues (λ b. (B.meaning b).items) (books ops.now plans.now serial.now) boxes.new.items) }
    ensures kinds { AreBoxes B.sort boxes.new.items }
{
    let mut lines = Vec::new(alloc);
    for at in 0..serial.len() {
        lines.push(execute(ops, plans, serial, at, boxes)?)?;
    }
    Ok(lines)
}

// The lines of the printed serial list, executed on empty boxes.
fn lines_on<B: Resource>(
    alloc: Global,
    h: &History,
    c: &Catalog,
    boxes: &mut Vec<B>,
) -> Result<Lines, AllocError>
    requires catalog { IsCatalog c.now }
    requires sound { first_commuting c.now ≡ None }
    requires planned { IsPlanned (operations_in c.now.conflicts) h.now.plans h.now.events }
    requires legal { IsTrue (is_legal (do_conflict c.now.conflicts) (courses_of h.now.plans) h.now.events) }
    requires ended { active h.now.events ≡ [] }
    requires boxes { AreBoxes B.sort boxes.old.items }
    requires empty { AreEmpty B.meaning boxes.old.items }
    ensures lines { IfOk result (λ ls. ls ≡ lines_of c.now h.now) }
    ensures values { IfOk result (λ ls. HaveValues (λ b. (B.meaning b).items) (effects c.now.ops h.now) boxes.new.items) }
    ensures kinds { AreBoxes B.sort boxes.new.items }
{
    first_commuting_is_exact();
    serial_lists_keep_values();
    let reduction = trace(alloc, h, &c.conflicts)?;
    let lines = execute_all(
        alloc,
        c.ops.as_slice(),
        h.plans.as_slice(),
        reduction.serial.as_slice(),
        boxes,
    )?;
    Ok(Lines::new(lines))
}

// The same of a catalog that may not name each conflict in value; after a refusal the boxes are empty.
fn outcome_on<B: Resource>(
    alloc: Global,
    h: &History,
    c: &Catalog,
    boxes: &mut Vec<B>,
) -> Result<Lines, ReplayRefused>
    requires catalog { IsCatalog c.now }
    requires planned { IsPlanned (operations_in c.now.conflicts) h.now.plans h.now.events }
    requires legal { IsTrue (is_legal (do_conflict c.now.conflicts) (courses_of h.now.plans) h.now.events) }
    requires ended { active h.now.events ≡ [] }
    requires boxes { AreBoxes B.sort boxes.old.items }
    requires empty { AreEmpty B.meaning boxes.old.items }
    ensures lines { IfOk result (λ ls. (first_commuting c.now ≡ None) × (ls ≡ lines_of c.now h.now)) }
    ensures values { IfOk result (λ ls. HaveValues (λ b. (B.meaning b).items) (effects c.now.ops h.now) boxes.new.items) }
    ensures refused { IfErr result (IsWhyRefused c.now) }
    ensures cleared { OnErr result (AreEmpty B.meaning boxes.new.items) }
    ensures kinds { AreBoxes B.sort boxes.new.items }
{
    if let Err(Commuting { a, b }) = value_sound(c) {
        return Err(ReplayRefused::Commuting(a, b));
    }
    match lines_on(alloc, h, c, boxes) {
        Ok(lines) => Ok(lines),
        Err(AllocError) => {
            clear_all(boxes);
            Err(ReplayRefused::NoMemory)
        }
    }
}

/// Executes the printed serial list of a history on the boxes of the eight subsystems, which it clears first. The lines tell each
/// step with the value that stood at its key before.
pub fn replay<B: Resource>(
    alloc: Global,
    h: &History,
    c: &Catalog,
    resources: Vec<B>,
) -> Replayed<B>
    requires catalog { IsCatalog c.now }
    requires planned { IsPlanned (operations_in c.now.conflicts) h.now.plans h.now.events }
    requires legal { IsTrue (is_legal (do_conflict c.now.conflicts) (courses_of h.now.plans) h.now.events) }
    requires ended { active h.now.events ≡ [] }
    requires boxes { AreBoxes B.sort resources.items }
    ensures lines { IfOk result.outcome (λ ls. (first_commuting c.now ≡ None) × (ls ≡ lines_of c.now h.now)) }
    ensures values { IfOk result.outcome
        (λ ls. HaveValues (λ b. (B.meaning b).items) (effects c.now.ops h.now) result.resources.items) }
    ensures refused { IfErr result.outcome (IsWhyRefused c.now) }
    ensures cleared { OnErr result.outcome (AreEmpty B.meaning result.resources.items) }
    ensures back { AreBoxes B.sort result.resources.items }
{
    let mut resources = resources;
    clear_all(&mut resources);
    let outcome = outcome_on(alloc, h, c, &mut resources);
    Replayed { resources, outcome }
}

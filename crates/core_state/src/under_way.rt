// What a piece makes of the tables once it is handed out.
ghost use Rattle.std.specs.Prelude.{◌≡◌, ◌<◌, ◌≤◌, ◌+◌, ◌++◌, None, length, true};
ghost use Rattle.process_tree.specs.Blocks.{outline};
ghost use Rattle.process_tree.specs.Making.{tree_fault};
ghost use Rattle.hold_tables.specs.Changes.{changed, with_reserved};
ghost use Rattle.hold_tables.specs.Tables.{is_open, kept_of};
ghost use Rattle.admission.specs.Admission.{IsPlanFor, class_in_tables};
ghost use Rattle.core_state.specs.UnderWay.{FitsClass, MayComeUnderWay, is_committing, under_way};
ghost use Rattle.process_tree.specs.Recovery.{committing};
ghost use Rattle.machine_model.specs.declared.kept.Work.TheVariants.{Forward};
ghost use Rattle.core_state.specs.OpenTables.{planned_behind};

use crate::owed::{PlannedSteps, add_owed};
use admission::is_reserved;
use hold_tables::Holds;
use machine_model::Work;
use process_tree::{Entry, Plan, kind_of};
use schedule_rules::entry_of;

/// Whether a step would be a new commit point of its process.
fn is_committing(holds: &Holds, plan: &Plan, process: u32, step: u16) -> bool
    requires open { is_open holds.now process ≡ true }
    requires step { step < length (outline plan.now.tree).steps }
    ensures { result ≡ is_committing (class_in_tables holds.now plan.now process step) }
{
    if is_reserved(holds, process, step) {
        return false;
    }
    kind_of(&plan.tree, step).commits(false)
}

/// What a process has reserved.
fn reserved_steps(holds: &Holds, process: u32) -> PlannedSteps
    requires open { is_open holds.now process ≡ true }
    requires few { length (kept_of holds.now process).reserved ≤ 256 }
    ensures { result.items ≡ (kept_of holds.now process).reserved }
{
    let mut planned = PlannedSteps::new();
    for place in 0..holds.reserved_len(process) {
        planned.push(holds.reserved_at(process, place));
    }
    planned
}

/// A new commit point of a process reserves what it will make the process owe.
fn reserve_owed(holds: &mut Holds, plan: &Plan, process: u32, step: u16)
    requires open { is_open holds.old process ≡ true }
    requires good { tree_fault plan.now.tree ≡ None }
    requires plan { IsPlanFor holds.old plan.now }
    requires steps { (kept_of holds.old process).steps ≡ length (outline plan.now.tree).steps }
    requires step { step < length (outline plan.now.tree).steps }
    requires reserved { FitsClass plan.now process step holds.old committing }
    ensures { holds.new ≡ changed
        (with_reserved ((kept_of holds.old process).reserved ++ planned_behind plan.now step)) process holds.old }
{
    let mut planned = reserved_steps(holds, process);
    add_owed(&mut planned, plan, step);
    holds.reserve(process, planned.as_slice());
}

/// A step comes under way.
fn do_step(holds: &mut Holds, plan: &Plan, process: u32, step: u16)
    requires open { is_open holds.old process ≡ true }
    requires idle { (kept_of holds.old process).running ≡ None }
    requires good { tree_fault plan.now.tree ≡ None }
    requires plan { IsPlanFor holds.old plan.now }
    requires steps { (kept_of holds.old process).steps ≡ length (outline plan.now.tree).steps }
    requires may { MayComeUnderWay plan.now process step holds.old Forward }
    ensures { holds.new ≡ under_way plan.now process step holds.old Forward }
{
    let commits = is_committing(holds, plan, process, step);
    holds.run(entry_of(plan, process, step));
    if commits {
        reserve_owed(holds, plan, process, step);
    }
}

/// A step of a process, its undo or the end of the process comes under way; the step of an end is 0.
pub fn come_under_way(holds: &mut Holds, plan: &Plan, process: u32, step: u16, work: Work)
    requires open { is_open holds.old process ≡ true }
    requires idle { (kept_of holds.old process).running ≡ None }
    requires good { tree_fault plan.now.tree ≡ None }
    requires plan { IsPlanFor holds.old plan.now }
    requires steps { (kept_of holds.old process).steps ≡ length (outline plan.now.tree).steps }
    requires may { MayComeUnderWay plan.now process step holds.old work }
    ensures { holds.new ≡ under_way plan.now process step holds.old work }
{
    match work {
        Work::Forward => do_step(holds, plan, process, step),
        Work::Undo => holds.run(Entry {
            undo: true,
            ..entry_of(plan, process, step)
        }),
        Work::End => {}
    }
}

// Whether more processes fit within the limits.
ghost use Rattle.std.specs.Prelude.{◌≡◌, ◌≤◌, length, None, Some, IfErr, OnOk};
ghost use Rattle.std.specs.List.{sum_by};
ghost use Rattle.process_engine.specs.Fitting.{first_passed, limit_passed, need_of};

use engine_steps::Engine;
use process_disk::Rack;
use process_tree::Plan;
use resource_box::Resource;
use schedule_model::{MOST_ACTIVE, MOST_ENTRIES, MOST_PROCESSES};

/// A limit that would be passed, with the number that there would be.
#[derive(Clone, Copy, Debug, PartialEq, Eq)]
pub enum StartLimit {
    /// So many processes would have started.
    Processes(u32),
    /// So many would be active.
    Active(u32),
    /// So many acts and ends would be done and reserved.
    Entries(u32),
}

// How many acts and ends processes of these plans may need.
fn needed_by(plans: &[Plan]) -> u32
    requires { length plans.now ≤ 256 }
    ensures needed { result ≡ sum_by need_of plans.now }
    ensures few { result ≤ 33554176 }
{
    let mut needed = 0;
    let mut rest = plans;
    while let [plan, after @ ..] = rest {
        needed += 2 * u32::from(plan.tree.count()) + 1;
        rest = after;
    }
    needed
}

// The first limit that is passed where there are so many.
fn first_passed(started: u32, active: u32, entries: u32) -> Option<StartLimit>
    ensures { result ≡ first_passed started active entries }
{
    if started > MOST_PROCESSES as u32 {
        return Some(StartLimit::Processes(started));
    }
    if active > MOST_ACTIVE as u32 {
        return Some(StartLimit::Active(active));
    }
    if entries > MOST_ENTRIES as u32 {
        return Some(StartLimit::Entries(entries));
    }
    None
}

/// Whether all of these processes fit within the limits beside those that have started; else the first limit that they pass.
pub fn fits<R: Rack + Drop, B: Resource>(
    engine: &Engine<R, B>,
    plans: &[Plan],
) -> Result<(), StartLimit>
    requires few { length plans.now ≤ 256 }
    ensures fits { OnOk result (limit_passed engine.now.core plans.now ≡ None) }
    ensures passed { IfErr result (λ limit. limit_passed engine.now.core plans.now ≡ Some limit) }
{
    let counts = engine.counts();
    let more = plans.len() as u32;
    let entries = counts.entries + needed_by(plans);
    match first_passed(counts.processes + more, counts.active + more, entries) {
        Some(limit) => Err(limit),
        None => Ok(()),
    }
}

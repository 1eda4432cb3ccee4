// The lines `start NAME`.
ghost use Rattle.std.specs.Prelude.{◌≡◌, ◌≢◌, ◌++◌, ◌⊎◌, ℕ, List, Option, None, Some, Err, IfSome, IfNone, IfOk, IfErr, OnOk};
ghost use Rattle.process_tree.specs.Order.{Each};
ghost use Rattle.process_tree.specs.declared.plan.Plan.{Plan};
ghost use Rattle.process_text.specs.Canonical.{line_of};
ghost use Rattle.machine_model.specs.Replies.{Handed};
ghost use Rattle.machine_model.specs.declared.replies.StartWhy.{StartWhy};
ghost use Rattle.history_files.specs.Standing.{EachFits};
ghost use Rattle.engine_steps.specs.Beginning.{IsPlanFor, of_start_why};
ghost use Rattle.engine_calls.specs.Acknowledged.{IsOneOf};
ghost use Rattle.engine_calls.specs.Runs.{GoesOn, IsClosedByFault, IsReady};
ghost use Rattle.process_engine.specs.Queues.{KeepsQueued};
ghost use Rattle.session_text.specs.Answers.{no_process_words, not_started_words};
ghost use Rattle.session_play.specs.Answering.{IsAnswered, IsCopy, IsCut};
ghost use Rattle.session_play.specs.Pieces.{session_of};
ghost use Rattle.session_play.specs.Playing.{plan_named, play_start};
ghost use Rattle.session_play.specs.declared.cut.Cut.TheVariants.{DiskFault, NoMemory};

use crate::Cut;
use engine_calls::start;
use process_core::StartWhy;
use process_disk::Rack;
use process_engine::{Engine, EngineStart, EngineStartWhy};
use process_text::is_word;
use process_tree::Plan;
use resource_box::Resource;
use session_text::{put_no_process, put_not_started, put_started};
use std::alloc::{AllocError, Global};

/// The plan of the process of this name.
pub fn plan_named<'a>(plans: &'a [Plan], name: &[u8]) -> Option<&'a Plan>
    ensures some { IfSome result (λ plan. plan_named plans.now name.now ≡ Some plan.now) }
    ensures none { IfNone result (plan_named plans.now name.now ≡ None) }
{
    let mut rest = plans;
    while let [plan, after @ ..] = rest {
        if is_word(plan.name.bytes(), name) {
            return Some(plan);
        }
        rest = after;
    }
    None
}

// Writes why a process did not start, or says that this ends the session.
fn put_refusal(alloc: Global, why: EngineStartWhy, out: &mut Vec<u8>) -> Result<(), Cut>
    requires open { (n : ℕ) → why ≢ EngineStartWhy.Closed n }
    ensures told { OnOk result
        ((core : StartWhy) × (why ≡ of_start_why core) × (core ≢ StartWhy.NoMemory)
        × (out.new.items ≡ out.old.items ++ line_of (not_started_words core))) }
    ensures cut { IfErr result
        (λ cut. ((cut ≡ NoMemory) × (why ≢ EngineStartWhy.DiskFault)) ⊎ ((cut ≡ DiskFault) × (why ≡ EngineStartWhy.DiskFault))) }
{
    match why {
        EngineStartWhy::TooMany(n) => put_not_started(alloc, StartWhy::TooMany(n), out)?,
        EngineStartWhy::NoRoom(n) => put_not_started(alloc, StartWhy::NoRoom(n), out)?,
        EngineStartWhy::NoMemory => return Err(Cut::NoMemory),
        EngineStartWhy::DiskFault => return Err(Cut::DiskFault),
        EngineStartWhy::Closed(_) => unreachable!(),
    }
    Ok(())
}

/// A process of this plan and name starts, or is told why not.
pub fn play_plan<R: Rack + Drop, B: Resource>(
    alloc: Global,
    engine: &mut Engine<R, B>,
    name: &[u8],
    plan: Plan,
) -> Result<Vec<u8>, Cut>
    requires ready { IsReady B.Resource engine.old }
    requires plan { IsPlanFor engine.old.catalog plan }
    ensures answered { IfOk result
        (λ text. (ps queued : List Handed) → IsAnswered
        (play_start (session_of engine.old.core ps queued) name.now (Some plan)) engine.new.core ps queued text.items) }
    ensures cut { IfErr result
        (λ cut. (ps queued : List Handed) → IsCut cut
        (play_start (session_of engine.old.core ps queued) name.now (Some plan)) engine.old.core engine.new.core) }
    ensures queued { OnOk result (KeepsQueued engine.old engine.new) }
    ensures fault { IfErr result (λ cut. cut ≡ DiskFault → IsClosedByFault R.Rack engine.old engine.new) }
    ensures goes { (may_start : List Plan) → IsOneOf may_start plan → GoesOn R.Rack may_start engine.old engine.new }
    ensures fits { EachFits B.Resource engine.new.files.stores }
    ensures ready { result ≢ Err DiskFault → IsReady B.Resource engine.new }
{
    engine.invariant_holds();
    let mut text = Vec::new(alloc);
    match start(engine, alloc, plan) {
        Ok(i) => put_started(alloc, i, name, &mut text)?,
        Err(EngineStart { why, .. }) => put_refusal(alloc, why, &mut text)?,
    }
    Ok(text)
}

// The line of a process that the scenario lacks.
fn no_process(alloc: Global, name: &[u8]) -> Result<Vec<u8>, AllocError>
    ensures { IfOk result (λ text. text.items ≡ line_of (no_process_words name.now)) }
{
    let mut text = Vec::new(alloc);
    put_no_process(name, &mut text)?;
    Ok(text)
}

/// Answers `start NAME` with these plans of the scenario.
pub fn play_start<R: Rack + Drop, B: Resource>(
    alloc: Global,
    engine: &mut Engine<R, B>,
    plans: &[Plan],
    name: &[u8],
) -> Result<Vec<u8>, Cut>
    requires ready { IsReady B.Resource engine.old }
    requires plans { Each (IsPlanFor engine.old.catalog) plans.now }
    ensures answered { IfOk result (λ text. (copy : Option Plan) × IsCopy (plan_named plans.now name.now) copy
        × ((ps queued : List Handed) → IsAnswered
        (play_start (session_of engine.old.core ps queued) name.now copy) engine.new.core ps queued text.items)) }
    ensures cut { IfErr result (λ cut. (copy : Option Plan) × IsCopy (plan_named plans.now name.now) copy
        × ((ps queued : List Handed) → IsCut cut
        (play_start (session_of engine.old.core ps queued) name.now copy) engine.old.core engine.new.core)) }
    ensures queued { OnOk result (KeepsQueued engine.old engine.new) }
    ensures fault { IfErr result (λ cut. cut ≡ DiskFault → IsClosedByFault R.Rack engine.old engine.new) }
    // No start was under way but of the plan of that name.
    ensures goes { (may_start : List Plan) → ((p : Plan) → plan_named plans.now name.now ≡ Some p → IsOneOf may_start p)
        → GoesOn R.Rack may_start engine.old engine.new }
    ensures fits { EachFits B.Resource engine.new.files.stores }
    ensures ready { result ≢ Err DiskFault → IsReady B.Resource engine.new }
{
    engine.invariant_holds();
    match plan_named(plans, name) {
        Some(plan) => {
            let copy = plan.copy(alloc)?;
            play_plan(alloc, engine, name, copy)
        }
        None => Ok(no_process(alloc, name)?),
    }
}

// The lines of a session.
ghost use Rattle.std.specs.Prelude.{◌≡◌, ◌≢◌, List, Some, Err, IfOk, IfErr, OnOk};
ghost use Rattle.process_tree.specs.Order.{Each};
ghost use Rattle.process_tree.specs.declared.plan.Plan.{Plan as Plan'};
ghost use Rattle.engine_steps.specs.Beginning.{IsPlanFor};
ghost use Rattle.history_files.specs.Standing.{EachFits};
ghost use Rattle.engine_calls.specs.Acknowledged.{IsOneOf};
ghost use Rattle.engine_calls.specs.Runs.{GoesOn, IsClosedByFault, IsReady};
ghost use Rattle.session_play.specs.Answering.{AnswersLine, CutsLine};
ghost use Rattle.session_play.specs.AtHand.{session_with, AreAtHand};
ghost use Rattle.session_play.specs.Playing.{plan_for};
ghost use Rattle.session_play.specs.declared.cut.Cut.TheVariants.{DiskFault};

use crate::asking::{play_abort, play_admit, play_next};
use crate::finishing::play_finish;
use crate::flushing::play_flush;
use crate::queueing::play_queue;
use crate::starting::play_start;
use crate::{AtHand, Cut};
use process_disk::Rack;
use process_engine::Engine;
use process_tree::Plan;
use resource_box::Resource;
use scenario_run::report_now;
use session_text::Line;
use std::alloc::Global;

/// Answers a line with these plans of the scenario, and these pieces at hand.
pub fn play_line<R: Rack + Drop, B: Resource>(
    alloc: Global,
    engine: &mut Engine<R, B>,
    plans: &[Plan],
    hand: &mut AtHand,
    line: &Line,
) -> Result<Vec<u8>, Cut>
    requires ready { IsReady B.Resource engine.old }
    requires plans { Each (IsPlanFor engine.old.catalog) plans.now }
    requires at_hand { AreAtHand engine.old hand.old }
    ensures answered { IfOk result (λ text. AnswersLine engine.old.catalog plans.now
        (session_with engine.old.core hand.old) line.now
        engine.new.core hand.new.unfinished.items hand.new.queued text.items) }
    ensures at_hand { OnOk result (AreAtHand engine.new hand.new) }
    ensures cut { IfErr result (λ cut. CutsLine engine.old.catalog plans.now
        (session_with engine.old.core hand.old) line.now cut engine.old.core engine.new.core) }
    ensures fault { IfErr result (λ cut. cut ≡ DiskFault → IsClosedByFault R.Rack engine.old engine.new) }
    // No start was under way but of the plan that the line takes.
    ensures goes { (may_start : List Plan') → ((p : Plan') → plan_for plans.now line.now ≡ Some p → IsOneOf may_start p)
        → GoesOn R.Rack may_start engine.old engine.new }
    ensures fits { EachFits B.Resource engine.new.files.stores }
    ensures ready { result ≢ Err DiskFault → IsReady B.Resource engine.new }
{
    engine.invariant_holds();
    match line {
        Line::Start(name) => play_start(alloc, engine, plans, name.bytes()),
        Line::Admit(i) => play_admit(alloc, engine, &mut hand.unfinished, *i),
        Line::Next => play_next(alloc, engine, &mut hand.unfinished),
        Line::Finish(n, outcome) => {
            play_finish(
                alloc,
                engine,
                &mut hand.unfinished,
                &hand.queued,
                *n,
                *outcome,
            )
        }
        Line::Queue(n, outcome) => {
            play_queue(
                alloc,
                engine,
                &mut hand.unfinished,
                &mut hand.queued,
                *n,
                *outcome,
            )
        }
        Line::Flush => play_flush(alloc, engine, &mut hand.queued),
        Line::Abort(i) => play_abort(alloc, engine, &hand.unfinished, *i),
        Line::Show => Ok(report_now(alloc, engine)?),
        Line::Stop => Ok(Vec::new(alloc)),
    }
}

// As many workers as there are gates, each in a thread.
ghost use Rattle.std.specs.Prelude.{◌≡◌, length, Option};
ghost use Rattle.std.specs.Thread.{IsSync};
ghost use Rattle.process_tree.specs.Order.{Each};
ghost use Rattle.engine_calls.specs.GateAnswers.{counts_of};
ghost use Rattle.history_lock.specs.Seats.{id};
ghost use Rattle.history_lock.specs.Weights.{total};
ghost use Rattle.thread_workers.specs.Jobs.{HasRun, HaveRun, IsDone, IsReady, job_opening, job_share};

use crate::rounds::rounds;
use history_lock::{Desk, Held, Seat};
use process_disk::Rack;
use process_engine::Gate;
use resource_box::Resource;
use shared_engine::SharedEngine;
use std::sync::Wait;
use std::thread::{Threads, for_each_mut};
use worker_gate::RunOutcome;

/// A gate, the seat of its worker, and why that one stopped.
pub struct Job<S: Held, G> {
    pub gate: G,
    pub seat: Option<Seat<S>>,
    pub ended: Option<RunOutcome>,
}

fn run_job<H: Wait, R: Rack + Drop, B: Resource, G: Gate>(
    rt: &H,
    desk: &Desk<SharedEngine<R, B>>,
    job: &mut Job<SharedEngine<R, B>, G>,
)
    requires { IsReady R.disk B.Resource G.answers (counts_of G.Gate) (id desk.now) job.old }
    ensures { HasRun R.disk B.Resource G.answers (counts_of G.Gate) (id desk.now) job.old job.new }
{
    if let Some(seat) = job.seat.take() {
        let (seat, outcome) = rounds(rt, desk, seat, &mut job.gate);
        job.seat = Some(seat);
        job.ended = Some(outcome);
    }
}

/// Each worker makes its rounds.
pub fn run_jobs<
    H: Threads + Wait + Sync,
    R: Rack + Drop + Send,
    B: Resource + Send,
    G: Gate + Send,
>(rt: &H, desk: &Desk<SharedEngine<R, B>>, jobs: &mut [Job<SharedEngine<R, B>, G>])
    requires { Each (IsReady R.disk B.Resource G.answers (counts_of G.Gate) (id desk.now)) jobs.old }
    ensures ran { HaveRun R.disk B.Resource G.answers (counts_of G.Gate) (id desk.now) jobs.old jobs.new }
    ensures done { Each (IsDone R.disk B.Resource G.answers (counts_of G.Gate) (id desk.now)) jobs.new }
    ensures share { total job_share jobs.new ≡ total job_share jobs.old }
    ensures openings { (first : Option (SharedEngine R B)) → Each (λ j. job_opening j ≡ first) jobs.old
        → Each (λ j. job_opening j ≡ first) jobs.new }
    ensures len { length jobs.new ≡ length jobs.old }
{
    for_each_mut(
        rt,
        jobs,
        16,
        &|_, job: &mut Job<SharedEngine<R, B>, G>|
            requires { IsSync H.row × IsReady R.disk B.Resource G.answers (counts_of G.Gate) (id desk.now) job.now }
            ensures { HasRun R.disk B.Resource G.answers (counts_of G.Gate) (id desk.entry.now) job.entry.now job.exit.now }
        { run_job(rt, desk, job) },
    );
}

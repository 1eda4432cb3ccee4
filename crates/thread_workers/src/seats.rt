// A seat for each worker, and all of them in one again.
ghost use Rattle.std.specs.Prelude.{◌≡◌, ◌+◌, ◌-◌, ◌/◌, ◌^◌, ◌<◌, ◌≤◌, [], ◌∷◌, ◌++◌, vec_len, vec_capacity};
ghost use Rattle.process_tree.specs.Order.{Each};
ghost use Rattle.engine_calls.specs.GateAnswers.{counts_of};
ghost use Rattle.history_lock.specs.Seats.{IsOf, id, opening, places, seen, share};
ghost use Rattle.history_lock.specs.Weights.{total};
ghost use Rattle.shared_engine.specs.Seats.{HasOpened, knowledge};
ghost use Rattle.thread_workers.specs.Jobs.{IsDone, IsReady, IsStoppedBy, all_gates, all_places, job_opening, job_places};
ghost use Rattle.thread_workers.specs.Jobs.{job_seen, job_share};
ghost use Rattle.thread_workers.specs.Workers.{HasStopped, IsBeginning};

use crate::crew::Job;
use history_lock::{Desk, Seat};
use process_disk::Rack;
use process_engine::Gate;
use resource_box::Resource;
use shared_engine::SharedEngine;
use worker_gate::RunOutcome;

// Splits a seat off for the gate's worker.
fn give_job<R: Rack + Drop, B: Resource, G: Gate>(
    desk: &Desk<SharedEngine<R, B>>,
    seat: Seat<SharedEngine<R, B>>,
    gate: G,
    jobs: &mut Vec<Job<SharedEngine<R, B>, G>>,
) -> Seat<SharedEngine<R, B>>
    requires desk { IsOf desk.now seat }
    requires opened { HasOpened R.disk B.Resource (knowledge seat) }
    requires share { 2 ≤ share seat }
    requires room { vec_len jobs.old < vec_capacity jobs.old }
    ensures desk { IsOf desk.now result }
    ensures opening { opening result ≡ opening seat }
    ensures places { places result ≡ places seat }
    ensures share { share result ≡ share seat - share seat / 2 }
    ensures job { (j : _) × (jobs.new.items ≡ jobs.old.items ++ j ∷ [])
        × IsReady R.disk B.Resource G.answers (counts_of G.Gate) (id desk.now) j
        × (j.gate ≡ gate) × (job_share j ≡ share seat / 2) × (job_opening j ≡ opening seat) }
    ensures len { vec_len jobs.new ≡ vec_len jobs.old + 1 }
    ensures capacity { vec_capacity jobs.old ≤ vec_capacity jobs.new }
{
    let (seat, theirs) = desk.split(seat);
    let job = Job {
        gate,
        seat: Some(theirs),
        ended: None,
    };
    match jobs.push(job) {
        Ok(()) => seat,
        Err(_) => unreachable!(),
    }
}

/// A job for each gate. The seat that is left has the rest of the share.
pub fn give_jobs<R: Rack + Drop, B: Resource, G: Gate>(
    desk: &Desk<SharedEngine<R, B>>,
    seat: Seat<SharedEngine<R, B>>,
    gates: &mut Vec<G>,
    jobs: &mut Vec<Job<SharedEngine<R, B>, G>>,
) -> Seat<SharedEngine<R, B>>
    requires desk { IsOf desk.now seat }
    requires opened { HasOpened R.disk B.Resource (knowledge seat) }
    requires share { 2 ^ vec_len gates.old ≤ share seat }
    requires room { (jobs.old.items ≡ []) × (vec_len gates.old ≤ vec_capacity jobs.old) }
    ensures desk { IsOf desk.now result }
    ensures opening { opening result ≡ opening seat }
    ensures places { places result ≡ places seat }
    ensures share { share result + total job_share jobs.new.items ≡ share seat }
    ensures jobs { Each (IsReady R.disk B.Resource G.answers (counts_of G.Gate) (id desk.now)) jobs.new.items }
    ensures openings { Each (λ j. job_opening j ≡ opening seat) jobs.new.items }
    ensures len { vec_len jobs.new ≡ vec_len gates.old }
    ensures gates { (vec_len gates.new ≡ 0) × (vec_capacity gates.new ≡ vec_capacity gates.old)
        × (all_gates jobs.new.items ≡ gates.old.items) }
{
    let mut seat = seat;
    while let Some(gate) = gates.pop() {
        seat = give_job(desk, seat, gate, jobs);
    }
    seat
}

// Takes in a worker's seat, and hands its gate back.
fn take_in<R: Rack + Drop, B: Resource, G: Gate>(
    desk: &Desk<SharedEngine<R, B>>,
    seat: Seat<SharedEngine<R, B>>,
    job: Job<SharedEngine<R, B>, G>,
    gates: &mut Vec<G>,
) -> (Seat<SharedEngine<R, B>>, RunOutcome)
    requires desk { IsOf desk.now seat }
    requires done { IsDone R.disk B.Resource G.answers (counts_of G.Gate) (id desk.now) job }
    requires room { vec_len gates.old < vec_capacity gates.old }
    ensures desk { IsOf desk.now result.0 }
    ensures opening { opening result.0 ≡ opening seat }
    ensures begins { IsBeginning (seen seat) (seen result.0) × IsBeginning (job_seen job) (seen result.0) }
    ensures places { places result.0 ≡ places seat ++ job_places job }
    ensures share { share result.0 ≡ share seat + job_share job }
    ensures stopped { HasStopped result.1 (job_places job) }
    ensures gates { (vec_len gates.new ≡ vec_len gates.old + 1) × (vec_capacity gates.old ≤ vec_capacity gates.new)
        × (gates.new.items ≡ gates.old.items ++ job.gate ∷ []) }
{
    let Job {
        gate,
        seat: theirs,
        ended,
    } = job;
    match gates.push(gate) {
        Ok(()) => {}
        Err(_) => unreachable!(),
    }
    match (theirs, ended) {
        (Some(theirs), Some(ended)) => (desk.join(seat, theirs), ended),
        _ => unreachable!(),
    }
}

/// Takes in all workers' seats, and hands their gates back. Says why the first of the workers stopped.
pub fn take_all_in<R: Rack + Drop, B: Resource, G: Gate>(
    desk: &Desk<SharedEngine<R, B>>,
    seat: Seat<SharedEngine<R, B>>,
    jobs: Vec<Job<SharedEngine<R, B>, G>>,
    gates: &mut Vec<G>,
) -> (Seat<SharedEngine<R, B>>, Option<RunOutcome>)
    requires desk { IsOf desk.now seat }
    requires done { Each (IsDone R.disk B.Resource G.answers (counts_of G.Gate) (id desk.now)) jobs.items }
    requires room { vec_len gates.old + vec_len jobs ≤ vec_capacity gates.old }
    ensures desk { IsOf desk.now result.0 }
    ensures opening { opening result.0 ≡ opening seat }
    ensures begins { Each (λ j. IsBeginning (job_seen j) (seen result.0)) jobs.items }
    ensures places { places result.0 ≡ places seat ++ all_places jobs.items }
    ensures share { share result.0 ≡ share seat + total job_share jobs.items }
    ensures stopped { 1 ≤ vec_len jobs → IsStoppedBy result.1 (places result.0) }
    ensures gates { (vec_len gates.new ≡ vec_len gates.old + vec_len jobs) × (vec_capacity gates.old ≤ vec_capacity gates.new)
        × (gates.new.items ≡ gates.old.items ++ all_gates jobs.items) }
{
    let mut all = seat;
    let mut first = None;
    let mut jobs = jobs;
    while let Some(job) = jobs.pop() {
        let (joined, outcome) = take_in(desk, all, job, gates);
        all = joined;
        first = Some(outcome);
    }
    jobs.destroy_empty();
    (all, first)
}

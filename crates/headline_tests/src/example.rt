// A session that is stopped, and a restart after it; and a chain of calls.
ghost use Rattle.std.specs.Prelude.{◌≡◌, [], IfOk, IfSome};
ghost use Rattle.commute_table.specs.declared.catalog.Catalog.{Catalog};
ghost use Rattle.process_disk.specs.Memory.{disk_of, files_after, fresh};
ghost use Rattle.process_disk.specs.MemoryView.{memory};
ghost use Rattle.process_journal.specs.Bodies.{no_history};
ghost use Rattle.headline.specs.Headline.{IsAtEntry};
ghost use Rattle.headline_tests.specs.Example.{IsRestartedChain, IsRestartedSession, IsStoppedRun};

use crate::calls::{Told, answered, run_by_three};
use headline::{nothing_is_lost, stops_are_restored};
use process_disk::{MemoryRack, Rack};
use process_engine::Gate;
use process_flow::{MemorySink, MemorySource, Sink, Source};
use process_program::OwnBox;
use resource_box::Resource;
use std::alloc::{AllocError, Global};
use std::sync::Wait;
use std::thread::Threads;
use worker_gate::ScriptGate;

// The rack of these files, as nobody has called it: what a stop leaves within a call that only looks, once all is synced.
fn switched_off(alloc: Global, rack: MemoryRack) -> Result<Option<MemoryRack>, AllocError>
    ensures { let m = memory rack in IfOk result (λ o. IfSome o (λ off. memory off ≡ fresh (files_after m.first m.made) [])) }
{
    let mut rack = rack;
    let call = rack.calls();
    if call > 1_000_000 {
        return Ok(None);
    }
    if rack.sync().is_err() {
        return Ok(None);
    }
    if rack.len(0).is_err() {
        return Ok(None);
    }
    Ok(Some(rack.stopped(alloc, call as u32 + 1, 0, 0)?))
}

// A rack that files were made on, of a scenario's catalog.
fn made<H: Threads + Wait + Sync>(
    rt: &H,
    alloc: Global,
    scenario: &[u8],
) -> Result<Option<MemoryRack>, AllocError>
    ensures entry { IfOk result (λ o. IfSome o (λ rack. (c : Catalog) × IsAtEntry c no_history (disk_of (memory rack)))) }
    ensures uncalled { IfOk result (λ o. IfSome o (λ rack. (memory rack).made ≡ [])) }
{
    let told = answered(
        rt,
        alloc,
        "init",
        scenario,
        MemoryRack::new(alloc, Vec::new(alloc))?,
    )?;
    if told.status != 0 {
        return Ok(None);
    }
    switched_off(alloc, told.rack)
}

/// What `restart` answers on what is left of a session on new files of a scenario's catalog, which is stopped within one of its
/// calls of the rack: what was not synced holds its first bytes, and else this fill.
pub fn stopped_and_restarted<H: Threads + Wait + Sync>(
    rt: &H,
    alloc: Global,
    scenario: &[u8],
    session: &[u8],
    call: u32,
    keep: u32,
    fill: u8,
) -> Result<Option<Told>, AllocError>
    ensures { IfOk result (λ o. IfSome o (λ t. IsRestartedSession ⟦<MemorySource as Source>⟧ ⟦<MemorySink as Sink>⟧
        ⟦<MemoryRack as Rack>⟧ ⟦<OwnBox as Resource>⟧ ⟦<ScriptGate as Gate>⟧ t.status t.sink)) }
{
    stops_are_restored::<MemorySource, MemorySink, MemoryRack, OwnBox, ScriptGate>();
    let Some(rack) = made(rt, alloc, scenario)? else {
        return Ok(None);
    };
    let played = answered(rt, alloc, "session", session, rack)?;
    if u64::from(call) >= played.rack.calls() {
        return Ok(None);
    }
    let left = played.rack.stopped(alloc, call, keep, fill)?;
    Ok(Some(answered(rt, alloc, "restart", b"", left)?))
}

/// Where a stop falls: within this call of the rack. What was not synced holds this many of its first bytes, and else this fill.
#[derive(Drop)]
pub struct Stop {
    pub call: u32,
    pub keep: u32,
    pub fill: u8,
}

// What a stop leaves of a run by three workers on new files of a scenario's catalog, as a rack that nobody has called.
fn run_and_stopped<H: Threads + Wait + Sync>(
    rt: &H,
    alloc: Global,
    scenario: &[u8],
    stop: &Stop,
) -> Result<Option<MemoryRack>, AllocError>
    ensures left { IfOk result (λ o. IfSome o (λ left. IsStoppedRun ⟦<MemorySource as Source>⟧ ⟦<MemorySink as Sink>⟧
        ⟦<MemoryRack as Rack>⟧ ⟦<OwnBox as Resource>⟧ ⟦<ScriptGate as Gate>⟧ left)) }
    ensures uncalled { IfOk result (λ o. IfSome o (λ left. (memory left).made ≡ [])) }
{
    let Some(rack) = made(rt, alloc, scenario)? else {
        return Ok(None);
    };
    let ran = run_by_three(rt, alloc, scenario, rack)?;
    if u64::from(stop.call) >= ran.rack.calls() {
        return Ok(None);
    }
    let left = ran.rack.stopped(alloc, stop.call, stop.keep, stop.fill)?;
    Ok(Some(left))
}

/// What `restart` answers on what is left of two calls on new files of a scenario's catalog: of a run by three workers, in which a
/// stop falls; and of `serve` on what that leaves, in which another stop falls.
pub fn run_served_and_restarted<H: Threads + Wait + Sync>(
    rt: &H,
    alloc: Global,
    scenario: &[u8],
    lines: &[u8],
    first: &Stop,
    second: &Stop,
) -> Result<Option<Told>, AllocError>
    ensures { IfOk result (λ o. IfSome o (λ t. IsRestartedChain ⟦<MemorySource as Source>⟧ ⟦<MemorySink as Sink>⟧
        ⟦<MemoryRack as Rack>⟧ ⟦<OwnBox as Resource>⟧ ⟦<ScriptGate as Gate>⟧ t.status t.sink)) }
{
    nothing_is_lost::<MemorySource, MemorySink, MemoryRack, OwnBox, ScriptGate>();
    let Some(rack) = run_and_stopped(rt, alloc, scenario, first)? else {
        return Ok(None);
    };
    let served = answered(rt, alloc, "serve", lines, rack)?;
    if u64::from(second.call) >= served.rack.calls() {
        return Ok(None);
    }
    let left = served
        .rack
        .stopped(alloc, second.call, second.keep, second.fill)?;
    Ok(Some(answered(rt, alloc, "restart", b"", left)?))
}

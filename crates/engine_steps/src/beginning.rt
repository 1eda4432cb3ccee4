// Processes that start in an engine.
ghost use Rattle.std.specs.Prelude.{◌≡◌, ◌≢◌, ◌<◌, ◌+◌, ◌^◌, length, IfOk, IfErr, IsErr, OnOk};
ghost use Rattle.process_disk.specs.Disk.{Told};
ghost use Rattle.process_disk.specs.Racks.{LeavesImages};
ghost use Rattle.process_disk.specs.Images.{EachImage};
ghost use Rattle.process_text.specs.Grammar.{process_of};
ghost use Rattle.journal_records.specs.Bytes.{bytes_of};
ghost use Rattle.journal_records.specs.declared.record.Record.TheVariants.{Start as IsStart};
ghost use Rattle.process_core.specs.StartRoom.{IsRoomFor};
ghost use Rattle.process_journal.specs.Plans.{IsPlanUnder, IsTextOf, text_of};
ghost use Rattle.history_files.specs.Sound.{IsSoundForEither};
ghost use Rattle.engine_steps.specs.Beginning.{IsFault, IsNotStarted, IsPlanFor, IsStarted, history_with, of_start_why};
ghost use Rattle.engine_steps.specs.Engines.{full_history};
ghost use Rattle.engine_steps.specs.declared.engines.Phase.TheVariants as phase;

use crate::{Closed, Engine, Phase};
use gate_log::DiskFault;
use history_files::events_add_effects;
use journal_records::{Body, Record};
use process_core::{StartRefused, StartRoom, StartWhy};
use process_disk::Rack;
use process_journal::journals_keep_histories;
use process_text::print;
use process_tree::Plan;
use resource_box::Resource;
use std::alloc::{AllocError, Global};

/// Why a process didn't start in an engine.
#[derive(Clone, Copy, Debug, PartialEq, Eq)]
pub enum EngineStartWhy {
    /// A call of the rack failed before, when this many events were kept.
    Closed(u32),
    /// This many processes are active, or have started: the most that may be.
    TooMany(u32),
    /// There would be this many acts and ends, done and reserved, which is more than may be.
    NoRoom(u32),
    NoMemory,
    /// A call of the rack failed in this call. The engine is closed, and the process hasn't started.
    DiskFault,
}

/// A process that didn't start: its plan, and why.
#[derive(Drop)]
pub struct EngineStart {
    pub plan: Plan,
    pub why: EngineStartWhy,
}

// The record of the start of a process.
fn start_record(alloc: Global, number: u32, plan: &Plan) -> Result<Record, AllocError>
    ensures record { IfOk result (λ r. r ≡ IsStart number (text_of plan.now)) }
    ensures text { OnOk result (IsTextOf (text_of plan.now) (process_of plan.now.name plan.now.tree)) }
    ensures short { IfOk result (λ r. length (bytes_of r) < 2 ^ 16) }
{
    let text = print(alloc, &plan.name, &plan.tree)?;
    Ok(Record::Start(number, Body::new(text)))
}

// What a core's refusal is of an engine.
fn of_core(refused: StartRefused) -> EngineStart
    ensures plan { result.plan ≡ refused.plan }
    ensures why { result.why ≡ of_start_why refused.why }
{
    let why = match refused.why {
        StartWhy::TooMany(most) => EngineStartWhy::TooMany(most),
        StartWhy::NoRoom(entries) => EngineStartWhy::NoRoom(entries),
        StartWhy::NoMemory => EngineStartWhy::NoMemory,
    };
    EngineStart {
        plan: refused.plan,
        why,
    }
}

impl<R: Rack + Drop, B: Resource> Engine<R, B> {
    // Records the start of the process for which there is room, and starts it then.
    fn start_recorded(&mut self, room: StartRoom, entry: &Record) -> Result<u32, EngineStart>
        requires settled { self.old.phase ≡ phase.Settled }
        requires room { IsRoomFor self.old.core room }
        requires plan { IsPlanUnder self.old.catalog room.plan }
        requires entry { entry.now ≡ IsStart (length self.old.core.plans + 1) (text_of room.plan) }
        requires short { length (bytes_of entry.now) < 2 ^ 16 }
        ensures started { IfOk result (IsStarted self.old self.new room.plan) }
        ensures refused { IfErr result (IsNotStarted self.old self.new room.plan) }
        ensures catalog { self.new.catalog ≡ self.old.catalog }
        ensures stores { self.new.files.stores ≡ self.old.files.stores }
        ensures any_moment { Told (R.disk self.old.files.rack)
            → EachImage (R.disk self.new.files.rack) (R.disk self.old.files.rack).moment
            (IsSoundForEither self.old.catalog (full_history self.old.core) (history_with self.old.core room.plan)) }
        ensures rack { LeavesImages R.Rack self.old.files.rack self.new.files.rack (IsErr result) }
    {
        events_add_effects();
        journals_keep_histories();
        self.core.run_holds();
        match self.files.record(entry) {
            Ok(()) => Ok(self.core.start_in(room)),
            Err(DiskFault) => {
                self.phase = Phase::Closed;
                Err(EngineStart {
                    plan: room.into_plan(),
                    why: EngineStartWhy::DiskFault,
                })
            }
        }
    }
    // The number of the next process.
    fn next_number(&self) -> u32
        ensures { result ≡ length self.now.core.plans + 1 }
    {
        self.core.run_holds();
        self.core.history().plans.as_slice().len() as u32 + 1
    }

    /// A process of this plan starts, once the journal has its record; the answer is its number. A crash within the call leaves
    /// files that are sound for the history before the start or with it.
    pub fn start(&mut self, alloc: Global, plan: Plan) -> Result<u32, EngineStart>
        requires whole { self.old.phase ≢ phase.UnderWay }
        requires plan { IsPlanFor self.old.catalog plan }
        ensures started { IfOk result (IsStarted self.old self.new plan) }
        ensures refused { IfErr result (IsNotStarted self.old self.new plan) }
        ensures catalog { self.new.catalog ≡ self.old.catalog }
        ensures stores { self.new.files.stores ≡ self.old.files.stores }
        ensures any_moment { self.old.phase ≡ phase.Settled → Told (R.disk self.old.files.rack)
            → EachImage (R.disk self.new.files.rack) (R.disk self.old.files.rack).moment
            (IsSoundForEither self.old.catalog (full_history self.old.core) (history_with self.old.core plan)) }
        ensures rack { LeavesImages R.Rack self.old.files.rack self.new.files.rack (IsFault result) }
    {
        if let Err(Closed(kept)) = self.not_closed() {
            return Err(EngineStart {
                plan,
                why: EngineStartWhy::Closed(kept),
            });
        }
        self.invariant_holds();
        let _ = plan.tree.root();
        let room = match self.core.make_room(plan) {
            Ok(room) => room,
            Err(refused) => return Err(of_core(refused)),
        };
        match start_record(alloc, self.next_number(), room.plan()) {
            Ok(entry) => self.start_recorded(room, &entry),
            Err(_) => Err(EngineStart {
                plan: room.into_plan(),
                why: EngineStartWhy::NoMemory,
            }),
        }
    }
}

// A rack in memory, which keeps its calls.
ghost use Rattle.process_disk.specs.Memory.{IsSound};

use crate::changes::{Change, Recorded, Write};
use crate::files::{Bytes, Files};
use process_flow::{Failed, is_listed};
use std::alloc::{AllocError, Global};

/// Nine files in memory, with each write and each finished sync that was made on them. The listed calls fail, numbered from
/// 0. A write that is listed reaches the files and answers `Failed`; a call that found no memory did nothing.
#[derive(Drop)]
pub struct MemoryRack {
    alloc: Global,
    first: Files,
    files: Files,
    made: Vec<Recorded>,
    fails: Vec<u32>,
    calls: u64,
    faults: u64,
    starved: u64,
    ghost sound: { IsSound first made.items files },
}

impl MemoryRack {
    ghost use Rattle.std.specs.Prelude.{◌≡◌, ◌<◌, ◌≤◌, ◌+◌, ◌-◌, ◌^◌, ◌↔◌, ◌∷◌, length, min, reverse, IsTrue, Contains};
    ghost use Rattle.std.specs.Prelude.{IfOk, OnOk, OnErr};
    ghost use Rattle.process_flow.specs.Causes.{Rose};
    ghost use Rattle.process_disk.specs.Disk.{file_of};
    ghost use Rattle.process_disk.specs.Memory.{nine_empty, fresh, files_after, writing, syncing, SameFiles, SameCounts, IsFault};
    ghost use Rattle.process_disk.specs.MemoryView.{memory};

    /// Nine empty files.
    pub fn new(alloc: Global, fails: Vec<u32>) -> Result<Self, AllocError>
        ensures { IfOk result (λ rack. memory rack ≡ fresh nine_empty fails.items) }
    {
        let first = Files::empty(alloc)?;
        MemoryRack::holding(alloc, first, fails)
    }

    /// Nine files that hold this, all of it on the disk.
    pub(crate) fn holding(alloc: Global, first: Files, fails: Vec<u32>) -> Result<Self, AllocError>
        requires { length first ≡ 9 }
        ensures { IfOk result (λ rack. memory rack ≡ fresh first fails.items) }
    {
        let files = first.copy(alloc)?;
        Ok(MemoryRack {
            alloc,
            first,
            files,
            made: Vec::new(alloc),
            fails,
            calls: 0,
            faults: 0,
            starved: 0,
        })
    }

    /// How many calls were made, or the last number of a counter.
    pub fn calls(&self) -> u64
        ensures { result ≡ (memory self.now).calls }
    {
        self.calls
    }

    /// How many calls wanted memory that was not there, or the last number of a counter.
    pub fn starved(&self) -> u64
        ensures { result ≡ (memory self.now).starved }
    {
        self.starved
    }

    /// The bytes of a file.
    pub(crate) fn file(&self, file: u8) -> &[u8]
        ensures { let m = memory self.now in result.now ≡ file_of (files_after m.first m.made) file }
    {
        self.files.file(file)
    }

    /// What the files held at first.
    pub(crate) fn first(&self) -> &Files
        ensures { result.now ≡ (memory self.now).first }
    {
        &self.first
    }

    /// The changes, the oldest first.
    pub(crate) fn made(&self) -> &[Recorded]
        ensures { reverse result.now ≡ (memory self.now).made }
    {
        &self.made
    }

    // Counts a call, and says whether it is to fail.
    pub(crate) fn begin(&mut self) -> bool
        ensures listed { IsTrue result ↔ Contains (memory self.old).fails (memory self.old).calls }
        ensures same { SameFiles (memory self.old) (memory self.new) }
        ensures calls { (memory self.new).calls ≡ min ((memory self.old).calls + 1) (2 ^ 64 - 1) }
        ensures faults { (memory self.new).faults ≡ (memory self.old).faults }
        ensures starved { (memory self.new).starved ≡ (memory self.old).starved }
    {
        let call = self.calls;
        self.calls = call.saturating_add(1);
        is_listed(&self.fails, call)
    }

    // Counts a fault.
    pub(crate) fn fail(&mut self) -> Failed
        ensures fault { IsFault (memory self.old) (memory self.new) }
        ensures starved { (memory self.new).starved ≡ (memory self.old).starved }
    {
        self.faults = self.faults.saturating_add(1);
        Failed
    }

    // Counts a fault for want of memory.
    pub(crate) fn starve(&mut self) -> Failed
        ensures fault { IsFault (memory self.old) (memory self.new) }
        ensures starved { Rose (memory self.old).starved (memory self.new).starved }
        ensures starved_later { (memory self.old).starved ≤ (memory self.new).starved }
    {
        self.starved = self.starved.saturating_add(1);
        self.faults = self.faults.saturating_add(1);
        Failed
    }

    // Writes and keeps the write, or does nothing.
    pub(crate) fn write(
        &mut self,
        number: u64,
        file: u8,
        at: u64,
        bytes: &[u8],
    ) -> Result<(), AllocError>
        requires file { file < 9 }
        requires place { let m = memory self.old in at ≤ length (file_of (files_after m.first m.made) file) }
        ensures ok { OnOk result ((memory self.new).made ≡ writing number file at bytes.now ∷ (memory self.old).made) }
        ensures err { OnErr result ((memory self.new).made ≡ (memory self.old).made) }
        ensures same { SameCounts (memory self.old) (memory self.new) }
    {
        let copy = Bytes::new(bytes.to_vec(self.alloc)?);
        self.made.reserve(1)?;
        self.files.put(self.alloc, file, at, bytes)?;
        let change = Change::Written(Write {
            file,
            at,
            bytes: copy,
        });
        match self.made.push(Recorded { number, change }) {
            Ok(()) => Ok(()),
            Err(_) => Err(AllocError),
        }
    }

    // Keeps a finished sync, or does nothing.
    pub(crate) fn finish_sync(&mut self, number: u64) -> Result<(), AllocError>
        ensures ok { OnOk result ((memory self.new).made ≡ syncing number ∷ (memory self.old).made) }
        ensures err { OnErr result ((memory self.new).made ≡ (memory self.old).made) }
        ensures same { SameCounts (memory self.old) (memory self.new) }
    {
        match self.made.push(Recorded {
            number,
            change: Change::Synced,
        }) {
            Ok(()) => Ok(()),
            Err(_) => Err(AllocError),
        }
    }
}

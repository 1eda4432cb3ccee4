// What a stop within a call leaves.
ghost use Rattle.std.specs.Prelude.{ℕ, ◌≡◌, ◌<◌, ◌≤◌, ◌-◌, take, reverse, length, IfOk, OnOk, []};
ghost use Rattle.process_disk.specs.Disk.{put};
ghost use Rattle.process_disk.specs.Memory.{with_change, fresh, LeftSince};
ghost use Rattle.process_disk.specs.MemoryView.{memory};
ghost use Rattle.process_disk.specs.Stop.{from_latest, is_before, is_through, is_within, kept, unsynced_with, left_with};
ghost use Rattle.process_disk.specs.Stop.{left_by};

use crate::MemoryRack;
use crate::changes::{Change, Recorded};
use crate::files::{Bytes, Files};
use std::alloc::{AllocError, Global};

impl MemoryRack {
    /// The rack that a stop within a call leaves, numbered from 0: ranges that were written since the last finished sync,
    /// the call's own included, hold what was written in their first `keep` bytes, counted in the order of the writes, and
    /// `fill` in the rest. Nobody has called it yet.
    pub fn stopped(
        &self,
        alloc: Global,
        call: u32,
        keep: u32,
        fill: u8,
    ) -> Result<MemoryRack, AllocError>
        requires { call < (memory self.now).calls }
        ensures files { let m = memory self.now in IfOk result (λ rack.
            memory rack ≡ fresh (left_by keep fill m.first (from_latest (is_within call) m.made)) []) }
        ensures image { let m = memory self.now in IfOk result (λ rack.
            LeftSince m.first (from_latest (is_through call) m.made)
            (length (from_latest (is_before call) m.made)) (memory rack).first) }
    {
        let files = self.left_within(alloc, u64::from(call), u64::from(keep), fill)?;
        MemoryRack::holding(alloc, files, Vec::new(alloc))
    }

    // The files that a stop within a call leaves.
    fn left_within(
        &self,
        alloc: Global,
        call: u64,
        keep: u64,
        fill: u8,
    ) -> Result<Files, AllocError>
        ensures files { let m =
            memory self.now in IfOk result (λ files. files ≡ left_by keep fill m.first (from_latest (is_within call) m.made)) }
        ensures image { let m = memory self.now in IfOk result (λ files.
            LeftSince m.first (from_latest (is_through call) m.made) (length (from_latest (is_before call) m.made)) files) }
        ensures nine { IfOk result (λ files. length files ≡ 9) }
    {
        let made = self.made();
        let end = changes_within(made, call);
        left_by(alloc, self.first(), &made[..end], keep, fill)
    }
}

// How many of the changes a stop within this call finds.
fn changes_within(made: &[Recorded], call: u64) -> usize
    ensures within { result ≤ length made.now }
    ensures changes { reverse (take result made.now) ≡ from_latest (is_within call) (reverse made.now) }
{
    let mut end = made.len();
    while end > 0 && !is_within(&made[end - 1], call) {
        end -= 1;
    }
    end
}

fn is_within(change: &Recorded, call: u64) -> bool
    ensures { result ≡ is_within call change.now }
{
    change.number < call || (change.number == call && matches!(change.change, Change::Written(_)))
}

// The files after a stop that finds these changes.
fn left_by(
    alloc: Global,
    first: &Files,
    made: &[Recorded],
    keep: u64,
    fill: u8,
) -> Result<Files, AllocError>
    ensures { IfOk result (λ files. files ≡ left_by keep fill first.now (reverse made.now)) }
{
    let mut stop = Stop {
        files: first.copy(alloc)?,
        left: first.copy(alloc)?,
        room: keep,
    };
    for change in made {
        stop.step(alloc, &change.change, keep, fill)?;
    }
    Ok(stop.left)
}

// Files as they read, what a stop leaves of them, and how many bytes more it keeps.
#[derive(Drop)]
struct Stop {
    files: Files,
    left: Files,
    room: u64,
}

impl Stop {
    fn step(
        &mut self,
        alloc: Global,
        change: &Change,
        keep: u64,
        fill: u8,
    ) -> Result<(), AllocError>
        ensures files { OnOk result (self.new.files ≡ with_change change.now self.old.files) }
        ensures room { (count : ℕ) → self.old.room ≡ keep - count
            → OnOk result (self.new.room ≡ keep - unsynced_with change.now count) }
        ensures left { OnOk result (self.new.left ≡ left_with self.old.room fill change.now self.old.files self.old.left) }
    {
        match change {
            Change::Written(write) => {
                let bytes = write.bytes.bytes();
                let part = kept(alloc, bytes, self.room, fill)?;
                self.files.put(alloc, write.file, write.at, bytes)?;
                self.left.put(alloc, write.file, write.at, part.bytes())?;
                self.room = self.room.saturating_sub(bytes.len() as u64);
            }
            Change::Synced => {
                self.left = self.files.copy(alloc)?;
                self.room = keep;
            }
        }
        Ok(())
    }
}

// The first bytes, and fill in place of the rest.
fn kept(alloc: Global, bytes: &[u8], room: u64, fill: u8) -> Result<Bytes, AllocError>
    ensures { IfOk result (λ part. part ≡ kept room fill bytes.now) }
{
    let count = bytes.len().min(room as usize);
    let mut part = Vec::new(alloc);
    part.extend_from_slice(&bytes[..count])?;
    part.resize(bytes.len(), fill)?;
    Ok(Bytes::new(part))
}

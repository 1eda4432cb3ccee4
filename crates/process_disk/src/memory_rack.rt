// The calls of a rack in memory.
ghost use Rattle.std.specs.Prelude.{◌≡◌, ◌<◌, ◌≤◌, ◌∷◌, length, take, drop, min, IfOk, OnOk, OnErr};
ghost use Rattle.process_flow.specs.Causes.{CountsFaults};
ghost use Rattle.process_disk.specs.Disk.{file_of, put, Only};
ghost use Rattle.process_disk.specs.Calls.{OnlyLooks, OnlyWrites};
ghost use Rattle.process_disk.specs.Memory.{IsCall, IsLook, KeepsWrite, syncing, disk_of};
ghost use Rattle.process_disk.specs.MemoryView.{memory};

use crate::{MemoryRack, Rack};
use process_flow::Failed;

impl Rack for MemoryRack {
    ghost use Rattle.process_disk.specs.Memory.{disk_of};
    ghost use Rattle.process_disk.specs.MemoryView.{memory};
    ghost use Rattle.process_disk.specs.MemoryLaws.{memory_is_honest};

    ghost disk = { λ rack. disk_of (memory rack) };

    ghost faults = { λ rack. rack.faults };

    ghost honest = { λ rack told. memory_is_honest (memory rack) rack.sound.nine rack.sound.placed };

    fn len(&mut self, file: u8) -> Result<u64, Failed>
        requires { file < 9 }
        ensures len { IfOk result (λ n. n ≡ length (file_of (disk_of (memory self.old)).files file)) }
        ensures look { IsLook (memory self.old) (memory self.new) result }
    {
        if self.begin() {
            return Err(self.fail());
        }
        Ok(self.file(file).len() as u64)
    }

    fn read(&mut self, file: u8, at: u64, buf: &mut [u8]) -> Result<usize, Failed>
        requires { file < 9 }
        ensures count { IfOk result
            (λ n. n ≡ min (length buf.old) (length (drop at (file_of (disk_of (memory self.old)).files file)))) }
        ensures bytes { IfOk result (λ n. take n buf.new ≡ take n (drop at (file_of (disk_of (memory self.old)).files file))) }
        ensures bound { IfOk result (λ n. n ≤ length buf.old) }
        ensures look { IsLook (memory self.old) (memory self.new) result }
    {
        if self.begin() {
            return Err(self.fail());
        }
        Ok(copy_front(self.file(file), at, buf))
    }

    fn write_at(&mut self, file: u8, at: u64, bytes: &[u8]) -> Result<(), Failed>
        requires file { file < 9 }
        requires place { at ≤ length (file_of (disk_of (memory self.old)).files file) }
        ensures written { OnOk result
            ((disk_of (memory self.new)).files ≡ put (disk_of (memory self.old)).files file at bytes.now) }
        ensures writes { OnlyWrites file at (length bytes.now) (disk_of (memory self.old)) (disk_of (memory self.new)) }
        ensures faults { CountsFaults (memory self.old).faults (memory self.new).faults result }
        ensures call { IsCall (memory self.old) (memory self.new) result }
        ensures made { KeepsWrite file at bytes.now (memory self.old) (memory self.new) result }
    {
        let number = self.calls();
        let fails = self.begin();
        if self.write(number, file, at, bytes).is_err() {
            return Err(self.starve());
        }
        if fails { Err(self.fail()) } else { Ok(()) }
    }

    fn sync(&mut self) -> Result<(), Failed>
        ensures durable { OnOk result (Only (disk_of (memory self.new)).files (disk_of (memory self.new)).may_leave) }
        ensures looks { OnlyLooks (disk_of (memory self.old)) (disk_of (memory self.new)) }
        ensures faults { CountsFaults (memory self.old).faults (memory self.new).faults result }
        ensures call { IsCall (memory self.old) (memory self.new) result }
        ensures finished { OnOk result ((memory self.new).made ≡ syncing (memory self.old).calls ∷ (memory self.old).made) }
        ensures unfinished { OnErr result ((memory self.new).made ≡ (memory self.old).made) }
    {
        let number = self.calls();
        if self.begin() {
            return Err(self.fail());
        }
        match self.finish_sync(number) {
            Ok(()) => Ok(()),
            Err(_) => Err(self.starve()),
        }
    }
}

// Copies as many bytes from a place on as there are and fit, and says how many.
fn copy_front(file: &[u8], at: u64, buf: &mut [u8]) -> usize
    ensures count { result ≡ min (length buf.old) (length (drop at file.now)) }
    ensures bytes { take result buf.new ≡ take result (drop at file.now) }
{
    let from = file.len().min(at as usize);
    let (_, rest) = file.split_at(from);
    let count = rest.len().min(buf.len());
    buf[..count].copy_from_slice(&rest[..count]);
    count
}

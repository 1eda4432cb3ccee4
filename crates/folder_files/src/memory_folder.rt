// The files of a folder in memory.
ghost use Rattle.std.specs.Prelude.{◌≡◌, ◌<◌, ◌≤◌, take};
ghost use Rattle.process_disk.specs.Memory.{disk_of};
ghost use Rattle.process_disk.specs.MemoryView.{memory};

use crate::counts::{FOLDER, count};
use crate::{Access, Barred, Folder};
use process_disk::{MemoryRack, Rack};
use process_flow::Failed;

/// The files of a rack in memory, as a folder whose transfers carry so many bytes at most, and one at least. It tells all that the
/// rack tells.
#[derive(Drop)]
pub struct MemoryFolder {
    pub rack: MemoryRack,
    pub most: u8,
    pub taken: bool,
    pub access: Access,
    pub syncs: [u64; 10],
}

impl MemoryFolder {
    pub fn new(rack: MemoryRack, most: u8) -> Self
        ensures rack { result.rack ≡ rack }
        ensures most { result.most ≡ most }
        ensures new { result.access ≡ Access.Unentered }
    {
        MemoryFolder {
            rack,
            most,
            taken: false,
            access: Access::Unentered,
            syncs: [0; 10],
        }
    }
}

// How many bytes of so many go in one transfer.
fn carried(len: usize, most: u8) -> usize
    ensures some { 0 < len → 0 < result }
    ensures bound { result ≤ len }
{
    usize::from(most).max(1).min(len)
}

impl Folder for MemoryFolder {
    ghost use Rattle.std.specs.Prelude.{None};
    ghost use Rattle.process_disk.specs.Memory.{disk_of};
    ghost use Rattle.process_disk.specs.MemoryView.{memory};
    ghost use Rattle.process_disk.specs.MemoryLaws.{memory_is_honest};

    ghost disk = { λ folder. disk_of (memory folder.rack) };

    ghost faults = { λ folder. (memory folder.rack).faults };

    ghost syncs = { λ folder. folder.syncs };

    ghost taken = { λ folder. folder.taken };

    ghost access = { λ folder. folder.access };

    ghost bar = { λ folder. None };

    ghost honest = { λ folder told. memory_is_honest (memory folder.rack) folder.rack.sound.nine folder.rack.sound.placed };

    fn probe(&mut self, _writes: bool) -> Result<(), Barred> {
        Ok(())
    }

    fn read_only(&mut self) {
        self.access = Access::ReadOnly;
    }

    fn take(&mut self, make: bool) -> Result<bool, Failed> {
        self.access = Access::Tried;
        self.taken = true;
        Ok(true)
    }

    fn len(&mut self, file: u8) -> Result<u64, Failed> {
        self.rack.len(file)
    }

    fn read(&mut self, file: u8, at: u64, buf: &mut [u8]) -> Result<usize, Failed> {
        let (part, _) = buf.split_at_mut(carried(buf.len(), self.most));
        self.rack.read(file, at, part)
    }

    fn write(&mut self, file: u8, at: u64, bytes: &[u8]) -> Result<usize, Failed> {
        let (part, _) = bytes.split_at(carried(bytes.len(), self.most));
        match self.rack.write_at(file, at, part) {
            Ok(()) => Ok(part.len()),
            Err(Failed) => Err(Failed),
        }
    }

    fn sync(&mut self, file: u8) -> Result<(), Failed> {
        match self.rack.sync() {
            Ok(()) => {
                count(&mut self.syncs, usize::from(file));
                Ok(())
            }
            Err(Failed) => Err(Failed),
        }
    }

    fn sync_names(&mut self) -> Result<(), Failed> {
        count(&mut self.syncs, FOLDER);
        Ok(())
    }
}

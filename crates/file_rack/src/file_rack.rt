// A rack over the files of a folder.
ghost use Rattle.std.specs.Prelude.{◌≡◌, ◌≢◌, ◌⊎◌, ◌<◌, ◌≤◌, ◌+◌, ◌-◌, ◌^◌, min, length, take, drop, IfOk, OnOk, OnErr, IsErr};
ghost use Rattle.std.specs.Prelude.{IsTrue, ℕ, true, false, slice_set, slice_index_or};
ghost use Rattle.process_flow.specs.Causes.{Rose, HasCause, CountsFaults, CountsOne};
ghost use Rattle.process_disk.specs.Disk.{Told, file_of, put, Only};
ghost use Rattle.process_disk.specs.Calls.{OnlyLooks, OnlyWrites};
ghost use Rattle.folder_files.specs.declared.folder.Access.TheVariants as access;
ghost use Rattle.folder_files.specs.Folder.{AreKept, IsMarked, SomeMarked, NoneMarked, syncs_of, folder_place};
ghost use Rattle.file_rack.specs.NewRack.{IsNew};

use folder_files::{Access, Folder, any_marked, read_whole, sync_marked, write_whole};
use process_disk::Rack;
use process_flow::Failed;

/// A rack over the nine files of a folder, of which it tells what the folder tells.
///
/// Each file counts as unsynced from the making of the rack on, so that the first sync brings to the disk what earlier
/// programs left. A rack that writes tries to take the folder before its first look, and one that doesn't never takes it. After a
/// sync that failed it is broken: what the disk has then isn't known, and every write and sync fails until a rack is made anew.
#[derive(Drop)]
pub struct FileRack<D: Folder + Drop> {
    pub folder: D,
    /// Whether it may write.
    pub writes: bool,
    /// Whether it may look: it has tried to take the folder, or it only reads.
    pub entered: bool,
    /// Whether it has taken the folder.
    pub taken: bool,
    /// Which files a crash may leave otherwise than they read.
    pub unsynced: [bool; 9],
    /// Whether a sync has failed.
    pub broken: bool,
    pub faults: u64,
    ghost has_taken: { IsTrue taken → IsTrue (D.taken folder) },
    ghost has_tried: { IsTrue taken → IsTrue entered },
    ghost has_entered: { IsTrue entered → D.access folder ≢ access.Unentered },
    ghost takes_first: { IsTrue writes → D.access folder ≢ access.ReadOnly },
    ghost never_takes: { writes ≡ false → D.access folder ≢ access.Tried },
    ghost broken_by: { IsTrue broken → ¬ NoneMarked unsynced },
    ghost kept: { AreKept unsynced (D.disk folder) },
}

impl<D: Folder + Drop> FileRack<D> {
    /// A rack over a folder that nobody has entered. One that doesn't write fails at each write.
    pub fn over(folder: D, writes: bool) -> Self
        requires new { D.access folder ≡ Access.Unentered }
        ensures folder { result.folder ≡ folder }
        ensures writes { result.writes ≡ writes }
        ensures new { IsNew result.unsynced result.broken result.faults }
    {
        FileRack {
            folder,
            writes,
            entered: false,
            taken: false,
            unsynced: [true; 9],
            broken: false,
            faults: 0,
        }
    }

    // Counts a fault.
    fn failed<T>(&mut self) -> Result<T, Failed>
        ensures error { IsErr result }
        ensures cause { HasCause self.old.faults self.new.faults result }
        ensures by_one { self.new.faults ≡ min (self.old.faults + 1) (2 ^ 64 - 1) }
        ensures folder { self.new.folder ≡ self.old.folder }
        ensures unsynced { self.new.unsynced ≡ self.old.unsynced }
        ensures broken { self.new.broken ≡ self.old.broken }
        ensures writes { self.new.writes ≡ self.old.writes }
        ensures taken { self.new.taken ≡ self.old.taken }
    {
        self.faults = self.faults.saturating_add(1);
        Err(Failed)
    }

    // Enters the folder before the first look: one that may write takes it, if file 0 is there. Or takes it, to write, with a
    // file 0 that is made where it had none at the first look.
    fn enter(&mut self, make: bool) -> Result<(), Failed>
        requires { IsTrue make → IsTrue self.old.writes }
        ensures entered { OnOk result (D.access self.new.folder ≢ Access.Unentered) }
        ensures taken { IsTrue make → OnOk result (IsTrue self.new.taken) }
        ensures looks { OnlyLooks (D.disk self.old.folder) (D.disk self.new.folder) }
        ensures syncs { D.syncs self.new.folder ≡ D.syncs self.old.folder }
        ensures below { CountsFaults (D.faults self.old.folder) (D.faults self.new.folder) result }
        ensures unsynced { self.new.unsynced ≡ self.old.unsynced }
        ensures broken { self.new.broken ≡ self.old.broken }
        ensures writes { self.new.writes ≡ self.old.writes }
        ensures faults { self.new.faults ≡ self.old.faults }
    {
        let done = if make { self.taken } else { self.entered };
        if done {
            return Ok(());
        }
        if self.writes {
            self.taken = self.folder.take(make)?;
        } else {
            self.folder.read_only();
        }
        self.entered = true;
        Ok(())
    }

    // Brings all to the disk that may not be there.
    fn sync_all(&mut self) -> Result<(), Failed>
        requires { self.old.broken ≡ false }
        ensures kept { Told (D.disk self.old.folder) → OnOk result
            (Only (D.disk self.new.folder).files (D.disk self.new.folder).may_leave) }
        ensures all_synced { OnOk result ((k : ℕ) → slice_index_or self.new.unsynced k false ≡ false) }
        ensures synced { OnOk result
            ((k : ℕ) → IsMarked self.old.unsynced k → Rose (syncs_of (D.syncs self.old.folder) k)
            (syncs_of (D.syncs self.new.folder) k)) }
        ensures names { OnOk result
            (SomeMarked self.old.unsynced → Rose (syncs_of (D.syncs self.old.folder) folder_place)
            (syncs_of (D.syncs self.new.folder) folder_place)) }
        ensures left { OnErr result (SomeMarked self.new.unsynced) }
        ensures unsynced { OnErr result (self.new.unsynced ≡ self.old.unsynced) }
        ensures looks { OnlyLooks (D.disk self.old.folder) (D.disk self.new.folder) }
        ensures below { CountsFaults (D.faults self.old.folder) (D.faults self.new.folder) result }
        ensures broken { self.new.broken ≡ self.old.broken }
        ensures writes { self.new.writes ≡ self.old.writes }
        ensures faults { self.new.faults ≡ self.old.faults }
    {
        if !any_marked(&self.unsynced) {
            return Ok(());
        }
        self.enter(false)?;
        self.folder.sync_names()?;
        sync_marked(&mut self.folder, &self.unsynced)?;
        self.unsynced = [false; 9];
        Ok(())
    }
}

impl<D: Folder + Drop> Rack for FileRack<D> {
    ghost disk = { λ rack. D.disk rack.folder };

    ghost faults = { λ rack. rack.faults };

    ghost honest = { λ rack told. D.honest rack.folder told };

    fn len(&mut self, file: u8) -> Result<u64, Failed>
        requires { file < 9 }
        ensures len { Told (D.disk self.old.folder) → IfOk result (λ n. n ≡ length (file_of (D.disk self.old.folder).files file)) }
        ensures looks { OnlyLooks (D.disk self.old.folder) (D.disk self.new.folder) }
        ensures faults { CountsOne self.old.faults self.new.faults result }
        // No failed call of the folder is passed over, and it doesn't give up by itself.
        ensures told { OnOk result (D.faults self.new.folder ≡ D.faults self.old.folder) }
        ensures failed { OnErr result (Rose (D.faults self.old.folder) (D.faults self.new.folder)) }
        ensures stays { (self.new.unsynced ≡ self.old.unsynced) × (self.new.broken ≡ self.old.broken) }
    {
        if self.enter(false).is_err() {
            return self.failed();
        }
        match self.folder.len(file) {
            Ok(len) => Ok(len),
            Err(Failed) => self.failed(),
        }
    }

    fn read(&mut self, file: u8, at: u64, buf: &mut [u8]) -> Result<usize, Failed>
        requires { file < 9 }
        ensures count { Told (D.disk self.old.folder)
            → IfOk result (λ n. n ≡ min (length buf.old) (length (drop at (file_of (D.disk self.old.folder).files file)))) }
        ensures bytes { Told (D.disk self.old.folder)
            → IfOk result (λ n. take n buf.new ≡ take n (drop at (file_of (D.disk self.old.folder).files file))) }
        ensures bound { IfOk result (λ n. n ≤ length buf.old) }
        ensures looks { OnlyLooks (D.disk self.old.folder) (D.disk self.new.folder) }
        ensures faults { CountsOne self.old.faults self.new.faults result }
        ensures told { OnOk result (D.faults self.new.folder ≡ D.faults self.old.folder) }
        ensures failed { OnErr result
            (Rose (D.faults self.old.folder) (D.faults self.new.folder) ⊎ (2 ^ 64 < at + length buf.old)) }
        ensures stays { (self.new.unsynced ≡ self.old.unsynced) × (self.new.broken ≡ self.old.broken) }
    {
        if self.enter(false).is_err() {
            return self.failed();
        }
        match read_whole(&mut self.folder, file, at, buf) {
            Ok(count) => Ok(count),
            Err(Failed) => self.failed(),
        }
    }

    fn write_at(&mut self, file: u8, at: u64, bytes: &[u8]) -> Result<(), Failed>
        requires file { file < 9 }
        requires place { Told (D.disk self.old.folder) → at ≤ length (file_of (D.disk self.old.folder).files file) }
        ensures written { Told (D.disk self.old.folder)
            → OnOk result ((D.disk self.new.folder).files ≡ put (D.disk self.old.folder).files file at bytes.now) }
        ensures writes { OnlyWrites file at (length bytes.now) (D.disk self.old.folder) (D.disk self.new.folder) }
        ensures faults { CountsOne self.old.faults self.new.faults result }
        ensures told { OnOk result (D.faults self.new.folder ≡ D.faults self.old.folder) }
        ensures failed { OnErr result
            ((Rose (D.faults self.old.folder) (D.faults self.new.folder) ⊎ (2 ^ 64 < at + length bytes.now))
            ⊎ (IsTrue self.old.broken ⊎ (self.old.writes ≡ false))) }
        ensures unsynced { self.new.unsynced ≡ slice_set self.old.unsynced file true }
        ensures broken { self.new.broken ≡ self.old.broken }
        // A rack that is broken, or that doesn't write, leaves the folder as it is.
        ensures shut { IsTrue self.old.broken ⊎ (self.old.writes ≡ false) → IsErr result × (self.new.folder ≡ self.old.folder) }
        ensures taken { OnOk result (IsTrue (D.taken self.new.folder)) }
    {
        self.unsynced[usize::from(file)] = true;
        if self.broken || !self.writes {
            return self.failed();
        }
        if self.enter(false).is_err() || self.enter(true).is_err() {
            return self.failed();
        }
        match write_whole(&mut self.folder, file, at, bytes) {
            Ok(()) => Ok(()),
            Err(Failed) => self.failed(),
        }
    }

    fn sync(&mut self) -> Result<(), Failed>
        ensures durable { Told (D.disk self.old.folder)
            → OnOk result (Only (D.disk self.new.folder).files (D.disk self.new.folder).may_leave) }
        ensures looks { OnlyLooks (D.disk self.old.folder) (D.disk self.new.folder) }
        ensures faults { CountsOne self.old.faults self.new.faults result }
        ensures told { OnOk result (D.faults self.new.folder ≡ D.faults self.old.folder) }
        ensures failed { OnErr result (Rose (D.faults self.old.folder) (D.faults self.new.folder) ⊎ IsTrue self.old.broken) }
        ensures all_synced { OnOk result ((k : ℕ) → slice_index_or self.new.unsynced k false ≡ false) }
        // Of each file that was unsynced a sync was finished, and one of the names.
        ensures synced { OnOk result
            ((k : ℕ) → IsMarked self.old.unsynced k → Rose (syncs_of (D.syncs self.old.folder) k)
            (syncs_of (D.syncs self.new.folder) k)) }
        ensures names { OnOk result
            (SomeMarked self.old.unsynced → Rose (syncs_of (D.syncs self.old.folder) folder_place)
            (syncs_of (D.syncs self.new.folder) folder_place)) }
        // After a failure some file has unsynced writes still.
        ensures left { OnErr result ((k : ℕ) × (slice_index_or self.new.unsynced k false ≡ true)) }
        ensures none_written { (k : ℕ) → slice_index_or self.old.unsynced k false ≡ false
            → slice_index_or self.new.unsynced k false ≡ false }
        // It is broken by a failure, and then fails for good and leaves the folder as it is.
        ensures broken { OnErr result (self.new.broken ≡ true) }
        ensures whole { OnOk result (self.new.broken ≡ false) }
        ensures shut { IsTrue self.old.broken → IsErr result × (self.new.folder ≡ self.old.folder) }
    {
        if self.broken {
            return self.failed();
        }
        match self.sync_all() {
            Ok(()) => Ok(()),
            Err(Failed) => {
                self.broken = true;
                self.failed()
            }
        }
    }
}

// The files of a folder as a system gives them.
ghost use Rattle.std.specs.Prelude.{◌≡◌, ◌≢◌, ◌<◌, ◌≤◌, ℕ, List, Bool, length, take, drop, IfOk, IfErr, OnOk, Some, IsTrue};
ghost use Rattle.process_flow.specs.Causes.{CountsFaults};
ghost use Rattle.process_disk.specs.Disk.{FileSet, Disk, Told, file_of, put, IsHonest};
ghost use Rattle.process_disk.specs.Calls.{OnlyLooks, OnlyWrites};
ghost use Rattle.folder_files.specs.Folder.{IsKept, IsPart, IsSynced, folder_place};

use crate::Barred;
use process_flow::Failed;

/// How far a folder was entered.
#[derive(Clone, Copy, Debug, PartialEq, Eq)]
pub enum Access {
    /// Nobody has looked at its files.
    Unentered,
    /// Its files are only read: it is never taken.
    ReadOnly,
    /// It was tried to take it, before any look.
    Tried,
}

/// Nine files of one folder, numbered from 0. It is entered before it is looked at: to read alone, or by a try to take it. A
/// transfer may be short, and a sync is of one file. A probe before that finds out whether it can be used.
pub trait Folder {
    ghost use Rattle.std.specs.declared.option.Option.{Option};
    ghost use Rattle.folder_files.specs.declared.folder.Access.{Access};
    ghost use Rattle.folder_files.specs.declared.barred.Barred.{Barred};

    /// What it tells of its files.
    ghost disk: { Self → Disk };

    /// How many calls have failed, or the last number of a counter.
    ghost faults: { Self → ℕ };

    /// How many syncs were finished: of each file in its place, and of the folder behind them.
    ghost syncs: { Self → List ℕ };

    /// Whether the folder is taken: nobody else may write.
    ghost taken: { Self → Bool };

    /// How far it was entered.
    ghost access: { Self → Access };

    /// Why it can't be used, where that was found.
    ghost bar: { Self → Option Barred };

    /// Finds out whether its files can be used, to read alone or to write too. To write, the folder is taken, if file 0 is there.
    fn probe(&mut self, writes: bool) -> Result<(), Barred>
        requires { access self.old ≡ Access.Unentered }
        ensures cause { IfErr result (λ b. bar self.new ≡ Some b) }
        ensures access { access self.new ≡ access self.old }
        ensures stays { IsTrue (taken self.old) → IsTrue (taken self.new) }
        ensures looks { OnlyLooks (disk self.old) (disk self.new) }
        ensures syncs { syncs self.new ≡ syncs self.old }
        ensures faults { CountsFaults (faults self.old) (faults self.new) result };

    /// From here on its files are only read.
    fn read_only(&mut self)
        requires { access self.old ≢ Access.Tried }
        ensures entered { access self.new ≡ Access.ReadOnly }
        ensures looks { OnlyLooks (disk self.old) (disk self.new) }
        ensures stays { (taken self.new ≡ taken self.old) × (syncs self.new ≡ syncs self.old) }
        ensures faults { faults self.new ≡ faults self.old };

    /// Takes the folder, and says whether it is taken now: not where file 0 is absent, unless it may be made.
    fn take(&mut self, make: bool) -> Result<bool, Failed>
        requires { access self.old ≢ Access.ReadOnly }
        ensures entered { access self.new ≡ Access.Tried }
        ensures taken { IfOk result (λ yes. taken self.new ≡ yes) }
        ensures stays { IsTrue (taken self.old) → IsTrue (taken self.new) }
        ensures made { IsTrue make → IfOk result (λ yes. IsTrue yes) }
        ensures looks { OnlyLooks (disk self.old) (disk self.new) }
        ensures syncs { syncs self.new ≡ syncs self.old }
        ensures faults { CountsFaults (faults self.old) (faults self.new) result };

    /// How many bytes a file has, none where it is absent.
    fn len(&mut self, file: u8) -> Result<u64, Failed>
        requires file { file < 9 }
        requires entered { access self.old ≢ Access.Unentered }
        ensures len { Told (disk self.old) → IfOk result (λ n. n ≡ length (file_of (disk self.old).files file)) }
        ensures looks { OnlyLooks (disk self.old) (disk self.new) }
        ensures stays { (taken self.new ≡ taken self.old) × (syncs self.new ≡ syncs self.old) }
        ensures access { access self.new ≡ access self.old }
        ensures faults { CountsFaults (faults self.old) (faults self.new) result };

    /// Reads bytes from a place on into the buffer's front and says how many; none only at the end, or without room.
    fn read(&mut self, file: u8, at: u64, buf: &mut [u8]) -> Result<usize, Failed>
        requires file { file < 9 }
        requires entered { access self.old ≢ Access.Unentered }
        ensures bound { IfOk result (λ n. n ≤ length buf.old) }
        ensures part { Told (disk self.old) → IfOk result (λ n. IsPart (drop at (file_of (disk self.old).files file)) buf.new n) }
        ensures looks { OnlyLooks (disk self.old) (disk self.new) }
        ensures stays { (taken self.new ≡ taken self.old) × (syncs self.new ≡ syncs self.old) }
        ensures access { access self.new ≡ access self.old }
        ensures faults { CountsFaults (faults self.old) (faults self.new) result };

    /// Writes bytes from the front and says how many, at least one; a file that is absent is made. Nothing that a crash might
    /// leave before is shut out by it.
    fn write(&mut self, file: u8, at: u64, bytes: &[u8]) -> Result<usize, Failed>
        requires file { file < 9 }
        requires some { 0 < length bytes.now }
        requires taken { IsTrue (taken self.old) }
        requires place { Told (disk self.old) → at ≤ length (file_of (disk self.old).files file) }
        ensures some { IfOk result (λ n. 0 < n) }
        ensures bound { IfOk result (λ n. n ≤ length bytes.now) }
        ensures written { Told (disk self.old) → IfOk result
            (λ n. (disk self.new).files ≡ put (disk self.old).files file at (take n bytes.now)) }
        ensures writes { OnlyWrites file at (length bytes.now) (disk self.old) (disk self.new) }
        ensures grows { Told (disk self.old) → (c : FileSet) → (disk self.old).may_leave c → (disk self.new).may_leave c }
        ensures stays { (taken self.new ≡ taken self.old) × (syncs self.new ≡ syncs self.old) }
        ensures access { access self.new ≡ access self.old }
        ensures faults { CountsFaults (faults self.old) (faults self.new) result };

    /// Brings a file to the disk, if it is there.
    fn sync(&mut self, file: u8) -> Result<(), Failed>
        requires file { file < 9 }
        requires entered { access self.old ≢ Access.Unentered }
        ensures kept { Told (disk self.old) → OnOk result (IsKept file (disk self.new)) }
        ensures looks { OnlyLooks (disk self.old) (disk self.new) }
        ensures taken { taken self.new ≡ taken self.old }
        ensures access { access self.new ≡ access self.old }
        ensures synced { OnOk result (IsSynced file (syncs self.old) (syncs self.new)) }
        ensures faults { CountsFaults (faults self.old) (faults self.new) result };

    /// Brings the files' names to the disk, where one was made since this was done last.
    fn sync_names(&mut self) -> Result<(), Failed>
        ensures looks { OnlyLooks (disk self.old) (disk self.new) }
        ensures taken { taken self.new ≡ taken self.old }
        ensures access { access self.new ≡ access self.old }
        ensures synced { OnOk result (IsSynced folder_place (syncs self.old) (syncs self.new)) }
        ensures faults { CountsFaults (faults self.old) (faults self.new) result };

    ghost honest: { (folder : Self) → Told (disk folder) → IsHonest (disk folder) };
}

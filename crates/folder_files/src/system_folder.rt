// The files of the current folder, by the calls of the system.
ghost use Rattle.std.specs.Prelude.{◌≡◌, ◌<◌, ◌≤◌, ◌+◌, ◌-◌, length, Some, None, IfOk, IfErr, OnOk, IsErrOf, IsTrue, true};
ghost use Rattle.std.specs.Prelude.{false};
ghost use Rattle.std.specs.Prelude.{◌↔◌, Err, IsOk};
ghost use Rattle.std.specs.Fs.{file_type, IsFile};
ghost use Rattle.std_io.specs.IoError.{error_kind};
ghost use Rattle.process_flow.specs.Causes.{CountsFaults};
ghost use Rattle.folder_files.specs.Folder.{IsSynced, folder_place};

use crate::barred::bar_of;
use crate::counts::{FOLDER, count};
use crate::opened::{NAMES, Opened, TRIAL, fresh, held, is_folder, locked, to_read, to_write};
use crate::{Access, Barred, Folder, Subject};
use process_flow::Failed;
use std::fs::{File, Metadata, OpenFile, OpenOptions, TryLockError};
use std::io::ErrorKind;
use std::rt::{Env, Files};
use std::{env, fs, io};

/// The files `tps.0` to `tps.8` of the current folder, of whose contents it tells nothing. Each call is a call of the system,
/// behind the opening of the file where that is due: for reading at the first look, and for writing at the first write, where
/// an absent file is made. The folder is taken by the advisory lock on file 0, which is given up when this is dropped.
///
/// Where the caller closed a standard stream, the system would give its number to the next file, and what is printed would go
/// into that file. So a folder first opens the root three times, for reading, and keeps it: a closed stream stays one that
/// can't be read or written.
#[derive(Drop)]
pub struct SystemFolder<F: Files<File = File> + Drop> {
    pub rt: F,
    files: [Option<Opened>; 9],
    names_synced: bool,
    pub taken: bool,
    pub access: Access,
    /// How many syncs were finished: of each file, and of the names.
    pub syncs: [u64; 10],
    pub faults: u64,
    /// The folder that it went to, where it left the current one.
    pub place: Option<String>,
    /// Why it can't be used, where the system told so.
    pub bar: Option<Barred>,
    streams: [Option<File>; 3],
}

impl<F: Files<File = File> + Drop> SystemFolder<F> {
    pub fn new(rt: F) -> Self
        ensures runtime { result.rt ≡ rt }
        ensures taken { result.taken ≡ false }
        ensures new { result.access ≡ Access.Unentered }
        ensures faults { result.faults ≡ 0 }
        ensures place { result.place ≡ None }
        ensures bar { result.bar ≡ None }
    {
        let streams = [held(&rt), held(&rt), held(&rt)];
        SystemFolder {
            rt,
            files: [None, None, None, None, None, None, None, None, None],
            names_synced: false,
            taken: false,
            access: Access::Unentered,
            syncs: [0; 10],
            faults: 0,
            place: None,
            bar: None,
            streams,
        }
    }

    // Keeps why it can't be used, and counts that as a failure.
    fn barred<T>(&mut self, bar: Barred) -> Result<T, Barred>
        ensures bar { IsErrOf result bar }
        ensures kept { self.new.bar ≡ Some bar }
        ensures faults { CountsFaults self.old.faults self.new.faults result }
        ensures stays { self.new ≡ record self.old { bar = self.new.bar; faults = self.new.faults } }
    {
        self.bar = Some(bar);
        self.faults = self.faults.saturating_add(1);
        Err(bar)
    }

    /// Opens a file for reading, which isn't one of the nine. It may be a pipe.
    pub fn input(&mut self, name: &str) -> Result<File, Barred>
        ensures cause { IfErr result (λ b. self.new.bar ≡ Some b) }
        ensures place { self.new.place ≡ self.old.place }
        ensures access { self.new.access ≡ self.old.access }
        ensures faults { CountsFaults self.old.faults self.new.faults result }
    {
        match File::open(&self.rt, name) {
            Ok(file) if is_folder(&file) => self.barred(Barred::NotAFile(Subject::Input)),
            Ok(file) => Ok(file),
            Err(error) => self.barred(bar_of(Subject::Input, &error)),
        }
    }

    // What the system answered, with a failure counted.
    fn told<T>(&mut self, found: io::Result<T>) -> Result<T, Failed>
        ensures ok { IfOk result (λ value. found ≡ Ok value) }
        ensures faults { CountsFaults self.old.faults self.new.faults result }
        ensures stays { (self.new.taken ≡ self.old.taken) × (self.new.syncs ≡ self.old.syncs) }
        ensures access { self.new.access ≡ self.old.access }
    {
        match found {
            Ok(value) => Ok(value),
            Err(_) => {
                self.faults = self.faults.saturating_add(1);
                Err(Failed)
            }
        }
    }
}

impl<F: Files<File = File> + Env + Drop> SystemFolder<F> {
    /// Leaves the current folder for this one.
    pub fn go_to(&mut self, place: String) -> Result<(), Barred>
        ensures cause { IfErr result (λ b. self.new.bar ≡ Some b) }
        ensures place { OnOk result (self.new.place ≡ Some place) }
        ensures access { self.new.access ≡ self.old.access }
        ensures faults { CountsFaults self.old.faults self.new.faults result }
    {
        match env::set_current_dir(&self.rt, place.as_str()) {
            Ok(()) => {
                self.place = Some(place);
                Ok(())
            }
            Err(error) => self.barred(bar_of(Subject::Folder, &error)),
        }
    }
}

impl<F: Files<File = File> + Drop> SystemFolder<F> {
    // Finds out whether a file can be used, if it is there, and opens it.
    fn probe_file(&mut self, file: u8, writes: bool) -> Result<(), Barred>
        requires { file < 9 }
        ensures cause { IfErr result (λ b. self.new.bar ≡ Some b) }
        ensures stays { (self.new.taken ≡ self.old.taken) × (self.new.syncs ≡ self.old.syncs) }
        ensures access { self.new.access ≡ self.old.access }
        ensures faults { CountsFaults self.old.faults self.new.faults result }
    {
        match fs::metadata(&self.rt, NAMES[usize::from(file)]) {
            Ok(metadata) => {
                self.kind_told(file, &metadata)?;
                self.open_probed(file, writes)
            }
            Err(error) => self.told_of(Subject::File(file), &error),
        }
    }

    // What isn't a file bars the folder, and isn't opened.
    fn kind_told(&mut self, file: u8, metadata: &Metadata) -> Result<(), Barred>
        ensures plain { IsFile (file_type metadata.now) ↔ IsOk result }
        ensures named { IfErr result (λ b. b ≡ Barred.NotAFile (Subject.File file)) }
        ensures cause { IfErr result (λ b. self.new.bar ≡ Some b) }
        ensures stays { (self.new.taken ≡ self.old.taken) × (self.new.syncs ≡ self.old.syncs) }
        ensures access { self.new.access ≡ self.old.access }
        ensures faults { CountsFaults self.old.faults self.new.faults result }
    {
        if metadata.is_file() {
            Ok(())
        } else {
            self.barred(Barred::NotAFile(Subject::File(file)))
        }
    }

    // Opens a file as it will be used.
    fn open_probed(&mut self, file: u8, writes: bool) -> Result<(), Barred>
        requires { file < 9 }
        ensures cause { IfErr result (λ b. self.new.bar ≡ Some b) }
        ensures stays { (self.new.taken ≡ self.old.taken) × (self.new.syncs ≡ self.old.syncs) }
        ensures access { self.new.access ≡ self.old.access }
        ensures faults { CountsFaults self.old.faults self.new.faults result }
    {
        let mut how = OpenOptions::new();
        how.read(true).write(writes);
        match how.open(&self.rt, NAMES[usize::from(file)]) {
            Ok(opened) => {
                self.files[usize::from(file)] = Some(fresh(opened, writes));
                Ok(())
            }
            Err(error) => self.told_of(Subject::File(file), &error),
        }
    }

    // A file that isn't there may be made, and any other error bars the folder.
    fn told_of(&mut self, subject: Subject, error: &io::Error) -> Result<(), Barred>
        ensures absent { (error_kind error.now ≡ ErrorKind.NotFound) ↔ IsOk result }
        ensures permission { (error_kind error.now ≡ ErrorKind.PermissionDenied) ↔ IsErrOf result (Barred.NoPermission subject) }
        ensures cause { IfErr result (λ b. self.new.bar ≡ Some b) }
        ensures stays { (self.new.taken ≡ self.old.taken) × (self.new.syncs ≡ self.old.syncs) }
        ensures access { self.new.access ≡ self.old.access }
        ensures faults { CountsFaults self.old.faults self.new.faults result }
    {
        match error.kind() {
            ErrorKind::NotFound => Ok(()),
            ErrorKind::PermissionDenied => self.barred(Barred::NoPermission(subject)),
            _ => self.barred(Barred::Fault(subject)),
        }
    }

    // Finds out whether the folder can be opened, to bring its names to the disk.
    fn probe_folder(&mut self) -> Result<(), Barred>
        ensures cause { IfErr result (λ b. self.new.bar ≡ Some b) }
        ensures stays { (self.new.taken ≡ self.old.taken) × (self.new.syncs ≡ self.old.syncs) }
        ensures access { self.new.access ≡ self.old.access }
        ensures faults { CountsFaults self.old.faults self.new.faults result }
    {
        match File::open(&self.rt, ".") {
            Ok(_) => Ok(()),
            Err(error) => self.told_of(Subject::Folder, &error),
        }
    }

    // Finds out whether files can be made in the folder, where file 0 isn't there: one of another name is made, and removed.
    fn probe_making(&mut self) -> Result<(), Barred>
        ensures cause { IfErr result (λ b. self.new.bar ≡ Some b) }
        ensures stays { (self.new.taken ≡ self.old.taken) × (self.new.syncs ≡ self.old.syncs) }
        ensures access { self.new.access ≡ self.old.access }
        ensures faults { CountsFaults self.old.faults self.new.faults result }
    {
        let [journal, ..] = &self.files;
        if journal.is_some() {
            return Ok(());
        }
        let mut how = OpenOptions::new();
        how.write(true).create_new(true);
        let found = match how.open(&self.rt, TRIAL) {
            Ok(_) => fs::remove_file(&self.rt, TRIAL),
            Err(error) => Err(error),
        };
        self.making_told(found)
    }

    // What another program tries at the same time can be made, and any other error bars the folder.
    fn making_told(&mut self, found: io::Result<()>) -> Result<(), Barred>
        ensures permission { IfErr found (λ e. (error_kind e ≡ ErrorKind.PermissionDenied)
            ↔ IsErrOf result (Barred.NoPermission Subject.Folder)) }
        ensures made { OnOk found (IsOk result) }
        ensures cause { IfErr result (λ b. self.new.bar ≡ Some b) }
        ensures stays { (self.new.taken ≡ self.old.taken) × (self.new.syncs ≡ self.old.syncs) }
        ensures access { self.new.access ≡ self.old.access }
        ensures faults { CountsFaults self.old.faults self.new.faults result }
    {
        match found {
            Ok(()) => Ok(()),
            Err(error) => match error.kind() {
                ErrorKind::AlreadyExists => Ok(()),
                ErrorKind::PermissionDenied => self.barred(Barred::NoPermission(Subject::Folder)),
                _ => self.barred(Barred::Fault(Subject::Folder)),
            },
        }
    }

    // Finds out whether the folder can be written, and takes it.
    fn probe_writing(&mut self) -> Result<(), Barred>
        ensures cause { IfErr result (λ b. self.new.bar ≡ Some b) }
        ensures stays { IsTrue self.old.taken → IsTrue self.new.taken }
        ensures syncs { self.new.syncs ≡ self.old.syncs }
        ensures access { self.new.access ≡ self.old.access }
        ensures faults { CountsFaults self.old.faults self.new.faults result }
    {
        self.probe_making()?;
        self.probe_lock()
    }

    // Takes the folder, if file 0 is open.
    fn probe_lock(&mut self) -> Result<(), Barred>
        ensures cause { IfErr result (λ b. self.new.bar ≡ Some b) }
        ensures stays { IsTrue self.old.taken → IsTrue self.new.taken }
        ensures syncs { self.new.syncs ≡ self.old.syncs }
        ensures access { self.new.access ≡ self.old.access }
        ensures faults { CountsFaults self.old.faults self.new.faults result }
    {
        let [journal, ..] = &self.files;
        let Some(opened) = journal else {
            return Ok(());
        };
        let found = opened.file.try_lock();
        self.lock_told(found)
    }

    // A lock that another program has bars the folder.
    fn lock_told(&mut self, found: Result<(), TryLockError>) -> Result<(), Barred>
        ensures in_use { (found ≡ Err TryLockError.WouldBlock) ↔ IsErrOf result Barred.InUse }
        ensures taken { OnOk result (IsTrue self.new.taken) }
        ensures cause { IfErr result (λ b. self.new.bar ≡ Some b) }
        ensures stays { IsTrue self.old.taken → IsTrue self.new.taken }
        ensures syncs { self.new.syncs ≡ self.old.syncs }
        ensures access { self.new.access ≡ self.old.access }
        ensures faults { CountsFaults self.old.faults self.new.faults result }
    {
        match found {
            Ok(()) => {
                self.taken = true;
                Ok(())
            }
            Err(TryLockError::WouldBlock) => self.barred(Barred::InUse),
            Err(TryLockError::Error(_)) => self.barred(Barred::Fault(Subject::File(0))),
        }
    }
}

impl<F: Files<File = File> + Drop> Folder for SystemFolder<F> {
    ghost use Rattle.std.specs.Prelude.{false, []};
    ghost use Rattle.std.proofs.Common.{rules};

    ghost disk = { λ folder. record { tells = false; files = []; may_leave = λ c. ⊥; moment = 0; left_since = λ t c. ⊥ } };

    ghost faults = { λ folder. folder.faults };

    ghost syncs = { λ folder. folder.syncs };

    ghost taken = { λ folder. folder.taken };

    ghost access = { λ folder. folder.access };

    ghost bar = { λ folder. folder.bar };

    ghost honest = { λ folder told. Prim.search rules };

    fn probe(&mut self, writes: bool) -> Result<(), Barred>
        ensures cause { IfErr result (λ b. self.new.bar ≡ Some b) }
        ensures access { self.new.access ≡ self.old.access }
        ensures stays { IsTrue self.old.taken → IsTrue self.new.taken }
        ensures syncs { self.new.syncs ≡ self.old.syncs }
        ensures faults { CountsFaults self.old.faults self.new.faults result }
    {
        self.probe_folder()?;
        for file in 0..9_u8 {
            self.probe_file(file, writes)?;
        }
        if writes { self.probe_writing() } else { Ok(()) }
    }

    fn read_only(&mut self)
        ensures entered { self.new.access ≡ Access.ReadOnly }
        ensures stays { (self.new.taken ≡ self.old.taken) × (self.new.syncs ≡ self.old.syncs) }
        ensures faults { self.new.faults ≡ self.old.faults }
    {
        self.access = Access::ReadOnly;
    }

    fn take(&mut self, make: bool) -> Result<bool, Failed>
        ensures entered { self.new.access ≡ Access.Tried }
        ensures taken { IfOk result (λ yes. self.new.taken ≡ yes) }
        ensures stays { IsTrue self.old.taken → IsTrue self.new.taken }
        ensures made { IsTrue make → IfOk result (λ yes. IsTrue yes) }
        ensures syncs { self.new.syncs ≡ self.old.syncs }
        ensures faults { CountsFaults self.old.faults self.new.faults result }
    {
        self.access = Access::Tried;
        if self.taken {
            return Ok(true);
        }
        if make {
            self.names_synced = false;
        }
        let [journal, ..] = &mut self.files;
        let found = locked(&self.rt, journal, make);
        let taken = self.told(found)?;
        self.taken = taken;
        Ok(taken)
    }

    fn len(&mut self, file: u8) -> Result<u64, Failed>
        requires { file < 9 }
        ensures stays { (self.new.taken ≡ self.old.taken) × (self.new.syncs ≡ self.old.syncs) }
        ensures access { self.new.access ≡ self.old.access }
        ensures faults { CountsFaults self.old.faults self.new.faults result }
    {
        let found = match to_read(&self.rt, &mut self.files, file) {
            Ok(Some(opened)) => match opened.file.metadata() {
                Ok(metadata) => Ok(metadata.len()),
                Err(error) => Err(error),
            },
            Ok(None) => Ok(0),
            Err(error) => Err(error),
        };
        self.told(found)
    }

    fn read(&mut self, file: u8, at: u64, buf: &mut [u8]) -> Result<usize, Failed>
        requires { file < 9 }
        ensures bound { IfOk result (λ n. n ≤ length buf.old) }
        ensures stays { (self.new.taken ≡ self.old.taken) × (self.new.syncs ≡ self.old.syncs) }
        ensures access { self.new.access ≡ self.old.access }
        ensures faults { CountsFaults self.old.faults self.new.faults result }
    {
        let found = match to_read(&self.rt, &mut self.files, file) {
            Ok(Some(opened)) => opened.read(at, buf),
            Ok(None) => Ok(0),
            Err(error) => Err(error),
        };
        self.told(found)
    }

    fn write(&mut self, file: u8, at: u64, bytes: &[u8]) -> Result<usize, Failed>
        requires file { file < 9 }
        requires some { 0 < length bytes.now }
        requires taken { IsTrue self.old.taken }
        ensures some { IfOk result (λ n. 0 < n) }
        ensures bound { IfOk result (λ n. n ≤ length bytes.now) }
        ensures stays { (self.new.taken ≡ self.old.taken) × (self.new.syncs ≡ self.old.syncs) }
        ensures access { self.new.access ≡ self.old.access }
        ensures faults { CountsFaults self.old.faults self.new.faults result }
    {
        let made = to_write(&self.rt, &mut self.files, file, &mut self.names_synced);
        let found = match made {
            Ok(opened) => opened.write(at, bytes),
            Err(error) => Err(error),
        };
        self.told(found)
    }

    fn sync(&mut self, file: u8) -> Result<(), Failed>
        requires { file < 9 }
        ensures taken { self.new.taken ≡ self.old.taken }
        ensures access { self.new.access ≡ self.old.access }
        ensures synced { OnOk result (IsSynced file self.old.syncs self.new.syncs) }
        ensures faults { CountsFaults self.old.faults self.new.faults result }
    {
        let found = match to_read(&self.rt, &mut self.files, file) {
            Ok(Some(opened)) => opened.file.sync_data(),
            Ok(None) => Ok(()),
            Err(error) => Err(error),
        };
        self.told(found)?;
        count(&mut self.syncs, usize::from(file));
        Ok(())
    }

    fn sync_names(&mut self) -> Result<(), Failed>
        ensures taken { self.new.taken ≡ self.old.taken }
        ensures access { self.new.access ≡ self.old.access }
        ensures synced { OnOk result (IsSynced folder_place self.old.syncs self.new.syncs) }
        ensures faults { CountsFaults self.old.faults self.new.faults result }
    {
        if !self.names_synced {
            let found = match File::open(&self.rt, ".") {
                Ok(folder) => folder.sync_all(),
                Err(error) => Err(error),
            };
            self.told(found)?;
            self.names_synced = true;
        }
        count(&mut self.syncs, FOLDER);
        Ok(())
    }
}

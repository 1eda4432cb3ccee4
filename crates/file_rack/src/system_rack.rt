// Racks over the files of the current folder.
ghost use Rattle.std.specs.Prelude.{◌≡◌, true, false};
ghost use Rattle.file_rack.specs.NewRack.{IsNew};

use crate::FileRack;
use folder_files::SystemFolder;
use std::fs::File;
use std::rt::Files;

impl<F: Files<File = File> + Drop> FileRack<SystemFolder<F>> {
    /// A rack over the files `tps.0` to `tps.8` of the current folder, which may write.
    pub fn new(rt: F) -> Self
        ensures runtime { result.folder.rt ≡ rt }
        ensures writes { result.writes ≡ true }
        ensures new { IsNew result.unsynced result.broken result.faults }
    {
        FileRack::over(SystemFolder::new(rt), true)
    }

    /// A rack over them that only reads: each write fails, and the folder isn't taken.
    pub fn reading(rt: F) -> Self
        ensures runtime { result.folder.rt ≡ rt }
        ensures writes { result.writes ≡ false }
        ensures new { IsNew result.unsynced result.broken result.faults }
    {
        FileRack::over(SystemFolder::new(rt), false)
    }
}

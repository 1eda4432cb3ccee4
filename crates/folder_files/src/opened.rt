// The nine files as the system opens them: for reading at the first look, and for writing at the first write.
ghost use Rattle.std.specs.Prelude.{◌<◌, ◌≤◌, length, IfOk, IsTrue};

use std::fs::{File, OpenOptions};
use std::io;
use std::io::{ErrorKind, Read, Seek, SeekFrom, Write};
use std::rt::Files;

pub(crate) const NAMES: [&str; 9] = [
    "tps.0", "tps.1", "tps.2", "tps.3", "tps.4", "tps.5", "tps.6", "tps.7", "tps.8",
];

// The name of a file that is made to find out whether files can be made, and removed at once.
pub(crate) const TRIAL: &str = "tps.try";

// An open file, with the place at which the system goes on, where that is known.
#[derive(Drop)]
pub(crate) struct Opened {
    pub(crate) file: File,
    place: Option<u64>,
    writable: bool,
}

impl Opened {
    // Goes to a place, unless it is there.
    fn go(&mut self, at: u64) -> io::Result<()> {
        if self.place == Some(at) {
            return Ok(());
        }
        self.place = None;
        self.file.seek(SeekFrom::Start(at))?;
        self.place = Some(at);
        Ok(())
    }

    pub(crate) fn read(&mut self, at: u64, buf: &mut [u8]) -> io::Result<usize>
        ensures { IfOk result (λ n. n ≤ length buf.old) }
    {
        self.go(at)?;
        self.place = None;
        let count = self.file.read(buf)?;
        self.place = at.checked_add(count as u64);
        Ok(count)
    }

    // A write of nothing has failed.
    pub(crate) fn write(&mut self, at: u64, bytes: &[u8]) -> io::Result<usize>
        ensures some { IfOk result (λ n. 0 < n) }
        ensures bound { IfOk result (λ n. n ≤ length bytes.now) }
    {
        self.go(at)?;
        self.place = None;
        let count = self.file.write(bytes)?;
        if count == 0 {
            return Err(io::Error::from(ErrorKind::WriteZero));
        }
        self.place = at.checked_add(count as u64);
        Ok(count)
    }
}

// The file, opened for reading where no call opened it before; none where it is absent.
pub(crate) fn to_read<'a, F: Files<File = File>>(
    rt: &F,
    files: &'a mut [Option<Opened>; 9],
    file: u8,
) -> io::Result<Option<&'a mut Opened>>
    requires { file < 9 }
{
    let slot = &mut files[usize::from(file)];
    if slot.is_none() {
        match File::open(rt, NAMES[usize::from(file)]) {
            Ok(file) => *slot = Some(fresh(file, false)),
            Err(error) if error.kind() == ErrorKind::NotFound => {}
            Err(error) => return Err(error),
        }
    }
    Ok(slot.as_mut())
}

// The file, opened for writing where no call did so before, and made where it is absent.
pub(crate) fn to_write<'a, F: Files<File = File>>(
    rt: &F,
    files: &'a mut [Option<Opened>; 9],
    file: u8,
    names_synced: &mut bool,
) -> io::Result<&'a mut Opened>
    requires { file < 9 }
{
    let slot = &mut files[usize::from(file)];
    if !is_writable(slot) {
        *names_synced = false;
        let mut how = OpenOptions::new();
        how.read(true).write(true).create(true).truncate(false);
        *slot = Some(fresh(how.open(rt, NAMES[usize::from(file)])?, true));
    }
    match slot {
        Some(opened) => Ok(opened),
        None => Err(io::Error::from(ErrorKind::NotFound)),
    }
}

// Opens file 0 for writing and locks it, and says whether it is there; it is made, by this call alone, if that is asked.
pub(crate) fn locked<F: Files<File = File>>(
    rt: &F,
    slot: &mut Option<Opened>,
    make: bool,
) -> io::Result<bool>
    ensures { IsTrue make → IfOk result (λ yes. IsTrue yes) }
{
    let [journal, ..] = NAMES;
    let mut how = OpenOptions::new();
    how.read(true).write(true).create_new(make);
    match how.open(rt, journal) {
        Ok(file) => {
            file.try_lock()?;
            *slot = Some(fresh(file, true));
            Ok(true)
        }
        Err(error) if !make && error.kind() == ErrorKind::NotFound => Ok(false),
        Err(error) => Err(error),
    }
}

pub(crate) fn fresh(file: File, writable: bool) -> Opened {
    Opened {
        file,
        place: Some(0),
        writable,
    }
}

fn is_writable(slot: &Option<Opened>) -> bool {
    match slot {
        Some(opened) => opened.writable,
        None => false,
    }
}

// Something that takes the number of a standard stream which is closed.
pub(crate) fn held<F: Files<File = File>>(rt: &F) -> Option<File> {
    File::open(rt, "/").ok()
}

pub(crate) fn is_folder(file: &File) -> bool {
    match file.metadata() {
        Ok(metadata) => metadata.is_dir(),
        Err(_) => false,
    }
}

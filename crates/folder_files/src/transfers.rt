// Whole reads, whole writes and syncs of several files, by the calls of a folder.
ghost use Rattle.std.specs.Prelude.{◌≡◌, ◌≢◌, ◌⊎◌, ◌<◌, ◌≤◌, ◌+◌, ◌^◌, ℕ, length, take, drop, min, IfOk, OnOk, OnErr, IsTrue, true};
ghost use Rattle.std.specs.Prelude.{false};
ghost use Rattle.process_flow.specs.Causes.{Rose, CountsFaults};
ghost use Rattle.process_disk.specs.Disk.{Told, file_of, put};
ghost use Rattle.process_disk.specs.Calls.{OnlyLooks, OnlyWrites};
ghost use Rattle.folder_files.specs.Folder.{IsKept, AreKept, IsMarked, SomeMarked, NoneMarked, syncs_of};

use crate::{Access, Folder};
use process_flow::Failed;

/// Reads a file from byte `at` on until the buffer is full or the file ends, and says how many bytes stand in its front. It fails
/// where a call of the folder does, or where a place is beyond 64 bits.
pub fn read_whole<D: Folder>(
    folder: &mut D,
    file: u8,
    at: u64,
    buf: &mut [u8],
) -> Result<usize, Failed>
    requires file { file < 9 }
    requires entered { D.access folder.old ≢ Access.Unentered }
    ensures count { Told (D.disk folder.old) → IfOk result
        (λ n. n ≡ min (length buf.old) (length (drop at (file_of (D.disk folder.old).files file)))) }
    ensures bytes { Told (D.disk folder.old) → IfOk result
        (λ n. take n buf.new ≡ take n (drop at (file_of (D.disk folder.old).files file))) }
    ensures bound { IfOk result (λ n. n ≤ length buf.old) }
    ensures looks { OnlyLooks (D.disk folder.old) (D.disk folder.new) }
    ensures stays { (D.taken folder.new ≡ D.taken folder.old) × (D.syncs folder.new ≡ D.syncs folder.old) }
    ensures access { D.access folder.new ≡ D.access folder.old }
    ensures quiet { OnOk result (D.faults folder.new ≡ D.faults folder.old) }
    ensures failed { OnErr result (Rose (D.faults folder.old) (D.faults folder.new) ⊎ (2 ^ 64 < at + length buf.old)) }
{
    let mut count = 0;
    while count < buf.len() {
        let Some(place) = at.checked_add(count as u64) else {
            return Err(Failed);
        };
        let (_, rest) = buf.split_at_mut(count);
        let more = match folder.read(file, place, rest) {
            Ok(more) => more,
            Err(Failed) => return Err(Failed),
        };
        if more == 0 {
            return Ok(count);
        }
        count += more;
    }
    Ok(count)
}

/// Writes all bytes in order, from byte `at` of a file on. The folder is taken, and the file reaches to `at`. It fails as a read
/// does, and may have written some of them then.
pub fn write_whole<D: Folder>(folder: &mut D, file: u8, at: u64, bytes: &[u8]) -> Result<(), Failed>
    requires file { file < 9 }
    requires entered { D.access folder.old ≢ Access.Unentered }
    requires taken { IsTrue (D.taken folder.old) }
    requires place { Told (D.disk folder.old) → at ≤ length (file_of (D.disk folder.old).files file) }
    ensures written { Told (D.disk folder.old) → OnOk result
        ((D.disk folder.new).files ≡ put (D.disk folder.old).files file at bytes.now) }
    ensures writes { OnlyWrites file at (length bytes.now) (D.disk folder.old) (D.disk folder.new) }
    ensures stays { (D.taken folder.new ≡ D.taken folder.old) × (D.syncs folder.new ≡ D.syncs folder.old) }
    ensures access { D.access folder.new ≡ D.access folder.old }
    ensures quiet { OnOk result (D.faults folder.new ≡ D.faults folder.old) }
    ensures failed { OnErr result (Rose (D.faults folder.old) (D.faults folder.new) ⊎ (2 ^ 64 < at + length bytes.now)) }
{
    let mut sent = 0;
    while sent < bytes.len() {
        let Some(place) = at.checked_add(sent as u64) else {
            return Err(Failed);
        };
        let (_, rest) = bytes.split_at(sent);
        match folder.write(file, place, rest) {
            Ok(more) => sent += more,
            Err(Failed) => return Err(Failed),
        }
    }
    Ok(())
}

/// Brings each file that is marked to the disk; there is a mark for each of the nine. It fails where a sync does.
pub fn sync_marked<D: Folder>(folder: &mut D, marks: &[bool]) -> Result<(), Failed>
    requires marks { length marks.now ≡ 9 }
    requires entered { D.access folder.old ≢ Access.Unentered }
    ensures kept { AreKept marks.now (D.disk folder.old) → Told (D.disk folder.old)
        → OnOk result ((k : ℕ) → k < 9 → IsKept k (D.disk folder.new)) }
    ensures synced { OnOk result
        ((k : ℕ) → IsMarked marks.now k → Rose (syncs_of (D.syncs folder.old) k) (syncs_of (D.syncs folder.new) k)) }
    ensures looks { OnlyLooks (D.disk folder.old) (D.disk folder.new) }
    ensures taken { D.taken folder.new ≡ D.taken folder.old }
    ensures access { D.access folder.new ≡ D.access folder.old }
    ensures never_fell { OnOk result ((k : ℕ) → syncs_of (D.syncs folder.old) k ≤ syncs_of (D.syncs folder.new) k) }
    ensures faults { CountsFaults (D.faults folder.old) (D.faults folder.new) result }
{
    for file in 0..9_u8 {
        if marks[usize::from(file)] {
            folder.sync(file)?;
        }
    }
    Ok(())
}

/// Whether any file is marked.
pub fn any_marked(marks: &[bool]) -> bool
    ensures some { result ≡ true → SomeMarked marks.now }
    ensures none { result ≡ false → NoneMarked marks.now }
{
    marks.iter().any(|mark| *mark)
}

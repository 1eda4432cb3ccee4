// Nine files as the layers above see them.
ghost use Rattle.std.specs.Prelude.{◌≡◌, ◌<◌, ◌≤◌, ℕ, length, take, drop, min, IfOk, OnOk};
ghost use Rattle.process_flow.specs.Causes.{CountsFaults};
ghost use Rattle.process_disk.specs.Disk.{Disk, Told, file_of, put, Only, IsHonest};
ghost use Rattle.process_disk.specs.Calls.{OnlyLooks, OnlyWrites};

use process_flow::Failed;

/// Nine files, numbered from 0.
pub trait Rack {
    /// What it tells of its files.
    ghost disk: { Self → Disk };

    /// How many calls have failed, or the last number of a counter.
    ghost faults: { Self → ℕ };

    /// How many bytes a file has.
    fn len(&mut self, file: u8) -> Result<u64, Failed>
        requires { file < 9 }
        ensures len { Told (disk self.old) → IfOk result (λ n. n ≡ length (file_of (disk self.old).files file)) }
        ensures looks { OnlyLooks (disk self.old) (disk self.new) }
        ensures faults { CountsFaults (faults self.old) (faults self.new) result };

    /// Reads a file's bytes from a place on into the buffer's front, and says how many there were, at most the buffer.
    fn read(&mut self, file: u8, at: u64, buf: &mut [u8]) -> Result<usize, Failed>
        requires { file < 9 }
        ensures count { Told (disk self.old) →
            IfOk result (λ n. n ≡ min (length buf.old) (length (drop at (file_of (disk self.old).files file)))) }
        ensures bytes { Told (disk self.old) → IfOk result
            (λ n. take n buf.new ≡ take n (drop at (file_of (disk self.old).files file))) }
        ensures bound { IfOk result (λ n. n ≤ length buf.old) }
        ensures looks { OnlyLooks (disk self.old) (disk self.new) }
        ensures faults { CountsFaults (faults self.old) (faults self.new) result };

    /// Writes over what is there, and past the end. Until a sync is finished a crash may leave any bytes in the range; after
    /// an `Err` a read too may give any.
    fn write_at(&mut self, file: u8, at: u64, bytes: &[u8]) -> Result<(), Failed>
        requires file { file < 9 }
        requires place { Told (disk self.old) → at ≤ length (file_of (disk self.old).files file) }
        ensures written { Told (disk self.old) → OnOk result ((disk self.new).files ≡ put (disk self.old).files file at bytes.now) }
        ensures writes { OnlyWrites file at (length bytes.now) (disk self.old) (disk self.new) }
        ensures faults { CountsFaults (faults self.old) (faults self.new) result };

    /// After it a crash leaves what a read gives. After an `Err` what was not on the disk before may still not be.
    fn sync(&mut self) -> Result<(), Failed>
        ensures durable { Told (disk self.old) → OnOk result (Only (disk self.new).files (disk self.new).may_leave) }
        ensures looks { OnlyLooks (disk self.old) (disk self.new) }
        ensures faults { CountsFaults (faults self.old) (faults self.new) result };

    ghost honest: { (rack : Self) → Told (disk rack) → IsHonest (disk rack) };
}

/// A rack that tells its bytes tells what a crash may leave of them: its law, for who runs it in threads.
pub fn racks_are_honest<R: Rack>()
    ensures { (rack : R) → Told (R.disk rack) → IsHonest (R.disk rack) }
{}

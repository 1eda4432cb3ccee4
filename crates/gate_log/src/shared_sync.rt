// Writes into several files, and one sync for all of them.
ghost use Rattle.std.specs.Prelude.{◌≡◌, ◌<◌, ◌≤◌, length, OnOk, IsErr};
ghost use Rattle.process_disk.specs.Disk.{Told, file_of, put, TornIn, Only};
ghost use Rattle.process_disk.specs.Racks.{LeavesRack};
ghost use Rattle.process_disk.specs.Images.{RunBy, AllAsBefore};

use crate::DiskFault;
use process_disk::Rack;

/// Writes, and leaves it to a later sync when it is on the disk.
pub fn write<R: Rack>(rack: &mut R, file: u8, at: u64, bytes: &[u8]) -> Result<(), DiskFault>
    requires file { file < 9 }
    requires place { Told (R.disk rack.old) → at ≤ length (file_of (R.disk rack.old).files file) }
    ensures written { Told (R.disk rack.old) → OnOk result
        ((R.disk rack.new).files ≡ put (R.disk rack.old).files file at bytes.now) }
    ensures run { Told (R.disk rack.old) → RunBy (TornIn file at (length bytes.now)) (R.disk rack.old) (R.disk rack.new) }
    ensures rack { LeavesRack R.Rack rack.old rack.new (IsErr result) }
    ensures quiet { OnOk result (R.faults rack.new ≡ R.faults rack.old) }
{
    rack.write_at(file, at, bytes)?;
    Ok(())
}

/// Waits until all that was written into any file is on the disk.
pub fn sync<R: Rack>(rack: &mut R) -> Result<(), DiskFault>
    ensures durable { Told (R.disk rack.old) → OnOk result (Only (R.disk rack.new).files (R.disk rack.new).may_leave) }
    ensures all { Told (R.disk rack.old) → AllAsBefore (R.disk rack.old) (R.disk rack.new) }
    ensures rack { LeavesRack R.Rack rack.old rack.new (IsErr result) }
    ensures quiet { OnOk result (R.faults rack.new ≡ R.faults rack.old) }
{
    rack.sync()?;
    Ok(())
}

// The parts of an append, which sync nothing, so that a journal shares its syncs with other files.
ghost use Rattle.std.specs.Prelude.{◌≡◌, ◌≢◌, [], List, map, OnErr, OnOk, IsErr};
ghost use Rattle.process_disk.specs.Disk.{Told};
ghost use Rattle.process_disk.specs.Racks.{LeavesRack};
ghost use Rattle.process_disk.specs.Images.{EachImage, OthersAsBefore};
ghost use Rattle.gate_log.specs.Standing.{IsOpen};
ghost use Rattle.gate_log.specs.Staging.{MayOpen, with_staged};
ghost use Rattle.schedule_model.specs.declared.history.History.{History};
ghost use Rattle.commute_table.specs.declared.catalog.Catalog.{Catalog};
ghost use Rattle.journal_records.specs.Bytes.{bytes_of};
ghost use Rattle.journal_records.specs.declared.record.Record.{Record};
ghost use Rattle.process_journal.specs.Journals.{AreMadeBy};
ghost use Rattle.process_journal.specs.Opened.{IsJournalOf, IsJournalOfEither, Stands};
ghost use Rattle.process_journal.specs.Staged.{HasOpened, IsOnDisk, IsWritten};

use crate::Journal;
use gate_log::{DiskFault, sync};
use process_disk::Rack;

impl Journal {
    /// Writes the staged records behind the closed gate, and syncs nothing. A crash leaves the history as it was.
    pub fn write_staged<R: Rack>(&self, rack: &mut R) -> Result<(), DiskFault>
        requires staged { self.now.staged ≢ [] }
        requires open { Told (R.disk rack.old) → IsOpen self.now (R.disk rack.old) }
        ensures written { Told (R.disk rack.old) → (c : Catalog) (h : History) → Stands self.now c h (R.disk rack.old) →
            OnOk result (IsWritten self.now c h (R.disk rack.new)) }
        ensures any_moment { Told (R.disk rack.old) → (c : Catalog) (h : History) → Stands self.now c h (R.disk rack.old) →
            EachImage (R.disk rack.new) (R.disk rack.old).moment (IsJournalOf c h) }
        ensures others { Told (R.disk rack.old) → OthersAsBefore 0 (R.disk rack.old) (R.disk rack.new) }
        ensures rack { LeavesRack R.Rack rack.old rack.new (IsErr result) }
    {
        self.log.write_staged(rack)
    }

    /// Opens the gate of the staged records, when they are on the disk, and syncs nothing. A crash leaves the history before or with
    /// all of them.
    pub fn open_gate<R: Rack>(&self, rack: &mut R) -> Result<(), DiskFault>
        requires on_disk { Told (R.disk rack.old) → MayOpen self.now (R.disk rack.old) }
        ensures opened { Told (R.disk rack.old) → (c : Catalog) (h : History) → IsOnDisk self.now c h (R.disk rack.old) →
            OnOk result (HasOpened self.now c h (R.disk rack.new)) }
        ensures any_moment { Told (R.disk rack.old) → (c : Catalog) (h after : History) (rs : List Record)
            → IsOnDisk self.now c h (R.disk rack.old) → self.now.staged ≡ map bytes_of rs → AreMadeBy c rs h after →
            EachImage (R.disk rack.new) (R.disk rack.old).moment (IsJournalOfEither c h after) }
        ensures others { Told (R.disk rack.old) → OthersAsBefore 0 (R.disk rack.old) (R.disk rack.new) }
        ensures file { self.now.file ≡ 0 }
        ensures rack { LeavesRack R.Rack rack.old rack.new (IsErr result) }
    {
        self.log.open_gate(rack)
    }

    /// Appends the staged records, which are on the disk behind the closed gate: opens it, and waits until that is on the disk. A crash
    /// leaves the history before or with all of them.
    pub fn open_staged<R: Rack>(&mut self, rack: &mut R) -> Result<(), DiskFault>
        requires staged { self.old.staged ≢ [] }
        requires on_disk { Told (R.disk rack.old) → MayOpen self.old (R.disk rack.old) }
        ensures acknowledged { Told (R.disk rack.old) → (c : Catalog) (h after : History) (rs : List Record)
            → IsOnDisk self.old c h (R.disk rack.old) → self.old.staged ≡ map bytes_of rs → AreMadeBy c rs h after →
            OnOk result (Stands self.new c after (R.disk rack.new)) }
        ensures any_moment { Told (R.disk rack.old) → (c : Catalog) (h after : History) (rs : List Record)
            → IsOnDisk self.old c h (R.disk rack.old) → self.old.staged ≡ map bytes_of rs → AreMadeBy c rs h after →
            EachImage (R.disk rack.new) (R.disk rack.old).moment (IsJournalOfEither c h after) }
        ensures others { Told (R.disk rack.old) → OthersAsBefore 0 (R.disk rack.old) (R.disk rack.new) }
        ensures ok { OnOk result (self.new ≡ with_staged self.old) }
        ensures err { OnErr result (self.new ≡ self.old) }
        ensures rack { LeavesRack R.Rack rack.old rack.new (IsErr result) }
    {
        self.open_gate(rack)?;
        sync(rack)?;
        self.take_staged();
        Ok(())
    }

    /// Counts the staged records among the others, once their gate is open on the disk.
    pub fn take_staged(&mut self)
        requires staged { self.old.staged ≢ [] }
        ensures { self.new ≡ with_staged self.old }
    {
        self.log.take_staged();
    }
}

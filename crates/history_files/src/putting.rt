// A group is written behind closed gates: the effects in their stores, and the records in the journal. Then the gates of the stores
// are opened.
ghost use Rattle.std.specs.Prelude.{◌≡◌, ◌≢◌, [], OnErr, OnOk, IsErr};
ghost use Rattle.process_disk.specs.Disk.{Told};
ghost use Rattle.process_disk.specs.Racks.{LeavesImages, LeavesRack};
ghost use Rattle.process_disk.specs.Images.{EachImage, OthersAsBefore};
ghost use Rattle.gate_log.specs.Standing.{IsOpen};
ghost use Rattle.schedule_model.specs.declared.history.History.{History};
ghost use Rattle.commute_table.specs.declared.catalog.Catalog.{Catalog};
ghost use Rattle.process_journal.specs.Opened.{IsJournalOf, Stands as JournalStands};
ghost use Rattle.process_journal.specs.Staged.{IsOnDisk};
ghost use Rattle.store_group.specs.Events.{BecomeEach, IsPrepared, IsUnchanged, MayPrepareEach, effects_for};
ghost use Rattle.store_group.specs.Groups.{HasOnDisk, OfEach};
ghost use Rattle.history_files.specs.Groups.{FitEach, LacksEach};
ghost use Rattle.history_files.specs.Sound.{IsSound};
ghost use Rattle.history_files.specs.Standing.{AreGoodBooks, AreStores, EachFits, Stand, StandForSome};

use gate_log::{DiskFault, sync};
use process_disk::Rack;
use process_journal::Journal;
use resource_box::Resource;
use store_group::{Effects, open_on_disk, stage_effects, take_effects, write_each};
use subsystem_store::{Store, calls_make_good_books};

/// Writes what is staged in the stores and in the journal behind their closed gates, with one sync for all. A crash leaves files that
/// are sound for the history.
pub fn write_all<R: Rack, B: Resource>(
    journal: &Journal,
    stores: &[Store<B>],
    rack: &mut R,
) -> Result<(), DiskFault>
    requires are { AreStores stores.now }
    requires file { journal.now.file ≡ 0 }
    requires staged { journal.now.staged ≢ [] }
    requires stand { Told (R.disk rack.old) → StandForSome journal.now stores.now (R.disk rack.old) }
    ensures stores { Told (R.disk rack.old) → OnOk result (OfEach (λ s. HasOnDisk s (R.disk rack.new)) stores.now) }
    ensures journal { Told (R.disk rack.old) → (c : Catalog) (h : History) → Stand c h journal.now stores.now (R.disk rack.old) →
        OnOk result (IsOnDisk journal.now c h (R.disk rack.new)) }
    ensures any_moment { Told (R.disk rack.old) → (c : Catalog) (h : History) → Stand c h journal.now stores.now (R.disk rack.old) →
        EachImage (R.disk rack.new) (R.disk rack.old).moment (IsSound c h) }
    ensures rack { LeavesImages R.Rack rack.old rack.new (IsErr result) }
{
    write_each(stores, rack)?;
    journal.write_staged(rack)?;
    sync(rack)
}

/// Prepares the effects at each place, which the history lacks, in the store of that subsystem, and writes what is staged in the
/// journal behind its closed gate, with two syncs for all. A crash leaves files that are sound for the history.
pub fn prepare_all<R: Rack, B: Resource>(
    journal: &Journal,
    stores: &mut Vec<Store<B>>,
    rack: &mut R,
    group: &[Effects],
) -> Result<(), DiskFault>
    requires are { AreStores stores.old.items }
    requires file { journal.now.file ≡ 0 }
    requires staged { journal.now.staged ≢ [] }
    requires fits { EachFits B.Resource stores.old.items }
    requires may { MayPrepareEach group.now stores.old.items }
    requires bytes { FitEach group.now }
    requires stand { Told (R.disk rack.old) → StandForSome journal.now stores.old.items (R.disk rack.old) }
    ensures acknowledged { Told (R.disk rack.old) → (c : Catalog) (h : History)
        → Stand c h journal.now stores.old.items (R.disk rack.old) →
        LacksEach c.ops h group.now → OnOk result (Stand c h journal.now stores.new.items (R.disk rack.new)) }
    ensures on_disk { Told (R.disk rack.old) → (c : Catalog) (h : History)
        → Stand c h journal.now stores.old.items (R.disk rack.old) → OnOk result (IsOnDisk journal.now c h (R.disk rack.new)) }
    ensures any_moment { Told (R.disk rack.old) → (c : Catalog) (h : History)
        → Stand c h journal.now stores.old.items (R.disk rack.old) →
        LacksEach c.ops h group.now → EachImage (R.disk rack.new) (R.disk rack.old).moment (IsSound c h) }
    ensures fits { EachFits B.Resource stores.new.items }
    ensures good { AreGoodBooks stores.old.items → AreGoodBooks stores.new.items }
    ensures ok { OnOk result (BecomeEach (λ q s t. IsPrepared (effects_for group.now q) s t) stores.old.items stores.new.items) }
    ensures err { OnErr result (BecomeEach (λ q s t. IsUnchanged s t) stores.old.items stores.new.items) }
    ensures rack { LeavesImages R.Rack rack.old rack.new (IsErr result) }
{
    calls_make_good_books();
    stage_effects(stores, group);
    write_all(journal, stores, rack)?;
    open_on_disk(stores, rack)?;
    take_effects(stores, group);
    Ok(())
}

/// Writes what is staged in the journal behind its closed gate, with one sync, and no other file. A crash leaves the history as it
/// was.
pub fn write_records<R: Rack>(journal: &Journal, rack: &mut R) -> Result<(), DiskFault>
    requires file { journal.now.file ≡ 0 }
    requires staged { journal.now.staged ≢ [] }
    requires open { Told (R.disk rack.old) → IsOpen journal.now (R.disk rack.old) }
    ensures on_disk { Told (R.disk rack.old) → (c : Catalog) (h : History) → JournalStands journal.now c h (R.disk rack.old) →
        OnOk result (IsOnDisk journal.now c h (R.disk rack.new)) }
    ensures any_moment { Told (R.disk rack.old) → (c : Catalog) (h : History) → JournalStands journal.now c h (R.disk rack.old) →
        EachImage (R.disk rack.new) (R.disk rack.old).moment (IsJournalOf c h) }
    ensures others { Told (R.disk rack.old) → OthersAsBefore 0 (R.disk rack.old) (R.disk rack.new) }
    ensures rack { LeavesRack R.Rack rack.old rack.new (IsErr result) }
{
    journal.write_staged(rack)?;
    sync(rack)
}

// The journal and the stores of eight subsystems, under one rack.
ghost use Rattle.std.specs.Prelude.{◌≡◌, ◌≤◌, [], vec_capacity};
ghost use Rattle.process_disk.specs.Disk.{Told};
ghost use Rattle.process_disk.specs.Images.{EachImage};
ghost use Rattle.schedule_model.specs.declared.history.History.{History};
ghost use Rattle.commute_table.specs.declared.catalog.Catalog.{Catalog};
ghost use Rattle.history_files.specs.Sound.{IsSound};
ghost use Rattle.history_files.specs.Standing.{AreStores, Stand};

use process_disk::Rack;
use process_journal::Journal;
use resource_box::Resource;
use std::marker::Model;
use subsystem_store::Store;

/// How many subsystems there are.
pub const SUBSYSTEMS: u8 = 8;

/// How many files there are: the journal, and a store for each subsystem.
pub const FILES: u8 = SUBSYSTEMS + 1;

/// Nine files that stand for a history. After a `DiskFault` they are opened again before any other call.
#[derive(Drop)]
pub struct Files<R: Rack + Drop, B: Drop = Box<dyn Resource + Send>> {
    pub(crate) rack: R,
    pub(crate) journal: Journal,
    pub(crate) stores: Vec<Store<B>>,
    // has room for the boxes, so that handing them back takes no memory
    pub(crate) emptied: Vec<B>,
}

impl<R: Rack + Drop, B: Drop> Model for Files<R, B> {
    ghost use Rattle.std.specs.Prelude.{◌≡◌, ◌≤◌, [], vec_capacity};
    ghost use Rattle.history_files.specs.Standing.{FilesState, AreStores};

    ghost Value = { FilesState R B };

    ghost view = { λ f. record { rack = f.rack; journal = f.journal; stores = f.stores.items } };

    ghost invariant = { λ f. AreStores f.stores.items × (f.journal.file ≡ 0)
        × (f.emptied.items ≡ []) × (8 ≤ vec_capacity f.emptied) };
}

impl<R: Rack + Drop, B: Drop> Files<R, B> {
    /// The files of a rack with the journal of file 0 and the stores of the eight subsystems in order. `room` is empty and has room
    /// for eight boxes, so that handing the boxes back takes no memory.
    pub fn new(rack: R, journal: Journal, stores: Vec<Store<B>>, room: Vec<B>) -> Self
        requires stores { AreStores stores.items }
        requires journal { journal.file ≡ 0 }
        requires room { (room.items ≡ []) × (8 ≤ vec_capacity room) }
        ensures { result ≡ record { rack = rack; journal = journal; stores = stores.items } }
    {
        Files {
            rack,
            journal,
            stores,
            emptied: room,
        }
    }

    /// Does nothing. It says that the journal is file 0, and that there are eight stores, in order; that files which stand for a
    /// history are sound for it, and that so is each image of them from now on.
    pub fn soundness_holds(&self)
        ensures stores { AreStores self.now.stores }
        ensures journal { self.now.journal.file ≡ 0 }
        ensures read { Told (R.disk self.now.rack) → (c : Catalog) (h : History)
            → Stand c h self.now.journal self.now.stores (R.disk self.now.rack) → IsSound c h (R.disk self.now.rack).files }
        ensures each { Told (R.disk self.now.rack) → (c : Catalog) (h : History)
            → Stand c h self.now.journal self.now.stores (R.disk self.now.rack) →
            EachImage (R.disk self.now.rack) (R.disk self.now.rack).moment (IsSound c h) }
    {
        let _ = &self.journal;
    }

    /// Does nothing. It says that there are eight stores, each of its kind and on its file.
    pub fn stores_hold(&self)
        ensures { AreStores self.now.stores }
    {
        let _ = &self.journal;
    }
}

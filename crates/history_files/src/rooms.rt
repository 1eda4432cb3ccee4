// Whether the values bar an effect, and room for one.
ghost use Rattle.std.specs.Prelude.{◌≡◌, ◌<◌, Some, OnOk, OnErr};
ghost use Rattle.std.specs.List.{slice_get};
ghost use Rattle.subsystem_store.specs.Opened.{Opened};
ghost use Rattle.history_files.specs.Sound.{is_barred};
ghost use Rattle.history_files.specs.Standing.{Changes, EachFits};
ghost use Rattle.history_files.specs.Rooms.{AddsRoom, KeepsRoom, MakesRoom};

use crate::Files;
use process_disk::Rack;
use resource_box::Resource;
use std::alloc::AllocError;
use subsystem_store::Effect;

impl<R: Rack + Drop, B: Resource> Files<R, B> {
    /// Whether the values of the book of a subsystem bar an effect. An undo is never barred.
    pub fn bars(&self, q: u8, effect: &Effect) -> bool
        requires subsystem { q < 8 }
        requires fits { EachFits B.Resource self.now.stores }
        ensures { (s : Opened B) → slice_get self.now.stores q ≡ Some s → result ≡ is_barred s.kind s.book effect.now }
    {
        self.stores[usize::from(q)].bars(effect)
    }

    /// Makes room in the store of a subsystem for one effect more at a key, so that preparing it needs no memory. It makes no call
    /// of the rack.
    pub fn make_room(&mut self, q: u8, key: u32) -> Result<(), AllocError>
        requires subsystem { q < 8 }
        requires fits { EachFits B.Resource self.old.stores }
        ensures fits { EachFits B.Resource self.new.stores }
        ensures changes { Changes q MakesRoom self.old.stores self.new.stores }
        ensures ok { OnOk result (Changes q (AddsRoom key) self.old.stores self.new.stores) }
        ensures err { OnErr result (Changes q KeepsRoom self.old.stores self.new.stores) }
        ensures same { (self.new.rack ≡ self.old.rack) × (self.new.journal ≡ self.old.journal) }
    {
        self.stores[usize::from(q)].make_room(key)
    }
}

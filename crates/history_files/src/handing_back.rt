// What is read of files, and how their boxes are handed back.
ghost use Rattle.std.specs.Prelude.{◌≡◌, ◌≤◌, ◌<◌, ◌+◌, [], map, Some, vec_len, vec_capacity};
ghost use Rattle.std.specs.List.{slice_get};
ghost use Rattle.subsystem_store.specs.Opened.{Opened};
ghost use Rattle.history_files.specs.Boxes.{AreBoxes};
ghost use Rattle.history_files.specs.Standing.{EachFits};

use crate::{Files, Parts};
use process_disk::Rack;
use resource_box::Resource;
use subsystem_store::{Effect, Store};

/// Takes the boxes out of stores.
fn take_out<B: Resource>(boxes: &mut Vec<B>, stores: Vec<Store<B>>)
    requires none { boxes.old.items ≡ [] }
    requires room { vec_len stores ≤ vec_capacity boxes.old }
    ensures { boxes.new.items ≡ map (λ s. s.resource) stores.items }
{
    let mut stores = stores;
    while let Some(store) = stores.pop() {
        boxes.push_reserved(store.into_resource());
    }
    boxes.reverse();
}

impl<R: Rack + Drop, B: Resource> Files<R, B> {
    /// The committed effects of a subsystem in order.
    pub fn book(&self, q: u8) -> &[Effect]
        requires { q < 8 }
        ensures { (s : Opened B) → slice_get self.now.stores q ≡ Some s → result.now ≡ s.book }
    {
        self.stores[usize::from(q)].book()
    }

    /// The effects that are in doubt in the store of a subsystem, in order.
    pub fn in_doubt(&self, q: u8) -> &[Effect]
        requires { q < 8 }
        ensures { (s : Opened B) → slice_get self.now.stores q ≡ Some s → result.now ≡ s.doubt }
    {
        self.stores[usize::from(q)].in_doubt()
    }

    /// The rack, and the boxes with the values of their books. It takes no memory.
    pub fn into_parts(self) -> Parts<R, B>
        requires fits { EachFits B.Resource self.stores }
        ensures rack { result.rack ≡ self.rack }
        ensures boxes { result.resources.items ≡ map (λ s. s.resource) self.stores }
        ensures kinds { AreBoxes B.sort result.resources.items }
    {
        let Files {
            rack,
            stores,
            emptied,
            ..
        } = self;
        let mut resources = emptied;
        take_out(&mut resources, stores);
        Parts { rack, resources }
    }
}

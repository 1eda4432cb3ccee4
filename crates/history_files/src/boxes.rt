// Boxes that are handed in and back.
ghost use Rattle.std.specs.Prelude.{◌≡◌, ◌≤◌, ◌+◌, map, vec_len, vec_capacity};
ghost use Rattle.history_files.specs.Boxes.{AreBoxes, AreEmpty, AreParted};
ghost use Rattle.history_files.specs.Standing.{EachFits};

use resource_box::Resource;
use subsystem_store::Store;

/// Empties each box.
pub fn clear_all<B: Resource>(boxes: &mut Vec<B>)
    ensures empty { AreEmpty B.meaning boxes.new.items }
    ensures kinds { map B.sort boxes.new.items ≡ map B.sort boxes.old.items }
    ensures capacity { vec_capacity boxes.new ≡ vec_capacity boxes.old }
{
    let mut place = 0;
    while place < boxes.len() {
        boxes[place].clear();
        place += 1;
    }
}

/// Takes the boxes of the stores back, and empties all. At the start `boxes` has those of the subsystems behind these stores, the
/// last one first, and room for the others; at the end it has all eight, in order.
pub fn put_back<B: Resource>(boxes: &mut Vec<B>, stores: Vec<Store<B>>)
    requires fits { EachFits B.Resource stores.items }
    requires parted { AreParted B.sort stores.items boxes.old.items }
    requires room { vec_len stores + vec_len boxes.old ≤ vec_capacity boxes.old }
    ensures boxes { AreBoxes B.sort boxes.new.items }
    ensures empty { AreEmpty B.meaning boxes.new.items }
    ensures capacity { vec_capacity boxes.old ≤ vec_capacity boxes.new }
{
    let mut stores = stores;
    while let Some(store) = stores.pop() {
        boxes.push_reserved(store.into_resource());
    }
    boxes.reverse();
    clear_all(boxes);
}

// Lists with room from the beginning.
ghost use Rattle.std.specs.Prelude.{◌≡◌, ◌<◌, ◌++◌, ◌∷◌, [], length, IfOk, OnErr, OnOk};

use std::alloc::{AllocError, Global};
use std::marker::Model;

/// A list of items that has room for ROOM of them from the beginning, so that a push within it takes no memory.
#[derive(Drop)]
pub struct Preallocated<T: Drop, const ROOM: usize> {
    items: Vec<T>,
}

impl<T: Drop, const ROOM: usize> Model for Preallocated<T, ROOM> {
    ghost use Rattle.std.specs.Prelude.{List, ◌≤◌, vec_capacity};

    ghost Value = { List T };

    ghost view = { λ s. s.items.items };

    ghost invariant = { λ s. ROOM ≤ vec_capacity s.items };
}

impl<T: Drop, const ROOM: usize> Preallocated<T, ROOM> {
    /// A list of these items.
    pub fn new(mut items: Vec<T>) -> Result<Self, AllocError>
        ensures { IfOk result (λ s. s ≡ items.items) }
    {
        let count = items.len();
        if count < ROOM {
            items.reserve(ROOM - count)?;
        }
        Ok(Preallocated { items })
    }

    pub fn as_slice(&self) -> &[T]
        ensures { result.now ≡ self.now }
    {
        &self.items
    }

    /// An item more, within the room.
    pub fn push(&mut self, item: T)
        requires { length self.old < ROOM }
        ensures { self.new ≡ self.old ++ item ∷ [] }
    {
        self.items.push_reserved(item);
    }

    /// An item more, also beyond the room; where memory is wanting, the list is as it was.
    pub fn try_push(&mut self, item: T) -> Result<(), AllocError>
        ensures pushed { OnOk result (self.new ≡ self.old ++ item ∷ []) }
        ensures left { OnErr result (self.new ≡ self.old) }
    {
        self.items.push(item)?;
        Ok(())
    }

    pub fn into_items(self) -> Vec<T>
        ensures { result.items ≡ self }
    {
        self.items
    }
}

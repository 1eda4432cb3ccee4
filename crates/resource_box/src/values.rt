// The values of a resource, in an ordered map.
ghost use Rattle.std.specs.Prelude.{◌≡◌, [], OnOk, OnErr, IsTrue};
ghost use Rattle.std.specs.Map.{keys_of};
ghost use Rattle.std.specs.Ordering.{nat_cmp};
ghost use Rattle.std.specs.List.Sorted.{IsStrictlySortedBy, IsStrictlySortedBy-prop};
ghost use Rattle.resource_box.specs.Meaning.{value_at, has_key, with_value, with_key};
ghost use Rattle.resource_box.specs.Table.{applied, reverted};

use crate::table::{applied, reverted};
use crate::{Call, Kind};
use std::alloc::{AllocError, Global};
use std::collections::BTreeMap;

#[derive(Drop)]
pub struct Values {
    pub map: BTreeMap<u32, i64>,
    ghost ordered: { IsStrictlySortedBy nat_cmp (keys_of map.entries) } by { IsStrictlySortedBy-prop nat_cmp
        (keys_of map.entries) },
}

impl Values {
    pub fn new(alloc: Global) -> Values
        ensures { result.map.entries ≡ [] }
    {
        Values {
            map: BTreeMap::new(alloc),
        }
    }

    /// The value at a key, 0 where it is absent.
    pub fn at(&self, key: u32) -> i64
        ensures { result ≡ value_at self.now.map.entries key }
    {
        self.map.get(&key).copied().unwrap_or(0)
    }

    /// Makes a pair of the key.
    pub fn ready(&mut self, key: u32) -> Result<(), AllocError>
        ensures ok { OnOk result (self.new.map.entries ≡ with_key self.old.map.entries key) }
        ensures ready { OnOk result (IsTrue (has_key self.new.map.entries key)) }
        ensures err { OnErr result (self.new.map.entries ≡ self.old.map.entries) }
    {
        if !self.map.contains_key(&key) {
            self.map.insert(key, 0)?;
        }
        Ok(())
    }

    /// Sets the value of a key that has a pair.
    pub fn set(&mut self, key: u32, value: i64)
        requires ready { IsTrue (has_key self.old.map.entries key) }
        ensures { self.new.map.entries ≡ with_value self.old.map.entries key value }
    {
        match self.map.insert(key, value) {
            Ok(_) => {}
            Err(_) => unreachable!(),
        }
    }

    /// Applies a call, and answers the value before.
    pub fn apply(&mut self, kind: Kind, call: &Call) -> i64
        requires ready { IsTrue (has_key self.old.map.entries call.now.key) }
        ensures before { result ≡ value_at self.old.map.entries call.now.key }
        ensures changed { self.new.map.entries ≡ with_value self.old.map.entries call.now.key
            (applied kind call.now (value_at self.old.map.entries call.now.key)) }
    {
        let value = self.at(call.key);
        self.set(call.key, applied(kind, call, value));
        value
    }

    /// Undoes a call, given the value before it.
    pub fn revert(&mut self, kind: Kind, call: &Call, before: i64)
        requires ready { IsTrue (has_key self.old.map.entries call.now.key) }
        ensures changed { self.new.map.entries ≡ with_value self.old.map.entries call.now.key
            (reverted kind call.now (value_at self.old.map.entries call.now.key) before) }
    {
        let value = self.at(call.key);
        self.set(call.key, reverted(kind, call, value, before));
    }

    pub fn clear(&mut self)
        ensures { self.new.map.entries ≡ [] }
    {
        self.map.clear();
    }
}

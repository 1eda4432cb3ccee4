// Names by numbers.
ghost use Rattle.std.specs.Prelude.{◌≡◌, [], ◌<◌, OnOk, IfOk, IfSome, length};
ghost use Rattle.trace_verify.specs.Names.{found, with_name, number_among, is_named};

use std::alloc::{AllocError, Global};
use std::collections::BTreeMap;
use std::marker::Model;

/// Names by numbers, in the order in which they came.
#[derive(Drop)]
pub struct Names<'a> {
    list: Vec<&'a [u8]>,
    numbers: BTreeMap<&'a [u8], u16>,
}

impl<'a> Model for Names<'a> {
    ghost use Rattle.std.specs.Prelude.{List, ℕ, map};
    ghost use Rattle.trace_verify.specs.Numbered.{AreNumbered};

    ghost Value = { List (List ℕ) };

    ghost view = { λ n. map (λ name. name.now) n.list.items };

    ghost invariant = { λ n. AreNumbered n.numbers (map (λ name. name.now) n.list.items) };
}

impl<'a> Names<'a> {
    /// No names.
    pub fn new(alloc: Global) -> Self
        ensures { result ≡ [] }
    {
        Names {
            list: Vec::new(alloc),
            numbers: BTreeMap::new(alloc),
        }
    }

    /// How many they are.
    pub fn count(&self) -> usize
        ensures { result ≡ length self.now }
    {
        self.list.len()
    }

    /// The number of a name, if it is among them.
    pub fn find(&self, name: &'a [u8]) -> Option<u16>
        ensures found { result ≡ found self.now name.now }
        ensures below { IfSome result (λ n. n < length self.now) }
    {
        self.numbers.get(&name).copied()
    }

    /// The number of a name, which is new or among them.
    pub fn number(&mut self, name: &'a [u8]) -> Result<u16, AllocError>
        requires { length self.old < 65536 }
        ensures names { OnOk result (self.new ≡ with_name self.old name.now) }
        ensures number { IfOk result (λ n. n ≡ number_among self.new name.now) }
    {
        if let Some(n) = self.find(name) {
            return Ok(n);
        }
        let n = self.list.len() as u16;
        self.list.push(name)?;
        match self.numbers.insert(name, n) {
            Ok(_) => Ok(n),
            Err(_) => {
                self.list.pop();
                Err(AllocError)
            }
        }
    }

    /// Whether the name of this number is that one.
    pub fn is_named(&self, number: u16, name: &[u8]) -> bool
        ensures { result ≡ is_named self.now number name.now }
    {
        match self.list.get(usize::from(number)) {
            Some(named) => *named == name,
            None => false,
        }
    }
}

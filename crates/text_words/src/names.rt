// Names that are taken.
ghost use Rattle.std.specs.Prelude.{◌≡◌, ◌++◌, ◌∷◌, [], length, map, OnOk};
ghost use Rattle.std.specs.List.{list_any};
ghost use Rattle.process_tree.specs.Making.{same_text};

use crate::is_word;
use std::alloc::{AllocFailed, Global};
use std::marker::Model;

/// Names that are taken, each a part of the text.
#[derive(Drop)]
pub struct Names<'a> {
    items: Vec<&'a [u8]>,
}

impl<'a> Model for Names<'a> {
    ghost use Rattle.std.specs.Prelude.{List, ℕ, map};

    ghost Value = { List (List ℕ) };

    ghost view = { λ s. map (λ name. name.now) s.items.items };
}

// Whether one of them is this.
fn is_among(names: &[&[u8]], name: &[u8]) -> bool
    ensures { result ≡ list_any (same_text name.now) (map (λ n. n.now) names.now) }
{
    names.iter().any(|taken| is_word(name, taken))
}

impl<'a> Names<'a> {
    /// No names.
    pub fn new(alloc: Global) -> Self
        ensures { result ≡ [] }
    {
        Names {
            items: Vec::new(alloc),
        }
    }

    /// How many they are.
    pub fn count(&self) -> usize
        ensures { result ≡ length self.now }
    {
        self.items.len()
    }

    /// Whether a name is taken.
    pub fn has(&self, name: &[u8]) -> bool
        ensures { result ≡ list_any (same_text name.now) self.now }
    {
        is_among(&self.items, name)
    }

    /// Takes a name.
    pub fn add(&mut self, name: &'a [u8]) -> Result<(), AllocFailed<&'a [u8]>>
        ensures { OnOk result (self.new ≡ self.old ++ name.now ∷ []) }
    {
        self.items.push(name)
    }
}

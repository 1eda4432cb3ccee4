// Words of a document as they are printed.
ghost use Rattle.std.specs.Prelude.{◌≡◌, Some, take, IfOk};
ghost use Rattle.command_refusals.specs.Shown.{shown_byte, shown_word};

use std::alloc::{AllocError, Global};
use std::fmt;
use std::marker::Model;

const MOST_SHOWN_BYTES: usize = 64;

/// A key or a name of a document as it is printed: its first 64 bytes at most, and `?` for each of them that isn't printable ASCII.
#[derive(Drop)]
pub struct ShownWord {
    bytes: Vec<u8>,
}

impl Model for ShownWord {
    ghost use Rattle.std.specs.Prelude.{◌≡◌, List, ℕ, true};
    ghost use Rattle.std.specs.List.{list_all};
    ghost use Rattle.command_refusals.specs.Shown.{is_shown};

    ghost Value = { List ℕ };

    ghost view = { λ w. w.bytes.items };

    ghost invariant = { λ w. list_all is_shown w.bytes.items ≡ true };
}

fn shown_byte(byte: u8) -> u8
    ensures { result ≡ shown_byte byte }
{
    if byte >= b' ' && byte <= b'~' {
        byte
    } else {
        b'?'
    }
}

// The first bytes of a word, as many as are printed.
#[tactic(auto, using(crate::proofs::ShownWords::short_word))]
fn beginning(word: &[u8]) -> &[u8]
    ensures { result.now ≡ take 64 word.now }
{
    if word.len() > MOST_SHOWN_BYTES {
        word.split_at(MOST_SHOWN_BYTES).0
    } else {
        word
    }
}

impl ShownWord {
    /// A word of any bytes as it is printed.
    pub fn new(alloc: Global, word: &[u8]) -> Result<ShownWord, AllocError>
        ensures { IfOk result (λ shown. shown ≡ shown_word word.now) }
    {
        let first = beginning(word);
        let mut bytes = Vec::new(alloc);
        for byte in first {
            bytes.push(shown_byte(*byte))?;
        }
        Ok(ShownWord { bytes })
    }
}

impl fmt::Display for ShownWord {
    ghost output = { λ w. Some w };

    fn fmt<W: fmt::Write>(&self, f: &mut fmt::Formatter<W>) -> fmt::Result {
        match str::from_utf8(&self.bytes) {
            Ok(text) => f.write_str(text),
            Err(_) => unreachable!(),
        }
    }
}

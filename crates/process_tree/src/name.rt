// Names of processes, steps and operations.
ghost use Rattle.std.specs.Prelude.{◌≡◌, Some, IfOk, OnOk, IsErrOf, false, true};
ghost use Rattle.std.specs.List.{list_all};
ghost use Rattle.process_tree.specs.Name.{is_letter, is_name_byte, is_name, text_of};
ghost use Rattle.process_tree.specs.declared.name.NameError.TheVariants.{NoMemory};

use crate::MOST_NAME_BYTES;
use std::alloc::{AllocError, Global};
use std::error::Error;
use std::marker::Model;
use std::{fmt, str};

/// A name: 1 to 32 of `a-z0-9_`, beginning with a letter.
#[derive(Drop)]
pub struct Name {
    bytes: Vec<u8>,
}

impl fmt::Display for Name {
    ghost output = { λ n. Some n };

    fn fmt<W: fmt::Write>(&self, f: &mut fmt::Formatter<W>) -> fmt::Result {
        match str::from_utf8(&self.bytes) {
            Ok(text) => f.write_str(text),
            Err(_) => unreachable!(),
        }
    }
}

impl Model for Name {
    ghost use Rattle.std.specs.Prelude.{List, ℕ, ◌≡◌, true};
    ghost use Rattle.process_tree.specs.Name.{is_name};

    ghost Value = { List ℕ };

    ghost view = { λ n. n.bytes.items };

    ghost invariant = { λ n. is_name n.bytes.items ≡ true };
}

/// Why a text gave no name.
#[derive(Clone, Copy, Debug, PartialEq, Eq)]
pub enum NameError {
    /// The text is no name.
    BadName,
    NoMemory,
}

impl fmt::Display for NameError {
    ghost output = { λ e. Some (text_of e) };

    fn fmt<W: fmt::Write>(&self, f: &mut fmt::Formatter<W>) -> fmt::Result {
        f.write_str(match self {
            NameError::BadName => "no name",
            NameError::NoMemory => "out of memory",
        })
    }
}

impl Error for NameError {}

impl From<AllocError> for NameError {
    ghost from_gives = { λ _ e. e ≡ NoMemory };

    fn from(_: AllocError) -> Self {
        NameError::NoMemory
    }
}

impl Name {
    /// The name that this text is; `BadName` where it is none.
    pub fn new(alloc: Global, text: &[u8]) -> Result<Name, NameError>
        ensures name { IfOk result (λ name. name ≡ text.now) }
        ensures good { OnOk result (is_name text.now ≡ true) }
        ensures bad { IsErrOf result NameError.BadName → is_name text.now ≡ false }
    {
        if !is_name(text) {
            return Err(NameError::BadName);
        }
        Ok(Name {
            bytes: text.to_vec(alloc)?,
        })
    }

    pub fn bytes(&self) -> &[u8]
        ensures bytes { result.now ≡ self.now }
        ensures name { is_name self.now ≡ true }
    {
        &self.bytes
    }
}

fn is_letter(byte: u8) -> bool
    ensures { result ≡ is_letter byte }
{
    byte >= b'a' && byte <= b'z'
}

fn is_name_byte(byte: u8) -> bool
    ensures { result ≡ is_name_byte byte }
{
    is_letter(byte) || (byte >= b'0' && byte <= b'9') || byte == b'_'
}

/// Whether a text is a name.
pub fn is_name(text: &[u8]) -> bool
    ensures { result ≡ is_name text.now }
{
    match text {
        [] => false,
        [first, ..] => is_letter(*first) && are_name_bytes(text) && text.len() <= MOST_NAME_BYTES,
    }
}

fn are_name_bytes(text: &[u8]) -> bool
    ensures { result ≡ list_all is_name_byte text.now }
{
    text.iter().all(|byte| is_name_byte(*byte))
}
